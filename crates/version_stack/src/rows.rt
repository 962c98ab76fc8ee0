//! Owners, and beside each the place at which its overlays end.
ghost use Rattle.std.specs.Prelude.{◌≡◌, ◌+◌, ◌<◌, ℕ, List, [], ◌∷◌, length, map, take, Some, IsTrue};
ghost use Rattle.std.specs.List.{position};
ghost use Rattle.std.specs.Option.{option_copied as name_of};
ghost use Rattle.action_names.specs.Names.{Name, same_name, is_ancestor, is_proper_ancestor};
ghost use Rattle.object_model.specs.Stacks.{version_at, passed, settled, is_on_top, is_lowest, owners_above, RiseByAncestry, HasNoneBetween};
ghost use Rattle.version_stack.specs.Layers.{rows, last_end, is_end, lowered, EndsRise};

use action_names::Name;

/// Where the owner stands.
pub(crate) fn place(owners: &[Name], owner: &Name) -> Option<usize>
    ensures { result ≡ position (λ a. same_name a owner.now) owners.now }
{
    owners.iter().position(|known| known == owner)
}

/// Where the owner's overlays end, if it has any.
pub(crate) fn end_of(owners: &[Name], ends: &[usize], owner: &Name) -> Option<usize>
    requires { length owners.now ≡ length ends.now }
    ensures { result ≡ version_at (rows owners.now ends.now) owner.now }
{
    let at = place(owners, owner)?;
    Some(ends[at])
}

/// Whether the last owner is this one.
pub(crate) fn is_on_top(owners: &[Name], owner: &Name) -> bool
    ensures { result ≡ is_on_top owners.now owner.now }
{
    match owners {
        [.., last] => last == owner,
        [] => false,
    }
}

/// Whether the first owner is this one.
fn is_lowest(owners: &[Name], owner: &Name) -> bool
    ensures { result ≡ is_lowest owners.now owner.now }
{
    match owners {
        [first, ..] => first == owner,
        [] => false,
    }
}

/// Makes the owner's overlays the next holder's: where it has overlays right below, they end where the owner's did.
pub(crate) fn pass(owners: &mut Vec<Name>, ends: &mut Vec<usize>, owner: &Name, to: Name)
    requires paired { length owners.old.items ≡ length ends.old.items }
    requires rising { RiseByAncestry owners.old.items }
    requires ancestor { IsTrue (is_proper_ancestor to owner.now) }
    requires between { HasNoneBetween (rows owners.old.items ends.old.items) owner.now (Some to) }
    ensures paired { length owners.new.items ≡ length ends.new.items }
    ensures rising { RiseByAncestry owners.new.items }
    ensures ends { (s n : ℕ) → EndsRise s ends.old.items n → EndsRise s ends.new.items n }
    ensures passed { rows owners.new.items ends.new.items
        ≡ passed (rows owners.old.items ends.old.items) owner.now to }
{
    let Some(at) = place(owners, owner) else {
        return;
    };
    if at > 0 && owners[at - 1] == to {
        owners.remove(at);
        ends.remove(at - 1);
        return;
    }
    owners[at] = to;
}

/// Makes the lowest overlays the base's, if they are the owner's.
pub(crate) fn settle(base: &mut usize, owners: &mut Vec<Name>, ends: &mut Vec<usize>, owner: &Name)
    requires paired { length owners.old.items ≡ length ends.old.items }
    requires rising { RiseByAncestry owners.old.items }
    ensures paired { length owners.new.items ≡ length ends.new.items }
    ensures rising { RiseByAncestry owners.new.items }
    ensures ends { (n : ℕ) → EndsRise base.old ends.old.items n
        → EndsRise base.new ends.new.items n }
    ensures settled { record { base = base.new; versions = rows owners.new.items ends.new.items }
        ≡ settled base.old (rows owners.old.items ends.old.items) owner.now }
{
    if !is_lowest(owners, owner) {
        return;
    }
    owners.remove(0);
    *base = ends.remove(0);
}

/// How many owners stand before the first that is the action or a descendant.
pub(crate) fn count_above(owners: &[Name], action: &Name) -> usize
    ensures { result ≡ length (owners_above owners.now action.now) }
{
    let is_above = |owner: &&Name| !action.is_ancestor(owner);
    owners.iter().take_while(is_above).count()
}

/// The last end, or the base's.
pub(crate) fn last_end(base: usize, ends: &[usize]) -> usize
    ensures { result ≡ last_end base ends.now }
{
    match ends {
        [.., last] => *last,
        [] => base,
    }
}

/// Whether somebody's overlays end at this place.
pub(crate) fn is_end(base: usize, ends: &[usize], place: usize) -> bool
    ensures { result ≡ is_end base ends.now place }
{
    base == place || ends.contains(&place)
}

/// Where an end is once two overlays became one at this place.
#[tactic(auto, using(crate::proofs::Ends::lowered_below, crate::proofs::Ends::lowered_above))]
pub(crate) fn lowered(end: usize, place: usize) -> usize
    ensures { result ≡ lowered place end }
{
    if place < end { end - 1 } else { end }
}

/// The same of each end.
pub(crate) fn lower_all(ends: &mut Vec<usize>, place: usize)
    ensures { ends.new.items ≡ map (lowered place) ends.old.items }
{
    for end in ends.iter_mut() {
        *end = lowered(*end, place);
    }
}
