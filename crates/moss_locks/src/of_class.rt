//! The holders of one class.
ghost use Rattle.std.specs.Prelude.{◌≡◌, ◌||◌, ◌&&◌, false, not, IsTrue, IfSome, IfOk, OnOk, OnErr, if◌then◌else◌};
ghost use Rattle.std.specs.BTreeSet.{insert_key};
ghost use Rattle.std.specs.List.Sorted.{IsStrictlySortedBy};
ghost use Rattle.std.specs.Option.{option_copied as name_of};
ghost use Rattle.action_names.specs.Names.{Name, has_name, name_cmp, is_ancestor, same_name};
ghost use Rattle.atomic_types.specs.Operations.{classes_conflict};
ghost use Rattle.holders.specs.Held.{names_of, may_be_handed, HasMoreRoom, HasLessRoom};
ghost use Rattle.object_model.specs.Locks.{has_foreign, all_but, passed};

use action_names::Name;
use atomic_types::Class;
use holders::Holders;
use std::alloc::{AllocError, Global};
use std::collections::BTreeSet;

/// Whether an operation of the wanted class by the action has to wait for one of these holders of the held class.
pub(crate) fn are_in_the_way(
    holders: &Holders<()>,
    held: Class,
    wanted: Class,
    action: &Name,
) -> bool
    ensures { result
        ≡ (classes_conflict held wanted && has_foreign (names_of holders.now.held) action.now) }
{
    held.conflicts_with(wanted) && holders.has_foreign(action)
}

/// Adds those of these holders of the held class for whom an operation of the wanted class by the action has to wait.
pub(crate) fn add_in_the_way(
    names: &mut BTreeSet<Name>,
    holders: &Holders<()>,
    held: Class,
    wanted: Class,
    action: &Name,
) -> Result<(), AllocError>
    ensures { OnOk result ((b : Name) → has_name names.new.keys b
        ≡ (has_name names.old.keys b || (not (is_ancestor b action.now)
        && (classes_conflict held wanted && has_name (names_of holders.now.held) b)))) }
{
    if !held.conflicts_with(wanted) {
        return Ok(());
    }
    holders.add_foreign(names, action)
}

/// Adds the holder, unless it is there, and says if it is new.
pub(crate) fn insert(holders: &mut Holders<()>, holder: &Name) -> Result<bool, AllocError>
    ensures ok { OnOk result
        (names_of holders.new.held ≡ insert_key name_cmp (names_of holders.old.held) holder.now) }
    ensures undone { IfOk result (λ is_new. (if is_new
        then all_but holder.now (names_of holders.new.held) else names_of holders.new.held)
        ≡ names_of holders.old.held) }
    ensures room { OnOk result (HasMoreRoom holders.old.room holders.new.room holder.now) }
    ensures err { OnErr result (holders.new ≡ holders.old) }
{
    let before = holders.give(holder, ())?;
    Ok(before.is_none())
}

/// Drops this one, and its room.
pub(crate) fn drop_one(holders: &mut Holders<()>, holder: &Name)
    ensures names { names_of holders.new.held ≡ all_but holder.now (names_of holders.old.held) }
    ensures room { HasLessRoom holders.old.room holders.new.room holder.now }
{
    holders.take(holder);
}

/// Makes room for a holder that is to be handed what others hold. Where nobody holds anything that takes no room.
pub(crate) fn make_room(holders: &mut Holders<()>, holder: &Name) -> Result<(), AllocError>
    ensures held { holders.new.held ≡ holders.old.held }
    ensures room { OnOk result
        ((b : Name) → may_be_handed (names_of holders.new.held) holders.new.room b
        ≡ (same_name holder.now b
        || may_be_handed (names_of holders.old.held) holders.old.room b)) }
    ensures err { OnErr result (holders.new ≡ holders.old) }
{
    if holders.is_clear() {
        return Ok(());
    }
    holders.make_room(holder)
}

/// Puts the next holder, which may be handed it, in the place of the action; without one nobody holds what the action
/// held.
#[inline(always)]
pub(crate) fn pass(holders: &mut Holders<()>, action: &Name, to: Option<&Name>)
    requires { IfSome (name_of to)
        (λ next. IsTrue (may_be_handed (names_of holders.old.held) holders.old.room next)) }
    ensures names { names_of holders.new.held
        ≡ passed action.now (name_of to.entry) (names_of holders.old.held) }
    ensures room { (b : Name) → IsTrue (not (same_name action.now b)
        && may_be_handed (names_of holders.old.held) holders.old.room b)
        → IsTrue (may_be_handed (names_of holders.new.held) holders.new.room b) }
{
    if holders.is_clear() {
        return;
    }
    if holders.take(action).is_none() {
        return;
    }
    if let Some(next) = to {
        put_other(holders, action, next);
    }
}

// Puts the next holder in the place of the action, which was taken out, if it is another one.
fn put_other(holders: &mut Holders<()>, action: &Name, next: &Name)
    requires { same_name action.now next.now ≡ false
        → IsTrue (has_name holders.old.room next.now) }
    ensures names { names_of holders.new.held ≡ (if same_name action.now next.now
        then names_of holders.old.held
        else insert_key name_cmp (names_of holders.old.held) next.now) }
    ensures room { holders.new.room ≡ holders.old.room }
{
    if action != next {
        holders.put(next, ());
    }
}

/// Copies of these names, in their order.
pub(crate) fn list(alloc: Global, names: &BTreeSet<Name>) -> Result<Vec<Name>, AllocError>
    ensures names { IfOk result (λ copies. copies.items ≡ names.now.keys) }
    ensures rising { IfOk result (λ copies. IsStrictlySortedBy name_cmp copies.items) }
{
    let mut copies = Vec::new(alloc);
    for name in names.iter() {
        copies.push(name.copy()?)?;
    }
    Ok(copies)
}
