//! Overlays of one content, the lowest first.
ghost use Rattle.std.specs.Prelude.{◌≡◌, ◌+◌, ◌<◌, ◌≤◌, ℕ, [], ◌∷◌, ◌++◌, List, length, IsTrue, IsFalse, IfOk, OnOk, OnErr};
ghost use Rattle.action_names.specs.Names.{Name};
ghost use Rattle.atomic_types.specs.Operations.{is_read, is_add};
ghost use Rattle.overlays.specs.Overlays.{laid_all};
ghost use Rattle.version_stack.specs.Layers.{AllCover, AreSound, IsAdded, IsNoted, IsNotedAbove, IsMerged};

use action_names::Name;
use atomic_types::{Op, Reply};
use overlays::Layered;
use std::alloc::AllocError;
use std::mem;

/// Performs in the overlay on top an operation that writes or adds.
pub(crate) fn note_on_top<T: Layered>(
    content: &T,
    overlays: &mut Vec<T::Overlay>,
    op: &Op,
) -> Result<Reply, AllocError>
    requires sound { AreSound T.laid T.after T.fits content.now overlays.old.items }
    requires some { 0 < length overlays.old.items }
    requires known { IsTrue (T.knows (laid_all T.laid content.now overlays.old.items) op.now) }
    requires changes { IsFalse (is_read op.now) }
    ensures replies { IfOk result
        (λ r. r ≡ T.reply (laid_all T.laid content.now overlays.old.items) op.now) }
    ensures ok { OnOk result
        (IsNoted T.laid T.after T.fits content.now overlays.old.items overlays.new.items op.now) }
    ensures err { OnErr result (overlays.new.items ≡ overlays.old.items) }
{
    let mut top = overlays.pop().unwrap();
    let noted = T::note(content, overlays, &mut top, op);
    overlays.push_reserved(top);
    noted
}

/// Performs an operation that writes in an overlay of its own, above all, which is the owner's.
pub(crate) fn note_above<T: Layered>(
    content: &T,
    owners: &mut Vec<Name>,
    ends: &mut Vec<usize>,
    overlays: &mut Vec<T::Overlay>,
    owner: &Name,
    op: &Op,
) -> Result<Reply, AllocError>
    requires sound { AreSound T.laid T.after T.fits content.now overlays.old.items }
    requires known { IsTrue (T.knows (laid_all T.laid content.now overlays.old.items) op.now) }
    requires changes { IsFalse (is_read op.now) }
    requires writes { IsFalse (is_add op.now) }
    ensures replies { IfOk result
        (λ r. r ≡ T.reply (laid_all T.laid content.now overlays.old.items) op.now) }
    ensures ok { OnOk result (IsNotedAbove T.laid T.after T.fits content.now overlays.old.items
        overlays.new.items op.now) }
    ensures owners { OnOk result (owners.new.items ≡ owners.old.items ++ owner.now ∷ []) }
    ensures ends { OnOk result (ends.new.items ≡ ends.old.items ++ length overlays.new.items ∷ []) }
    ensures err { OnErr result (overlays.new.items ≡ overlays.old.items) }
    ensures owners_stay { OnErr result (owners.new.items ≡ owners.old.items) }
    ensures ends_stay { OnErr result (ends.new.items ≡ ends.old.items) }
{
    let mut overlay = T::nothing(*overlays.allocator());
    let reply = T::note(content, overlays, &mut overlay, op)?;
    put_above::<T>(owners, ends, overlays, owner, overlay)?;
    Ok(reply)
}

/// Puts the overlay above all, as the owner's.
pub(crate) fn put_above<T: Layered>(
    owners: &mut Vec<Name>,
    ends: &mut Vec<usize>,
    overlays: &mut Vec<T::Overlay>,
    owner: &Name,
    overlay: T::Overlay,
) -> Result<(), AllocError>
    ensures ok { OnOk result (overlays.new.items ≡ overlays.old.items ++ overlay ∷ []) }
    ensures owners { OnOk result (owners.new.items ≡ owners.old.items ++ owner.now ∷ []) }
    ensures ends { OnOk result (ends.new.items ≡ ends.old.items ++ length overlays.new.items ∷ []) }
    ensures err { OnErr result (overlays.new.items ≡ overlays.old.items) }
    ensures owners_stay { OnErr result (owners.new.items ≡ owners.old.items) }
    ensures ends_stay { OnErr result (ends.new.items ≡ ends.old.items) }
{
    let owner = owner.copy()?;
    owners.reserve(1)?;
    ends.reserve(1)?;
    overlays.reserve(1)?;
    owners.push_reserved(owner);
    overlays.push_reserved(overlay);
    ends.push_reserved(overlays.len());
    Ok(())
}

/// Adds the number to what so many overlays give: it is noted in the uppermost of them.
pub(crate) fn add_under<T: Layered>(overlays: &mut Vec<T::Overlay>, end: usize, by: i64)
    requires some { 0 < end }
    requires within { end ≤ length overlays.old.items }
    requires cover { AllCover T.laid T.after overlays.old.items }
    ensures { (c : T) → AreSound T.laid T.after T.fits c overlays.old.items
        → IsAdded T.laid T.after T.fits c c overlays.old.items overlays.new.items end by }
{
    T::add_in(&mut overlays[end - 1], by);
}

/// Adds the number to the base: in its uppermost overlay, or else to the content.
pub(crate) fn add_to_base<T: Layered>(
    content: &mut T,
    overlays: &mut Vec<T::Overlay>,
    base: usize,
    by: i64,
)
    requires within { base ≤ length overlays.old.items }
    requires sound { AreSound T.laid T.after T.fits content.old overlays.old.items }
    ensures { IsAdded T.laid T.after T.fits content.old content.new overlays.old.items
        overlays.new.items base by }
{
    if base == 0 {
        content.add(by);
        return;
    }
    add_under::<T>(overlays, base, by);
}

/// Makes one of the overlay at this place and of what stands right below it: the next overlay, or the content.
pub(crate) fn merge<T: Layered>(
    content: &mut T,
    overlays: &mut Vec<T::Overlay>,
    place: usize,
) -> Result<(), AllocError>
    requires within { place < length overlays.old.items }
    requires sound { AreSound T.laid T.after T.fits content.old overlays.old.items }
    ensures ok { OnOk result (IsMerged T.laid T.after T.fits content.old content.new
        overlays.old.items overlays.new.items place) }
    ensures err { OnErr result (overlays.new.items ≡ overlays.old.items) }
    ensures content_stays { OnErr result (content.new ≡ content.old) }
{
    if place == 0 {
        content.lay(&overlays[0])?;
        overlays.remove(0);
        return Ok(());
    }
    join_above(content, overlays, place - 1)
}

// Joins the overlay above this place into the one that stands there.
fn join_above<T: Layered>(
    content: &T,
    overlays: &mut Vec<T::Overlay>,
    at: usize,
) -> Result<(), AllocError>
    requires within { at + 1 < length overlays.old.items }
    requires sound { AreSound T.laid T.after T.fits content.now overlays.old.items }
    ensures ok { OnOk result (IsMerged T.laid T.after T.fits content.now content.now
        overlays.old.items overlays.new.items (at + 1)) }
    ensures err { OnErr result (overlays.new.items ≡ overlays.old.items) }
{
    let nothing = T::nothing(*overlays.allocator());
    let mut lower = mem::replace(&mut overlays[at], nothing);
    let joined = T::join(&mut lower, &overlays[at + 1]);
    overlays[at] = lower;
    joined?;
    overlays.remove(at + 1);
    Ok(())
}
