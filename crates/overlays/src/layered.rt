ghost use Rattle.std.specs.Prelude.{◌≡◌, ℤ, IsTrue, IsFalse, IfOk, OnOk, OnErr};
ghost use Rattle.values.specs.declared.value.Value.TheVariants.{Int};
ghost use Rattle.atomic_types.specs.declared.operation.Operation.TheVariants.{Add};
ghost use Rattle.atomic_types.specs.Operations.{Op, is_read, is_add};
ghost use Rattle.overlays.specs.Overlays.{laid_all, AllFit, MayJoin, shown, Covers};
ghost use Rattle.overlays.specs.Laws.{OverlaysKnow, FitsStay, AddsSum, WritesCover, AlwaysDone};

use crate::seen::Seen;
use atomic_types::{AtomicType, Op, Reply};
use std::alloc::{AllocError, Global};

/// An atomic type with overlays.
pub trait Layered: AtomicType {
    /// What an action changed of an object, and nothing else of it.
    type Overlay: Drop;

    /// What an overlay makes of the object on which it is laid.
    ghost laid: { Self → Self.Overlay → Self };

    /// The overlay may be laid on the object.
    ghost fits: { Self → Self.Overlay → Type 0 };

    /// The reply to an operation that reads. Fails only if memory runs out.
    fn read(&self, op: &Op) -> Result<Reply, AllocError>
        requires known { IsTrue (Self.knows self.now op.now) }
        requires reads { IsTrue (is_read op.now) }
        ensures { IfOk result (λ r. r ≡ Self.reply self.now op.now) };

    /// The overlay that changes nothing. This takes no memory.
    fn nothing(alloc: Global) -> Self::Overlay
        ensures fits { (c : Self) → fits c result }
        ensures laid { (c : Self) → laid c result ≡ c };

    /// An equal overlay. Fails only if memory runs out.
    fn copy_overlay(overlay: &Self::Overlay) -> Result<Self::Overlay, AllocError>
        ensures { IfOk result (λ copy. copy ≡ overlay.now) };

    /// What the overlay shows of the reply to an operation that reads, of an object that has the operation. Fails
    /// only if memory runs out.
    fn peek(overlay: &Self::Overlay, op: &Op) -> Result<Seen, AllocError>
        requires { IsTrue (is_read op.now) }
        ensures { IfOk result (λ seen. (c : Self) → fits c overlay.now
            → IsTrue (Self.knows c op.now)
            → Self.reply (laid c overlay.now) op.now ≡ shown seen (Self.reply c op.now)) };

    /// Notes an operation that writes or adds in an overlay that lies above others, and gives its reply. To add asks
    /// for an overlay that covers what was added below, as one does in which a write was noted. If memory runs out,
    /// the overlay is as it was.
    fn note(
        base: &Self,
        below: &[Self::Overlay],
        overlay: &mut Self::Overlay,
        op: &Op,
    ) -> Result<Reply, AllocError>
        requires below { AllFit laid fits base.now below.now }
        requires fits { fits (laid_all laid base.now below.now) overlay.old }
        requires known { IsTrue
            (Self.knows (laid (laid_all laid base.now below.now) overlay.old) op.now) }
        requires changes { IsFalse (is_read op.now) }
        requires covers { IsTrue (is_add op.now) → Covers Self.after laid overlay.old }
        ensures replies { IfOk result (λ r. let c = laid_all laid base.now below.now in
            r ≡ Self.reply (laid c overlay.old) op.now) }
        ensures noted { OnOk result (let c = laid_all laid base.now below.now in
            laid c overlay.new ≡ Self.after (laid c overlay.old) op.now) }
        ensures fits { OnOk result (fits (laid_all laid base.now below.now) overlay.new) }
        ensures covers { OnOk result (Covers Self.after laid overlay.new) }
        ensures err { OnErr result (overlay.new ≡ overlay.old) };

    /// Adds the number to what the overlay gives of an object. The overlay covers what was added below. This cannot
    /// fail.
    fn add_in(overlay: &mut Self::Overlay, by: i64)
        requires covers { Covers Self.after laid overlay.old }
        ensures added { (c : Self) → fits c overlay.old
            → laid c overlay.new ≡ Self.after (laid c overlay.old) (Add (Int by)) }
        ensures fits { (c : Self) → fits c overlay.old → fits c overlay.new }
        ensures covers { Covers Self.after laid overlay.new };

    /// Joins the upper overlay into the lower one. If memory runs out, the lower one is as it was.
    fn join(lower: &mut Self::Overlay, upper: &Self::Overlay) -> Result<(), AllocError>
        requires { MayJoin laid fits lower.old upper.now }
        ensures joined { OnOk result
            ((c : Self) → fits c lower.old → fits (laid c lower.old) upper.now
            → laid c lower.new ≡ laid (laid c lower.old) upper.now) }
        ensures fits { OnOk result
            ((c : Self) → fits c lower.old → fits (laid c lower.old) upper.now
            → fits c lower.new) }
        ensures covers { OnOk result
            (Covers Self.after laid upper.now → Covers Self.after laid lower.new) }
        ensures err { OnErr result (lower.new ≡ lower.old) };

    /// Lays the overlay on the object. If memory runs out, the object is as it was.
    fn lay(&mut self, overlay: &Self::Overlay) -> Result<(), AllocError>
        requires { fits self.old overlay.now }
        ensures ok { OnOk result (self.new ≡ laid self.old overlay.now) }
        ensures err { OnErr result (self.new ≡ self.old) };

    /// Adds the number to the object; an object that is no counter stays as it is. This cannot fail.
    fn add(&mut self, by: i64)
        ensures { self.new ≡ Self.after self.old (Add (Int by)) };

    ghost overlays_know: { OverlaysKnow Self.knows laid fits };

    ghost fits_stay: { FitsStay Self.after fits };

    ghost adds_sum: { AddsSum Self.after };

    ghost writes_cover: { WritesCover Self.knows Self.reply Self.after };

    ghost always_done: { AlwaysDone Self.reply };
}
