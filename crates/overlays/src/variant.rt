ghost use Rattle.std.specs.Prelude.{◌≡◌, IsTrue, IfOk, OnErr, if◌then◌else◌};
ghost use Rattle.values.specs.Words.{same_bytes};
ghost use Rattle.atomic_types.specs.declared.op.Reply.TheVariants.{Gives, Signals};
ghost use Rattle.atomic_types.specs.declared.op.Signal.TheVariants.{WrongTag};
ghost use Rattle.values.specs.Tags.{VariantContent};
ghost use Rattle.atomic_types.specs.Variants.{variant_knows, variant_reply, variant_after};
ghost use Rattle.overlays.specs.Overlays.{IsNotedIn};
ghost use Rattle.overlays.specs.VariantOverlays.{laid_tag, TagFits, is_change, variant_overlays_know, variant_fits_stay, variant_adds_sum, variant_writes_cover, variant_always_done};

use crate::layered::Layered;
use crate::seen::Seen;
use atomic_types::{Op, Reply, Signal};
use std::alloc::{AllocError, Global};
use std::marker::Model;
use values::{Identifier, Value, Variant};

/// The tag and the value that an action gave a variant, if it did.
#[derive(Debug, Drop)]
pub struct VariantOverlay {
    changed: Option<(Identifier, Value)>,
}

impl Model for VariantOverlay {
    ghost use Rattle.std.specs.Prelude.{Option, List, ℕ};
    ghost use Rattle.values.specs.declared.value.Value.{Value as Held};

    ghost Value = { Option (List ℕ × Held) };

    ghost view = { λ a. a.changed };
}

impl Layered for Variant {
    type Overlay = VariantOverlay;

    ghost laid = { laid_tag };

    ghost fits = { TagFits };

    fn read(&self, op: &Op) -> Result<Reply, AllocError> {
        match op {
            Op::Is(tag) => Ok(Reply::Truth(self.tag() == tag)),
            Op::ValueOf(tag) => value_under(self.tag(), self.value(), tag),
            _ => unreachable!(),
        }
    }

    fn nothing(_alloc: Global) -> VariantOverlay {
        VariantOverlay { changed: None }
    }

    fn copy_overlay(overlay: &VariantOverlay) -> Result<VariantOverlay, AllocError> {
        match &overlay.changed {
            Some((tag, value)) => Ok(VariantOverlay {
                changed: Some((tag.copy()?, value.copy()?)),
            }),
            None => Ok(VariantOverlay { changed: None }),
        }
    }

    fn peek(overlay: &VariantOverlay, op: &Op) -> Result<Seen, AllocError> {
        let Some((held, value)) = &overlay.changed else {
            return Ok(Seen::Below);
        };
        match op {
            Op::Is(tag) => Ok(Seen::Reply(Reply::Truth(held == tag))),
            Op::ValueOf(tag) => Ok(Seen::Reply(value_under(held, value, tag)?)),
            _ => Ok(Seen::Below),
        }
    }

    #[tactic(auto, using(crate::specs::VariantOverlays::variant_changes))]
    fn note(
        _base: &Variant,
        _below: &[VariantOverlay],
        overlay: &mut VariantOverlay,
        op: &Op,
    ) -> Result<Reply, AllocError> {
        note_change(overlay, op)
    }

    fn add_in(_overlay: &mut VariantOverlay, _by: i64) {}

    fn join(lower: &mut VariantOverlay, upper: &VariantOverlay) -> Result<(), AllocError> {
        if let Some((tag, value)) = &upper.changed {
            lower.changed = Some((tag.copy()?, value.copy()?));
        }
        Ok(())
    }

    fn lay(&mut self, overlay: &VariantOverlay) -> Result<(), AllocError> {
        if let Some((tag, value)) = &overlay.changed {
            let tag = tag.copy()?;
            let value = value.copy()?;
            self.change(tag, value);
        }
        Ok(())
    }

    fn add(&mut self, _by: i64) {}

    ghost overlays_know = { variant_overlays_know };

    ghost fits_stay = { variant_fits_stay };

    ghost adds_sum = { variant_adds_sum };

    ghost writes_cover = { variant_writes_cover };

    ghost always_done = { variant_always_done };
}

/// Notes that a tag and its value were given. If memory runs out, the overlay is as it was.
pub(crate) fn note_change(overlay: &mut VariantOverlay, op: &Op) -> Result<Reply, AllocError>
    requires { IsTrue (is_change op.now) }
    ensures noted { IfOk result
        (λ r. (v : VariantContent) → IsTrue (variant_knows (laid_tag v overlay.old) op.now)
        → TagFits v overlay.old → IsNotedIn variant_reply variant_after laid_tag TagFits v
        overlay.old overlay.new op.now r) }
    ensures err { OnErr result (overlay.new ≡ overlay.old) }
{
    let Op::Change(tag, value) = op else {
        unreachable!();
    };
    overlay.changed = Some((tag.copy()?, value.copy()?));
    Ok(Reply::Done)
}

/// The value, if it stands under the tag that is asked for.
fn value_under(held: &Identifier, value: &Value, tag: &Identifier) -> Result<Reply, AllocError>
    ensures { IfOk result
        (λ r. r ≡ (if same_bytes held.now tag.now then Gives value.now else Signals WrongTag)) }
{
    if held != tag {
        return Ok(Reply::Signals(Signal::WrongTag));
    }
    Ok(Reply::Gives(value.copy()?))
}
