ghost use Rattle.std.specs.Prelude.{◌≡◌, ℤ, pos, IsTrue, IsFalse, IfOk, OnOk, OnErr};
ghost use Rattle.atomic_types.specs.Counters.{counter_knows, counter_reply, counter_after};
ghost use Rattle.atomic_types.specs.Operations.{is_read, is_add};
ghost use Rattle.overlays.specs.Overlays.{Covers, IsNotedIn};
ghost use Rattle.overlays.specs.CounterOverlays.{laid_number, NumberFits, with_added, counter_overlays_know, counter_fits_stay, counter_adds_sum, counter_writes_cover, counter_always_done};

use crate::layered::Layered;
use crate::seen::Seen;
use atomic_types::{Op, Reply};
use std::alloc::{AllocError, Global};
use std::marker::Model;
use values::{Counter, Value};

/// The number that an action put in the place of a counter's, if it did, with what it added since.
///
/// What actions add that put nothing lies beside an object's versions, and in no overlay.
#[derive(Debug, Drop)]
pub struct CounterOverlay {
    number: Option<i64>,
}

impl Model for CounterOverlay {
    ghost use Rattle.std.specs.Prelude.{Option, ℤ};

    ghost Value = { Option ℤ };

    ghost view = { λ a. a.number };
}

impl Layered for Counter {
    type Overlay = CounterOverlay;

    ghost laid = { laid_number };

    ghost fits = { NumberFits };

    fn read(&self, op: &Op) -> Result<Reply, AllocError> {
        match op {
            Op::Total => Ok(Reply::Gives(Value::Int(self.number()))),
            _ => unreachable!(),
        }
    }

    fn nothing(_alloc: Global) -> CounterOverlay {
        CounterOverlay { number: None }
    }

    fn copy_overlay(overlay: &CounterOverlay) -> Result<CounterOverlay, AllocError> {
        Ok(CounterOverlay {
            number: overlay.number,
        })
    }

    fn peek(overlay: &CounterOverlay, op: &Op) -> Result<Seen, AllocError> {
        match (overlay.number, op) {
            (Some(number), Op::Total) => Ok(Seen::Reply(Reply::Gives(Value::Int(number)))),
            _ => Ok(Seen::Below),
        }
    }

    #[tactic(auto, using(crate::specs::CounterOverlays::counter_knows_any))]
    fn note(
        _base: &Counter,
        _below: &[CounterOverlay],
        overlay: &mut CounterOverlay,
        op: &Op,
    ) -> Result<Reply, AllocError> {
        note_number(overlay, op)
    }

    #[tactic(auto, using(crate::specs::CounterOverlays::laid_added, crate::specs::CounterOverlays::added_covers))]
    fn add_in(overlay: &mut CounterOverlay, by: i64) {
        add(overlay, &Value::Int(by));
    }

    fn join(lower: &mut CounterOverlay, upper: &CounterOverlay) -> Result<(), AllocError> {
        if upper.number.is_some() {
            lower.number = upper.number;
        }
        Ok(())
    }

    fn lay(&mut self, overlay: &CounterOverlay) -> Result<(), AllocError> {
        if let Some(number) = overlay.number {
            *self = Counter::new(number);
        }
        Ok(())
    }

    #[tactic(auto, using(atomic_types::specs::TypeLaws::wrapped))]
    fn add(&mut self, by: i64) {
        *self = Counter::new(self.number().wrapping_add(by));
    }

    ghost overlays_know = { counter_overlays_know };

    ghost fits_stay = { counter_fits_stay };

    ghost adds_sum = { counter_adds_sum };

    ghost writes_cover = { counter_writes_cover };

    ghost always_done = { counter_always_done };
}

/// Notes that a number was put or added.
pub(crate) fn note_number(overlay: &mut CounterOverlay, op: &Op) -> Result<Reply, AllocError>
    requires known { IsTrue (counter_knows (pos 0) op.now) }
    requires changes { IsFalse (is_read op.now) }
    requires covers { IsTrue (is_add op.now) → Covers counter_after laid_number overlay.old }
    ensures noted { IfOk result (λ r. (n : ℤ) → IsNotedIn counter_reply counter_after laid_number
        NumberFits n overlay.old overlay.new op.now r) }
    ensures covers { OnOk result (Covers counter_after laid_number overlay.new) }
    ensures err { OnErr result (overlay.new ≡ overlay.old) }
{
    match op {
        Op::Put(Value::Int(number)) => {
            overlay.number = Some(*number);
            Ok(Reply::Done)
        }
        Op::Add(value) => {
            add(overlay, value);
            Ok(Reply::Done)
        }
        _ => unreachable!(),
    }
}

/// Adds the value to the number in the overlay, if there is one; a text changes nothing.
#[tactic(auto, using(atomic_types::specs::TypeLaws::wrapped))]
fn add(overlay: &mut CounterOverlay, value: &Value)
    ensures { overlay.new ≡ with_added overlay.old value.now }
{
    if let (Some(number), Value::Int(by)) = (overlay.number, value) {
        overlay.number = Some(number.wrapping_add(*by));
    }
}
