//! Nested top actions of a transaction.
ghost use Rattle.std.specs.Prelude.{◌≡◌, ◌∷◌, [], true, IfOk, OnErr};
ghost use Rattle.run_model.specs.declared.step.Step.TheVariants as steps;
ghost use Rattle.service.specs.Calling.{IsCall};
ghost use Rattle.service.specs.Opening.{BeganAt};
ghost use Rattle.service.specs.Transacting.{Includes, Transacts, Works, began_at};
ghost use Rattle.service.specs.Working.{TransactsOnce};

use crate::fault::CallFault;
use crate::outcome::{Cause, Outcome, Transacted};
use crate::place::{Place, one_number};
use crate::service::Service;
use crate::transacting::run_top;
use crate::transaction::Work;
use std::alloc::Global;
use stepping::MakesOwnSteps;

/// Begins a nested top action, runs the work in it, and ends it.
pub(crate) fn nest_in<W: MakesOwnSteps + Drop, J: Work<W>>(
    service: &mut Service<W>,
    at: &mut Place,
    alloc: Global,
    work: &mut J,
) -> Outcome<J::Value, J::Error>
    requires there { began_at at.old.home at.old.action (W.run service.old.world).past ≡ true }
    ensures action { at.new.action ≡ at.old.action }
    ensures home { at.new.home ≡ at.old.home }
    ensures reached { Includes at.old.reached.items at.new.reached.items }
    ensures works { ∥ Works W.sees at.old.action (W.run service.old.world) (W.run service.new.world)
        at.old.left at.new.left ∥₁ }
    ensures ended { Transacts W.sees (steps.NestedTop at.old.action) (W.run service.old.world)
        (W.run service.new.world) result at.old.left at.new.left }
    ensures once { TransactsOnce W.sees J.does (steps.NestedTop at.old.action)
        (W.run service.old.world) (W.run service.new.world) work.old work.new result }
{
    match begin_nested(service, at, alloc) {
        Ok(top) => {
            let Transacted { outcome, left } = run_top(service, top, work);
            at.keep(left);
            outcome
        }
        Err(fault) => Outcome::Aborted(Cause::Step(fault)),
    }
}

/// Begins a nested top action of the action at its home. What came to nothing so far is kept in mind there.
fn begin_nested<W: MakesOwnSteps + Drop>(
    service: &mut Service<W>,
    at: &mut Place,
    alloc: Global,
) -> Result<Place, CallFault>
    ensures call { IsCall W.run W.sees W.leaves (steps.NestedTop at.old.action) BeganAt
        service.old.world service.new.world result }
    ensures action { at.new.action ≡ at.old.action }
    ensures home { at.new.home ≡ at.old.home }
    ensures reached { at.new.reached ≡ at.old.reached }
    ensures there { IfOk result (λ top. top.home ≡ at.old.home) }
    ensures first { IfOk result (λ top. top.reached.items ≡ at.old.home ∷ []) }
    ensures left { IfOk result (λ top. top.left ≡ at.old.left) }
    ensures err { OnErr result (at.new.left ≡ at.old.left) }
{
    let reached = one_number(alloc, at.home)?;
    let action = service.begin_nested(&at.action)?;
    let left = at.left.take();
    Ok(Place {
        action,
        home: at.home,
        reached,
        left,
    })
}
