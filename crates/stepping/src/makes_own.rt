//! What is asked of who makes the steps of one caller, perhaps beside others.
ghost use Rattle.std.specs.Prelude.{◌≡◌, true, IfOk, OnErr, List, Option};
ghost use Rattle.run_model.specs.declared.history.Event.{Event};
ghost use Rattle.run_model.specs.declared.step.Step.{Step};
ghost use Rattle.run_model.specs.declared.step.Step.TheVariants as steps;
ghost use Rattle.layer_contracts.specs.Stores.{fault_in};
ghost use Rattle.layer_contracts.specs.declared.guardian.Fault.{Fault};
ghost use Rattle.stepping.specs.Beside.{IsAnsweredTo, LeavesOrNone, OwnRun, SeesOwn, alone_in, is_waits, own_after};

use crate::makes::MakesSteps;
use layer_contracts::Fault;
use run_model::{Answer, Name, ObjectId, Op, Step};

/// Makes the steps of one caller, perhaps beside other callers. Contracts see the caller's own events.
pub trait MakesOwnSteps {
    /// The caller's own run: the opening, in lists, its events since then, and what it began with. Steps leave the
    /// opening and what it began with as they are.
    ghost run: { Self → OwnRun };

    /// That a caller with these events may see this history, at which its next step is answered then.
    ghost sees: { OwnRun → List Event → Type 0 };

    /// That a step, which may have failed so, leaves the stores so.
    ghost leaves: { Step → Option Fault → Self → Self → Type 0 };

    /// What is so if an operation is answered that it waits.
    ghost gives_up: { Type 0 };

    /// Makes one step and gives its answer. The event of an accepted step is the caller's. A step that is refused or
    /// waits changes nothing. After an error all is as it was.
    fn make_step(&mut self, step: &Step) -> Result<Answer, Fault>
        ensures answered { IfOk result (IsAnsweredTo sees (run self.old) step.now) }
        ensures after { IfOk result
            (λ answer. run self.new ≡ own_after (run self.old) step.now answer) }
        ensures err { OnErr result (run self.new ≡ run self.old) }
        ensures stores { leaves step.now (fault_in result) self.old self.new };

    /// Makes an operation of the action, as `make_step` does. Where others make steps too, it may sleep while the
    /// operation waits, until it gives up.
    fn operate(&mut self, action: &Name, object: ObjectId, operation: Op) -> Result<Answer, Fault>
        ensures answered { IfOk result
            (IsAnsweredTo sees (run self.old) (steps.Op action.now object operation)) }
        ensures after { IfOk result (λ answer. run self.new
            ≡ own_after (run self.old) (steps.Op action.now object operation) answer) }
        ensures waits { IfOk result (λ answer. is_waits answer ≡ true → gives_up) }
        ensures err { OnErr result (run self.new ≡ run self.old) }
        ensures stores { LeavesOrNone leaves (steps.Op action.now object operation)
            (fault_in result) self.old self.new };
}

/// A world that nobody else steps: its events are the caller's.
impl<W: MakesSteps> MakesOwnSteps for W {
    ghost run = { λ w. alone_in (W.run w) };

    ghost sees = { SeesOwn };

    ghost leaves = { W.leaves };

    ghost gives_up = { Unit {0} };

    fn make_step(&mut self, step: &Step) -> Result<Answer, Fault> {
        // so that what has happened is known to be a run
        let _ = self.opening();
        self.step(step)
    }

    fn operate(&mut self, action: &Name, object: ObjectId, operation: Op) -> Result<Answer, Fault> {
        self.make_step(&Step::Op(action.copy()?, object, operation))
    }
}
