ghost use Rattle.std.specs.Prelude.{◌≡◌, Bool, false, true, IfErr, IfOk, OnErr, length, take};
ghost use Rattle.run_model.specs.declared.step.Step.TheVariants.{Op};
ghost use Rattle.run_model.specs.Runs.{world_after};
ghost use Rattle.activities.specs.Apart.{AreRunnable, begun_names, ended_names};
ghost use Rattle.activities.specs.Failing.{AreCauses, IsCause, StepFails};
ghost use Rattle.activities.specs.Making.{IsAnswered, Makes};
ghost use Rattle.activities.specs.Serial.{asked};

use crate::apart::{BegunArm, EndedArm};
use action_names::Name;
use atomic_types::Op;
use run_model::{Answer, ObjectId, Step};
use stepping::{Fault, MakesSteps};

/// Makes the steps of one activity, perhaps beside other activities. Contracts see the activity's own events.
pub trait ActivitySteps: Sized {
    ghost use Rattle.layer_contracts.specs.declared.guardian.Fault.{Fault};
    ghost use Rattle.run_model.specs.Runs.{World};
    ghost use Rattle.script_model.specs.declared.checked.Checked.{Checked};

    /// The opening, in lists, and the activity's events since then.
    ghost run: { Self → World };

    /// That nobody else makes steps.
    ghost alone: { Type 0 };

    /// The scripts whose activities it makes steps for.
    ghost scripts: { Checked → Type 0 };

    /// That a step can fail so.
    ghost fails: { Fault → Type 0 };

    /// What `claim` leaves, granted or not.
    ghost claims: { Bool → Self → Self → Type 0 } = { λ granted old new. Unit {0} };

    /// What `settle` leaves, where the arm has left its `coenter` or not.
    ghost settles: { Bool → Self → Self → Type 0 } = { λ has_left old new. Unit {0} };

    /// Makes one step and gives its answer. The event of an accepted step is the activity's. A step that is refused
    /// or waits changes nothing. After an error all is as it was.
    fn make_step(&mut self, step: &Step) -> Result<Answer, Fault>
        ensures answered { IfOk result (IsAnswered (run self.old).lists step.now) }
        ensures alone { IfOk result (λ answer. alone → answer ≡ asked step.now (run self.old)) }
        ensures after { IfOk result
            (λ answer. run self.new ≡ world_after (run self.old) step.now answer) }
        ensures failed { IfErr result fails }
        ensures err { OnErr result (run self.new ≡ run self.old) };

    /// Makes an operation of the action, as `make_step` does. Where others make steps too, it may sleep while the
    /// operation waits, unless it waits for one of the starters or for an ancestor of one.
    fn operate(
        &mut self,
        action: &Name,
        object: ObjectId,
        operation: Op,
        starters: &[Name],
    ) -> Result<Answer, Fault>
        ensures answered { IfOk result
            (IsAnswered (run self.old).lists (Op action.now object operation)) }
        ensures alone { IfOk result (λ answer. alone
            → answer ≡ asked (Op action.now object operation) (run self.old)) }
        ensures after { IfOk result (λ answer. run self.new
            ≡ world_after (run self.old) (Op action.now object operation) answer) }
        ensures failed { IfErr result (IsCause fails) }
        ensures err { OnErr result (run self.new ≡ run self.old) };

    /// Whether arms of a `coenter` run apart, by `run_arms`.
    fn has_arms_apart(&self) -> bool
        ensures { alone → result ≡ false };

    /// Runs arms, each by steps of its own, and gives what they came to: the first so many. The others were not run.
    /// The events of those that were run are the activity's.
    fn run_arms(&mut self, arms: Vec<BegunArm>) -> Result<Vec<EndedArm>, Fault>
        requires { AreRunnable scripts arms.items }
        ensures makes { Makes (begun_names arms.items) (begun_names arms.items)
            (run self.old) (run self.new) }
        ensures ended { IfOk result (λ ended. ended_names ended.items
            ≡ take (length ended.items) (begun_names arms.items)) }
        ensures causes { IfOk result (λ ended. AreCauses fails ended.items) }
        ensures failed { IfErr result (IsCause fails) };

    /// Whether the arm that runs is to abort, since another has left its `coenter`, or one further out.
    fn is_called_off(&self) -> bool
        ensures { alone → result ≡ false };

    /// Claims for the arm that runs to leave its `coenter`, and waits while another claims so. False if another has
    /// left it.
    fn claim(&mut self) -> bool
        ensures same { run self.new ≡ run self.old }
        ensures alone { alone → result ≡ true }
        ensures claims { claims result self.old self.new };

    /// Says whether the arm that claimed so has left its `coenter`. If it has, the others are called off.
    fn settle(&mut self, has_left: bool)
        ensures same { run self.new ≡ run self.old }
        ensures settles { settles has_left self.old self.new };
}

/// A world that nobody else steps: its events are the activity's, and arms run in order.
impl<W: MakesSteps> ActivitySteps for W {
    ghost run = { λ w. W.run w };

    ghost alone = { Unit {0} };

    ghost scripts = { λ script. Unit {0} };

    ghost fails = { StepFails W.leaves };

    fn make_step(&mut self, step: &Step) -> Result<Answer, Fault> {
        self.step(step)
    }

    fn operate(
        &mut self,
        action: &Name,
        object: ObjectId,
        operation: Op,
        _starters: &[Name],
    ) -> Result<Answer, Fault> {
        self.step(&Step::Op(action.copy()?, object, operation))
    }

    fn has_arms_apart(&self) -> bool {
        false
    }

    fn run_arms(&mut self, arms: Vec<BegunArm>) -> Result<Vec<EndedArm>, Fault> {
        Ok(Vec::new(*arms.allocator()))
    }

    fn is_called_off(&self) -> bool {
        false
    }

    fn claim(&mut self) -> bool {
        true
    }

    fn settle(&mut self, _has_left: bool) {}
}
