ghost use Rattle.std.specs.Prelude.{◌≡◌, IfOk, IsTrue, None, min, suc};
ghost use Rattle.run_model.specs.declared.step.Step.TheVariants as steps;
ghost use Rattle.run_model.specs.Refusals.{checks_by, first_refusal, max_number};
ghost use Rattle.run_model.specs.Openings.{opening_in};
ghost use Rattle.step_answers.specs.Actors.{IsActor, IsReadAs, IsWorker};
ghost use Rattle.step_answers.specs.Saying.{Said};

use crate::actor::{Actor, Worker};
use run_model::{Answer, Name, ObjectId, Op, Opening};
use std::alloc::{AllocError, Global};

/// What an operation is judged by: the facts of actions that its refusals ask for, and what comes of one that nothing
/// refuses. A guardian by itself is such a reading. Of an action that was begun it is told the home again, so that
/// the action is looked up once.
///
/// What is read may be that of many histories. So a clause is said of whatever the reading says.
pub trait ReadsAction {
    /// That the reading says this.
    ghost says: { Self → Said → Type 0 };

    fn opening(&self) -> &Opening
        ensures { (s : Said) → says self.now s → opening_in result.now ≡ s.opening };

    /// How the action stands, if it was begun, as far as what it does by itself asks.
    fn worker(&self, action: &Name) -> Option<Worker>
        ensures { (s : Said) → says self.now s → IsReadAs (s.facts.begun action.now)
            (IsWorker (s.facts.home action.now) (s.facts.done action.now) (s.facts.busy action.now))
            result };

    fn is_gone(&self, action: &Name, home: u32) -> bool
        requires begun { (s : Said) → says self.now s → IsTrue (s.facts.begun action.now) }
        requires home { (s : Said) → says self.now s → home ≡ s.facts.home action.now }
        ensures { (s : Said) → says self.now s → result ≡ s.facts.gone action.now };

    fn is_orphan(&self, action: &Name, home: u32) -> Result<bool, AllocError>
        requires begun { (s : Said) → says self.now s → IsTrue (s.facts.begun action.now) }
        requires home { (s : Said) → says self.now s → home ≡ s.facts.home action.now }
        ensures { (s : Said) → says self.now s
            → IfOk result (λ orphan. orphan ≡ s.facts.orphan action.now) };

    /// What an operation that nothing refuses is answered.
    fn operated(
        &self,
        action: &Name,
        object: ObjectId,
        operation: &Op,
    ) -> Result<Answer, AllocError>
        requires some { (s : Said) × says self.now s }
        requires accepted { (s : Said) → says self.now s
            → first_refusal (checks_by s.opening s.facts (steps.Op action.now object operation.now))
            ≡ None }
        ensures { (s : Said) → says self.now s → IfOk result
            (λ answer. answer ≡ s.results.operation action.now object operation.now) };
}

/// What a step is judged by: the facts that refusals ask for, and the results of steps that nothing refuses. A
/// reading of a whole history is one, and so is what a step is lent.
pub trait Reads: ReadsAction {
    fn alloc(&self) -> Global;

    /// How the action stands, if it was begun.
    fn actor(&self, action: &Name) -> Option<Actor>
        ensures { (s : Said) → Self.says self.now s → IsReadAs (s.facts.begun action.now)
            (IsActor (s.facts.home action.now) (s.facts.ended action.now)
            (s.facts.closed action.now) (s.facts.busy action.now)) result };

    fn is_ready(&self, top: &Name) -> bool
        ensures { (s : Said) → Self.says self.now s → result ≡ s.facts.ready top.now };

    /// All numbers above 4294967295 count as 4294967296.
    fn next(&self, path: &[u32]) -> u64
        ensures { (s : Said) → Self.says self.now s
            → result ≡ min (s.facts.next path.now) (suc max_number) };

    fn is_down(&self, guardian: u32) -> bool
        ensures { (s : Said) → Self.says self.now s → result ≡ s.facts.down guardian };

    fn takes_part(&self, guardian: u32, top: &Name) -> bool
        ensures { (s : Said) → Self.says self.now s
            → result ≡ s.facts.takes_part guardian top.now };

    fn has_voted(&self, guardian: u32, top: &Name) -> bool
        ensures { (s : Said) → Self.says self.now s → result ≡ s.facts.voted guardian top.now };

    fn was_told(&self, guardian: u32, action: &Name) -> bool
        ensures { (s : Said) → Self.says self.now s → result ≡ s.facts.told guardian action.now };

    /// Whether the vote of the guardian is a yes.
    fn votes_yes(&self, guardian: u32, top: &Name) -> bool
        ensures { (s : Said) → Self.says self.now s → result ≡ s.results.vote guardian top.now };

    /// What a telling that nothing refuses counts.
    fn told_count(&self, guardian: u32, action: &Name) -> Result<u64, AllocError>
        requires accepted { (s : Said) → Self.says self.now s
            → first_refusal (checks_by s.opening s.facts (steps.Tell guardian action.now)) ≡ None }
        ensures { (s : Said) → Self.says self.now s
            → IfOk result (λ count. count ≡ s.results.count guardian action.now) };
}
