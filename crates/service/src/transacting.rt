//! Transactions of a service.
ghost use Rattle.std.specs.Prelude.{◌≡◌, false, true, IfErr, Ok, Result};
ghost use Rattle.run_model.specs.declared.step.Step.TheVariants as steps;
ghost use Rattle.service.specs.Transacting.{RunsTop, began_at, ends_top};
ghost use Rattle.service.specs.Working.{IsOutcomeOf, RunsOnce, TransactsOnce};

use crate::fault::CallFault;
use crate::outcome::{Cause, Outcome, Transacted};
use crate::place::Place;
use crate::service::Service;
use crate::top::{begin_top, end_top, outcome};
use crate::transaction::{Work, work_in};
use action_names::Name;
use committing::commit_by_two_phases;
use std::alloc::Global;
use std::marker::Brand;
use stepping::MakesOwnSteps;

impl<W: MakesOwnSteps + Drop> Service<W> {
    ghost use Rattle.service.specs.Outcomes.{is_decided};
    ghost use Rattle.service.specs.Transacting.{AllVoted, CameToNothing, Concludes, TransactsAt, is_concluding, is_voted_down};

    /// Runs the work in a new top action at this home, and then ends the action by two phases: it commits if the work
    /// succeeds and all guardians that it reached vote yes. Else it is aborted. Each of these guardians is told.
    pub fn transact<J: Work<W>>(
        &mut self,
        alloc: Global,
        home: u32,
        work: &mut J,
    ) -> Transacted<J::Value, J::Error>
        ensures ended { TransactsAt W.sees home (W.run self.old.world) (W.run self.new.world)
            result }
        ensures once { TransactsOnce W.sees J.does (steps.Top home) (W.run self.old.world)
            (W.run self.new.world) work.old work.new result.outcome }
    {
        match begin_top(self, alloc, home) {
            Ok(at) => run_top(self, at, work),
            Err(fault) => Transacted {
                outcome: Outcome::Aborted(Cause::Step(fault)),
                left: None,
            },
        }
    }

    /// Closes a top action, lets the guardians vote in this order up to the first no, and decides it if all vote yes.
    /// Whether it committed.
    pub(crate) fn vote_and_decide(
        &mut self,
        top: &Name,
        guardians: &[u32],
    ) -> Result<bool, CallFault>
        ensures concludes { Concludes W.sees top.now guardians.now (W.run self.old.world)
            (W.run self.new.world) (is_decided result) }
        ensures voted { is_decided result ≡ true
            → AllVoted top.now guardians.now (W.run self.new.world) }
        ensures down { result ≡ Ok false → is_voted_down top.now (W.run self.new.world).past ≡ true }
        ensures stopped { IfErr result (CameToNothing W.sees (ends_top top.now) is_concluding
            (W.run self.old.world) (W.run self.new.world)) }
    {
        commit_by_two_phases(self, top, guardians.iter())
    }
}

/// Runs the work in a top action that has begun, and then ends the action by two phases: it commits if the work succeeds
/// and all guardians that it reached vote yes. Else it is aborted. Each of these guardians is told.
pub(crate) fn run_top<W: MakesOwnSteps + Drop, J: Work<W>>(
    service: &mut Service<W>,
    at: Place,
    work: &mut J,
) -> Transacted<J::Value, J::Error>
    requires there { began_at at.home at.action (W.run service.old.world).past ≡ true }
    ensures runs { ∥ RunsTop W.sees at (W.run service.old.world) (W.run service.new.world) result ∥₁ }
    ensures once { (done : Result J.Value J.Error) × IsOutcomeOf done result.outcome
        × RunsOnce W.sees J.does (ends_top at.action) (W.run service.old.world)
        (W.run service.new.world) work.old work.new done }
{
    let mut at = at;
    let done = work_in::<Brand, W, J>(service, &mut at, work);
    let (decided, left) = end_top(service, at, done.is_ok());
    Transacted {
        outcome: outcome(done, decided),
        left,
    }
}
