//! Transactions that are made again after what may pass.
use crate::fault::CallFault;
use crate::outcome::{Cause, Outcome, Transacted};
use crate::service::Service;
use crate::transaction::Work;
use std::alloc::Global;
use stepping::MakesOwnSteps;

/// What keeps work from succeeding, but may pass with no help.
#[derive(Clone, Copy, Debug, PartialEq, Eq, Drop)]
pub enum Obstacle {
    /// An action was an orphan, or a guardian was down or not ready.
    Refused,
    /// Other actions hold an object.
    Waits,
    /// Memory ran out, or a store failed.
    Failed,
}

/// Errors that tell whether the same work may succeed later.
pub trait MayPass {
    ghost use Rattle.std.specs.Prelude.{◌≡◌, Option};
    ghost use Rattle.service.specs.declared.retrying.Obstacle.{Obstacle};

    ghost obstacle: { Self → Option Obstacle };

    /// What is in the way, if it may pass.
    fn obstacle(&self) -> Option<Obstacle>
        ensures { result ≡ obstacle self.now };
}

impl MayPass for CallFault {
    ghost use Rattle.service.specs.Retrying.{fault_obstacle};

    ghost obstacle = { fault_obstacle };

    fn obstacle(&self) -> Option<Obstacle> {
        if !self.may_pass() {
            return None;
        }
        Some(match self {
            CallFault::Refused(_) => Obstacle::Refused,
            CallFault::Waits(_) => Obstacle::Waits,
            CallFault::Failed(_) => Obstacle::Failed,
        })
    }
}

/// How often a transaction is made again, and after what.
#[derive(Clone, Copy, Debug, PartialEq, Eq, Drop)]
pub struct Retries {
    /// How often it is made again at most.
    pub times: u32,
    /// Whether it is made again after a refusal that may pass.
    pub refused: bool,
    /// Whether it is made again after an operation that waited for other actions.
    pub waits: bool,
    /// Whether it is made again after a lack of memory or a fault of a store.
    pub failed: bool,
    /// Whether it is made again after a no vote. A guardian votes no if it has crashed since it was called.
    pub vote: bool,
}

impl Retries {
    ghost use Rattle.std.specs.Prelude.{◌≡◌, true, false};
    ghost use Rattle.service.specs.Retrying.{goes_on, is_named};

    /// So often, after each obstacle, but not after a no vote.
    pub fn up_to(times: u32) -> Retries
        ensures times { result.times ≡ times }
        ensures refused { result.refused ≡ true }
        ensures waits { result.waits ≡ true }
        ensures failed { result.failed ≡ true }
        ensures vote { result.vote ≡ false }
    {
        Retries {
            times,
            refused: true,
            waits: true,
            failed: true,
            vote: false,
        }
    }

    /// Whether a transaction that ended so is to be made again, if it is not too often.
    fn go_on_after<T: Drop, E: MayPass + Drop>(&self, ended: &Transacted<T, E>) -> bool
        ensures { result ≡ goes_on E.obstacle self.now ended.now }
    {
        if ended.left.is_some() {
            return false;
        }
        match &ended.outcome {
            Outcome::Committed(_) => false,
            Outcome::Aborted(Cause::Vote) => self.vote,
            Outcome::Aborted(Cause::Step(fault)) => self.names(fault.obstacle()),
            Outcome::Aborted(Cause::Work(error)) => self.names(error.obstacle()),
        }
    }

    /// Whether it is made again after this obstacle.
    fn names(&self, obstacle: Option<Obstacle>) -> bool
        ensures { result ≡ is_named self.now obstacle }
    {
        match obstacle {
            None => false,
            Some(Obstacle::Refused) => self.refused,
            Some(Obstacle::Waits) => self.waits,
            Some(Obstacle::Failed) => self.failed,
        }
    }
}

impl<W: MakesOwnSteps + Drop> Service<W> {
    ghost use Rattle.service.specs.Retrying.{Retried, goes_on};

    /// Makes a transaction, as `transact` does, and makes it again while it ends as `retries` names and leaves nothing
    /// unsettled. Each time the same work runs in a new top action.
    pub fn transact_with_retries<J: Work<W>>(
        &mut self,
        alloc: Global,
        home: u32,
        retries: &Retries,
        work: &mut J,
    ) -> Transacted<J::Value, J::Error>
    where
        J::Error: MayPass,
        ensures { Retried W.sees J.does (goes_on J.Error.obstacle retries.now) home
            retries.now.times (W.run self.old.world) (W.run self.new.world) work.old work.new
            result }
    {
        for _ in 0..retries.times {
            let ended = self.transact(alloc, home, work);
            if !retries.go_on_after(&ended) {
                return ended;
            }
        }
        self.transact(alloc, home, work)
    }
}
