//! Transactions of two works at once.
ghost use Rattle.std.specs.Prelude.{◌≡◌, true, Result};
ghost use Rattle.service.specs.Together.{RunsBoth, TransactsTogether, WorkTogether, both_given};
ghost use Rattle.service.specs.Transacting.{Includes, RunsTop, TransactsAt, Works, began_at};
ghost use Rattle.service.specs.Working.{IsOutcomeOf};

use crate::arms::RunsArms;
use crate::fault::CallFault;
use crate::outcome::{Cause, Outcome, Transacted};
use crate::place::Place;
use crate::service::Service;
use crate::together::together_in;
use crate::top::{begin_top, end_top, outcome};
use crate::transaction::Work;
use std::alloc::Global;

impl<W: RunsArms> Service<W> {
    /// Runs two works at once in a new top action at this home, each in an arm of it, and then ends the action by two
    /// phases: it commits if both works succeed and all guardians that they reached vote yes. Else it is aborted. Each
    /// of these guardians is told. The error is that of the first work that failed, in the order given.
    pub fn transact_together<
        J: Work<W, Error = E> + Send,
        K: Work<W, Error = E> + Send,
        E: Drop + Send + From<CallFault>,
    >(
        &mut self,
        alloc: Global,
        home: u32,
        one: &mut J,
        other: &mut K,
    ) -> Transacted<(J::Value, K::Value), E>
    where
        J::Value: Send,
        K::Value: Send,
        ensures ended { TransactsAt W.sees home (W.run self.old.world) (W.run self.new.world)
            result }
        ensures once { TransactsTogether W.sees J.does K.does E.from_gives home
            (W.run self.old.world) (W.run self.new.world) one.old one.new other.old other.new
            result.outcome }
    {
        match begin_top(self, alloc, home) {
            Ok(at) => run_both(self, alloc, at, one, other),
            Err(fault) => Transacted {
                outcome: Outcome::Aborted(Cause::Step(fault)),
                left: None,
            },
        }
    }
}

/// Runs both works in a top action that has begun, and then ends the action by two phases: it commits if both works
/// succeed and all guardians that they reached vote yes. Else it is aborted. Each of these guardians is told.
fn run_both<
    W: RunsArms,
    J: Work<W, Error = E> + Send,
    K: Work<W, Error = E> + Send,
    E: Drop + Send + From<CallFault>,
>(
    service: &mut Service<W>,
    alloc: Global,
    at: Place,
    one: &mut J,
    other: &mut K,
) -> Transacted<(J::Value, K::Value), E>
where
    J::Value: Send,
    K::Value: Send,
    requires there { began_at at.home at.action (W.run service.old.world).past ≡ true }
    ensures runs { ∥ RunsTop W.sees at (W.run service.old.world) (W.run service.new.world)
        result ∥₁ }
    ensures once { (done : Result (J.Value × K.Value) E) × IsOutcomeOf done result.outcome
        × RunsBoth W.sees J.does K.does E.from_gives at.action (W.run service.old.world)
        (W.run service.new.world) one.old one.new other.old other.new done }
{
    let mut at = at;
    let done = both_in(service, &mut at, alloc, one, other);
    let (decided, left) = end_top(service, at, done.is_ok());
    Transacted {
        outcome: outcome(done, decided),
        left,
    }
}

/// Runs both works at once, each in an arm of the action. Gives both values, or else the first error.
fn both_in<
    W: RunsArms,
    J: Work<W, Error = E> + Send,
    K: Work<W, Error = E> + Send,
    E: Drop + Send + From<CallFault>,
>(
    service: &mut Service<W>,
    at: &mut Place,
    alloc: Global,
    one: &mut J,
    other: &mut K,
) -> Result<(J::Value, K::Value), E>
where
    J::Value: Send,
    K::Value: Send,
    requires there { began_at at.old.home at.old.action (W.run service.old.world).past ≡ true }
    ensures action { at.new.action ≡ at.old.action }
    ensures reached { Includes at.old.reached.items at.new.reached.items }
    ensures works { ∥ Works W.sees at.old.action (W.run service.old.world) (W.run service.new.world)
        at.old.left at.new.left ∥₁ }
    ensures ran { WorkTogether W.sees J.does K.does E.from_gives at.old.action
        (W.run service.old.world) (W.run service.new.world) one.old one.new other.old other.new
        result }
{
    let (gave, also_gave) = together_in(service, at, alloc, one, other)?;
    both_of(gave, also_gave)
}

/// Both values, or else the first error.
fn both_of<T: Drop, U: Drop, E: Drop>(one: Result<T, E>, other: Result<U, E>) -> Result<(T, U), E>
    ensures { result ≡ both_given one other }
{
    match (one, other) {
        (Ok(one), Ok(other)) => Ok((one, other)),
        (Ok(_), Err(error)) => Err(error),
        (Err(error), _) => Err(error),
    }
}
