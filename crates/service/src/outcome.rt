//! How transactions end.
use crate::fault::CallFault;
use layer_contracts::Fault;
use run_model::Refusal;

/// How a transaction ended.
#[derive(Drop)]
pub struct Transacted<T, E> {
    pub outcome: Outcome<T, E>,
    /// Why a step that was to end or tell something came to nothing, if one did. Else each action that it began has
    /// ended, and was told where it ran.
    pub left: Option<CallFault>,
}

/// Whether the top action of a transaction has committed.
#[derive(Drop)]
pub enum Outcome<T, E> {
    /// It has, and this is what the work gave.
    Committed(T),
    /// It has not.
    Aborted(Cause<E>),
}

/// Why a transaction has not committed.
#[derive(Drop)]
pub enum Cause<E> {
    /// The work gave this error.
    Work(E),
    /// A participant voted no.
    Vote,
    /// A step was refused or failed: it could not begin, close, be voted on or be decided.
    Step(CallFault),
}

impl CallFault {
    ghost use Rattle.std.specs.Prelude.{◌≡◌};
    ghost use Rattle.service.specs.Outcomes.{fault_passes};

    /// Whether the same work may come about later, with no help: where it waits, where memory or a store failed, and
    /// where the action was an orphan or a guardian down.
    pub fn may_pass(&self) -> bool
        ensures { result ≡ fault_passes self.now }
    {
        match self {
            CallFault::Waits(_) | CallFault::Failed(Fault::Memory | Fault::Stable) => true,
            CallFault::Refused(why) => matches!(
                why,
                Refusal::Orphan | Refusal::Gone | Refusal::Down | Refusal::Unready
            ),
        }
    }
}
