//! What a thread is given for its step.
ghost use Rattle.std.specs.Prelude.{◌≡◌};

use locked_run::{OfRun, Receipt, Seen};
use run_model::Answer;

/// The answer of a step, and what was seen of the run after it. An accepted step has a receipt, and its event was seen.
/// A step that is refused or waits has none: it was answered at just the run that was seen.
#[derive(Drop)]
pub struct Answered<K: OfRun> {
    pub answer: Answer,
    pub receipt: Option<Receipt<K>>,
    pub seen: Seen<K>,
}

impl<K: OfRun> Answered<K> {
    /// The answer of a step under locks, after which this was seen of the run.
    pub(crate) fn new(given: locked_run::Answered<K>, seen: Seen<K>) -> Answered<K>
        ensures { result
            ≡ record { answer = given.answer; receipt = given.receipt; seen = seen } }
    {
        let locked_run::Answered { answer, receipt } = given;
        Answered {
            answer,
            receipt,
            seen,
        }
    }
}
