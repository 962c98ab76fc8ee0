//! What is asked of a world in which steps are made, and of who makes the steps of one caller.
#![tactic(auto)]

ghost use Rattle.stepping.specs.Beside.{AnswersAlone};

mod makes;
mod makes_own;

pub use layer_contracts::Fault;
pub use makes::MakesSteps;
pub use makes_own::MakesOwnSteps;

/// A caller that is alone is answered at its own events, which are a run.
pub fn answers_alone()
    ensures { AnswersAlone }
{}
