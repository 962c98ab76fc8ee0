//! The answer of a step, written once for every reading of what happened: the table of refusals, and what is answered
//! where none applies.
//!
//! A reading is a record of facts. The flat history is one, a guardian's own history another, and what a step is lent
//! a third.
#![tactic(auto)]

ghost use Rattle.std.specs.Prelude.{◌≡◌, IfOk};
ghost use Rattle.run_model.specs.declared.step.Step.TheVariants as steps;
ghost use Rattle.run_model.specs.Answers.{answer_by};
ghost use Rattle.step_answers.specs.Saying.{Said};

mod actor;
mod arms;
mod outcomes;
mod reads;
mod refusals;

pub use actor::{Actor, Status, Worker};
use outcomes::outcome_of;
pub use reads::{Reads, ReadsAction};
use refusals::{refusal_of, refusal_of_operation};
use run_model::{Answer, Name, ObjectId, Op, Step};
use std::alloc::AllocError;

/// The answer of a step by this reading: its first refusal, or what comes of it.
pub fn answer_of<A: Reads>(reads: &A, step: &Step) -> Result<Answer, AllocError>
    requires { (s : Said) × A.says reads.now s }
    ensures { (s : Said) → A.says reads.now s
        → IfOk result (λ answer. answer ≡ answer_by s.opening s.facts s.results step.now) }
{
    match refusal_of(reads, step)? {
        Some(why) => Ok(Answer::Refused(why)),
        None => outcome_of(reads, step),
    }
}

/// The answer of an operation by this reading.
pub fn operation_of<A: ReadsAction>(
    reads: &A,
    action: &Name,
    object: ObjectId,
    operation: &Op,
) -> Result<Answer, AllocError>
    requires { (s : Said) × A.says reads.now s }
    ensures { (s : Said)
        → A.says reads.now s → IfOk result (λ answer. answer ≡ answer_by s.opening s.facts s.results
        (steps.Op action.now object operation.now)) }
{
    match refusal_of_operation(reads, action, object, operation)? {
        Some(why) => Ok(Answer::Refused(why)),
        None => reads.operated(action, object, operation),
    }
}
