//! What a step is answered where nothing refuses it.
ghost use Rattle.std.specs.Prelude.{◌≡◌, ◌≤◌, false, [], ◌∷◌, None, IfOk, if◌then◌else◌};
ghost use Rattle.action_names.specs.Names.{child_of};
ghost use Rattle.run_model.specs.declared.answer.Answer.TheVariants.{Began};
ghost use Rattle.run_model.specs.Refusals.{checks_by, first_refusal, is_past_arms_by, arm_names, max_number};
ghost use Rattle.run_model.specs.Answers.{outcome_by};
ghost use Rattle.step_answers.specs.Saying.{Said};

use crate::arms::{arm_names, child_name, top_name};
use crate::reads::Reads;
use action_names::{Name, Names};
use run_model::{Answer, ArmKinds, Step};
use std::alloc::{AllocError, Global};

/// The answer of a step that nothing refuses.
pub(crate) fn outcome_of<A: Reads>(reads: &A, step: &Step) -> Result<Answer, AllocError>
    requires some { (s : Said) × A.says reads.now s }
    requires accepted { (s : Said) → A.says reads.now s
        → first_refusal (checks_by s.opening s.facts step.now) ≡ None }
    ensures { (s : Said) → A.says reads.now s
        → IfOk result (λ answer. answer ≡ outcome_by s.facts.next s.results step.now) }
{
    match step {
        Step::Top(_) => begin_top(reads),
        Step::NestedTop(_) => begin_top(reads),
        Step::Call(name, _) => begin_child(reads, name),
        Step::Arms(name, kinds) => begin_arms(reads, name, kinds),
        Step::Op(name, object, operation) => reads.operated(name, *object, operation),
        Step::Prepare(guardian, name) => {
            if reads.votes_yes(*guardian, name) {
                Ok(Answer::VoteYes)
            } else {
                Ok(Answer::VoteNo)
            }
        }
        Step::Tell(guardian, name) => Ok(Answer::Done(reads.told_count(*guardian, name)?)),
        Step::Commit(_) => Ok(Answer::Done(0)),
        Step::Close(_) => Ok(Answer::Done(0)),
        Step::Decide(_) => Ok(Answer::Done(0)),
        Step::Abort(_) => Ok(Answer::Done(0)),
        Step::Crash(_) => Ok(Answer::Done(0)),
        Step::Recover(_) => Ok(Answer::Done(0)),
    }
}

/// The answer that one action begins.
fn began(alloc: Global, name: Name) -> Result<Answer, AllocError>
    ensures { IfOk result (λ answer. answer ≡ Began (name ∷ [])) }
{
    let mut names = Names::new(alloc);
    names.push(name)?;
    Ok(Answer::Began(names))
}

fn begin_top<A: Reads>(reads: &A) -> Result<Answer, AllocError>
    requires some { (s : Said) × A.says reads.now s }
    requires left { (s : Said) → A.says reads.now s → s.facts.next [] ≤ max_number }
    ensures { (s : Said) → A.says reads.now s
        → IfOk result (λ answer. answer ≡ Began ((s.facts.next [] ∷ []) ∷ [])) }
{
    let name = top_name(reads.alloc(), reads.next(&[]))?;
    began(reads.alloc(), name)
}

fn begin_child<A: Reads>(reads: &A, parent: &Name) -> Result<Answer, AllocError>
    requires some { (s : Said) × A.says reads.now s }
    requires left { (s : Said) → A.says reads.now s → s.facts.next parent.now ≤ max_number }
    ensures { (s : Said) → A.says reads.now s → IfOk result
        (λ answer. answer ≡ Began (child_of parent.now (s.facts.next parent.now) ∷ [])) }
{
    let name = child_name(parent, reads.next(parent.components()))?;
    began(reads.alloc(), name)
}

fn begin_arms<A: Reads>(reads: &A, parent: &Name, kinds: &ArmKinds) -> Result<Answer, AllocError>
    requires some { (s : Said) × A.says reads.now s }
    requires left { (s : Said) → A.says reads.now s
        → is_past_arms_by s.facts.next parent.now kinds.now ≡ false }
    ensures { (s : Said) → A.says reads.now s
        → IfOk result (λ answer. answer ≡ Began (arm_names parent.now
        (s.facts.next parent.now) (s.facts.next []) kinds.now)) }
{
    let child = reads.next(parent.components());
    let top = reads.next(&[]);
    let names = arm_names(reads.alloc(), parent, child, top, kinds.as_slice())?;
    Ok(Answer::Began(names))
}
