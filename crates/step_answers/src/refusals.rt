//! When a step is refused: for each kind of step its refusals in their order.
ghost use Rattle.std.specs.Prelude.{◌≡◌, ◌≤◌, ◌==◌, ◌||◌, length, nat_lt, IfOk, IsTrue};
ghost use Rattle.run_model.specs.declared.step.Step.TheVariants.{Top, NestedTop, Call, Arms, Commit, Close, Prepare, Decide, Abort, Tell, Crash, Recover};
ghost use Rattle.run_model.specs.declared.step.Step.TheVariants as steps;
ghost use Rattle.run_model.specs.Refusals.{checks_by, first_refusal, has_sub, is_past_arms_by};
ghost use Rattle.step_answers.specs.Actors.{IsWorker};
ghost use Rattle.step_answers.specs.Arms.{uses_up};
ghost use Rattle.step_answers.specs.Checks.{actor_checks, worker_checks};
ghost use Rattle.step_answers.specs.Saying.{Said};

use crate::actor::Worker;
use crate::arms::uses_up;
use crate::reads::{Reads, ReadsAction};
use action_names::{MAX_DEPTH, Name};
use limits::MAX_ARMS;
use run_model::{ArmKind, ArmKinds, ObjectId, Op, Opening, Refusal, Step};
use std::alloc::AllocError;

const MAX_NUMBER: u64 = 4294967295;

/// The first refusal of the step that applies.
pub(crate) fn refusal_of<A: Reads>(reads: &A, step: &Step) -> Result<Option<Refusal>, AllocError>
    requires { (s : Said) × A.says reads.now s }
    ensures { (s : Said) → A.says reads.now s
        → IfOk result (λ why. why ≡ first_refusal (checks_by s.opening s.facts step.now)) }
{
    match step {
        Step::Top(guardian) => Ok(of_top(reads, *guardian)),
        Step::NestedTop(name) => of_nested_top(reads, name),
        Step::Call(name, guardian) => of_call(reads, name, *guardian),
        Step::Arms(name, kinds) => of_arms(reads, name, kinds),
        Step::Op(name, object, operation) => refusal_of_operation(reads, name, *object, operation),
        Step::Commit(name) => of_commit(reads, name),
        Step::Close(name) => of_close(reads, name),
        Step::Prepare(guardian, name) => Ok(of_prepare(reads, *guardian, name)),
        Step::Decide(name) => Ok(of_decide(reads, name)),
        Step::Abort(name) => Ok(of_abort(reads, name)),
        Step::Tell(guardian, name) => Ok(of_tell(reads, *guardian, name)),
        Step::Crash(guardian) => Ok(of_crash(reads, *guardian)),
        Step::Recover(guardian) => Ok(of_recover(reads, *guardian)),
    }
}

/// Whether no guardian of the setup has this number.
fn is_no_guardian(opening: &Opening, guardian: u32) -> bool
    ensures { result ≡ ((guardian == 0) || nat_lt (length opening.now.setup) guardian) }
{
    guardian == 0 || guardian as usize > opening.setup().guardians()
}

/// Why the action, which stands so, may do nothing more: it is over, it is busy, or its home crashed.
fn of_worker<A: ReadsAction>(reads: &A, name: &Name, worker: Worker) -> Option<Refusal>
    requires begun { (s : Said) → A.says reads.now s → IsTrue (s.facts.begun name.now) }
    requires worker { (s : Said) → A.says reads.now s
        → IsWorker (s.facts.home name.now) (s.facts.done name.now) (s.facts.busy name.now) worker }
    ensures { (s : Said) → A.says reads.now s
        → result ≡ first_refusal (worker_checks name.now s.facts) }
{
    if worker.done {
        return Some(Refusal::Ended);
    }
    if worker.busy {
        return Some(Refusal::Busy);
    }
    if reads.is_gone(name, worker.home) {
        return Some(Refusal::Gone);
    }
    None
}

/// Why the action may take no step of its own, wherever it is.
fn of_actor<A: ReadsAction>(reads: &A, name: &Name) -> Result<Option<Refusal>, AllocError>
    ensures { (s : Said) → A.says reads.now s
        → IfOk result (λ why. why ≡ first_refusal (actor_checks name.now s.facts)) }
{
    let Some(worker) = reads.worker(name) else {
        return Ok(Some(Refusal::NoAction));
    };
    if let Some(why) = of_worker(reads, name, worker) {
        return Ok(Some(why));
    }
    if reads.is_orphan(name, worker.home)? {
        return Ok(Some(Refusal::Orphan));
    }
    Ok(None)
}

fn of_top<A: Reads>(reads: &A, guardian: u32) -> Option<Refusal>
    ensures { (s : Said) → A.says reads.now s
        → result ≡ first_refusal (checks_by s.opening s.facts (Top guardian)) }
{
    if is_no_guardian(reads.opening(), guardian) {
        return Some(Refusal::NoGuardian);
    }
    if reads.is_down(guardian) {
        return Some(Refusal::Down);
    }
    if reads.next(&[]) > MAX_NUMBER {
        return Some(Refusal::Limit);
    }
    None
}

fn of_nested_top<A: Reads>(reads: &A, name: &Name) -> Result<Option<Refusal>, AllocError>
    ensures { (s : Said) → A.says reads.now s → IfOk result
        (λ why. why ≡ first_refusal (checks_by s.opening s.facts (NestedTop name.now))) }
{
    if let Some(why) = of_actor(reads, name)? {
        return Ok(Some(why));
    }
    if reads.next(&[]) > MAX_NUMBER {
        return Ok(Some(Refusal::Limit));
    }
    Ok(None)
}

fn of_call<A: Reads>(reads: &A, name: &Name, guardian: u32) -> Result<Option<Refusal>, AllocError>
    ensures { (s : Said) → A.says reads.now s → IfOk result
        (λ why. why ≡ first_refusal (checks_by s.opening s.facts (Call name.now guardian))) }
{
    if is_no_guardian(reads.opening(), guardian) {
        return Ok(Some(Refusal::NoGuardian));
    }
    let Some(worker) = reads.worker(name) else {
        return Ok(Some(Refusal::NoAction));
    };
    if let Some(why) = of_worker(reads, name, worker) {
        return Ok(Some(why));
    }
    if reads.is_down(guardian) {
        return Ok(Some(Refusal::Down));
    }
    if reads.is_orphan(name, worker.home)? {
        return Ok(Some(Refusal::Orphan));
    }
    if name.depth() >= MAX_DEPTH {
        return Ok(Some(Refusal::TooDeep));
    }
    if reads.next(name.components()) > MAX_NUMBER {
        return Ok(Some(Refusal::Limit));
    }
    Ok(None)
}

fn of_commit<A: Reads>(reads: &A, name: &Name) -> Result<Option<Refusal>, AllocError>
    ensures { (s : Said) → A.says reads.now s
        → IfOk result (λ why. why ≡ first_refusal (checks_by s.opening s.facts (Commit name.now))) }
{
    if let Some(why) = of_actor(reads, name)? {
        return Ok(Some(why));
    }
    if name.is_top() {
        return Ok(Some(Refusal::NotSub));
    }
    Ok(None)
}

fn of_close<A: Reads>(reads: &A, name: &Name) -> Result<Option<Refusal>, AllocError>
    ensures { (s : Said) → A.says reads.now s
        → IfOk result (λ why. why ≡ first_refusal (checks_by s.opening s.facts (Close name.now))) }
{
    if let Some(why) = of_actor(reads, name)? {
        return Ok(Some(why));
    }
    if !name.is_top() {
        return Ok(Some(Refusal::NotTop));
    }
    Ok(None)
}

fn of_prepare<A: Reads>(reads: &A, guardian: u32, name: &Name) -> Option<Refusal>
    ensures { (s : Said) → A.says reads.now s
        → result ≡ first_refusal (checks_by s.opening s.facts (Prepare guardian name.now)) }
{
    if is_no_guardian(reads.opening(), guardian) {
        return Some(Refusal::NoGuardian);
    }
    let Some(actor) = reads.actor(name) else {
        return Some(Refusal::NoAction);
    };
    if actor.status.has_ended() {
        return Some(Refusal::Ended);
    }
    if reads.is_gone(name, actor.home) {
        return Some(Refusal::Gone);
    }
    if reads.is_down(guardian) {
        return Some(Refusal::Down);
    }
    if !reads.takes_part(guardian, name) {
        return Some(Refusal::Elsewhere);
    }
    if !name.is_top() {
        return Some(Refusal::NotTop);
    }
    if !actor.status.is_closed() {
        return Some(Refusal::NotClosed);
    }
    if reads.has_voted(guardian, name) {
        return Some(Refusal::Already);
    }
    None
}

fn of_decide<A: Reads>(reads: &A, name: &Name) -> Option<Refusal>
    ensures { (s : Said) → A.says reads.now s
        → result ≡ first_refusal (checks_by s.opening s.facts (Decide name.now)) }
{
    let Some(actor) = reads.actor(name) else {
        return Some(Refusal::NoAction);
    };
    if actor.status.has_ended() {
        return Some(Refusal::Ended);
    }
    if reads.is_gone(name, actor.home) {
        return Some(Refusal::Gone);
    }
    if !name.is_top() {
        return Some(Refusal::NotTop);
    }
    if !actor.status.is_closed() {
        return Some(Refusal::NotClosed);
    }
    if !reads.is_ready(name) {
        return Some(Refusal::Unready);
    }
    None
}

fn of_abort<A: Reads>(reads: &A, name: &Name) -> Option<Refusal>
    ensures { (s : Said) → A.says reads.now s
        → result ≡ first_refusal (checks_by s.opening s.facts (Abort name.now)) }
{
    let Some(actor) = reads.actor(name) else {
        return Some(Refusal::NoAction);
    };
    if actor.status.has_ended() {
        return Some(Refusal::Ended);
    }
    None
}

fn of_tell<A: Reads>(reads: &A, guardian: u32, name: &Name) -> Option<Refusal>
    ensures { (s : Said) → A.says reads.now s
        → result ≡ first_refusal (checks_by s.opening s.facts (Tell guardian name.now)) }
{
    if is_no_guardian(reads.opening(), guardian) {
        return Some(Refusal::NoGuardian);
    }
    let Some(actor) = reads.actor(name) else {
        return Some(Refusal::NoAction);
    };
    if reads.is_down(guardian) {
        return Some(Refusal::Down);
    }
    if !actor.status.has_ended() {
        return Some(Refusal::NotSo);
    }
    if reads.was_told(guardian, name) {
        return Some(Refusal::Already);
    }
    None
}

fn of_crash<A: Reads>(reads: &A, guardian: u32) -> Option<Refusal>
    ensures { (s : Said) → A.says reads.now s
        → result ≡ first_refusal (checks_by s.opening s.facts (Crash guardian)) }
{
    if is_no_guardian(reads.opening(), guardian) {
        return Some(Refusal::NoGuardian);
    }
    if reads.is_down(guardian) {
        return Some(Refusal::Down);
    }
    None
}

fn of_recover<A: Reads>(reads: &A, guardian: u32) -> Option<Refusal>
    ensures { (s : Said) → A.says reads.now s
        → result ≡ first_refusal (checks_by s.opening s.facts (Recover guardian)) }
{
    if is_no_guardian(reads.opening(), guardian) {
        return Some(Refusal::NoGuardian);
    }
    if !reads.is_down(guardian) {
        return Some(Refusal::IsUp);
    }
    None
}

fn of_arms<A: Reads>(
    reads: &A,
    name: &Name,
    kinds: &ArmKinds,
) -> Result<Option<Refusal>, AllocError>
    requires { (s : Said) × A.says reads.now s }
    ensures { (s : Said) → A.says reads.now s → IfOk result
        (λ why. why ≡ first_refusal (checks_by s.opening s.facts (Arms name.now kinds.now))) }
{
    if let Some(why) = of_actor(reads, name)? {
        return Ok(Some(why));
    }
    if has_sub(kinds.as_slice()) && name.depth() >= MAX_DEPTH {
        return Ok(Some(Refusal::TooDeep));
    }
    if is_past_arms(reads, name, kinds) {
        return Ok(Some(Refusal::Limit));
    }
    Ok(None)
}

fn has_sub(kinds: &[ArmKind]) -> bool
    ensures { result ≡ has_sub kinds.now }
{
    kinds.iter().any(|kind| matches!(kind, ArmKind::Sub))
}

/// Whether there are no arms, too many, or no numbers for them.
fn is_past_arms<A: Reads>(reads: &A, name: &Name, kinds: &ArmKinds) -> bool
    requires { (s : Said) × A.says reads.now s }
    ensures { (s : Said) → A.says reads.now s
        → result ≡ is_past_arms_by s.facts.next name.now kinds.now }
{
    if kinds.is_empty() || kinds.len() > MAX_ARMS {
        return true;
    }
    let child = reads.next(name.components());
    let top = reads.next(&[]);
    uses_up(child, top, kinds.as_slice())
}

/// The first refusal of an operation that applies.
pub(crate) fn refusal_of_operation<A: ReadsAction>(
    reads: &A,
    name: &Name,
    object: ObjectId,
    operation: &Op,
) -> Result<Option<Refusal>, AllocError>
    ensures { (s : Said) → A.says reads.now s → IfOk result (λ why. why ≡ first_refusal
        (checks_by s.opening s.facts (steps.Op name.now object operation.now))) }
{
    let opening = reads.opening();
    if is_no_guardian(opening, object.guardian) {
        return Ok(Some(Refusal::NoGuardian));
    }
    let Some(worker) = reads.worker(name) else {
        return Ok(Some(Refusal::NoAction));
    };
    if !opening.has_object(object) {
        return Ok(Some(Refusal::NoObject));
    }
    if let Some(why) = of_worker(reads, name, worker) {
        return Ok(Some(why));
    }
    if object.guardian != worker.home {
        return Ok(Some(Refusal::Elsewhere));
    }
    if reads.is_orphan(name, worker.home)? {
        return Ok(Some(Refusal::Orphan));
    }
    if !opening.knows(object, operation) {
        return Ok(Some(Refusal::BadOp));
    }
    Ok(None)
}
