//! What a guardian does by itself: operations of actions at home there, its own crash and recovery.
ghost use Rattle.std.specs.Prelude.{◌≡◌, ◌==◌, ◌||◌, ◌<◌, [], false, true, IfOk, IsErrOf, IsTrue, MatchOption, OnErr};
ghost use Rattle.one_run.specs.Pieces.{first_left, seen_of};
ghost use Rattle.one_run.specs.Rules.{Adds, others_of};
ghost use Rattle.run_model.specs.Actions.{names_begun};
ghost use Rattle.run_model.specs.Answers.{answer_of};
ghost use Rattle.run_model.specs.Runs.{IsRun, is_accepted};
ghost use Rattle.layer_contracts.specs.Guardians.{GuardianState, IsNext, by_itself, kept, stamped};
ghost use Rattle.layer_contracts.specs.Messages.{is_operation, is_turn};
ghost use Rattle.layer_contracts.specs.Stores.{CountsFailure, LeavesStore, fault_in};
ghost use Rattle.layer_contracts.specs.declared.guardian.Fault.TheVariants.{Stable};
ghost use Rattle.world_steps.specs.Keeping.{StandsStill};
ghost use Rattle.shared_run.specs.Places.{touches};
ghost use Rattle.locked_run.specs.Acting.{HasMoved, IsAnswered, StoreAfter, is_own, kept_outcome, outcome_of};
ghost use Rattle.locked_run.specs.Own.{is_own_here, own_answer, turned};
ghost use Rattle.locked_run.specs.Parts.{HasGuardian, HasStore};
ghost use Rattle.locked_run.specs.Stored.{guardian_events};

use crate::naming::is_out;
use crate::shared::{Answered, Deed, Drawing, OfRun, Shared};
use crate::stepping::receipted;
use crate::stored::StoredHistory;
use layer_contracts::{Draw, EventRef, Fault, Guardian};
use one_run::Part;
use run_model::{Answer, Event, Refusal, Step};
use std::alloc::AllocError;
use std::marker::{Brand, PhantomData};
use world_steps::answer_here;

/// Done, unless this forbids it.
fn turned<G: Guardian>(guardian: &G, number: u32, forbidden: bool, reason: Refusal) -> Answer
    ensures { (s : GuardianState) → G.stands guardian.now s → s.number ≡ number
        → result ≡ turned s forbidden reason }
{
    if is_out(guardian.opening().setup().guardians(), number) {
        return Answer::Refused(Refusal::NoGuardian);
    }
    if forbidden {
        return Answer::Refused(reason);
    }
    Answer::Done(0)
}

/// What a guardian, which has this number, answers to a step of its own. `None` if the step is not.
fn answer_own<G: Guardian>(
    guardian: &G,
    number: u32,
    step: &Step,
) -> Result<Option<Answer>, AllocError>
    ensures { (s : GuardianState) → G.stands guardian.now s → s.number ≡ number
        → IfOk result (λ r. MatchOption r (is_own_here s step.now ≡ false)
        (λ answer. (is_own_here s step.now ≡ true) × (answer ≡ own_answer s step.now))) }
{
    match step {
        Step::Op(action, object, operation) => {
            if !guardian.is_there(action) {
                return Ok(None);
            }
            Ok(Some(answer_here(guardian, action, *object, operation)?))
        }
        Step::Crash(at) if *at == number => {
            let down = guardian.is_down();
            Ok(Some(turned(guardian, number, down, Refusal::Down)))
        }
        Step::Recover(at) if *at == number => {
            let up = !guardian.is_down();
            Ok(Some(turned(guardian, number, up, Refusal::IsUp)))
        }
        _ => Ok(None),
    }
}

fn is_operation(step: &Step) -> bool
    ensures { result ≡ is_operation step.now }
{
    matches!(step, Step::Op(..))
}

/// Keeps an event that comes without a message. After an error the guardian stands where it stood.
fn keep_by_itself<G: Guardian, D: Draw>(
    guardian: &mut G,
    event: &EventRef<'_>,
    stamp: &mut D,
) -> Result<u64, Fault>
    requires stamp { D.may_draw stamp.old }
    requires next { (s : GuardianState) × G.stands guardian.old s × IsNext s (by_itself event.now) }
    requires own { IsTrue (is_operation event.now.step || is_turn event.now.step) }
    requires begins { names_begun event.now.answer ≡ [] }
    ensures drawn { IfOk result (λ n. D.draws stamp.old n stamp.new) }
    ensures undrawn { OnErr result (stamp.new ≡ stamp.old) }
    ensures kept { IfOk result (λ n. (s : GuardianState) → G.stands guardian.old s
        → IsNext s (by_itself event.now)
        → G.stands guardian.new (kept s (stamped n (by_itself event.now)))) }
    ensures same { OnErr result (StandsStill (G.stands guardian.old) (G.stands guardian.new)) }
    ensures store { (s : GuardianState) → G.stands guardian.old s → IsNext s (by_itself event.now)
        → LeavesStore s (by_itself event.now) (G.stored guardian.old)
        (G.stored guardian.new) (fault_in result) }
    ensures cause { IsErrOf result Stable → CountsFailure (G.stored guardian.old)
        (G.stored guardian.new) }
{
    // Its store is that of its history.
    guardian.number();
    if is_operation(event.step) {
        return Ok(guardian.operate(event, stamp)?);
    }
    guardian.plan_turn(event)?;
    guardian.carry_out(event, stamp)
}

/// Keeps an event of a guardian by itself, which has this number, and adds it to the run. After an error
/// it stands where it stood, and nothing was added.
fn keep_own<K: OfRun, T: Deed, G: Guardian>(
    shared: &Shared<K>,
    guardian: &mut G,
    number: u32,
    part: Part<Event>,
    event: &EventRef<'_>,
) -> (Part<Event>, Result<u64, Fault>)
    requires table { part.token.table_id ≡ K.table }
    requires left { 0 < first_left part.token.me.0 }
    requires deed { T.event ≡ event.now }
    requires own { is_own number event.now.step (seen_of part.token.me.0) ≡ true }
    requires here { HasGuardian K.opening (G.stands guardian.old) number part.token.me.0 }
    requires answered { event.now.answer
        ≡ answer_of K.opening event.now.step (seen_of part.token.me.0) }
    requires accepted { IsTrue (is_accepted event.now.answer) }
    ensures table { result.0.token.table_id ≡ K.table }
    ensures added { IfOk result.1 (λ stamp. Adds (IsRun K.opening) touches event.now
        part.token.me.0 stamp result.0.token.me.0) }
    ensures here { IfOk result.1 (λ stamp. HasGuardian K.opening (G.stands guardian.new) number
        (others_of result.0.token.me.0)) }
    ensures same { OnErr result.1 (result.0.token.me.0 ≡ part.token.me.0) }
    ensures err { OnErr result.1
        (HasGuardian K.opening (G.stands guardian.new) number part.token.me.0) }
    ensures store { StoreAfter K.opening event.now.step (kept_outcome result.1)
        (seen_of result.0.token.me.0) number (G.stored guardian.old) (G.stored guardian.new) }
    ensures cause { IsErrOf result.1 Stable → CountsFailure (G.stored guardian.old)
        (G.stored guardian.new) }
{
    let mut drawing = Drawing::<K, T> {
        shared,
        part,
        of: PhantomData,
    };
    let kept = keep_by_itself(guardian, event, &mut drawing);
    let Drawing {
        shared: _,
        part,
        of: _,
    } = drawing;
    match kept {
        Ok(stamp) => (part, Ok(stamp)),
        Err(fault) => (part, Err(fault)),
    }
}

/// A step of a guardian by itself, which has this number. `None`, and nothing is changed, if it needs more
/// than the guardian.
pub(crate) fn step_own<K: OfRun, G: Guardian>(
    shared: &Shared<K>,
    guardian: &mut G,
    number: u32,
    history: &mut StoredHistory,
    part: Part<Event>,
    step: &Step,
) -> (Part<Event>, Result<Option<Answered<K>>, Fault>)
    requires table { part.token.table_id ≡ K.table }
    requires left { 0 < first_left part.token.me.0 }
    requires here { HasGuardian K.opening (G.stands guardian.old) number part.token.me.0 }
    requires kept { history.old ≡ guardian_events K.opening (seen_of part.token.me.0) number }
    requires store { HasStore (G.stored guardian.old) }
    ensures table { result.0.token.table_id ≡ K.table }
    ensures moved { HasMoved (outcome_of (λ a. a.receipt) result.1) part.token.me.0
        result.0.token.me.0 }
    ensures here { HasGuardian K.opening (G.stands guardian.new) number result.0.token.me.0 }
    ensures kept { history.new ≡ guardian_events K.opening (seen_of result.0.token.me.0) number }
    ensures answered { IfOk result.1 (λ r. MatchOption r
        (is_own number step.now (seen_of result.0.token.me.0) ≡ false)
        (λ a. IsAnswered K.opening step.now a.answer a.receipt (seen_of result.0.token.me.0))) }
    ensures store { StoreAfter K.opening step.now (outcome_of (λ a. a.receipt) result.1)
        (seen_of result.0.token.me.0) number (G.stored guardian.old) (G.stored guardian.new) }
    ensures cause { IsErrOf result.1 Stable → CountsFailure (G.stored guardian.old)
        (G.stored guardian.new) }
{
    match answer_own(&*guardian, number, step) {
        Err(_refused) => (part, Err(Fault::Memory)),
        Ok(None) => (part, Ok(None)),
        Ok(Some(answer)) => finish_own(shared, guardian, number, history, part, step, answer),
    }
}

/// Keeps the step if it was accepted.
fn finish_own<K: OfRun, G: Guardian>(
    shared: &Shared<K>,
    guardian: &mut G,
    number: u32,
    history: &mut StoredHistory,
    part: Part<Event>,
    step: &Step,
    answer: Answer,
) -> (Part<Event>, Result<Option<Answered<K>>, Fault>)
    requires table { part.token.table_id ≡ K.table }
    requires left { 0 < first_left part.token.me.0 }
    requires own { is_own number step.now (seen_of part.token.me.0) ≡ true }
    requires here { HasGuardian K.opening (G.stands guardian.old) number part.token.me.0 }
    requires kept { history.old ≡ guardian_events K.opening (seen_of part.token.me.0) number }
    requires answered { answer ≡ answer_of K.opening step.now (seen_of part.token.me.0) }
    requires store { HasStore (G.stored guardian.old) }
    ensures table { result.0.token.table_id ≡ K.table }
    ensures moved { HasMoved (outcome_of (λ a. a.receipt) result.1) part.token.me.0
        result.0.token.me.0 }
    ensures here { HasGuardian K.opening (G.stands guardian.new) number result.0.token.me.0 }
    ensures kept { history.new ≡ guardian_events K.opening (seen_of result.0.token.me.0) number }
    ensures answered { IfOk result.1 (λ r. MatchOption r
        (is_own number step.now (seen_of result.0.token.me.0) ≡ false)
        (λ a. IsAnswered K.opening step.now a.answer a.receipt (seen_of result.0.token.me.0))) }
    ensures store { StoreAfter K.opening step.now (outcome_of (λ a. a.receipt) result.1)
        (seen_of result.0.token.me.0) number (G.stored guardian.old) (G.stored guardian.new) }
    ensures cause { IsErrOf result.1 Stable → CountsFailure (G.stored guardian.old)
        (G.stored guardian.new) }
{
    if !answer.is_accepted() {
        return (part, Ok(Some(Answered::without_event(answer))));
    }
    let event = EventRef {
        step,
        answer: &answer,
    };
    if history.push(&event, 0).is_err() {
        return (part, Err(Fault::Memory));
    }
    let (part, kept) = keep_own::<K, Brand, G>(shared, guardian, number, part, &event);
    history.settle(&kept);
    match kept {
        Err(fault) => (part, Err(fault)),
        Ok(stamp) => {
            let (part, answered) = receipted(shared, part, answer, stamp);
            (part, Ok(Some(answered)))
        }
    }
}
