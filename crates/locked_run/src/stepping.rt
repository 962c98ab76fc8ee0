//! Steps of what is locked, whose parts have seen one run.
ghost use Rattle.std.specs.Prelude.{◌≡◌, ◌==◌, ◌<◌, ◌≤◌, ◌⊎◌, ◌∷◌, [], false, length, IfOk, IsErrOf};
ghost use Rattle.std.specs.Prelude.{IsTrue, MatchOption, None, Some};
ghost use Rattle.one_run.specs.Pieces.{first_left, owner, seen_of};
ghost use Rattle.one_run.specs.Rules.{first_of, others_of};
ghost use Rattle.run_model.specs.Answers.{answer_of};
ghost use Rattle.run_model.specs.Runs.{IsRun};
ghost use Rattle.layer_contracts.specs.Stores.{CountsFailure};
ghost use Rattle.layer_contracts.specs.declared.guardian.Fault.TheVariants.{Stable};
ghost use Rattle.world_steps.specs.Naming.{AreNamed};
ghost use Rattle.world_steps.specs.Standings.{Names, forest_of};
ghost use Rattle.locked_run.specs.Acting.{HasMoved, IsAnswered, StoreAfter, names_nobody};
ghost use Rattle.locked_run.specs.Acting.{names_one, names_two, outcome_of};
ghost use Rattle.locked_run.specs.Parts.{AreKept, AreLocked, HasRegistry, HasStore};

use crate::keeping::{keep_at_one, keep_at_two};
use crate::naming::{names_nobody, names_one, names_two};
use crate::recording::{RecordsOfOne, RecordsOfTwo};
use crate::shared::{Answered, OfRun, Receipt, Shared};
use layer_contracts::{Fault, Forest, Guardian};
use one_run::Part;
use run_model::{Answer, Event, EventRef, Step};
use std::alloc::{AllocError, Global};
use std::marker::Brand;
use world_steps::{NamedGuardians, answer_alone, answer_two, named};

/// A step of two guardians, which have these numbers, and the registry. `None`, and nothing is
/// changed, if the step does not name just these two.
pub(crate) fn step_two<K: OfRun, R: Forest, G: Guardian>(
    alloc: Global,
    shared: &Shared<K>,
    registry: &mut R,
    one: &mut G,
    other: &mut G,
    low: u32,
    high: u32,
    records: &mut RecordsOfTwo,
    part: Part<Event>,
    step: &Step,
) -> (Part<Event>, Result<Option<Answered<K>>, Fault>)
    requires table { part.token.table_id ≡ K.table }
    requires left { 0 < first_left part.token.me.0 }
    requires apart { (low == high) ≡ false }
    requires locked { AreLocked K.opening (R.stands registry.old) (G.stands one.old)
        (G.stands other.old) low high part.token.me.0 }
    requires kept { AreKept K.opening low high (seen_of part.token.me.0) records.old.one.now
        records.old.other.now records.old.registry.now }
    requires first_store { HasStore (G.stored one.old) }
    requires second_store { HasStore (G.stored other.old) }
    ensures table { result.0.token.table_id ≡ K.table }
    ensures moved { HasMoved (outcome_of (λ a. a.receipt) result.1) part.token.me.0
        result.0.token.me.0 }
    ensures locked { AreLocked K.opening (R.stands registry.new) (G.stands one.new)
        (G.stands other.new) low high result.0.token.me.0 }
    ensures lent { (records.new.one.ghost_name ≡ records.old.one.ghost_name)
        × (records.new.other.ghost_name ≡ records.old.other.ghost_name)
        × (records.new.registry.ghost_name ≡ records.old.registry.ghost_name) }
    ensures kept { AreKept K.opening low high (seen_of result.0.token.me.0) records.new.one.now
        records.new.other.now records.new.registry.now }
    ensures answered { IfOk result.1 (λ r. MatchOption r
        (names_two step.now (seen_of result.0.token.me.0) low high ≡ false)
        (λ a. IsAnswered K.opening step.now a.answer a.receipt (seen_of result.0.token.me.0))) }
    ensures first_store { StoreAfter K.opening step.now (outcome_of (λ a. a.receipt) result.1)
        (seen_of result.0.token.me.0) low (G.stored one.old) (G.stored one.new) }
    ensures second_store { StoreAfter K.opening step.now (outcome_of (λ a. a.receipt) result.1)
        (seen_of result.0.token.me.0) high (G.stored other.old) (G.stored other.new) }
    ensures cause { IsErrOf result.1 Stable → CountsFailure (G.stored one.old) (G.stored one.new)
        ⊎ CountsFailure (G.stored other.old) (G.stored other.new) }
{
    let named = named(registry, step);
    if !names_two(named, low, high) {
        return (part, Ok(None));
    }
    match answer_two(alloc, &*registry, &*one, &*other, step) {
        Err(_refused) => (part, Err(Fault::Memory)),
        Ok(answer) => finish_two(
            alloc, shared, registry, one, other, low, high, records, part, named, step, answer,
        ),
    }
}

/// Keeps the step if it was accepted.
fn finish_two<K: OfRun, R: Forest, G: Guardian>(
    alloc: Global,
    shared: &Shared<K>,
    registry: &mut R,
    one: &mut G,
    other: &mut G,
    low: u32,
    high: u32,
    records: &mut RecordsOfTwo,
    part: Part<Event>,
    named: NamedGuardians,
    step: &Step,
    answer: Answer,
) -> (Part<Event>, Result<Option<Answered<K>>, Fault>)
    requires table { part.token.table_id ≡ K.table }
    requires left { 0 < first_left part.token.me.0 }
    requires named { AreNamed (R.stands registry.old) step.now named }
    requires apart { (low == high) ≡ false }
    requires names { Names (forest_of K.opening (seen_of part.token.me.0)) step.now low high }
    requires locked { AreLocked K.opening (R.stands registry.old) (G.stands one.old)
        (G.stands other.old) low high part.token.me.0 }
    requires kept { AreKept K.opening low high (seen_of part.token.me.0) records.old.one.now
        records.old.other.now records.old.registry.now }
    requires answered { answer ≡ answer_of K.opening step.now (seen_of part.token.me.0) }
    requires first_store { HasStore (G.stored one.old) }
    requires second_store { HasStore (G.stored other.old) }
    ensures table { result.0.token.table_id ≡ K.table }
    ensures moved { HasMoved (outcome_of (λ a. a.receipt) result.1) part.token.me.0
        result.0.token.me.0 }
    ensures locked { AreLocked K.opening (R.stands registry.new) (G.stands one.new)
        (G.stands other.new) low high result.0.token.me.0 }
    ensures lent { (records.new.one.ghost_name ≡ records.old.one.ghost_name)
        × (records.new.other.ghost_name ≡ records.old.other.ghost_name)
        × (records.new.registry.ghost_name ≡ records.old.registry.ghost_name) }
    ensures kept { AreKept K.opening low high (seen_of result.0.token.me.0) records.new.one.now
        records.new.other.now records.new.registry.now }
    ensures answered { IfOk result.1 (λ r. MatchOption r
        (names_two step.now (seen_of result.0.token.me.0) low high ≡ false)
        (λ a. IsAnswered K.opening step.now a.answer a.receipt (seen_of result.0.token.me.0))) }
    ensures first_store { StoreAfter K.opening step.now (outcome_of (λ a. a.receipt) result.1)
        (seen_of result.0.token.me.0) low (G.stored one.old) (G.stored one.new) }
    ensures second_store { StoreAfter K.opening step.now (outcome_of (λ a. a.receipt) result.1)
        (seen_of result.0.token.me.0) high (G.stored other.old) (G.stored other.new) }
    ensures cause { IsErrOf result.1 Stable → CountsFailure (G.stored one.old) (G.stored one.new)
        ⊎ CountsFailure (G.stored other.old) (G.stored other.new) }
{
    if !answer.is_accepted() {
        return (part, Ok(Some(Answered::without_event(answer))));
    }
    let event = EventRef {
        step,
        answer: &answer,
    };
    if records.push(&event).is_err() {
        return (part, Err(Fault::Memory));
    }
    let (part, kept) = keep_at_two::<K, Brand, R, G>(
        alloc, shared, registry, one, other, low, high, part, named, &event,
    );
    records.settle(step, &kept);
    match kept {
        Err(fault) => (part, Err(fault)),
        Ok(number) => {
            let (part, answered) = receipted(shared, part, answer, number);
            (part, Ok(Some(answered)))
        }
    }
}

/// A step of one guardian, which has this number, and the registry. `None`, and nothing is changed, if
/// the step names another guardian that is there.
pub(crate) fn step_one<K: OfRun, R: Forest, G: Guardian>(
    alloc: Global,
    shared: &Shared<K>,
    registry: &mut R,
    guardian: &mut G,
    number: u32,
    records: &mut RecordsOfOne,
    part: Part<Event>,
    step: &Step,
) -> (Part<Event>, Result<Option<Answered<K>>, Fault>)
    requires table { part.token.table_id ≡ K.table }
    requires left { 0 < first_left part.token.me.0 }
    requires locked { AreLocked K.opening (R.stands registry.old) (G.stands guardian.old)
        (G.stands guardian.old) number number part.token.me.0 }
    requires kept { AreKept K.opening number number (seen_of part.token.me.0)
        records.old.guardian.now records.old.guardian.now records.old.registry.now }
    requires store { HasStore (G.stored guardian.old) }
    ensures table { result.0.token.table_id ≡ K.table }
    ensures moved { HasMoved (outcome_of (λ a. a.receipt) result.1) part.token.me.0
        result.0.token.me.0 }
    ensures locked { AreLocked K.opening (R.stands registry.new) (G.stands guardian.new)
        (G.stands guardian.new) number number result.0.token.me.0 }
    ensures lent { (records.new.guardian.ghost_name ≡ records.old.guardian.ghost_name)
        × (records.new.registry.ghost_name ≡ records.old.registry.ghost_name) }
    ensures kept { AreKept K.opening number number (seen_of result.0.token.me.0)
        records.new.guardian.now records.new.guardian.now records.new.registry.now }
    ensures answered { IfOk result.1 (λ r. MatchOption r
        (names_one (length K.opening.setup) step.now (seen_of result.0.token.me.0) number ≡ false)
        (λ a. IsAnswered K.opening step.now a.answer a.receipt (seen_of result.0.token.me.0))) }
    ensures store { StoreAfter K.opening step.now (outcome_of (λ a. a.receipt) result.1)
        (seen_of result.0.token.me.0) number (G.stored guardian.old) (G.stored guardian.new) }
    ensures cause { IsErrOf result.1 Stable → CountsFailure (G.stored guardian.old)
        (G.stored guardian.new) }
{
    let named = named(registry, step);
    if !names_one(named, registry.opening().setup().guardians(), number) {
        return (part, Ok(None));
    }
    match answer_two(alloc, &*registry, &*guardian, &*guardian, step) {
        Err(_refused) => (part, Err(Fault::Memory)),
        Ok(answer) => finish_one(
            alloc, shared, registry, guardian, number, records, part, named, step, answer,
        ),
    }
}

/// Keeps the step if it was accepted.
fn finish_one<K: OfRun, R: Forest, G: Guardian>(
    alloc: Global,
    shared: &Shared<K>,
    registry: &mut R,
    guardian: &mut G,
    number: u32,
    records: &mut RecordsOfOne,
    part: Part<Event>,
    named: NamedGuardians,
    step: &Step,
    answer: Answer,
) -> (Part<Event>, Result<Option<Answered<K>>, Fault>)
    requires table { part.token.table_id ≡ K.table }
    requires left { 0 < first_left part.token.me.0 }
    requires named { AreNamed (R.stands registry.old) step.now named }
    requires names { IsTrue
        (names_one (length K.opening.setup) step.now (seen_of part.token.me.0) number) }
    requires locked { AreLocked K.opening (R.stands registry.old) (G.stands guardian.old)
        (G.stands guardian.old) number number part.token.me.0 }
    requires kept { AreKept K.opening number number (seen_of part.token.me.0)
        records.old.guardian.now records.old.guardian.now records.old.registry.now }
    requires answered { answer ≡ answer_of K.opening step.now (seen_of part.token.me.0) }
    requires store { HasStore (G.stored guardian.old) }
    ensures table { result.0.token.table_id ≡ K.table }
    ensures moved { HasMoved (outcome_of (λ a. a.receipt) result.1) part.token.me.0
        result.0.token.me.0 }
    ensures locked { AreLocked K.opening (R.stands registry.new) (G.stands guardian.new)
        (G.stands guardian.new) number number result.0.token.me.0 }
    ensures lent { (records.new.guardian.ghost_name ≡ records.old.guardian.ghost_name)
        × (records.new.registry.ghost_name ≡ records.old.registry.ghost_name) }
    ensures kept { AreKept K.opening number number (seen_of result.0.token.me.0)
        records.new.guardian.now records.new.guardian.now records.new.registry.now }
    ensures answered { IfOk result.1 (λ r. MatchOption r
        (names_one (length K.opening.setup) step.now (seen_of result.0.token.me.0) number ≡ false)
        (λ a. IsAnswered K.opening step.now a.answer a.receipt (seen_of result.0.token.me.0))) }
    ensures store { StoreAfter K.opening step.now (outcome_of (λ a. a.receipt) result.1)
        (seen_of result.0.token.me.0) number (G.stored guardian.old) (G.stored guardian.new) }
    ensures cause { IsErrOf result.1 Stable → CountsFailure (G.stored guardian.old)
        (G.stored guardian.new) }
{
    if !answer.is_accepted() {
        return (part, Ok(Some(Answered::without_event(answer))));
    }
    let event = EventRef {
        step,
        answer: &answer,
    };
    if records.push(&event).is_err() {
        return (part, Err(Fault::Memory));
    }
    let (part, kept) = keep_at_one::<K, Brand, R, G>(
        alloc, shared, registry, guardian, number, part, named, &event,
    );
    records.settle(step, &kept);
    match kept {
        Err(fault) => (part, Err(fault)),
        Ok(stamp) => {
            let (part, answered) = receipted(shared, part, answer, stamp);
            (part, Ok(Some(answered)))
        }
    }
}

/// A step of the registry alone, which is refused: it names nobody who is there. `None` if it names
/// somebody.
pub(crate) fn step_nobody<K: OfRun, R: Forest>(
    alloc: Global,
    registry: &R,
    part: &Part<Event>,
    step: &Step,
) -> Result<Option<Answered<K>>, AllocError>
    requires { HasRegistry K.opening (R.stands registry.now) part.now.token.me.0 }
    ensures { IfOk result (λ r. MatchOption r
        (names_nobody (length K.opening.setup) step.now (seen_of part.now.token.me.0) ≡ false)
        (λ a. IsAnswered K.opening step.now a.answer a.receipt (seen_of part.now.token.me.0)
        × (a.receipt ≡ None))) }
{
    let named = named(registry, step);
    if !names_nobody(named, registry.opening().setup().guardians()) {
        return Ok(None);
    }
    let answer = answer_alone(alloc, registry, step)?;
    Ok(Some(Answered::without_event(answer)))
}

/// Cuts the receipt of an event off, which has this number.
pub(crate) fn receipted<K: OfRun>(
    shared: &Shared<K>,
    part: Part<Event>,
    answer: Answer,
    number: u64,
) -> (Part<Event>, Answered<K>)
    requires table { part.token.table_id ≡ K.table }
    requires owner { first_of part.token.me.0 ≡ owner number (seen_of part.token.me.0) ∷ [] }
    requires first { 1 ≤ number }
    requires run { IsRun K.opening (seen_of part.token.me.0) }
    requires counted { number ≡ length (seen_of part.token.me.0) }
    ensures table { result.0.token.table_id ≡ K.table }
    ensures rest { result.0.token.me.0 ≡ others_of part.token.me.0 }
    ensures answer { result.1.answer ≡ answer }
    ensures receipt { result.1.receipt ≡ Some (seen_of part.token.me.0) }
{
    let mut first = part;
    let rest = shared.run.split(&mut first);
    let receipt = Some(Receipt::new(first, number));
    (rest, Answered { answer, receipt })
}
