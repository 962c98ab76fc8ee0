//! One step of what is locked.
ghost use Rattle.std.specs.Prelude.{◌≡◌, ◌⊎◌, false, length, if◌then◌else◌, IfErr, IfOk, IsErrOf, MatchOption, None};
ghost use Rattle.layer_contracts.specs.Stores.{CountsFailure};
ghost use Rattle.layer_contracts.specs.declared.guardian.Fault.TheVariants.{Memory, Stable};
ghost use Rattle.locked_run.specs.Acting.{IsAnswered, IsElsewhere, IsLeft, IsLeftThere, has_added};
ghost use Rattle.locked_run.specs.Acting.{is_own, left_after, names_nobody, names_one, names_two};
ghost use Rattle.locked_run.specs.Acting.{outcome_of};

use crate::gathering::{gather_three, gather_two, look_alone, scatter_three, scatter_two};
use crate::held::{Held, HeldRegistry};
use crate::own::step_own;
use crate::recording::{RecordsOfOne, RecordsOfTwo};
use crate::shared::{Answered, OfRun, Shared};
use crate::stepping::{step_nobody, step_one, step_two};
use layer_contracts::{Fault, Forest, Guardian};
use run_model::Step;
use std::alloc::Global;

/// One step of two guardians and the registry. There is a run of which its answer is that of the step,
/// and what is locked has seen the run after it; an accepted step has a receipt of just this event.
/// `None`, and nothing is changed, if the step does not name just these two, if both are one, or if
/// the first has no stamps left. After an error all is as it was; `Stable` comes of a store that has
/// counted one failure more.
pub fn act_two<K: OfRun, R: Forest, G: Guardian>(
    alloc: Global,
    shared: &Shared<K>,
    registry: &mut HeldRegistry<K, R>,
    one: &mut Held<K, G>,
    other: &mut Held<K, G>,
    step: &Step,
) -> Result<Option<Answered<K>>, Fault>
    ensures answered { IfOk result (λ r. MatchOption r
        (IsElsewhere (one.old.number ≡ other.old.number) one.old.left
        (names_two step.now one.new.seen one.old.number other.old.number))
        (λ a. IsAnswered K.opening step.now a.answer a.receipt one.new.seen)) }
    ensures one { IsLeft K.opening G.stored step.now
        (outcome_of (λ a. a.receipt) result) one.old one.new }
    ensures other { IsLeft K.opening G.stored step.now (outcome_of (λ a. a.receipt) result)
        other.old other.new }
    ensures registry { IsLeftThere (outcome_of (λ a. a.receipt) result) registry.old registry.new }
    ensures seen { IfOk result (λ r. MatchOption r (Unit {0})
        (λ a. (other.new.seen ≡ one.new.seen) × (registry.new ≡ one.new.seen))) }
    ensures left { one.new.left
        ≡ left_after (has_added (outcome_of (λ a. a.receipt) result)) one.old.left }
    ensures same_left { other.new.left ≡ other.old.left }
    ensures cause { IsErrOf result Stable → CountsFailure (G.stored one.old.guardian)
        (G.stored one.new.guardian) ⊎ CountsFailure (G.stored other.old.guardian)
        (G.stored other.new.guardian) }
{
    let low = one.guardian.number();
    let high = other.guardian.number();
    if low == high || one.left == 0 {
        return Ok(None);
    }
    let part = gather_three(shared, &mut one.part, &mut other.part, &mut registry.part);
    let mut records = RecordsOfTwo {
        one: &mut one.history,
        other: &mut other.history,
        registry: &mut registry.history,
    };
    let (part, done) = step_two(
        alloc,
        shared,
        &mut registry.registry,
        &mut one.guardian,
        &mut other.guardian,
        low,
        high,
        &mut records,
        part,
        step,
    );
    scatter_three(
        shared,
        part,
        &mut one.part,
        &mut other.part,
        &mut registry.part,
    );
    one.left -= drawn(&done);
    done
}

/// One step of a guardian and the registry, as `act_two`. `None` if the step names another guardian
/// that is there, or if the guardian has no stamps left.
pub fn act_one<K: OfRun, R: Forest, G: Guardian>(
    alloc: Global,
    shared: &Shared<K>,
    registry: &mut HeldRegistry<K, R>,
    held: &mut Held<K, G>,
    step: &Step,
) -> Result<Option<Answered<K>>, Fault>
    ensures answered { IfOk result (λ r. MatchOption r
        (IsElsewhere ⊥ held.old.left
        (names_one (length K.opening.setup) step.now held.new.seen held.old.number))
        (λ a. IsAnswered K.opening step.now a.answer a.receipt held.new.seen)) }
    ensures held { IsLeft K.opening G.stored step.now (outcome_of (λ a. a.receipt) result) held.old
        held.new }
    ensures registry { IsLeftThere (outcome_of (λ a. a.receipt) result) registry.old registry.new }
    ensures seen { IfOk result (λ r. MatchOption r (Unit {0}) (λ a. registry.new ≡ held.new.seen)) }
    ensures left { held.new.left ≡ left_after (has_added (outcome_of (λ a. a.receipt) result))
        held.old.left }
    ensures cause { IsErrOf result Stable → CountsFailure (G.stored held.old.guardian)
        (G.stored held.new.guardian) }
{
    if held.left == 0 {
        return Ok(None);
    }
    let number = held.guardian.number();
    let part = gather_two(shared, &mut held.part, &mut registry.part);
    let mut records = RecordsOfOne {
        guardian: &mut held.history,
        registry: &mut registry.history,
    };
    let (part, done) = step_one(
        alloc,
        shared,
        &mut registry.registry,
        &mut held.guardian,
        number,
        &mut records,
        part,
        step,
    );
    scatter_two(shared, part, &mut held.part, &mut registry.part);
    held.left -= drawn(&done);
    done
}

/// One step that a guardian makes by itself, without the registry: an operation of an action at home
/// there, its own crash, or its own recovery. As `act_two`. `None` if the step is another, or if the
/// guardian has no stamps left.
pub fn act_guardian<K: OfRun, G: Guardian>(
    shared: &Shared<K>,
    held: &mut Held<K, G>,
    step: &Step,
) -> Result<Option<Answered<K>>, Fault>
    ensures answered { IfOk result (λ r. MatchOption r
        (IsElsewhere ⊥ held.old.left (is_own held.old.number step.now held.new.seen))
        (λ a. IsAnswered K.opening step.now a.answer a.receipt held.new.seen)) }
    ensures held { IsLeft K.opening G.stored step.now (outcome_of (λ a. a.receipt) result) held.old
        held.new }
    ensures left { held.new.left ≡ left_after (has_added (outcome_of (λ a. a.receipt) result))
        held.old.left }
    ensures cause { IsErrOf result Stable → CountsFailure (G.stored held.old.guardian)
        (G.stored held.new.guardian) }
{
    if held.left == 0 {
        return Ok(None);
    }
    let number = held.guardian.number();
    let part = look_alone(shared, &mut held.part);
    let (part, done) = step_own(
        shared,
        &mut held.guardian,
        number,
        &mut held.history,
        part,
        step,
    );
    held.part = part;
    held.left -= drawn(&done);
    done
}

/// One step of the registry alone, which is refused: it names nobody who is there. `None` if it names
/// somebody.
pub fn act_registry<K: OfRun, R: Forest>(
    alloc: Global,
    shared: &Shared<K>,
    registry: &mut HeldRegistry<K, R>,
    step: &Step,
) -> Result<Option<Answered<K>>, Fault>
    ensures answered { IfOk result (λ r. MatchOption r
        (names_nobody (length K.opening.setup) step.now registry.new ≡ false)
        (λ a. IsAnswered K.opening step.now a.answer a.receipt registry.new × (a.receipt ≡ None))) }
    ensures registry { IsLeftThere (outcome_of (λ a. a.receipt) result) registry.old registry.new }
    ensures memory { IfErr result (λ fault. fault ≡ Memory) }
{
    let part = look_alone(shared, &mut registry.part);
    let done = step_nobody(alloc, &registry.registry, &part, step);
    registry.part = part;
    Ok(done?)
}

/// How many stamps a step drew.
fn drawn<K: OfRun>(done: &Result<Option<Answered<K>>, Fault>) -> u64
    ensures { result ≡ (if has_added (outcome_of (λ a. a.receipt) done.now) then 1 else 0) }
{
    match done {
        Ok(Some(answered)) if answered.receipt.is_some() => 1,
        _ => 0,
    }
}
