//! Steps behind what was seen of the run: who is named first learns it before the step is made, and tells after it what
//! was seen then.
ghost use Rattle.std.specs.Prelude.{◌≡◌, IfOk, IfSome};
ghost use Rattle.locked_run.specs.Behind.{GoesOnFrom};
ghost use Rattle.runtime.specs.Answering.{IsAnsweredFrom};

use crate::answered::Answered;
use layer_contracts::{Fault, Forest, Guardian};
use locked_run::{
    Held, HeldRegistry, OfRun, Seen, Shared, act_guardian, act_one, act_registry, act_two,
};
use run_model::Step;
use std::alloc::Global;

/// One step of two guardians and the registry, behind what was seen if anything was.
pub(crate) fn two_behind<K: OfRun, R: Forest, G: Guardian>(
    alloc: Global,
    shared: &Shared<K>,
    registry: &mut HeldRegistry<K, R>,
    one: &mut Held<K, G>,
    other: &mut Held<K, G>,
    earlier: &mut Option<Seen<K>>,
    step: &Step,
) -> Result<Option<Answered<K>>, Fault>
    ensures answered { IfOk result (λ r. IfSome r
        (λ a. IsAnsweredFrom K.opening earlier.old step.now a.answer a.receipt a.seen)) }
    ensures same { earlier.new ≡ earlier.old }
{
    learn(shared, one, earlier);
    let Some(given) = act_two(alloc, shared, registry, one, other, step)? else {
        return Ok(None);
    };
    let seen = one.seen(shared);
    Ok(Some(Answered::new(given, seen)))
}

/// One step of a guardian and the registry, behind what was seen if anything was.
pub(crate) fn one_behind<K: OfRun, R: Forest, G: Guardian>(
    alloc: Global,
    shared: &Shared<K>,
    registry: &mut HeldRegistry<K, R>,
    held: &mut Held<K, G>,
    earlier: &mut Option<Seen<K>>,
    step: &Step,
) -> Result<Option<Answered<K>>, Fault>
    ensures answered { IfOk result (λ r. IfSome r
        (λ a. IsAnsweredFrom K.opening earlier.old step.now a.answer a.receipt a.seen)) }
    ensures same { earlier.new ≡ earlier.old }
{
    learn(shared, held, earlier);
    let Some(given) = act_one(alloc, shared, registry, held, step)? else {
        return Ok(None);
    };
    let seen = held.seen(shared);
    Ok(Some(Answered::new(given, seen)))
}

/// One step that a guardian makes by itself, behind what was seen if anything was.
pub(crate) fn guardian_behind<K: OfRun, G: Guardian>(
    shared: &Shared<K>,
    held: &mut Held<K, G>,
    earlier: &mut Option<Seen<K>>,
    step: &Step,
) -> Result<Option<Answered<K>>, Fault>
    ensures answered { IfOk result (λ r. IfSome r
        (λ a. IsAnsweredFrom K.opening earlier.old step.now a.answer a.receipt a.seen)) }
    ensures same { earlier.new ≡ earlier.old }
{
    learn(shared, held, earlier);
    let Some(given) = act_guardian(shared, held, step)? else {
        return Ok(None);
    };
    let seen = held.seen(shared);
    Ok(Some(Answered::new(given, seen)))
}

/// One step of the registry alone, behind what was seen if anything was.
pub(crate) fn registry_behind<K: OfRun, R: Forest>(
    alloc: Global,
    shared: &Shared<K>,
    registry: &mut HeldRegistry<K, R>,
    earlier: &mut Option<Seen<K>>,
    step: &Step,
) -> Result<Option<Answered<K>>, Fault>
    ensures answered { IfOk result (λ r. IfSome r
        (λ a. IsAnsweredFrom K.opening earlier.old step.now a.answer a.receipt a.seen)) }
    ensures same { earlier.new ≡ earlier.old }
{
    learn_there(shared, registry, earlier);
    let Some(given) = act_registry(alloc, shared, registry, step)? else {
        return Ok(None);
    };
    let seen = registry.seen(shared);
    Ok(Some(Answered::new(given, seen)))
}

/// The guardian learns what was seen, if anything was.
fn learn<K: OfRun, G: Guardian>(
    shared: &Shared<K>,
    held: &mut Held<K, G>,
    earlier: &mut Option<Seen<K>>,
)
    ensures behind { GoesOnFrom earlier.old held.new.seen }
    ensures same { earlier.new ≡ earlier.old }
{
    if let Some(seen) = earlier {
        held.learn(shared, seen);
    }
}

/// The registry learns what was seen, if anything was.
fn learn_there<K: OfRun, R: Forest>(
    shared: &Shared<K>,
    registry: &mut HeldRegistry<K, R>,
    earlier: &mut Option<Seen<K>>,
)
    ensures behind { GoesOnFrom earlier.old registry.new }
    ensures same { earlier.new ≡ earlier.old }
{
    if let Some(seen) = earlier {
        registry.learn(shared, seen);
    }
}
