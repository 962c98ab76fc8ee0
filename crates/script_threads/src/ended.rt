//! Whether each action of a run has ended.
ghost use Rattle.std.specs.Prelude.{◌≡◌, ◌<◌, IfOk, Some, length, reverse, slice_get};
ghost use Rattle.std.specs.List.{list_all};
ghost use Rattle.run_model.specs.Actions.{names_begun};
ghost use Rattle.run_model.specs.LocalHistories.{Stamped, events_there};
ghost use Rattle.layer_contracts.specs.Forests.{ForestState};
ghost use Rattle.script_threads.specs.Ended.{has_ended_there, have_ended_there};

use layer_contracts::Forest;
use run_model::{Answer, Name};
use runtime::Ended;
use std::alloc::AllocError;

/// Whether each action that the registry's events began has committed or aborted.
pub(crate) fn have_all_ended<R: Forest>(registry: &Ended<R>) -> Result<bool, AllocError>
    ensures { (f : ForestState) → R.stands registry.now.value f → IfOk result (λ all.
        all ≡ have_ended_there (events_there f.registry) (reverse registry.now.history)) }
{
    for place in 0..registry.history.len() {
        if !have_ended_at(registry, place)? {
            return Ok(false);
        }
    }
    Ok(true)
}

/// Whether each action that the event at this place began has ended.
fn have_ended_at<R: Forest>(registry: &Ended<R>, place: usize) -> Result<bool, AllocError>
    requires { place < length registry.now.history }
    ensures { (f : ForestState) (s : Stamped) → R.stands registry.now.value f
        → slice_get (reverse registry.now.history) place ≡ Some s → IfOk result (λ all.
        all ≡ list_all (has_ended_there (events_there f.registry)) (names_begun s.1.answer)) }
{
    match registry.history.event(place)? {
        Some((_, event)) => Ok(have_ended(&registry.value, &event.answer)),
        None => unreachable!(),
    }
}

/// Whether each action that the answer began has ended.
fn have_ended<R: Forest>(forest: &R, answer: &Answer) -> bool
    ensures { (f : ForestState) → R.stands forest.now f
        → result ≡ list_all (has_ended_there (events_there f.registry)) (names_begun answer.now) }
{
    let Answer::Began(names) = answer else {
        return true;
    };
    names.as_slice().iter().all(|name| has_ended(forest, name))
}

fn has_ended<R: Forest>(forest: &R, action: &Name) -> bool
    ensures { (f : ForestState) → R.stands forest.now f
        → result ≡ has_ended_there (events_there f.registry) action.now }
{
    match forest.actor(action) {
        Some(actor) => actor.status.has_ended(),
        None => false,
    }
}
