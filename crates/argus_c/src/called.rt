//! Whose store a step calls.
ghost use Rattle.std.specs.Prelude.{◌≡◌, ◌≢◌, ◌<◌, ◌≤◌, ◌+◌, ℕ, true, false, length, Some, MatchOption};
ghost use Rattle.run_model.specs.Actions.{home_of, is_begun};
ghost use Rattle.guardian_laws.specs.Stored.{has_record as is_recorded};
ghost use Rattle.stable_store.specs.Stored.{Stored};
ghost use Rattle.argus_c.specs.Keeping.{CallsNone, IsNowhere, content_at};

use crate::homes::Homes;
use layer_contracts::Guardian;
use run_model::{Name, Step};
use stable_store::{PlainStable, Stable};
use world::World;

/// The guardian whose store the step may call, if there is one. A decision calls that of the top action's home.
pub(crate) fn called(world: &World<PlainStable>, homes: &Homes, step: &Step) -> Option<u32>
    ensures { CallsNone world.now step.now (λ g. result ≢ Some g) }
{
    // so that what happened is known to be a run
    let _ = world.history();
    match step {
        Step::Prepare(guardian, _) => Some(*guardian),
        Step::Recover(guardian) => Some(*guardian),
        Step::Tell(guardian, action) => {
            has_record(world, *guardian, action).then_some(*guardian)
        }
        Step::Decide(top) => home(world, homes.get(top.last()), top),
        _ => None,
    }
}

/// The home of a top action that has begun, where `guess` is looked at first.
fn home(world: &World<PlainStable>, guess: Option<u32>, top: &Name) -> Option<u32>
    ensures { MatchOption result (IsNowhere world.now top.now)
        (λ guardian. home_of top.now world.now.run.past ≡ guardian) }
{
    if let Some(guardian) = guess
        && is_home(world, guardian, top)
    {
        return Some(guardian);
    }
    let guardians = world.setup().guardians() as u32;
    for guardian in 1..=guardians {
        if is_home(world, guardian, top) {
            return Some(guardian);
        }
    }
    None
}

/// Whether the action has begun, and this guardian is its home.
pub(crate) fn is_home(world: &World<PlainStable>, guardian: u32, action: &Name) -> bool
    ensures yes { result ≡ true → home_of action.now world.now.run.past ≡ guardian }
    ensures no { result ≡ false → is_begun action.now world.now.run.past ≡ true
        → 1 ≤ guardian → guardian ≤ length world.now.run.lists.setup
        → home_of action.now world.now.run.past ≢ guardian }
{
    // so that what happened is known to be a run
    let _ = world.history();
    match world.guardian(guardian) {
        Some(found) => found.is_there(action),
        None => false,
    }
}

/// Whether the guardian's store has a record of the action.
fn has_record(world: &World<PlainStable>, guardian: u32, action: &Name) -> bool
    ensures { result ≡ false → (i : ℕ) (s : Stored) → i < length world.now.run.lists.setup
        → guardian ≡ i + 1 → content_at world.now i ≡ Some s → is_recorded s action.now ≡ false }
{
    let Some(found) = world.guardian(guardian) else {
        return false;
    };
    match found.store().kept() {
        Some(kept) => action.is_top() && kept.prepared.contains_key(&action.last()),
        None => false,
    }
}
