//! A guardian under its lock, and who waits for it.

use layer_contracts::Guardian;
use locked_run::{Held, OfRun};
use std::sync::{Condvar, Mutex, MutexGuard, Wait};

/// A guardian under its lock. Operations that wait sleep until an accepted step names the guardian.
#[derive(Drop)]
pub(crate) struct Place<K: OfRun, G: Guardian> {
    held: Mutex<Held<K, G>>,
    changed: Condvar,
}

impl<K: OfRun, G: Guardian> Place<K, G> {
    pub(crate) fn new(held: Held<K, G>) -> Place<K, G> {
        Place {
            held: Mutex::new(held),
            changed: Condvar::new(),
        }
    }

    pub(crate) fn lock<H: Wait>(&self, rt: &H) -> MutexGuard<'_, Held<K, G>> {
        self.held.lock(rt)
    }

    /// Gives the lock up and sleeps until an accepted step names the guardian, or for no reason.
    pub(crate) fn sleep<H: Wait>(&self, rt: &H, held: MutexGuard<'_, Held<K, G>>) {
        let _held = self.changed.wait(rt, held);
    }

    /// Wakes the operations that wait here.
    pub(crate) fn wake(&self) {
        self.changed.notify_all();
    }

    pub(crate) fn into_held(self) -> Held<K, G> {
        let Place { held, changed: _ } = self;
        held.into_inner()
    }
}
