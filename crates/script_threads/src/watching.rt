//! How a run in threads is watched: how long it may take, and whether its progress is shown.

use client_threads::Watch;
use layer_contracts::{Forest, Guardian};
use run_model::Opening;
use runtime::{Gate, OfRun, Runtime};
use std::sync::{Condvar, Mutex, Wait};
use std::time::{Clock, Duration};

/// How many seconds who watches a run sleeps between two looks.
const TURN: u64 = 1;

/// How a run in threads is watched.
#[derive(Clone, Copy)]
pub struct Watching {
    /// After how long a run that has not ended is given up; if none, it may go on for ever.
    pub limit: Option<Duration>,
    /// Whether standard error shows once a second how many clients have ended, and how many steps were made.
    pub shows_progress: bool,
}

impl Watching {
    /// A run that nobody watches.
    pub fn none() -> Watching {
        Watching {
            limit: None,
            shows_progress: false,
        }
    }

    /// Whether the run is watched.
    pub(crate) fn is_on(self) -> bool {
        self.shows_progress || self.limit.is_some()
    }
}

/// A run that is watched.
#[derive(Drop)]
pub(crate) struct Watched {
    has_ended: Mutex<bool>,
    changed: Condvar,
    watch: Watch,
}

impl Watched {
    pub(crate) fn new() -> Watched {
        Watched {
            has_ended: Mutex::new(false),
            changed: Condvar::new(),
            watch: Watch::new(),
        }
    }

    /// What its clients share.
    pub(crate) fn watch(&self) -> &Watch {
        &self.watch
    }

    /// The run has ended.
    pub(crate) fn end<H: Wait>(&self, rt: &H) {
        *self.has_ended.lock(rt) = true;
        self.changed.notify_all();
    }

    /// Sleeps for so long, or until the run has ended. Whether it has.
    fn sleep<C: Wait + Clock>(&self, clock: &C, time: Duration) -> bool {
        let (has_ended, _) = self
            .changed
            .wait_timeout_while(clock, self.has_ended.lock(clock), time, |has_ended| {
                !*has_ended
            });
        *has_ended
    }
}

/// Watches a run of so many clients, until it has ended. Once its time is over its clients are to stop, and the
/// operations that wait are woken.
pub(crate) fn keep_watch<K: OfRun, R: Forest, G: Guardian, P: Gate, C: Wait + Clock + Eprint>(
    clock: &C,
    runtime: &Runtime<K, R, G, P>,
    opening: &Opening,
    clients: usize,
    watched: &Watched,
    watching: Watching,
) {
    let mut left = watching.limit;
    let mut steps = 0;
    for _ in clock.forever() {
        let turn = turn_of(left);
        if watched.sleep(clock, turn) {
            break;
        }
        if watching.shows_progress {
            steps = show(clock, watched.watch(), clients, steps);
        }
        left = left.map(|left| left.saturating_sub(turn));
        if matches!(left, Some(rest) if rest.is_zero()) {
            watched.watch().stop();
            wake_all(clock, runtime, opening);
        }
    }
    if watching.shows_progress {
        let _ = eprint!(clock; "\r\u{1b}[K");
    }
}

/// How long to sleep, if so much time is left: a second, or the rest.
fn turn_of(left: Option<Duration>) -> Duration {
    let turn = Duration::from_secs(TURN);
    match left {
        Some(left) if !left.is_zero() => left.min(turn),
        _ => turn,
    }
}

/// Has the operations that wait at any guardian tried again.
fn wake_all<K: OfRun, R: Forest, G: Guardian, P: Gate, C: Wait>(
    clock: &C,
    runtime: &Runtime<K, R, G, P>,
    opening: &Opening,
) {
    for index in 0..opening.setup().guardians() {
        runtime.wake(clock, index as u32 + 1);
    }
}

/// Shows how many clients have ended, and how many steps were made since there were so many. How many there are now.
fn show<C: Eprint>(rt: &C, watch: &Watch, clients: usize, before: u64) -> u64 {
    let ended = watch.ended();
    let steps = watch.steps();
    let rate = steps.saturating_sub(before);
    let _ = eprint!(rt; "\r{ended} of {clients} clients, {rate} steps a second\u{1b}[K");
    steps
}
