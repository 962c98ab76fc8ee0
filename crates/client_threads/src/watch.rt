//! What the threads of a run share with who watches it.
use std::sync::atomic::{AtomicBool, AtomicU64, Ordering};

/// How far a run in threads is, and whether it is to stop.
#[derive(Drop)]
pub struct Watch {
    is_stopped: AtomicBool,
    ended: AtomicU64,
    steps: AtomicU64,
}

impl Watch {
    /// Of a run that has not begun.
    pub fn new() -> Watch {
        Watch {
            is_stopped: AtomicBool::new(false),
            ended: AtomicU64::new(0),
            steps: AtomicU64::new(0),
        }
    }

    /// Has each client and each arm abort, at its next statement or while an operation waits. Who calls this then has
    /// to wake each guardian (`Runtime::wake`).
    pub fn stop(&self) {
        self.is_stopped.store(true, Ordering::SeqCst);
    }

    /// Whether clients and arms are to abort.
    pub fn is_stopped(&self) -> bool {
        self.is_stopped.load(Ordering::SeqCst)
    }

    /// How many clients have ended.
    pub fn ended(&self) -> u64 {
        self.ended.load(Ordering::SeqCst)
    }

    /// How many steps of clients and arms were accepted.
    pub fn steps(&self) -> u64 {
        self.steps.load(Ordering::SeqCst)
    }

    /// A client has ended.
    pub(crate) fn note_end(&self) {
        self.ended.fetch_add(1, Ordering::SeqCst);
    }

    /// A step was accepted.
    pub(crate) fn note_step(&self) {
        self.steps.fetch_add(1, Ordering::SeqCst);
    }
}
