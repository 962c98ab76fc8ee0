//! A `coenter` whose arms run in threads: which of them leaves it, and where the others may be asleep.

use crate::watch::Watch;
use runtime::Patience;
use std::alloc::{AllocError, Global};
use std::sync::atomic::{AtomicBool, Ordering};
use std::sync::{Arc, Condvar, Mutex, Wait};

/// The `coenter`s in which an arm runs, the innermost, its own, last.
pub(crate) type Coenters = Vec<Arc<Coenter, Global>>;

/// Who leaves a `coenter`.
#[derive(Clone, Copy, PartialEq, Eq)]
enum Leaving {
    Nobody,
    /// An arm claims to, and its end is not known.
    Claimed,
    Left,
}

/// A `coenter` whose arms run in threads.
#[derive(Drop)]
pub(crate) struct Coenter {
    leaving: Mutex<Leaving>,
    settled: Condvar,
    is_left: AtomicBool,
    /// The guardians at which its arms may be asleep, one for each operation that may wait.
    asleep: Mutex<Vec<u32>>,
}

impl Coenter {
    pub(crate) fn new(alloc: Global) -> Coenter {
        Coenter {
            leaving: Mutex::new(Leaving::Nobody),
            settled: Condvar::new(),
            is_left: AtomicBool::new(false),
            asleep: Mutex::new(Vec::new(alloc)),
        }
    }

    /// An operation of one of its arms may fall asleep at this guardian.
    fn may_sleep<H: Wait>(&self, rt: &H, guardian: u32) -> Result<(), AllocError> {
        self.asleep.lock(rt).push(guardian)?;
        Ok(())
    }

    /// It has been answered.
    fn is_awake<H: Wait>(&self, rt: &H, guardian: u32) {
        let mut asleep = self.asleep.lock(rt);
        if let Some(at) = asleep.iter().position(|other| *other == guardian) {
            asleep.swap_remove(at);
        }
    }

    /// Calls this for each guardian at which its arms may be asleep.
    pub(crate) fn each_asleep<H: Wait, F: FnMut(u32)>(&self, rt: &H, call: F)
        requires { F.IsAlwaysCallable call }
    {
        let mut call = call;
        for guardian in self.asleep.lock(rt).iter() {
            call(*guardian);
        }
    }

    /// Claims to leave it, and waits while another arm claims so. False if another has left it.
    pub(crate) fn claim<H: Wait>(&self, rt: &H) -> bool {
        let mut leaving = self.settled.wait_while(
            rt,
            self.leaving.lock(rt),
            |leaving| *leaving == Leaving::Claimed,
        );
        if *leaving == Leaving::Left {
            return false;
        }
        *leaving = Leaving::Claimed;
        true
    }

    /// Says whether the arm that claimed so has left it.
    pub(crate) fn settle<H: Wait>(&self, rt: &H, has_left: bool) {
        let mut leaving = self.leaving.lock(rt);
        *leaving = if has_left {
            Leaving::Left
        } else {
            Leaving::Nobody
        };
        self.is_left.store(has_left, Ordering::SeqCst);
        self.settled.notify_all();
    }

    /// Whether an arm has left it.
    pub(crate) fn is_left(&self) -> bool {
        self.is_left.load(Ordering::SeqCst)
    }
}

/// Whether one of these `coenter`s was left.
pub(crate) fn is_called_off(coenters: &[Arc<Coenter, Global>]) -> bool {
    coenters.iter().any(|coenter| coenter.is_left())
}

/// An operation of an arm of these `coenter`s may fall asleep at this guardian.
pub(crate) fn may_sleep<H: Wait>(
    rt: &H,
    coenters: &[Arc<Coenter, Global>],
    guardian: u32,
) -> Result<(), AllocError> {
    for coenter in coenters {
        coenter.may_sleep(rt, guardian)?;
    }
    Ok(())
}

/// It has been answered.
pub(crate) fn is_awake<H: Wait>(rt: &H, coenters: &[Arc<Coenter, Global>], guardian: u32) {
    for coenter in coenters {
        coenter.is_awake(rt, guardian);
    }
}

/// An arm waits until one of its `coenter`s is left, or until all clients and arms are to abort.
#[derive(Clone, Copy)]
pub(crate) struct UntilLeft<'a> {
    pub(crate) coenters: &'a [Arc<Coenter, Global>],
    pub(crate) watch: &'a Watch,
}

impl<'a> Patience for UntilLeft<'a> {
    ghost over = { Unit {0} };

    fn is_over(&self) -> bool {
        self.watch.is_stopped() || is_called_off(self.coenters)
    }
}

/// The same `coenter`s, shared.
pub(crate) fn shared(
    alloc: Global,
    coenters: &[Arc<Coenter, Global>],
) -> Result<Coenters, AllocError> {
    let mut all = Vec::with_capacity(alloc, coenters.len())?;
    for coenter in coenters {
        all.push(Arc::try_clone(coenter)?)
            .map_err(AllocError::from)?;
    }
    Ok(all)
}
