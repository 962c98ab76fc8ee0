//! Transfers between pairs of 64 guardians, and operations alone, by threads that share nothing but the runtime.

ghost use Rattle.std.specs.Prelude.{◌<◌};

use crate::runs::{Threaded, first_begun, made, operation, push};
use action_names::Name;
use rows::RowFault;
use run_model::{Answer, ObjectId, Op, Step};
use runtime::{OfRun, OpenGate, Receipts};
use std::alloc::{AllocError, Global};
use std::sync::Wait;
use std::thread::{Threads, map_indices};

/// How many guardians there are.
pub(crate) const GUARDIANS: u32 = 64;

/// What a guardian has.
pub(crate) const ACCOUNT: &str = "{\"record\":{\"n\":0}}";

/// Whatever makes steps: a runtime, or a world under one lock.
pub(crate) trait Steps {
    fn answer(&mut self, step: &Step) -> Result<Answer, RowFault>;
}

/// A runtime as one thread sees it. It keeps the receipts.
#[derive(Drop)]
pub(crate) struct Caller<'a, K: OfRun, H> {
    pub(crate) rt: &'a H,
    pub(crate) runtime: &'a Threaded<K, OpenGate>,
    pub(crate) receipts: Receipts<K>,
}

impl<'a, K: OfRun, H: Wait> Steps for Caller<'a, K, H> {
    fn answer(&mut self, step: &Step) -> Result<Answer, RowFault> {
        made(self.runtime, self.rt, step, &mut self.receipts)
    }
}

/// Which of so many threads it is, and how often each repeats its work.
#[derive(Clone, Copy)]
pub(crate) struct Share {
    pub(crate) index: u32,
    pub(crate) threads: u32,
    pub(crate) turns: u32,
}

/// What each thread does.
#[derive(Clone, Copy)]
pub(crate) enum Work {
    Transfers,
    Operations,
}

impl Work {
    /// One thread's share of the work.
    pub(crate) fn make<S: Steps>(
        self,
        alloc: Global,
        steps: &mut S,
        share: Share,
    ) -> Result<(), RowFault> {
        match self {
            Work::Transfers => transfers(alloc, steps, share),
            Work::Operations => operations(alloc, steps, share),
        }
    }
}

/// Threads that share a runtime.
#[derive(Clone, Copy)]
pub(crate) struct Workers {
    pub(crate) work: Work,
    pub(crate) threads: u32,
    pub(crate) turns: u32,
}

/// What came of one thread's work: its receipts.
pub(crate) type Worked<K> = Result<Receipts<K>, RowFault>;

/// The work of all threads.
pub(crate) fn all_work<K: OfRun + Send + Sync, H: Threads + Wait + Sync>(
    alloc: Global,
    rt: &H,
    runtime: &Threaded<K, OpenGate>,
    workers: Workers,
) -> Result<Vec<Worked<K>>, AllocError> {
    map_indices(
        rt,
        alloc,
        workers.threads as usize,
        &|index| { by_one(alloc, rt, runtime, workers, index as u32) },
    )
}

/// Keeps the receipts of all threads.
pub(crate) fn gather<K: OfRun>(
    runtime: &Threaded<K, OpenGate>,
    worked: Result<Vec<Worked<K>>, AllocError>,
    receipts: &mut Receipts<K>,
) -> Result<(), RowFault> {
    for one in worked? {
        runtime.join_receipts(receipts, one?);
    }
    Ok(())
}

/// What one thread does; its receipts.
fn by_one<K: OfRun, H: Wait>(
    alloc: Global,
    rt: &H,
    runtime: &Threaded<K, OpenGate>,
    workers: Workers,
    index: u32,
) -> Result<Receipts<K>, RowFault> {
    let mut caller = Caller {
        rt,
        runtime,
        receipts: runtime.no_receipts(),
    };
    let share = Share {
        index,
        threads: workers.threads,
        turns: workers.turns,
    };
    workers.work.make(alloc, &mut caller, share)?;
    Ok(caller.receipts)
}

/// Transfers between the pairs of one thread, each by a top action that goes through both phases.
fn transfers<S: Steps>(alloc: Global, steps: &mut S, share: Share) -> Result<(), RowFault> {
    let pairs = each_of(GUARDIANS / 2, share);
    let get = operation(alloc, "op 1 1/1 get n")?;
    let set = operation(alloc, "op 1 1/1 set n 5")?;
    for turn in 0..share.turns {
        let pair = share.index.wrapping_mul(pairs).wrapping_add(turn % pairs);
        let home = pair.wrapping_mul(2).wrapping_add(1);
        transfer(steps, home, home.wrapping_add(1), &get, &set)?;
    }
    Ok(())
}

/// A transfer from the account at one guardian to that at another.
fn transfer<S: Steps>(
    steps: &mut S,
    home: u32,
    other: u32,
    get: &Op,
    set: &Op,
) -> Result<(), RowFault> {
    let top = begun(steps, Step::Top(home))?;
    change(steps, &top, home, get, set)?;
    call(steps, &top, home, other, get, set)?;
    commit(steps, &top, home, other)
}

/// The part of a transfer that the other guardian does, by a handler call.
fn call<S: Steps>(
    steps: &mut S,
    top: &Name,
    home: u32,
    other: u32,
    get: &Op,
    set: &Op,
) -> Result<(), RowFault> {
    let sub = begun(steps, Step::Call(top.copy()?, other))?;
    change(steps, &sub, other, get, set)?;
    make(steps, Step::Commit(sub.copy()?))?;
    tell(steps, other, &sub)?;
    tell(steps, home, &sub)
}

/// Commits a top action by two phases, and tells the participants so.
fn commit<S: Steps>(steps: &mut S, top: &Name, home: u32, other: u32) -> Result<(), RowFault> {
    make(steps, Step::Close(top.copy()?))?;
    make(steps, Step::Prepare(home, top.copy()?))?;
    make(steps, Step::Prepare(other, top.copy()?))?;
    make(steps, Step::Decide(top.copy()?))?;
    tell(steps, home, top)?;
    tell(steps, other, top)
}

/// Reads and writes the account at the guardian.
fn change<S: Steps>(
    steps: &mut S,
    action: &Name,
    guardian: u32,
    get: &Op,
    set: &Op,
) -> Result<(), RowFault> {
    operate(steps, action, guardian, get)?;
    operate(steps, action, guardian, set)
}

fn operate<S: Steps>(
    steps: &mut S,
    action: &Name,
    guardian: u32,
    operation: &Op,
) -> Result<(), RowFault> {
    let operation = operation.copy()?;
    make(
        steps,
        Step::Op(action.copy()?, account(guardian), operation),
    )
}

fn tell<S: Steps>(steps: &mut S, guardian: u32, action: &Name) -> Result<(), RowFault> {
    make(steps, Step::Tell(guardian, action.copy()?))
}

/// Operations of one top action at each guardian of one thread.
fn operations<S: Steps>(alloc: Global, steps: &mut S, share: Share) -> Result<(), RowFault> {
    let all = own_operations(alloc, steps, share)?;
    for turn in 0..share.turns {
        if let Some(step) = all.get(turn as usize % all.len().max(1)) {
            accepted(steps, step)?;
        }
    }
    Ok(())
}

/// An operation at each guardian of one thread, each of a top action that begins there.
fn own_operations<S: Steps>(
    alloc: Global,
    steps: &mut S,
    share: Share,
) -> Result<Vec<Step>, RowFault> {
    let set = operation(alloc, "op 1 1/1 set n 5")?;
    let each = each_of(GUARDIANS, share);
    let first = share.index.wrapping_mul(each);
    let mut all = Vec::new(alloc);
    for place in 1..=each {
        push(
            &mut all,
            own_operation(steps, first.wrapping_add(place), &set)?,
        )?;
    }
    Ok(all)
}

fn own_operation<S: Steps>(steps: &mut S, guardian: u32, set: &Op) -> Result<Step, RowFault> {
    let set = set.copy()?;
    let top = begun(steps, Step::Top(guardian))?;
    Ok(Step::Op(top, account(guardian), set))
}

/// How many of these each thread has, at least one.
fn each_of(all: u32, share: Share) -> u32
    ensures { 0 < result }
{
    match all.checked_div(share.threads) {
        Some(each) if each > 0 => each,
        _ => 1,
    }
}

fn account(guardian: u32) -> ObjectId {
    ObjectId {
        guardian,
        number: 1,
    }
}

/// The action that the step began.
fn begun<S: Steps>(steps: &mut S, step: Step) -> Result<Name, RowFault> {
    first_begun(&accepted(steps, &step)?)
}

/// Makes a step, which has to be accepted.
fn make<S: Steps>(steps: &mut S, step: Step) -> Result<(), RowFault> {
    accepted(steps, &step)?;
    Ok(())
}

/// The answer of a step, which has to be accepted.
fn accepted<S: Steps>(steps: &mut S, step: &Step) -> Result<Answer, RowFault> {
    let answer = steps.answer(step)?;
    if answer.is_accepted() {
        Ok(answer)
    } else {
        Err(RowFault::Unread)
    }
}
