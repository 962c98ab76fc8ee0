//! Devices: how their stores are filled, opened and crashed.
use crate::calls::Change;
use crate::machines::{Failing, Keeper, Machine, Refusal};
use rows::RowFault;
use stable_store::StoreFault;
use std::alloc::Global;

/// More calls than are made until a store is open and a change is made.
pub(crate) const CALLS: u64 = 400;

/// The device with its store open. `Memory` if it can't be opened.
pub(crate) fn open_store<M: Machine>(
    alloc: Global,
    machine: M,
    log_frames: usize,
) -> Result<M, RowFault> {
    match machine.open(alloc, log_frames) {
        (opened, None) => Ok(opened),
        _ => Err(RowFault::Memory),
    }
}

/// A copy of the device with its store open. One of its files fails after so many calls. `Memory` if it can't be
/// opened.
pub(crate) fn open_copy<M: Machine>(
    alloc: Global,
    machine: &M,
    failing: Failing,
    calls: u64,
) -> Result<M, RowFault> {
    let copy = machine.copy(alloc, failing, calls)?;
    open_store(alloc, copy, failing.log_frames)
}

/// Opens the store in a copy of the device. One of its files fails after so many calls. Gives the device after a
/// crash, and whether the store was opened.
pub(crate) fn open_and_crash<M: Machine>(
    alloc: Global,
    machine: &M,
    failing: Failing,
    calls: u64,
) -> Result<(M, bool), RowFault> {
    let copy = machine.copy(alloc, failing, calls)?;
    let (left, refusal) = copy.open(alloc, failing.log_frames);
    Ok((left.crash(), refusal.is_none()))
}

/// Opens the store in a copy of the device. Gives the fault with which it was refused, and the device then, with no
/// call more.
pub(crate) fn open_and_close<M: Machine>(
    alloc: Global,
    machine: &M,
    log_frames: usize,
) -> Result<(Option<StoreFault>, M), RowFault> {
    let copy = machine.copy(alloc, Failing::of_frames(log_frames), u64::MAX)?;
    let (left, refusal) = copy.open(alloc, log_frames);
    match refusal {
        None => Ok((None, left.close())),
        Some(Refusal::Store(fault)) => Ok((Some(fault), left)),
        Some(_) => Err(RowFault::Memory),
    }
}

/// Whether the database of a copy of the device has the tables of a store and nothing else.
pub(crate) fn has_known_tables<M: Machine>(
    alloc: Global,
    machine: &M,
    log_frames: usize,
) -> Result<bool, RowFault> {
    let copy = machine.copy(alloc, Failing::of_frames(log_frames), u64::MAX)?;
    copy.is_known(alloc, log_frames)
}

/// Makes a change in a store whose device does not fail.
pub(crate) fn make_whole<K: Keeper>(
    alloc: Global,
    store: &mut K,
    change: Change<'_>,
) -> Result<(), RowFault> {
    match store.make(alloc, change)? {
        None => Ok(()),
        Some(_) => Err(RowFault::Memory),
    }
}

/// The changes of a store that is filled.
const FILLING: [&str; 5] = [
    r#"prepare 1 1 1={"record":{"a":1}} 3={"delta":4}"#,
    "install 1",
    r#"prepare 7 2 1={"record":{"b":"two"}} 2={"array":{"items":[3],"low":0,"of":"int"}} 3={"delta":-9}"#,
    "decide 4",
    "bump",
];

/// The device of a store that is filled. Its newest content is in the log, which is short.
pub(crate) fn filled<M: Machine>(alloc: Global) -> Result<M, RowFault> {
    let mut store = open_store(alloc, M::with_bytes(alloc, &[])?, 1)?;
    fill(alloc, &mut store)?;
    Ok(store.close())
}

fn fill<K: Keeper>(alloc: Global, store: &mut K) -> Result<(), RowFault> {
    for line in FILLING {
        make_whole(alloc, store, Change::read(line))?;
    }
    Ok(())
}

/// The least number of calls with which the store opens. A copy is opened twice before it counts as failing. For a
/// device to which memory is refused looks like one that fails, but memory is refused once.
pub(crate) fn calls_to_open<M: Machine>(
    alloc: Global,
    machine: &M,
    failing: Failing,
) -> Result<u64, RowFault> {
    for calls in 0..CALLS {
        if opens(alloc, machine, failing, calls) || opens(alloc, machine, failing, calls) {
            return Ok(calls);
        }
    }
    Err(RowFault::Unread)
}

fn opens<M: Machine>(alloc: Global, machine: &M, failing: Failing, calls: u64) -> bool {
    open_copy(alloc, machine, failing, calls).is_ok()
}
