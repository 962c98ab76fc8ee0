//! What a stop of the device leaves. One of its two files fails from some call on; each call is tried, up to one that
//! suffices.
use crate::calls::Change;
use crate::devices::{CALLS, calls_to_open, make_whole, open_and_crash, open_copy, open_store};
use crate::machines::{Failing, Keeper, Machine};
use rows::{RowFault, Words};
use stable_store::StoreFault;
use std::alloc::{AllocError, Global};
use std::fmt::Write;

/// A change that is made in copies of a device, each of which fails after another number of calls.
#[derive(Clone, Copy, Drop)]
pub(crate) struct Trial<'a, M: Machine> {
    machine: &'a M,
    failing: Failing,
    change: Change<'a>,
}

/// The contents before and after a change.
#[derive(Drop)]
struct Contents {
    before: String,
    after: String,
}

impl<'a, M: Machine> Trial<'a, M> {
    /// The trial of the words of a `Failing` and of the change after them.
    pub(crate) fn read(machine: &'a M, words: Words<'a>) -> Result<Trial<'a, M>, RowFault> {
        let mut words = words;
        let failing = Failing::read(&mut words)?;
        let change = Change::read(words.rest());
        Ok(Trial {
            machine,
            failing,
            change,
        })
    }

    /// The store in a copy that fails after so many calls.
    fn open(&self, alloc: Global, calls: u64) -> Result<M, RowFault> {
        open_copy(alloc, self.machine, self.failing, calls)
    }

    fn contents(&self, alloc: Global) -> Result<Contents, RowFault> {
        let mut store = self.open(alloc, u64::MAX)?;
        Contents::of(alloc, &mut store, self.change)
    }
}

impl Contents {
    fn of<K: Keeper>(
        alloc: Global,
        store: &mut K,
        change: Change<'_>,
    ) -> Result<Contents, RowFault> {
        let mut before = String::new(alloc);
        let mut after = String::new(alloc);
        store.load(alloc, &mut before)?;
        make_whole(alloc, store, change)?;
        store.load(alloc, &mut after)?;
        Ok(Contents { before, after })
    }

    fn tell(&self, answer: &mut String) -> Result<(), AllocError> {
        write!(
            answer,
            "{} then {}",
            self.before.as_str(),
            self.after.as_str()
        )
    }

    /// What is kept if the change was made, or was refused.
    fn kept(&self, is_made: bool) -> &str {
        if is_made {
            self.after.as_str()
        } else {
            self.before.as_str()
        }
    }
}

/// Writes the contents before and after the change, and what is wrong if a stop leaves another than these.
pub(crate) fn write_stops<M: Machine>(
    alloc: Global,
    trial: &Trial<'_, M>,
    answer: &mut String,
) -> Result<(), RowFault> {
    let contents = trial.contents(alloc)?;
    contents.tell(answer)?;
    stop_each(alloc, trial, &contents, answer)
}

/// The same of the one stop after so many calls.
pub(crate) fn write_stop<M: Machine>(
    alloc: Global,
    trial: &Trial<'_, M>,
    calls: u64,
    answer: &mut String,
) -> Result<(), RowFault> {
    let contents = trial.contents(alloc)?;
    contents.tell(answer)?;
    if survives(alloc, trial, trial.open(alloc, calls)?, &contents, answer)? {
        answer.push_str("; not stopped")?;
    }
    Ok(())
}

/// Lets the file fail after each number of calls, from the first of the change up to one that suffices.
fn stop_each<M: Machine>(
    alloc: Global,
    trial: &Trial<'_, M>,
    contents: &Contents,
    wrong: &mut String,
) -> Result<(), RowFault> {
    let first = calls_to_open(alloc, trial.machine, trial.failing)?;
    for calls in first..CALLS {
        let told = wrong.len();
        let suffices = survives(alloc, trial, trial.open(alloc, calls)?, contents, wrong)?;
        if wrong.len() > told {
            write!(wrong, " after {calls} calls")?;
        }
        if suffices {
            if calls == first {
                wrong.push_str("; never stopped")?;
            }
            return Ok(());
        }
    }
    wrong.push_str("; no number of calls suffices")?;
    Ok(())
}

/// Changes the store, and opens it again after a crash. Gives whether nothing failed.
fn survives<M: Machine>(
    alloc: Global,
    trial: &Trial<'_, M>,
    mut store: M,
    contents: &Contents,
    wrong: &mut String,
) -> Result<bool, RowFault> {
    let is_made = make_checked(alloc, &mut store, trial.change, contents, wrong)?;
    let mut again = open_store(alloc, store.crash(), trial.failing.log_frames)?;
    check_found(alloc, &mut again, contents, is_made, wrong)?;
    Ok(is_made)
}

/// Makes the change, and looks at the store, which goes on. Gives whether nothing failed.
fn make_checked<K: Keeper>(
    alloc: Global,
    store: &mut K,
    change: Change<'_>,
    contents: &Contents,
    wrong: &mut String,
) -> Result<bool, RowFault> {
    let fault = store.make(alloc, change)?;
    check_failures(store.failures()?, fault, wrong)?;
    check_loaded(alloc, store, contents.kept(fault.is_none()), wrong)?;
    Ok(fault.is_none())
}

/// A change is refused as `Failed`, and that is counted once.
fn check_failures(
    failures: u64,
    fault: Option<StoreFault>,
    wrong: &mut String,
) -> Result<(), RowFault> {
    match fault {
        None if failures == 0 => Ok(()),
        Some(StoreFault::Failed) if failures == 1 => Ok(()),
        _ => Ok(write!(wrong, "; {fault:?} with {failures} failures")?),
    }
}

/// The store, which goes on, contains this, or does not load, and that is counted once.
fn check_loaded<K: Keeper>(
    alloc: Global,
    store: &mut K,
    kept: &str,
    wrong: &mut String,
) -> Result<(), RowFault> {
    let before = store.failures()?;
    let mut found = String::new(alloc);
    store.load(alloc, &mut found)?;
    let counted = store.failures()?.checked_sub(before);
    let is_refused = found.as_str() == "Failed" && counted == Some(1);
    if !is_refused && found.as_str() != kept {
        write!(wrong, "; goes on with {}", found.as_str())?;
    }
    Ok(())
}

/// After a crash the store has what was kept, or has what it would after a change that was refused.
fn check_found<K: Keeper>(
    alloc: Global,
    store: &mut K,
    contents: &Contents,
    is_made: bool,
    wrong: &mut String,
) -> Result<(), RowFault> {
    let mut found = String::new(alloc);
    store.load(alloc, &mut found)?;
    if found.as_str() != contents.kept(is_made) && found.as_str() != contents.after.as_str() {
        write!(wrong, "; found again {}", found.as_str())?;
    }
    Ok(())
}

/// A store whose device has just enough calls left to open it.
pub(crate) fn open_exhausted<M: Machine>(
    alloc: Global,
    machine: &M,
    failing: Failing,
) -> Result<M, RowFault> {
    let calls = calls_to_open(alloc, machine, failing)?;
    open_copy(alloc, machine, failing, calls)
}

/// A store whose database was closed in the change: a sync failed. `Unread` if no sync of the change fails.
pub(crate) fn shut<M: Machine>(alloc: Global, trial: &Trial<'_, M>) -> Result<M, RowFault> {
    let first = calls_to_open(alloc, trial.machine, trial.failing)?;
    for calls in first..CALLS {
        if is_shut(alloc, trial, calls)? {
            return stopped(alloc, trial.open(alloc, calls)?, trial.change);
        }
    }
    Err(RowFault::Unread)
}

/// Whether a sync fails after so many calls.
fn is_shut<M: Machine>(alloc: Global, trial: &Trial<'_, M>, calls: u64) -> Result<bool, RowFault> {
    let store = stopped(alloc, trial.open(alloc, calls)?, trial.change)?;
    Ok(store.close().is_shut())
}

/// The store after a change that is refused.
fn stopped<K: Keeper>(alloc: Global, mut store: K, change: Change<'_>) -> Result<K, RowFault> {
    match store.make(alloc, change)? {
        Some(StoreFault::Failed) => Ok(store),
        _ => Err(RowFault::Unread),
    }
}

/// Writes the content that the store has once it is opened, and what is wrong if an opening that is stopped leaves
/// another.
pub(crate) fn write_openings<M: Machine>(
    alloc: Global,
    machine: &M,
    failing: Failing,
    answer: &mut String,
) -> Result<(), RowFault> {
    let whole = whole_content(alloc, machine, failing)?;
    answer.push_str(whole.as_str())?;
    for calls in 0..CALLS {
        if is_opened(alloc, machine, failing, calls, whole.as_str(), answer)? {
            return Ok(());
        }
    }
    answer.push_str("; no number of calls suffices")?;
    Ok(())
}

/// The same of the one opening that is stopped after so many calls.
pub(crate) fn write_opening<M: Machine>(
    alloc: Global,
    machine: &M,
    failing: Failing,
    calls: u64,
    answer: &mut String,
) -> Result<(), RowFault> {
    let whole = whole_content(alloc, machine, failing)?;
    answer.push_str(whole.as_str())?;
    if is_opened(alloc, machine, failing, calls, whole.as_str(), answer)? {
        answer.push_str("; not stopped")?;
    }
    Ok(())
}

/// The content of the store once a copy of the device is opened that does not fail.
fn whole_content<M: Machine>(
    alloc: Global,
    machine: &M,
    failing: Failing,
) -> Result<String, RowFault> {
    let mut whole = String::new(alloc);
    open_copy(alloc, machine, failing, u64::MAX)?.load(alloc, &mut whole)?;
    Ok(whole)
}

/// Opens a copy that fails after so many calls, and then what a crash leaves of it. Gives whether nothing failed.
fn is_opened<M: Machine>(
    alloc: Global,
    machine: &M,
    failing: Failing,
    calls: u64,
    whole: &str,
    wrong: &mut String,
) -> Result<bool, RowFault> {
    let (left, is_open) = open_and_crash(alloc, machine, failing, calls)?;
    let mut found = String::new(alloc);
    open_store(alloc, left, failing.log_frames)?.load(alloc, &mut found)?;
    if found.as_str() != whole {
        write!(wrong, "; found {} after {calls} calls", found.as_str())?;
    }
    Ok(is_open)
}
