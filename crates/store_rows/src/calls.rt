//! The calls of a store.
use crate::contents::{contents, number, parts, write_kept};
use rows::{Row, RowFault, Words};
use stable_store::{Stable, StoreFault};
use std::alloc::Global;
use std::fmt::Write;

/// A call that changes a store's content.
#[derive(Clone, Copy, Drop)]
pub(crate) struct Change<'a> {
    pub(crate) call: &'a str,
    /// Its arguments.
    pub(crate) words: Words<'a>,
}

impl<'a> Change<'a> {
    /// The change of a line `CALL ARGUMENTS`.
    pub(crate) fn read(line: &'a str) -> Change<'a> {
        let (call, given) = line.split_once(' ').unwrap_or((line, ""));
        Change::of(&Row {
            call,
            given,
            answer: "",
        })
    }

    pub(crate) fn of(row: &Row<'a>) -> Change<'a> {
        Change {
            call: row.call,
            words: row.words(),
        }
    }
}

/// Makes the change. Gives the fault with which it was refused; `Memory` if memory was.
pub(crate) fn make(
    alloc: Global,
    store: &mut impl Stable,
    change: Change<'_>,
) -> Result<Option<StoreFault>, RowFault> {
    let mut words = change.words;
    let made = match change.call {
        "prepare" => return prepare(alloc, store, words),
        "save" => return save(alloc, store, words),
        "install" => store.install(alloc, number(&mut words)?),
        "discard" => store.discard(number(&mut words)?),
        "decide" => store.decide(number(&mut words)?),
        "bump" => store.bump(),
        _ => return Err(RowFault::Unread),
    };
    refusal(made)
}

fn prepare(
    alloc: Global,
    store: &mut impl Stable,
    mut words: Words<'_>,
) -> Result<Option<StoreFault>, RowFault> {
    let top = number(&mut words)?;
    let home = number(&mut words)?;
    refusal(store.prepare(alloc, top, home, parts(alloc, words)?))
}

fn save(
    alloc: Global,
    store: &mut impl Stable,
    words: Words<'_>,
) -> Result<Option<StoreFault>, RowFault> {
    let base = contents(alloc, words)?;
    refusal(store.save(alloc, &base))
}

/// The fault with which a call was refused; `Memory` if memory was.
fn refusal(made: Result<(), StoreFault>) -> Result<Option<StoreFault>, RowFault> {
    match made {
        Ok(()) => Ok(None),
        Err(StoreFault::Memory) => Err(RowFault::Memory),
        Err(fault) => Ok(Some(fault)),
    }
}

/// Writes what the store answers to `load`: its content, or the fault.
pub(crate) fn load(
    alloc: Global,
    store: &mut impl Stable,
    answer: &mut String,
) -> Result<(), RowFault> {
    match store.load(alloc) {
        Ok(kept) => Ok(write_kept(alloc, &kept, answer)?),
        Err(StoreFault::Memory) => Err(RowFault::Memory),
        Err(fault) => Ok(write!(answer, "{fault:?}")?),
    }
}
