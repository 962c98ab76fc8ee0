//! What the rows of a section work on: a database in memory, or a device, which is two files. Either is closed or has
//! its store open. What is done with it is proved for every type that has these calls, so that nothing of tables and
//! files is looked at there.
use crate::calls::Change;
use rows::{RowFault, Words};
use sqlite::Error;
use stable_store::StoreFault;
use std::alloc::Global;

/// Why a call was refused.
#[derive(Drop)]
pub(crate) enum Refusal {
    /// It is for a closed database, and the store is open.
    Open,
    /// By the database.
    Database(Error),
    /// By the store.
    Store(StoreFault),
}

/// A database with a store, whose calls are `Unread` while it is closed.
pub(crate) trait Keeper: Drop {
    /// Whether the store is open.
    fn is_open(&self) -> bool;

    /// Makes the change. Gives the fault with which it was refused; `Memory` if memory was.
    fn make(&mut self, alloc: Global, change: Change<'_>) -> Result<Option<StoreFault>, RowFault>;

    /// Writes what the store answers to `load`: its content, or the fault.
    fn load(&mut self, alloc: Global, answer: &mut String) -> Result<(), RowFault>;

    /// How many calls the store has refused.
    fn failures(&self) -> Result<u64, RowFault>;

    /// The same with the store closed.
    fn close(self) -> Self;
}

/// A database in memory.
pub(crate) trait Database: Keeper {
    /// One with these tables, which are filled by these statements.
    fn with_tables(alloc: Global, tables: [&str; 2], batch: &str) -> Result<Self, Error>;

    /// The same with the store open; closed if that was refused.
    fn open(self, alloc: Global) -> (Self, Option<Refusal>);

    /// The one number that a query of the closed database shows.
    fn shown_number(&mut self, query: &str) -> Result<i64, Refusal>;

    /// Whether the closed database has the tables of a store and nothing else.
    fn is_known(&self) -> Result<bool, RowFault>;
}

/// A device: a database file and its log, which fail after some number of calls. A device with no end of its calls
/// fails only if memory is refused to it, and then it is asked again.
pub(crate) trait Machine: Keeper {
    /// One with these bytes in its database and nothing in its log.
    fn with_bytes(alloc: Global, bytes: &[u8]) -> Result<Self, RowFault>;

    /// One with these tables, which are filled by these statements.
    fn with_tables(alloc: Global, tables: [&str; 2], batch: &str) -> Result<Self, RowFault>;

    /// A copy of the closed device. One of its files fails after so many calls.
    fn copy(&self, alloc: Global, failing: Failing, calls: u64) -> Result<Self, RowFault>;

    /// The same with the store open; closed if that was refused. It has few pages in memory, so a call reads and
    /// writes the files throughout.
    fn open(self, alloc: Global, log_frames: usize) -> (Self, Option<Refusal>);

    /// What a crash leaves, closed. From then on no call fails.
    fn crash(self) -> Self;

    /// Whether the database of the closed device has the tables of a store and nothing else.
    fn is_known(self, alloc: Global, log_frames: usize) -> Result<bool, RowFault>;

    /// Whether a sync of the closed device failed, so that it refuses to be opened.
    fn is_shut(&self) -> bool;

    /// The bytes of the closed device's database.
    fn database(&self) -> Result<&[u8], RowFault>;

    /// Whether both are closed and their files have the same bytes.
    fn has_bytes_of(&self, other: &Self) -> bool;
}

/// Which of the two files fails, and how long the log grows.
#[derive(Clone, Copy, Drop)]
pub(crate) struct Failing {
    pub(crate) is_log: bool,
    /// The frames from which on the log is copied into the database at the next commit.
    pub(crate) log_frames: usize,
}

impl Failing {
    /// Of the words `log FRAMES` or `database FRAMES`.
    pub(crate) fn read(words: &mut Words<'_>) -> Result<Failing, RowFault> {
        let is_log = match words.word()? {
            "log" => true,
            "database" => false,
            _ => return Err(RowFault::Unread),
        };
        let log_frames = read_frames(words)?;
        Ok(Failing { is_log, log_frames })
    }

    /// Of the database, with a log that grows so long.
    pub(crate) fn of_frames(log_frames: usize) -> Failing {
        Failing {
            is_log: false,
            log_frames,
        }
    }
}

/// The next word as a number of frames.
pub(crate) fn read_frames(words: &mut Words<'_>) -> Result<usize, RowFault> {
    words.word()?.parse().map_err(|_| RowFault::Unread)
}
