//! Devices of two files in memory.
use crate::calls::{Change, load, make};
use crate::machines::{Failing, Keeper, Machine, Refusal};
use crate::memory::run_batches;
use rows::RowFault;
use sql_store::SqlStable;
use sqlite::{Connection, Error, ErrorCode, FileStore, Files, Options};
use sqlite_disk::{Crash, Disk, Fuse, Memory};
use stable_store::{Stable, StoreFault};
use std::alloc::Global;
use std::io;
use store_tables::is_known;

/// A device of two files in memory.
#[derive(Drop)]
pub(crate) enum Device {
    Closed(Files<Fuse<Memory>>),
    Open(SqlStable<FileStore<Fuse<Memory>>>),
}

impl Keeper for Device {
    fn is_open(&self) -> bool {
        matches!(self, Device::Open(_))
    }

    fn make(&mut self, alloc: Global, change: Change<'_>) -> Result<Option<StoreFault>, RowFault> {
        match self {
            Device::Open(store) => make(alloc, store, change),
            Device::Closed(_) => Err(RowFault::Unread),
        }
    }

    fn load(&mut self, alloc: Global, answer: &mut String) -> Result<(), RowFault> {
        match self {
            Device::Open(store) => load(alloc, store, answer),
            Device::Closed(_) => Err(RowFault::Unread),
        }
    }

    fn failures(&self) -> Result<u64, RowFault> {
        match self {
            Device::Open(store) => Ok(store.failures()),
            Device::Closed(_) => Err(RowFault::Unread),
        }
    }

    fn close(self) -> Device {
        Device::Closed(into_files(self))
    }
}

impl Machine for Device {
    fn with_bytes(alloc: Global, bytes: &[u8]) -> Result<Device, RowFault> {
        Ok(Device::Closed(files(alloc, bytes)?))
    }

    fn with_tables(alloc: Global, tables: [&str; 2], batch: &str) -> Result<Device, RowFault> {
        let mut conn = connect(alloc, files(alloc, &[])?, 1)
            .ok()
            .ok_or(RowFault::Memory)?;
        match run_batches(&mut conn, tables, batch) {
            Ok(()) => Ok(Device::Closed(conn.into_store().close())),
            Err(_) => Err(RowFault::Memory),
        }
    }

    fn copy(&self, alloc: Global, failing: Failing, calls: u64) -> Result<Device, RowFault> {
        match self {
            Device::Closed(files) => Ok(Device::Closed(copy(alloc, files, failing, calls)?)),
            Device::Open(_) => Err(RowFault::Unread),
        }
    }

    fn open(self, alloc: Global, log_frames: usize) -> (Device, Option<Refusal>) {
        match self {
            Device::Closed(files) => match connect(alloc, files, log_frames) {
                Ok(conn) => open_store(alloc, conn),
                Err((error, files)) => (Device::Closed(files), Some(Refusal::Database(error))),
            },
            Device::Open(store) => (Device::Open(store), Some(Refusal::Open)),
        }
    }

    fn crash(self) -> Device {
        let mut files = into_files(self);
        files.log.crash();
        files.db.crash();
        Device::Closed(files)
    }

    fn is_known(self, alloc: Global, log_frames: usize) -> Result<bool, RowFault> {
        match connect(alloc, into_files(self), log_frames) {
            Ok(conn) => Ok(is_known(conn.schema())),
            Err(_) => Err(RowFault::Memory),
        }
    }

    fn is_shut(&self) -> bool {
        match self {
            Device::Closed(files) => !files.may_be_used(),
            Device::Open(_) => false,
        }
    }

    fn database(&self) -> Result<&[u8], RowFault> {
        match self {
            Device::Closed(files) => Ok(files.db.inner().bytes()),
            Device::Open(_) => Err(RowFault::Unread),
        }
    }

    fn has_bytes_of(&self, other: &Device) -> bool {
        match (self, other) {
            (Device::Closed(a), Device::Closed(b)) => have_same_bytes(a, b),
            _ => false,
        }
    }
}

/// The files of the device, with no call more.
fn into_files(device: Device) -> Files<Fuse<Memory>> {
    match device {
        Device::Closed(files) => files,
        Device::Open(store) => store.into_connection().into_store().close(),
    }
}

fn have_same_bytes(a: &Files<Fuse<Memory>>, b: &Files<Fuse<Memory>>) -> bool {
    a.log.inner().bytes() == b.log.inner().bytes() && a.db.inner().bytes() == b.db.inner().bytes()
}

/// Files with these bytes in the database and nothing in the log.
fn files(alloc: Global, bytes: &[u8]) -> Result<Files<Fuse<Memory>>, RowFault> {
    Ok(Files {
        log: file(alloc, &[], u64::MAX)?,
        db: file(alloc, bytes, u64::MAX)?,
    })
}

/// A copy of the files. One of them fails after so many calls.
fn copy(
    alloc: Global,
    files: &Files<Fuse<Memory>>,
    failing: Failing,
    calls: u64,
) -> Result<Files<Fuse<Memory>>, RowFault> {
    let (log, db) = if failing.is_log {
        (calls, u64::MAX)
    } else {
        (u64::MAX, calls)
    };
    Ok(Files {
        log: file(alloc, files.log.inner().bytes(), log)?,
        db: file(alloc, files.db.inner().bytes(), db)?,
    })
}

/// A file in memory with these bytes, which fails after so many calls.
fn file(alloc: Global, bytes: &[u8], calls: u64) -> Result<Fuse<Memory>, RowFault> {
    match synced(alloc, bytes) {
        Ok(disk) => Ok(Fuse::new(disk, calls)),
        Err(_) => Err(RowFault::Memory),
    }
}

/// A file in memory that keeps these bytes through a crash.
fn synced(alloc: Global, bytes: &[u8]) -> io::Result<Memory> {
    let mut disk = Memory::new(alloc);
    disk.write_at(0, bytes)?;
    disk.sync()?;
    Ok(disk)
}

/// A connection with few pages in memory.
fn connect(
    alloc: Global,
    files: Files<Fuse<Memory>>,
    log_frames: usize,
) -> Result<Connection<FileStore<Fuse<Memory>>>, (Error, Files<Fuse<Memory>>)> {
    if !files.may_be_used() {
        return Err((Error::SqliteFailure(ErrorCode::Closed), files));
    }
    let options = Options {
        cache_pages: 2,
        spill_pages: 2,
        checkpoint_frames: log_frames,
        seed: 1,
    };
    match Connection::open_files(alloc, files, options) {
        Ok(conn) => Ok(conn),
        Err((error, left)) => Err((error, left.into_files())),
    }
}

fn open_store(
    alloc: Global,
    conn: Connection<FileStore<Fuse<Memory>>>,
) -> (Device, Option<Refusal>) {
    match SqlStable::new(alloc, conn) {
        Ok(store) => (Device::Open(store), None),
        Err((fault, conn)) => (
            Device::Closed(conn.into_store().close()),
            Some(Refusal::Store(fault)),
        ),
    }
}
