//! The files in which guardians keep their stores: `gN.db` of the folder for guardian N.

ghost use Rattle.std.specs.Prelude.{◌≡◌, IfOk, IfSome, length};

use argus_engine::Fault;
use script::Checked;
use script_engine::can_open;
use sql_store::SqlStable;
use sqlite::{Alter, Connection, Error, ErrorCode, File, FileStore};
use stable_store::{Stable, StoreFault};
use std::alloc::Global;
use std::fs;
use std::io::ErrorKind;

/// A store in a file.
pub type FileStable = SqlStable<FileStore<File>>;

/// A way to open the stores of guardians.
pub trait Opens {
    type Store: Stable;

    /// The store that the guardian of this number has in the folder; `None` where its file has none.
    fn open(&self, folder: &str, number: usize) -> Result<Option<Self::Store>, Fault>;
}

/// Stores are opened in files.
#[derive(Clone, Copy)]
pub struct Files<'a> {
    pub rt: &'a HostRuntime,
}

impl Opens for Files<'_> {
    type Store = FileStable;

    fn open(&self, folder: &str, number: usize) -> Result<Option<FileStable>, Fault> {
        let path = path_of(self.rt, folder, number)?;
        open_store(self.rt, path.as_str())
    }
}

/// The stores of a script's guardians, in order; a file that is not there is made, and tables of version 1 are
/// migrated. `None` where one of them is no store, or can not open its guardian; the files behind it are then not
/// looked at.
pub fn open_stores<O: Opens>(
    alloc: Global,
    files: &O,
    folder: &str,
    script: &Checked,
) -> Result<Option<Vec<O::Store>>, Fault>
    ensures { IfOk result
        (λ found. IfSome found (λ stores. length stores.items ≡ length script.now.guardians)) }
{
    let mut stores = Vec::new(alloc);
    for (index, objects) in script.guardians.as_slice().iter().enumerate() {
        let Some(store) = files.open(folder, index + 1)? else {
            return Ok(None);
        };
        if !can_open(&store, objects.len()) {
            return Ok(None);
        }
        stores.push(store)?;
    }
    Ok(Some(stores))
}

/// The stores of so many guardians, in order, in files of the folder: new ones, or where they are to be opened again
/// those that are there. `None` where a file is there that is to be made, or is not there and is to be opened again,
/// and where a file holds no store.
pub fn stores_in<O: Opens>(
    rt: &HostRuntime,
    files: &O,
    folder: &str,
    guardians: usize,
    reopen: bool,
) -> Result<Option<Vec<O::Store>>, Fault>
    ensures { IfOk result (λ found. IfSome found (λ stores. length stores.items ≡ guardians)) }
{
    if !all_are_so(rt, folder, guardians, reopen)? {
        return Ok(None);
    }
    let mut stores = Vec::new(rt.alloc());
    for index in 0..guardians {
        let Some(store) = files.open(folder, index + 1)? else {
            return Ok(None);
        };
        stores.push(store)?;
    }
    Ok(Some(stores))
}

/// Whether the files of so many guardians are all there, or none of them is.
fn all_are_so(
    rt: &HostRuntime,
    folder: &str,
    guardians: usize,
    are_there: bool,
) -> Result<bool, Fault> {
    for index in 0..guardians {
        if is_there(rt, folder, index + 1)? != are_there {
            return Ok(false);
        }
    }
    Ok(true)
}

/// The path of the file of the guardian of this number.
fn path_of(rt: &HostRuntime, folder: &str, number: usize) -> Result<String, Fault> {
    Ok(format!(in rt.alloc(); "{folder}/g{number}.db")?)
}

/// Whether there is a file of the guardian of this number.
fn is_there(rt: &HostRuntime, folder: &str, number: usize) -> Result<bool, Fault> {
    let path = path_of(rt, folder, number)?;
    match fs::exists(rt, path.as_str()) {
        Ok(is_there) => Ok(is_there),
        Err(error) if error.kind() == ErrorKind::OutOfMemory => Err(Fault::Memory),
        Err(_) => Err(Fault::Store),
    }
}

/// The store in a file; `None` where the file has none.
fn open_store(rt: &HostRuntime, path: &str) -> Result<Option<FileStable>, Fault> {
    store_over(rt.alloc(), Connection::open(rt, path))
}

/// The store in a database that was opened with this result; `None` where it is no database, or has no store.
fn store_over<A: Alter + Drop>(
    alloc: Global,
    opened: Result<Connection<A>, Error>,
) -> Result<Option<SqlStable<A>>, Fault> {
    let conn = match opened {
        Ok(conn) => conn,
        Err(Error::SqliteFailure(ErrorCode::NotADatabase)) => return Ok(None),
        Err(Error::SqliteFailure(ErrorCode::OutOfMemory)) => return Err(Fault::Memory),
        Err(_) => return Err(Fault::Store),
    };
    match SqlStable::new(alloc, conn) {
        Ok(store) => Ok(Some(store)),
        Err((StoreFault::NotOurs, _)) => Ok(None),
        Err((fault, _)) => Err(fault.into()),
    }
}
