//! Rows of runs of scripts over stores: what is said, and what the stores then hold.
ghost use Rattle.std.specs.Prelude.{◌≡◌, IfOk, length};
ghost use Rattle.script_engine.specs.Running.{IsFit};

use crate::contents::write_kept;
use crate::examples::Examples;
use crate::pieces::Writer;
use crate::scripts::script_of;
use rows::{RowFault, Words};
use script::Checked;
use script_engine::{can_open, run_stored};
use script_runs::Serially;
use sql_store::SqlStable;
use sqlite::{Connection, Error, ErrorCode, MemStore};
use sqlite_resolve::CompileError;
use stable_store::{FailOnce, PlainStable, Stable, StoreFault};
use std::alloc::{AllocError, Global};

/// The table of the numbers.
const META: &str = "CREATE TABLE meta(k TEXT PRIMARY KEY, v INTEGER NOT NULL);";

/// The table of the contents.
const BASE: &str = "CREATE TABLE base(obj INTEGER PRIMARY KEY, val TEXT NOT NULL);";

/// A table that takes no content with a 5.
const BASE_WITHOUT_FIVE: &str =
    "CREATE TABLE base(obj INTEGER PRIMARY KEY, val TEXT NOT NULL CHECK (val NOT LIKE '%5%'));";

/// The other tables of version 1, and its numbers.
const FIRST_TABLES: &str = "CREATE TABLE prepared(top INTEGER PRIMARY KEY, home INTEGER NOT NULL);
    CREATE TABLE prepared_val(top INTEGER NOT NULL REFERENCES prepared(top) ON DELETE CASCADE,
        obj INTEGER NOT NULL, val TEXT NOT NULL, PRIMARY KEY(top, obj));
    CREATE TABLE decided(top INTEGER PRIMARY KEY);
    INSERT INTO meta VALUES ('version', 1), ('count', 3);";

/// What version 2 has beside that.
const SECOND_TABLES: &str =
    "CREATE TABLE prepared_delta(top INTEGER NOT NULL REFERENCES prepared(top) ON DELETE CASCADE,
        obj INTEGER NOT NULL, add_by INTEGER NOT NULL, PRIMARY KEY(top, obj));
    UPDATE meta SET v = 2 WHERE k = 'version';
    INSERT INTO meta VALUES ('next_top', 9);";

type MemStable = SqlStable<MemStore>;

/// Which tables a database has.
#[derive(Clone, Copy, Drop)]
enum Tables {
    /// None: it is new.
    None,
    /// Those of a store of version 1.
    First,
    /// Those of a store of version 2.
    Second,
    /// Those of a store of version 2; one of them takes no content with a 5.
    WithoutFive,
}

/// A database as a store finds it.
#[derive(Drop)]
pub(crate) struct Database {
    tables: Tables,
    /// What is done in it when the tables are there.
    batch: String,
}

/// `database TABLES BATCH`: the section has one more database.
pub(crate) fn keep_database(examples: &mut Examples, mut words: Words<'_>) -> Result<(), RowFault> {
    let tables = match words.word()? {
        "new" => Tables::None,
        "first_store" => Tables::First,
        "store" => Tables::Second,
        "without_five" => Tables::WithoutFive,
        _ => return Err(RowFault::Unread),
    };
    let batch = String::from_str(examples.alloc, words.rest())?;
    let database = Database { tables, batch };
    Ok(examples.databases.push(database).map_err(AllocError::from)?)
}

/// `stored OBJECTS WRITER ..`: what comes of runs of the section's script one after another, with these writers. After
/// each run come the stores, which are then opened again, and these at the end. Each guardian has so many objects.
pub(crate) fn run_over_stores(
    examples: &Examples,
    mut words: Words<'_>,
    answer: &mut String,
) -> Result<(), RowFault> {
    let alloc = examples.alloc;
    let objects = words.number()? as usize;
    let script = script_of(alloc, examples.script.as_str())?;
    let mut stores = stores_of(alloc, examples.databases.as_slice())?;
    for word in words.rest().split(' ') {
        if stores.len() != script.guardians.len() {
            return Err(RowFault::Unread);
        }
        run(alloc, &script, stores.as_mut_slice(), word, answer)?;
        push_stores(alloc, stores.as_slice(), objects, answer)?;
        stores = opened_again(alloc, stores)?;
    }
    Ok(push_stores(alloc, stores.as_slice(), objects, answer)?)
}

/// `in_memory OBJECTS CALL WRITER ..`: the same over stores in memory. Each store fails at the call of this number, and
/// none is opened again.
pub(crate) fn run_in_memory(
    examples: &Examples,
    mut words: Words<'_>,
    answer: &mut String,
) -> Result<(), RowFault> {
    let alloc = examples.alloc;
    let objects = words.number()? as usize;
    let call = words.number()?;
    let script = script_of(alloc, examples.script.as_str())?;
    let mut stores = failing_stores(alloc, script.guardians.len(), call)?;
    for word in words.rest().split(' ') {
        if stores.len() != script.guardians.len() {
            return Err(RowFault::Unread);
        }
        run(alloc, &script, stores.as_mut_slice(), word, answer)?;
        push_stores(alloc, stores.as_slice(), objects, answer)?;
    }
    Ok(())
}

/// So many new stores in memory. Each fails at the call of this number.
fn failing_stores(
    alloc: Global,
    count: usize,
    call: u64,
) -> Result<Vec<FailOnce<PlainStable>>, AllocError> {
    let mut stores = Vec::new(alloc);
    for _ in 0..count {
        stores.push(FailOnce::new(PlainStable::new(alloc), call))?;
    }
    Ok(stores)
}

/// A store in each of these databases.
fn stores_of(alloc: Global, databases: &[Database]) -> Result<Vec<MemStable>, RowFault> {
    let mut stores = Vec::new(alloc);
    for database in databases {
        let store = store_in(alloc, in_memory(alloc, database)?)?;
        stores.push(store).map_err(AllocError::from)?;
    }
    Ok(stores)
}

/// New stores in the databases of these.
fn opened_again(alloc: Global, stores: Vec<MemStable>) -> Result<Vec<MemStable>, RowFault> {
    let mut opened = Vec::new(alloc);
    for store in stores {
        let store = store_in(alloc, store.into_connection())?;
        opened.push(store).map_err(AllocError::from)?;
    }
    Ok(opened)
}

fn store_in(alloc: Global, conn: Connection<MemStore>) -> Result<MemStable, RowFault> {
    match SqlStable::new(alloc, conn) {
        Ok(store) => Ok(store),
        Err((StoreFault::Memory, _conn)) => Err(RowFault::Memory),
        Err((_, _conn)) => Err(RowFault::Unread),
    }
}

/// A database in memory.
fn in_memory(alloc: Global, database: &Database) -> Result<Connection<MemStore>, RowFault> {
    let mut conn = Connection::open_in_memory(alloc).map_err(|_| RowFault::Memory)?;
    match database.tables {
        Tables::None => return Ok(conn),
        Tables::First => make_tables(&mut conn, [META, BASE, FIRST_TABLES, ""])?,
        Tables::Second => make_tables(&mut conn, [META, BASE, FIRST_TABLES, SECOND_TABLES])?,
        Tables::WithoutFive => {
            make_tables(
                &mut conn,
                [META, BASE_WITHOUT_FIVE, FIRST_TABLES, SECOND_TABLES],
            )?
        }
    }
    conn.execute_batch(database.batch.as_str())
        .map_err(fault_of)?;
    Ok(conn)
}

fn make_tables(conn: &mut Connection<MemStore>, batches: [&str; 4]) -> Result<(), RowFault> {
    for batch in batches {
        conn.execute_batch(batch).map_err(fault_of)?;
    }
    Ok(())
}

/// The fault of a statement that the database refused.
fn fault_of(error: Error) -> RowFault {
    match error {
        Error::SqliteFailure(ErrorCode::OutOfMemory)
        | Error::SqlInputError(CompileError::OutOfMemory) => RowFault::Memory,
        _ => RowFault::Unread,
    }
}

/// Runs a script over the stores with the writer of the word, and writes what that took and how the run ended.
fn run<S: Stable>(
    alloc: Global,
    script: &Checked,
    stores: &mut [S],
    word: &str,
    answer: &mut String,
) -> Result<(), RowFault>
    requires fit { IsFit script.now }
    requires count { length stores.old ≡ length script.now.guardians }
{
    let mut untraced: Option<Writer> = None;
    let mut writer = Writer::of_word(alloc, word)?;
    let ended = run_stored(
        alloc,
        &mut Serially,
        script,
        stores,
        &mut untraced,
        &mut writer,
    );
    part(answer)?;
    writer.push_end(ended, answer)
}

/// Parts what follows from what is written.
fn part(answer: &mut String) -> Result<(), AllocError> {
    if answer.is_empty() {
        return Ok(());
    }
    answer.push_str("; ")
}

/// Writes of each store whether it can open a guardian that has so many objects, and what it holds.
fn push_stores<S: Stable>(
    alloc: Global,
    stores: &[S],
    objects: usize,
    answer: &mut String,
) -> Result<(), AllocError> {
    for store in stores {
        part(answer)?;
        answer.push_str(if can_open(store, objects) {
            "opens"
        } else {
            "opens none"
        })?;
        if let Some(kept) = store.kept() {
            answer.push(' ')?;
            write_kept(alloc, kept, answer)?;
        }
    }
    Ok(())
}
