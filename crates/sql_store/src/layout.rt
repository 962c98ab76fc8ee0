//! Which tables a database has, and the numbers of `meta` by name.
ghost use Rattle.std.specs.Prelude.{◌≡◌, ◌≢◌, ℕ, ◌∷◌, false, IfErr, IfOk, IsErrOf, IsTrue, map, Err};
ghost use Rattle.sqlite.specs.Held.{state};
ghost use Rattle.sqlite.specs.Schema.{Schema};
ghost use Rattle.sqlite.specs.State.{HasCleanDisk};
ghost use Rattle.stable_store.specs.declared.fault.StoreFault.TheVariants.{Failed, NotOurs};
ghost use Rattle.store_tables.specs.Tables.{stable_schema};
ghost use Rattle.sql_store.specs.Reading.{IsAlone, IsSettled, IsQueryOf, QuietsWith, IsOnlyNumber, IsNumberOf, IsCounted, LooksUp, StaysOut};
ghost use Rattle.sql_store.specs.Failing.{HasFailed, KeepsTrack};
ghost use Rattle.sql_store.specs.Layouts.{presence, presence_in, IsAbsence, IsPresence, IsLayout};
ghost use Rattle.sql_store.specs.declared.layout.Layout.TheVariants.{Nothing, First, Second};
ghost use Rattle.sql_store.specs.declared.layout.Presence.TheVariants.{Missing, There};

use crate::asking::answer;
use sqlite::{Alter, Connection, Error, ErrorCode, Row};
use sqlite_resolve::CompileError;
use stable_store::StoreFault;
use store_tables::is_known;
use store_writing::faults::fault_of;

/// The query of the columns of the first table.
const META_COLUMNS: &str = "SELECT k, v FROM meta";

/// The queries of the columns that both versions have beside those.
const FIRST_COLUMNS: [&str; 4] = [
    "SELECT obj, val FROM base",
    "SELECT top, home FROM prepared",
    "SELECT top, obj, val FROM prepared_val",
    "SELECT top FROM decided",
];

/// The query of the columns that version 2 has beside those.
const DELTA_COLUMNS: &str = "SELECT top, obj, add_by FROM prepared_delta";

/// The query of the count.
pub(crate) const READ_COUNT: &str = "SELECT v FROM meta WHERE k = 'count'";

/// Which tables of a store a database has.
#[derive(Clone, Copy, Debug, PartialEq, Eq)]
pub(crate) enum Layout {
    /// None of them.
    Nothing,
    /// Those of version 1.
    First,
    /// Those of version 2.
    Second,
    /// Some of them, or tables of these names with other columns.
    Others,
}

/// What a database has of the columns that a query names.
#[derive(Clone, Copy, Debug, PartialEq, Eq)]
enum Presence {
    There,
    Missing,
    Others,
}

/// Which tables of a store the database has.
pub(crate) fn layout_of<A: Alter>(conn: &mut Connection<A>) -> Result<Layout, StoreFault>
    ensures mode { (state A.Store conn.old).in_transaction ≡ false
        → (state A.Store conn.new).in_transaction ≡ false }
    ensures looks { IsSettled (state A.Store conn.old)
        → LooksUp (state A.Store conn.old) (state A.Store conn.new)
        (λ d layout. IsLayout d.schema layout) result }
    ensures told { IsErrOf result NotOurs → ⊥ }
{
    let first = presence_of_all(conn, META_COLUMNS, &FIRST_COLUMNS)?;
    let deltas = presence_of(conn, DELTA_COLUMNS)?;
    Ok(layout_by(first, deltas))
}

/// The tables that a database has which has this of those of version 1, and this of that of version 2.
fn layout_by(first: Presence, deltas: Presence) -> Layout
    ensures new { first ≡ Missing → deltas ≡ Missing → result ≡ Nothing }
    ensures first { first ≡ There → deltas ≡ Missing → result ≡ First }
    ensures second { first ≡ There → deltas ≡ There → result ≡ Second }
{
    match first {
        Presence::Missing => match deltas {
            Presence::Missing => Layout::Nothing,
            Presence::There | Presence::Others => Layout::Others,
        },
        Presence::There => match deltas {
            Presence::There => Layout::Second,
            Presence::Missing => Layout::First,
            Presence::Others => Layout::Others,
        },
        Presence::Others => Layout::Others,
    }
}

/// What the database has of the columns that these queries name.
fn presence_of_all<A: Alter>(
    conn: &mut Connection<A>,
    query: &str,
    others: &[&str],
) -> Result<Presence, StoreFault>
    ensures mode { (state A.Store conn.old).in_transaction ≡ false
        → (state A.Store conn.new).in_transaction ≡ false }
    ensures looks { IsSettled (state A.Store conn.old)
        → LooksUp (state A.Store conn.old) (state A.Store conn.new)
        (λ d found. IsPresence d.schema (query.now ∷ map (λ q. q.now) others.now) found) result }
    ensures told { IsErrOf result NotOurs → ⊥ }
{
    let first = presence_of(conn, query)?;
    for other in others {
        let found = presence_of(conn, other)?;
        if found != first {
            return Ok(Presence::Others);
        }
    }
    Ok(first)
}

/// Whether the database has the table and the columns that a query names.
fn presence_of<A: Alter>(conn: &mut Connection<A>, query: &str) -> Result<Presence, StoreFault>
    ensures mode { (state A.Store conn.old).in_transaction ≡ false
        → (state A.Store conn.new).in_transaction ≡ false }
    ensures looks { IsSettled (state A.Store conn.old)
        → LooksUp (state A.Store conn.old) (state A.Store conn.new)
        (λ d found. found ≡ presence_in d.schema query.now) result }
    ensures told { IsErrOf result NotOurs → ⊥ }
{
    match conn.prepare(query) {
        Ok(_) => Ok(Presence::There),
        Err(error) => absence(error),
    }
}

/// What a database has of the columns that a query names which it refused with this error.
fn absence(error: Error) -> Result<Presence, StoreFault>
    ensures absence { IfOk result (IsAbsence error) }
    ensures told { IsErrOf result NotOurs → ⊥ }
{
    match error {
        Error::SqlInputError(fault) => absence_by(fault),
        error => Err(fault_of(error)),
    }
}

/// What a database has of the columns that a query names which it did not understand.
fn absence_by(fault: CompileError) -> Result<Presence, StoreFault>
    ensures absence { IfOk result (λ found. found ≡ presence (Err fault)) }
    ensures told { IsErrOf result NotOurs → ⊥ }
{
    match fault {
        CompileError::NoSuchTable => Ok(Presence::Missing),
        CompileError::OutOfMemory => Err(StoreFault::Memory),
        _ => Ok(Presence::Others),
    }
}

/// Whether the database has the tables of a store and nothing else, and no transaction is under way.
pub(crate) fn is_alone<A: Alter>(conn: &Connection<A>) -> bool
    ensures alone { IsTrue result → IsAlone (state A.Store conn.now) }
    ensures found { (state A.Store conn.now).in_transaction ≡ false
        → (state A.Store conn.now).now.schema ≡ stable_schema → IsTrue result }
{
    conn.is_autocommit() && is_known(conn.schema())
}

/// The one number of this name in `meta`, or `NotOurs`.
pub(crate) fn number_named<A: Alter>(
    conn: &mut Connection<A>,
    query: &str,
) -> Result<u64, StoreFault>
    ensures mode { (state A.Store conn.old).in_transaction ≡ false
        → (state A.Store conn.new).in_transaction ≡ false }
    ensures clean { HasCleanDisk (state A.Store conn.new) → HasCleanDisk (state A.Store conn.old) }
    ensures looks { (tables : Schema) → IsQueryOf tables query.now
        → QuietsWith tables (state A.Store conn.old)
        → LooksUp (state A.Store conn.old) (state A.Store conn.new) (IsNumberOf tables query.now)
        result }
    ensures told { IsErrOf result NotOurs → HasCleanDisk (state A.Store conn.new)
        → (tables : Schema)
        → IsQueryOf tables query.now → QuietsWith tables (state A.Store conn.old)
        → ¬ (IsTrue (state A.Store conn.old).is_open
        → IsCounted tables query.now (state A.Store conn.old).now) }
    ensures track { KeepsTrack (state A.Store conn.old) (state A.Store conn.new) }
    ensures failed { IsErrOf result Failed → HasCleanDisk (state A.Store conn.new)
        → HasFailed query.now (state A.Store conn.old) (state A.Store conn.new) }
    ensures outside { StaysOut (state A.Store conn.old) (state A.Store conn.new) result }
{
    let rows = answer(conn, query)?;
    only_number(&rows)
}

/// The one number that rows of one column have, or `NotOurs` where they have something else.
fn only_number(rows: &[Row]) -> Result<u64, StoreFault>
    ensures number { IfOk result (IsOnlyNumber rows.now) }
    ensures told { IsErrOf result NotOurs → (n : ℕ) → ¬ IsOnlyNumber rows.now n }
    ensures ours { IfErr result (λ f. f ≢ Failed) }
{
    let [row] = rows else {
        return Err(StoreFault::NotOurs);
    };
    match row.get::<u64>(0) {
        Ok(n) => Ok(n),
        Err(Error::SqliteFailure(ErrorCode::OutOfMemory)) => Err(StoreFault::Memory),
        Err(_) => Err(StoreFault::NotOurs),
    }
}
