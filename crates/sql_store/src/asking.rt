//! Reading the tables.
ghost use Rattle.std.specs.Prelude.{◌≡◌, ◌<◌, ◌∷◌, ◌++◌, false, IsErrOf, IsTrue, length, map};
ghost use Rattle.sqlite.specs.Held.{state};
ghost use Rattle.sqlite.specs.Schema.{Schema};
ghost use Rattle.sqlite.specs.State.{HasCleanDisk};
ghost use Rattle.stable_store.specs.Stored.{Stored};
ghost use Rattle.stable_store.specs.Held.{held};
ghost use Rattle.stable_store.specs.declared.fault.StoreFault.TheVariants.{Failed, NotOurs};
ghost use Rattle.store_tables.specs.Answered.{queries, rows_of};
ghost use Rattle.store_tables.specs.Holds.{Holds, IsLaidOut, tables_of};
ghost use Rattle.store_tables.specs.Rows.{HaveRowids};
ghost use Rattle.sql_store.specs.Reading.{IsQueryOf, IsAnswerOf, AreQueriesOf, AreAnswersOf, Quiets, QuietsWith, LooksUp, StaysOut, Recognizes};
ghost use Rattle.sql_store.specs.Failing.{HasFailed, KeepsTrack, OneFailed};
ghost use Rattle.sql_store.specs.Failing.{count_query, first_queries, rowid_queries};
ghost use Rattle.sql_store.specs.First.{IsFirst, RecognizesFirst};
ghost use Rattle.sql_store.specs.Beside.{IsBeside, RecognizesBeside};

use crate::layout::{READ_COUNT, number_named};
use sqlite::{Alter, Connection, Row};
use stable_store::{Kept, StoreFault};
use std::alloc::Global;
use store_tables::{
    FIRST_QUERIES, QUERIES, ROWIDS, all_rise, content_of, first_content_of, one_content_is_held,
    one_part_spelling,
};
use store_writing::faults::fault_of;

/// The rows that a query with no parameters answers.
pub(crate) fn answer<A: Alter>(
    conn: &mut Connection<A>,
    query: &str,
) -> Result<Vec<Row>, StoreFault>
    ensures outside { StaysOut (state A.Store conn.old) (state A.Store conn.new) result }
    ensures looks { (tables : Schema) → IsQueryOf tables query.now
        → QuietsWith tables (state A.Store conn.old)
        → LooksUp (state A.Store conn.old) (state A.Store conn.new)
        (λ d rows. IsAnswerOf tables d query.now rows.items) result }
    ensures told { IsErrOf result NotOurs → ⊥ }
    ensures track { KeepsTrack (state A.Store conn.old) (state A.Store conn.new) }
    ensures failed { IsErrOf result Failed → HasCleanDisk (state A.Store conn.new)
        → HasFailed query.now (state A.Store conn.old) (state A.Store conn.new) }
{
    match conn.query_all(query, &[]) {
        Ok(rows) => Ok(rows),
        Err(error) => Err(fault_of(error)),
    }
}

/// The rows that each of these queries answers.
fn answers<A: Alter>(
    conn: &mut Connection<A>,
    alloc: Global,
    queries: &[&str],
) -> Result<Vec<Vec<Row>>, StoreFault>
    requires { 0 < length queries.now }
    ensures outside { StaysOut (state A.Store conn.old) (state A.Store conn.new) result }
    ensures looks { (tables : Schema) → AreQueriesOf tables (map (λ q. q.now) queries.now)
        → QuietsWith tables (state A.Store conn.old)
        → LooksUp (state A.Store conn.old) (state A.Store conn.new)
        (λ d answers. AreAnswersOf tables d (map (λ q. q.now) queries.now) (rows_of answers.items))
        result }
    ensures told { IsErrOf result NotOurs → ⊥ }
    ensures track { KeepsTrack (state A.Store conn.old) (state A.Store conn.new) }
    ensures failed { IsErrOf result Failed → HasCleanDisk (state A.Store conn.new)
        → OneFailed A.Store (map (λ q. q.now) queries.now) (state A.Store conn.old)
        (state A.Store conn.new) }
{
    let mut answers = Vec::new(alloc);
    for query in queries {
        answers.push(answer(conn, query)?)?;
    }
    Ok(answers)
}

/// The content of the tables. `NotOurs` where they hold none. The database stays as it is.
pub(crate) fn read_content<A: Alter>(
    conn: &mut Connection<A>,
    alloc: Global,
) -> Result<Kept, StoreFault>
    ensures outside { StaysOut (state A.Store conn.old) (state A.Store conn.new) result }
    ensures looks { Quiets (state A.Store conn.old)
        → LooksUp (state A.Store conn.old) (state A.Store conn.new)
        (λ d kept. Holds 1 (tables_of d.trees) (held kept)) result }
    ensures recognized { Recognizes (state A.Store conn.old) (state A.Store conn.new) result }
    ensures beside { (c : Stored) → IsBeside (state A.Store conn.old) c
        → LooksUp (state A.Store conn.old) (state A.Store conn.new)
        (λ _ kept. held kept ≡ c) result }
    ensures recognized_beside { RecognizesBeside (state A.Store conn.old) (state A.Store conn.new)
        result }
    ensures failed { IsErrOf result Failed → HasCleanDisk (state A.Store conn.new)
        → OneFailed A.Store queries (state A.Store conn.old) (state A.Store conn.new) }
{
    one_content_is_held();
    content_of(alloc, &answers(conn, alloc, &QUERIES)?)
}

/// `NotOurs` where a table has a row with no rowid of its own.
fn check_rowids<A: Alter>(conn: &mut Connection<A>, alloc: Global) -> Result<(), StoreFault>
    ensures outside { StaysOut (state A.Store conn.old) (state A.Store conn.new) result }
    ensures looks { Quiets (state A.Store conn.old)
        → LooksUp (state A.Store conn.old) (state A.Store conn.new)
        (λ d _. HaveRowids d.trees) result }
    ensures recognized { Recognizes (state A.Store conn.old) (state A.Store conn.new) result }
    ensures track { KeepsTrack (state A.Store conn.old) (state A.Store conn.new) }
    ensures failed { IsErrOf result Failed → HasCleanDisk (state A.Store conn.new)
        → OneFailed A.Store rowid_queries (state A.Store conn.old) (state A.Store conn.new) }
{
    match all_rise(&answers(conn, alloc, &ROWIDS)?) {
        true => Ok(()),
        false => Err(StoreFault::NotOurs),
    }
}

/// The content of the tables. `NotOurs` where they hold none, and, in a schema that is known, where a row has no
/// rowid of its own. The database stays as it is.
pub(crate) fn read_store<A: Alter>(
    conn: &mut Connection<A>,
    alloc: Global,
    is_known: bool,
) -> Result<Kept, StoreFault>
    ensures outside { StaysOut (state A.Store conn.old) (state A.Store conn.new) result }
    ensures looks { IsTrue is_known → Quiets (state A.Store conn.old)
        → LooksUp (state A.Store conn.old) (state A.Store conn.new)
        (λ d kept. IsLaidOut d.trees (held kept)) result }
    ensures recognized { Recognizes (state A.Store conn.old) (state A.Store conn.new) result }
    ensures beside { is_known ≡ false → (c : Stored) → IsBeside (state A.Store conn.old) c
        → LooksUp (state A.Store conn.old) (state A.Store conn.new)
        (λ _ kept. held kept ≡ c) result }
    ensures recognized_beside { is_known ≡ false
        → RecognizesBeside (state A.Store conn.old) (state A.Store conn.new) result }
    ensures failed { IsErrOf result Failed → HasCleanDisk (state A.Store conn.new)
        → OneFailed A.Store (rowid_queries ++ queries) (state A.Store conn.old)
        (state A.Store conn.new) }
{
    if !is_known {
        return read_content(conn, alloc);
    }
    check_rowids(conn, alloc)?;
    read_content(conn, alloc)
}

/// The content of tables of version 1. `NotOurs` where they hold none. The database stays as it is.
pub(crate) fn read_first<A: Alter>(
    conn: &mut Connection<A>,
    alloc: Global,
) -> Result<Kept, StoreFault>
    ensures clean { HasCleanDisk (state A.Store conn.new) → HasCleanDisk (state A.Store conn.old) }
    ensures mode { (state A.Store conn.old).in_transaction ≡ false
        → (state A.Store conn.new).in_transaction ≡ false }
    ensures looks { (c : Stored) → IsFirst (state A.Store conn.old) c
        → LooksUp (state A.Store conn.old) (state A.Store conn.new)
        (λ _ kept. held kept ≡ c) result }
    ensures recognized { RecognizesFirst (state A.Store conn.old) (state A.Store conn.new) result }
    ensures failed { IsErrOf result Failed → HasCleanDisk (state A.Store conn.new)
        → OneFailed A.Store (count_query ∷ first_queries) (state A.Store conn.old)
        (state A.Store conn.new) }
{
    one_part_spelling();
    let count = number_named(conn, READ_COUNT)?;
    first_content_of(alloc, &answers(conn, alloc, &FIRST_QUERIES)?, count)
}
