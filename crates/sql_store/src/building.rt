//! Laying tables out, within a transaction.
ghost use Rattle.std.specs.Prelude.{◌≡◌, ◌≢◌, ◌≤◌, IfOk, OnOk, IsTrue, map};
ghost use Rattle.sqlite.specs.Values.{bound};
ghost use Rattle.sqlite.specs.Held.{state};
ghost use Rattle.sqlite.specs.State.{HasCleanDisk, Survives};
ghost use Rattle.stable_store.specs.Held.{held};
ghost use Rattle.store_tables.specs.Tables.{stable_schema};
ghost use Rattle.store_tables.specs.Answered.{rows_of};
ghost use Rattle.sql_store.specs.declared.layout.Layout.TheVariants.{Nothing, First, Second};
ghost use Rattle.store_tables.specs.Holds.{IsLaidOut};
ghost use Rattle.sql_store.specs.Reading.{RunsInside, Works, Looks, IsQueryText, IsAnswered, AreQueryTexts, AreAnswered};
ghost use Rattle.sql_store.specs.Schemas.{LaysOut, LaysSound, KeepsSchema, HasRun};

use crate::layout::Layout;
use crate::mirror::are_same;
use atomic_types::Part;
use sqlite::types::ValueRef;
use sqlite::{Alter, Row, Transaction};
use stable_store::{GREATEST_COUNT, Kept, Prepared, StoreFault};
use std::alloc::Global;
use std::collections::BTreeMap;
use store_tables::{QUERIES, ROWIDS, all_rise, content_of};
use store_writing::faults::fault_of;
use store_writing::parameters::{amount, great_number, number};

/// The texts that make the tables of version 1, in the order in which a reference finds its parent.
const FIRST_TABLES: [&str; 5] = [
    "CREATE TABLE meta(k TEXT PRIMARY KEY, v INTEGER NOT NULL)",
    "CREATE TABLE base(obj INTEGER PRIMARY KEY, val TEXT NOT NULL)",
    "CREATE TABLE prepared(top INTEGER PRIMARY KEY, home INTEGER NOT NULL)",
    "CREATE TABLE prepared_val(top INTEGER NOT NULL REFERENCES prepared(top) ON DELETE CASCADE, obj INTEGER NOT NULL, val TEXT NOT NULL, PRIMARY KEY(top, obj))",
    "CREATE TABLE decided(top INTEGER PRIMARY KEY)",
];

/// The text that makes the table that version 2 has beside them.
const DELTA_TABLE: &str =
    "CREATE TABLE prepared_delta(top INTEGER NOT NULL REFERENCES prepared(top) ON DELETE CASCADE, obj INTEGER NOT NULL, add_by INTEGER NOT NULL, PRIMARY KEY(top, obj))";

/// Writes the tables, and gives the content that they hold then. `NotOurs` where they hold none, or another than was
/// to be written.
pub(crate) fn build<A: Alter>(
    tx: &mut Transaction<'_, A>,
    alloc: Global,
    layout: Layout,
    content: &Kept,
) -> Result<Kept, StoreFault>
    ensures same { tx.new.conn.ghost_name ≡ tx.old.conn.ghost_name }
    ensures survives { Survives (state A.Store tx.old.conn.now) (state A.Store tx.new.conn.now)
        (λ _. ⊥) }
    ensures runs { HasCleanDisk (state A.Store tx.new.conn.now)
        → IsTrue (state A.Store tx.old.conn.now).in_transaction
        → RunsInside (state A.Store tx.old.conn.now) (state A.Store tx.new.conn.now) result }
    ensures made { HasCleanDisk (state A.Store tx.new.conn.now)
        → IsTrue (state A.Store tx.old.conn.now).in_transaction
        → IfOk result (λ kept. (state A.Store tx.new.conn.now).now.schema ≡ stable_schema
        → IsLaidOut (state A.Store tx.new.conn.now).now.trees (held kept)) }
    ensures as_given { layout ≢ Second → IfOk result (λ kept. held kept ≡ held content.now) }
    ensures lays_out { LaysOut layout (state A.Store tx.old.conn.now)
        (state A.Store tx.new.conn.now) result }
    ensures sound { IsTrue (state A.Store tx.old.conn.now).in_transaction
        → LaysSound layout (state A.Store tx.old.conn.now) (state A.Store tx.new.conn.now) result }
    ensures numbers { IfOk result (λ kept. (kept.count ≡ content.now.count)
        × (kept.next_top ≡ content.now.next_top)) }
{
    write_tables(tx, layout, content)?;
    let found = read_back(tx, alloc)?;
    check_same(alloc, layout, &found, content)?;
    Ok(found)
}

/// The fault where what was found is not what was to be written. Of tables that stay nothing but the numbers was to be.
fn check_same(alloc: Global, layout: Layout, found: &Kept, content: &Kept) -> Result<(), StoreFault>
    ensures same { layout ≢ Second → OnOk result (held found.now ≡ held content.now) }
    ensures numbers { OnOk result ((found.now.count ≡ content.now.count)
        × (found.now.next_top ≡ content.now.next_top)) }
{
    match layout {
        Layout::Second => check_written(found, content),
        Layout::Nothing | Layout::First | Layout::Others => {
            match are_same(alloc, found, content)? {
                true => Ok(()),
                false => Err(StoreFault::NotOurs),
            }
        }
    }
}

/// `Failed` where other numbers were found than were just written.
fn check_written(found: &Kept, content: &Kept) -> Result<(), StoreFault>
    ensures { OnOk result ((found.now.count ≡ content.now.count)
        × (found.now.next_top ≡ content.now.next_top)) }
{
    match found.count == content.count && found.next_top == content.next_top {
        true => Ok(()),
        false => Err(StoreFault::Failed),
    }
}

/// Writes the tables of version 2 over those of this layout.
fn write_tables<A: Alter>(
    tx: &mut Transaction<'_, A>,
    layout: Layout,
    content: &Kept,
) -> Result<(), StoreFault>
    ensures same { tx.new.conn.ghost_name ≡ tx.old.conn.ghost_name }
    ensures works { Works (state A.Store tx.old.conn.now) (state A.Store tx.new.conn.now) result }
    ensures lays_out { LaysOut layout (state A.Store tx.old.conn.now)
        (state A.Store tx.new.conn.now) result }
    ensures sound { LaysSound layout (state A.Store tx.old.conn.now)
        (state A.Store tx.new.conn.now) result }
{
    make_missing(tx, layout, content)?;
    put_numbers(tx, content.count, content.next_top)
}

/// Makes those of the tables of version 2 that this layout lacks.
fn make_missing<A: Alter>(
    tx: &mut Transaction<'_, A>,
    layout: Layout,
    content: &Kept,
) -> Result<(), StoreFault>
    ensures same { tx.new.conn.ghost_name ≡ tx.old.conn.ghost_name }
    ensures works { Works (state A.Store tx.old.conn.now) (state A.Store tx.new.conn.now) result }
    ensures lays_out { LaysOut layout (state A.Store tx.old.conn.now)
        (state A.Store tx.new.conn.now) result }
{
    match layout {
        Layout::Nothing => make_tables(tx),
        Layout::First => move_deltas(tx, &content.prepared),
        Layout::Second | Layout::Others => Ok(()),
    }
}

/// Makes the tables of version 2.
fn make_tables<A: Alter>(tx: &mut Transaction<'_, A>) -> Result<(), StoreFault>
    ensures same { tx.new.conn.ghost_name ≡ tx.old.conn.ghost_name }
    ensures works { Works (state A.Store tx.old.conn.now) (state A.Store tx.new.conn.now) result }
    ensures lays_out { LaysOut Nothing (state A.Store tx.old.conn.now)
        (state A.Store tx.new.conn.now) result }
{
    for text in FIRST_TABLES {
        run(tx, text, &[])?;
    }
    run(tx, DELTA_TABLE, &[])
}

/// Makes the table of deltas, and moves there those that the records of version 1 have among their values.
fn move_deltas<A: Alter>(
    tx: &mut Transaction<'_, A>,
    records: &BTreeMap<u32, Prepared>,
) -> Result<(), StoreFault>
    ensures same { tx.new.conn.ghost_name ≡ tx.old.conn.ghost_name }
    ensures works { Works (state A.Store tx.old.conn.now) (state A.Store tx.new.conn.now) result }
    ensures lays_out { LaysOut First (state A.Store tx.old.conn.now)
        (state A.Store tx.new.conn.now) result }
{
    run(tx, DELTA_TABLE, &[])?;
    for (&top, record) in records {
        move_parts(tx, top, &record.parts)?;
    }
    Ok(())
}

/// Moves the deltas of one record.
fn move_parts<A: Alter>(
    tx: &mut Transaction<'_, A>,
    top: u32,
    parts: &BTreeMap<u32, Part>,
) -> Result<(), StoreFault>
    ensures same { tx.new.conn.ghost_name ≡ tx.old.conn.ghost_name }
    ensures works { Works (state A.Store tx.old.conn.now) (state A.Store tx.new.conn.now) result }
    ensures lays_out { LaysOut Second (state A.Store tx.old.conn.now)
        (state A.Store tx.new.conn.now) result }
{
    for (&object, part) in parts {
        move_part(tx, top, object, part)?;
    }
    Ok(())
}

/// Moves a part of a record, where it is a delta.
fn move_part<A: Alter>(
    tx: &mut Transaction<'_, A>,
    top: u32,
    object: u32,
    part: &Part,
) -> Result<(), StoreFault>
    ensures same { tx.new.conn.ghost_name ≡ tx.old.conn.ghost_name }
    ensures works { Works (state A.Store tx.old.conn.now) (state A.Store tx.new.conn.now) result }
    ensures lays_out { LaysOut Second (state A.Store tx.old.conn.now)
        (state A.Store tx.new.conn.now) result }
{
    match part {
        Part::Delta(by) => move_delta(tx, top, object, *by),
        Part::Value(_) => Ok(()),
    }
}

/// Moves one delta of a record.
fn move_delta<A: Alter>(
    tx: &mut Transaction<'_, A>,
    top: u32,
    object: u32,
    by: i64,
) -> Result<(), StoreFault>
    ensures same { tx.new.conn.ghost_name ≡ tx.old.conn.ghost_name }
    ensures works { Works (state A.Store tx.old.conn.now) (state A.Store tx.new.conn.now) result }
    ensures lays_out { LaysOut Second (state A.Store tx.old.conn.now)
        (state A.Store tx.new.conn.now) result }
{
    run(
        tx,
        "DELETE FROM prepared_val WHERE top = ?1 AND obj = ?2",
        &[number(top), number(object)],
    )?;
    run(
        tx,
        "INSERT INTO prepared_delta VALUES (?1, ?2, ?3)",
        &[number(top), number(object), amount(by)],
    )
}

/// Writes the numbers of `meta`, each in its place, in place of what was there.
fn put_numbers<A: Alter>(
    tx: &mut Transaction<'_, A>,
    count: u64,
    next_top: u64,
) -> Result<(), StoreFault>
    ensures same { tx.new.conn.ghost_name ≡ tx.old.conn.ghost_name }
    ensures works { Works (state A.Store tx.old.conn.now) (state A.Store tx.new.conn.now) result }
    ensures lays_out { LaysOut Second (state A.Store tx.old.conn.now)
        (state A.Store tx.new.conn.now) result }
    ensures sound { LaysSound Second (state A.Store tx.old.conn.now)
        (state A.Store tx.new.conn.now) result }
{
    if count > GREATEST_COUNT || next_top > GREATEST_COUNT {
        return Err(StoreFault::NotOurs);
    }
    run(tx, "DELETE FROM meta", &[])?;
    run(
        tx,
        "INSERT INTO meta(rowid, k, v) VALUES (1, 'version', 2)",
        &[],
    )?;
    run(
        tx,
        "INSERT INTO meta(rowid, k, v) VALUES (2, 'count', ?1)",
        &[great_number(count)],
    )?;
    run(
        tx,
        "INSERT INTO meta(rowid, k, v) VALUES (3, 'next_top', ?1)",
        &[great_number(next_top)],
    )
}

/// Runs a statement.
fn run<A: Alter>(
    tx: &mut Transaction<'_, A>,
    text: &str,
    params: &[ValueRef<'_>],
) -> Result<(), StoreFault>
    ensures same { tx.new.conn.ghost_name ≡ tx.old.conn.ghost_name }
    ensures works { Works (state A.Store tx.old.conn.now) (state A.Store tx.new.conn.now) result }
    ensures ran { HasCleanDisk (state A.Store tx.new.conn.now)
        → OnOk result (HasRun text.now (bound params.now)
        (state A.Store tx.old.conn.now) (state A.Store tx.new.conn.now)) }
{
    match tx.execute(text, params) {
        Ok(_) => Ok(()),
        Err(error) => Err(fault_of(error)),
    }
}

/// The rows that a query with no parameters answers.
fn answer<A: Alter>(tx: &mut Transaction<'_, A>, query: &str) -> Result<Vec<Row>, StoreFault>
    ensures same { tx.new.conn.ghost_name ≡ tx.old.conn.ghost_name }
    ensures survives { Survives (state A.Store tx.old.conn.now) (state A.Store tx.new.conn.now)
        (λ _. ⊥) }
    ensures looks { HasCleanDisk (state A.Store tx.new.conn.now)
        → IsTrue (state A.Store tx.old.conn.now).in_transaction → IsQueryText query.now
        → Looks (state A.Store tx.old.conn.now) (state A.Store tx.new.conn.now)
        (λ rows. IsAnswered (state A.Store tx.old.conn.now).now query.now rows.items) result }
    ensures schema { KeepsSchema (state A.Store tx.old.conn.now)
        (state A.Store tx.new.conn.now) result }
{
    match tx.query_all(query, &[]) {
        Ok(rows) => Ok(rows),
        Err(error) => Err(fault_of(error)),
    }
}

/// The rows that each of these queries answers.
fn answers<A: Alter>(
    tx: &mut Transaction<'_, A>,
    alloc: Global,
    queries: &[&str],
) -> Result<Vec<Vec<Row>>, StoreFault>
    ensures same { tx.new.conn.ghost_name ≡ tx.old.conn.ghost_name }
    ensures survives { Survives (state A.Store tx.old.conn.now) (state A.Store tx.new.conn.now)
        (λ _. ⊥) }
    ensures looks { HasCleanDisk (state A.Store tx.new.conn.now)
        → IsTrue (state A.Store tx.old.conn.now).in_transaction
        → AreQueryTexts (map (λ q. q.now) queries.now)
        → Looks (state A.Store tx.old.conn.now) (state A.Store tx.new.conn.now)
        (λ answers. AreAnswered (state A.Store tx.old.conn.now).now (map (λ q. q.now) queries.now)
        (rows_of answers.items))
        result }
    ensures schema { KeepsSchema (state A.Store tx.old.conn.now)
        (state A.Store tx.new.conn.now) result }
{
    let mut answers = Vec::new(alloc);
    for query in queries {
        answers.push(answer(tx, query)?)?;
    }
    Ok(answers)
}

/// The content that the tables hold. `NotOurs` where they hold none.
fn read_back<A: Alter>(tx: &mut Transaction<'_, A>, alloc: Global) -> Result<Kept, StoreFault>
    ensures same { tx.new.conn.ghost_name ≡ tx.old.conn.ghost_name }
    ensures survives { Survives (state A.Store tx.old.conn.now) (state A.Store tx.new.conn.now)
        (λ _. ⊥) }
    ensures looks { HasCleanDisk (state A.Store tx.new.conn.now)
        → IsTrue (state A.Store tx.old.conn.now).in_transaction
        → Looks (state A.Store tx.old.conn.now) (state A.Store tx.new.conn.now)
        (λ kept. IsLaidOut (state A.Store tx.new.conn.now).now.trees (held kept)) result }
    ensures schema { KeepsSchema (state A.Store tx.old.conn.now)
        (state A.Store tx.new.conn.now) result }
{
    if !all_rise(&answers(tx, alloc, &ROWIDS)?) {
        return Err(StoreFault::NotOurs);
    }
    content_of(alloc, &answers(tx, alloc, &QUERIES)?)
}
