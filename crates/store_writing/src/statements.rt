//! The calls that write, each one transaction.
ghost use Rattle.std.specs.Prelude.{◌≡◌, ◌≤◌, ◌<◌, false, IsTrue, IsErr};
ghost use Rattle.sqlite.specs.Held.{state};
ghost use Rattle.stable_store.specs.Stored.{Stored, after_prepare, after_discard, after_decide, greatest_count};
ghost use Rattle.stable_store.specs.Numbers.{has_zero};
ghost use Rattle.store_writing.specs.Steps.{While, Stands, Carries};
ghost use Rattle.store_tables.specs.Changes.{with_count, with_base, with_none_decided, all_put};

use crate::faults::BUSY;
use crate::parameters::{great_number, number};
use crate::steps::{install_record, put_record, save_values};
use atomic_types::Part;
use sqlite::{Alter, Connection, Error};
use stable_store::Prepared;
use std::alloc::Global;
use std::collections::BTreeMap;

/// Adds a number to the decided. Fails if the database refuses it, or a
/// transaction is under way, and then changes nothing.
pub fn decide<A: Alter>(conn: &mut Connection<A>, top: u32) -> Result<(), Error>
    requires { 0 < top }
    ensures carries { (c : Stored) → Stands (state A.Store conn.old) c
        → Carries (state A.Store conn.old) (state A.Store conn.new) c (after_decide top c) result }
    ensures busy { IsTrue (state A.Store conn.old).in_transaction
        → IsErr result × (conn.new ≡ conn.old) }
{
    if !conn.is_autocommit() {
        return Err(BUSY);
    }
    match conn.execute("INSERT OR REPLACE INTO decided VALUES (?1)", &[number(top)]) {
        Ok(_) => Ok(()),
        Err(error) => Err(error),
    }
}

/// Writes the count. Fails if the database refuses it, or a
/// transaction is under way, and then changes nothing.
pub fn count<A: Alter>(conn: &mut Connection<A>, count: u64) -> Result<(), Error>
    requires { count ≤ greatest_count }
    ensures carries { (c : Stored) → Stands (state A.Store conn.old) c
        → Carries (state A.Store conn.old) (state A.Store conn.new) c (with_count count c) result }
    ensures busy { IsTrue (state A.Store conn.old).in_transaction
        → IsErr result × (conn.new ≡ conn.old) }
{
    if !conn.is_autocommit() {
        return Err(BUSY);
    }
    match conn.execute(
        "INSERT OR REPLACE INTO meta(rowid, k, v) VALUES (2, 'count', ?1)",
        &[great_number(count)],
    ) {
        Ok(_) => Ok(()),
        Err(error) => Err(error),
    }
}

/// Deletes a record. Its parts go with it. Fails if the database refuses it, or a
/// transaction is under way, and then changes nothing.
pub fn discard<A: Alter>(conn: &mut Connection<A>, top: u32) -> Result<(), Error>
    ensures carries { (c : Stored) → Stands (state A.Store conn.old) c
        → Carries (state A.Store conn.old) (state A.Store conn.new) c (after_discard top c) result }
    ensures busy { IsTrue (state A.Store conn.old).in_transaction
        → IsErr result × (conn.new ≡ conn.old) }
{
    if !conn.is_autocommit() {
        return Err(BUSY);
    }
    match conn.execute("DELETE FROM prepared WHERE top = ?1", &[number(top)]) {
        Ok(_) => Ok(()),
        Err(error) => Err(error),
    }
}

/// Writes a record in place of the one that the top action had, and raises the next top action's
/// number above it. Fails if the database refuses it, or a transaction is under way, and then
/// changes nothing.
pub fn prepare<A: Alter>(
    conn: &mut Connection<A>,
    alloc: Global,
    top: u32,
    whole: &Prepared,
    next_top: u64,
) -> Result<(), Error>
    requires top { 0 < top }
    requires home { 0 < whole.now.home }
    requires objects { has_zero whole.now.parts.entries ≡ false }
    ensures carries { (c : Stored) → c.next_top ≡ next_top → Stands (state A.Store conn.old) c
        → Carries (state A.Store conn.old) (state A.Store conn.new) c
        (after_prepare top whole.now.home whole.now.parts.entries c) result }
    ensures busy { IsTrue (state A.Store conn.old).in_transaction
        → IsErr result × (conn.new ≡ conn.old) }
{
    if !conn.is_autocommit() {
        return Err(BUSY);
    }
    let mut tx = conn.transaction();
    match put_record(&mut tx, alloc, top, whole, next_top) {
        Ok(()) => tx.commit(),
        Err(error) => {
            tx.rollback();
            Err(error)
        }
    }
}

/// Deletes a record, and writes what its objects have then. Fails if the database refuses it, or a
/// transaction is under way, and then changes nothing.
pub fn install<A: Alter>(
    conn: &mut Connection<A>,
    alloc: Global,
    top: u32,
    installed: &BTreeMap<u32, Part>,
) -> Result<(), Error>
    ensures carries { (c : Stored)
        → While (state A.Store conn.old) (has_zero installed.now.entries ≡ false)
        → Stands (state A.Store conn.old) c
        → Carries (state A.Store conn.old) (state A.Store conn.new) c
        (with_base (all_put installed.now.entries c.base) (after_discard top c)) result }
    ensures busy { IsTrue (state A.Store conn.old).in_transaction
        → IsErr result × (conn.new ≡ conn.old) }
{
    if !conn.is_autocommit() {
        return Err(BUSY);
    }
    let mut tx = conn.transaction();
    match install_record(&mut tx, alloc, top, installed) {
        Ok(()) => tx.commit(),
        Err(error) => {
            tx.rollback();
            Err(error)
        }
    }
}

/// Deletes all that is decided, and writes these values into the base. Fails if the database
/// refuses it, or a transaction is under way, and then changes nothing.
pub fn save<A: Alter>(
    conn: &mut Connection<A>,
    alloc: Global,
    values: &BTreeMap<u32, Part>,
) -> Result<(), Error>
    ensures carries { (c : Stored)
        → While (state A.Store conn.old) (has_zero values.now.entries ≡ false)
        → Stands (state A.Store conn.old) c
        → Carries (state A.Store conn.old) (state A.Store conn.new) c
        (with_base (all_put values.now.entries c.base) (with_none_decided c)) result }
    ensures busy { IsTrue (state A.Store conn.old).in_transaction
        → IsErr result × (conn.new ≡ conn.old) }
{
    if !conn.is_autocommit() {
        return Err(BUSY);
    }
    let mut tx = conn.transaction();
    match save_values(&mut tx, alloc, values) {
        Ok(()) => tx.commit(),
        Err(error) => {
            tx.rollback();
            Err(error)
        }
    }
}
