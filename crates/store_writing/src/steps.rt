//! The statements that write, each within a transaction.
ghost use Rattle.std.specs.Prelude.{◌≡◌, ◌≤◌, ◌<◌, ◌+◌, max, ℕ, false, [], None};
ghost use Rattle.std.specs.FinMap.{get};
ghost use Rattle.sqlite.specs.State.{Survives};
ghost use Rattle.sqlite.specs.Held.{state};
ghost use Rattle.stable_store.specs.Stored.{Stored, after_discard, after_prepare};
ghost use Rattle.stable_store.specs.Numbers.{has_zero};
ghost use Rattle.store_tables.specs.Changes.{with_base, with_record, with_next, with_none_decided, all_put};
ghost use Rattle.store_writing.specs.Steps.{While, Sees, Stays, Steps};

use crate::installing::put_base;
use crate::parameters::{great_number, number};
use crate::preparing::put_parts;
use atomic_types::Part;
use sqlite::{Alter, Error, Transaction};
use stable_store::Prepared;
use std::alloc::Global;
use std::collections::BTreeMap;

/// Writes a record in place of the one that the top action had, and raises the next top action's
/// number above it.
pub(crate) fn put_record<A: Alter>(
    tx: &mut Transaction<'_, A>,
    alloc: Global,
    top: u32,
    whole: &Prepared,
    next_top: u64,
) -> Result<(), Error>
    requires top { 0 < top }
    requires home { 0 < whole.now.home }
    requires objects { has_zero whole.now.parts.entries ≡ false }
    ensures same { tx.new.conn.ghost_name ≡ tx.old.conn.ghost_name }
    ensures survives { Survives (state A.Store tx.old.conn.now) (state A.Store tx.new.conn.now)
        (λ _. ⊥) }
    ensures steps { (c : Stored) → c.next_top ≡ next_top → Sees (state A.Store tx.old.conn.now) c
        → Steps (state A.Store tx.old.conn.now) (state A.Store tx.new.conn.now)
        (after_prepare top whole.now.home whole.now.parts.entries c) result }
{
    match put_whole(tx, alloc, top, whole) {
        Ok(()) => raise_next(tx, top, next_top),
        Err(error) => Err(error),
    }
}

/// Writes a record in place of the one that the top action had.
fn put_whole<A: Alter>(
    tx: &mut Transaction<'_, A>,
    alloc: Global,
    top: u32,
    whole: &Prepared,
) -> Result<(), Error>
    requires top { 0 < top }
    requires home { 0 < whole.now.home }
    requires objects { has_zero whole.now.parts.entries ≡ false }
    ensures same { tx.new.conn.ghost_name ≡ tx.old.conn.ghost_name }
    ensures survives { Survives (state A.Store tx.old.conn.now) (state A.Store tx.new.conn.now)
        (λ _. ⊥) }
    ensures steps { (c : Stored) → Sees (state A.Store tx.old.conn.now) c
        → Steps (state A.Store tx.old.conn.now) (state A.Store tx.new.conn.now)
        (with_record top whole.now.home whole.now.parts.entries c) result }
{
    match put_home(tx, top, whole.home) {
        Ok(()) => put_parts(tx, alloc, top, &whole.parts),
        Err(error) => Err(error),
    }
}

/// Raises the next top action's number above this one's, where it is not.
fn raise_next<A: Alter>(tx: &mut Transaction<'_, A>, top: u32, next_top: u64) -> Result<(), Error>
    ensures same { tx.new.conn.ghost_name ≡ tx.old.conn.ghost_name }
    ensures survives { Survives (state A.Store tx.old.conn.now) (state A.Store tx.new.conn.now)
        (λ _. ⊥) }
    ensures steps { (c : Stored) → c.next_top ≡ next_top → Stays (state A.Store tx.old.conn.now) c
        → Steps (state A.Store tx.old.conn.now) (state A.Store tx.new.conn.now)
        (with_next (max next_top (top + 1)) c) result }
{
    let next = u64::from(top) + 1;
    if next <= next_top {
        return Ok(());
    }
    put_next(tx, next)
}

/// Writes the next top action's number.
fn put_next<A: Alter>(tx: &mut Transaction<'_, A>, next: u64) -> Result<(), Error>
    requires low { 0 < next }
    requires high { next ≤ 4294967296 }
    ensures same { tx.new.conn.ghost_name ≡ tx.old.conn.ghost_name }
    ensures survives { Survives (state A.Store tx.old.conn.now) (state A.Store tx.new.conn.now)
        (λ _. ⊥) }
    ensures steps { (c : Stored) → Sees (state A.Store tx.old.conn.now) c
        → Steps (state A.Store tx.old.conn.now) (state A.Store tx.new.conn.now)
        (with_next next c) result }
{
    match tx.execute(
        "INSERT OR REPLACE INTO meta(rowid, k, v) VALUES (3, 'next_top', ?1)",
        &[great_number(next)],
    ) {
        Ok(_) => Ok(()),
        Err(error) => Err(error),
    }
}

/// Writes a record with no parts in place of the one that the top action had.
fn put_home<A: Alter>(tx: &mut Transaction<'_, A>, top: u32, home: u32) -> Result<(), Error>
    requires top { 0 < top }
    requires home { 0 < home }
    ensures same { tx.new.conn.ghost_name ≡ tx.old.conn.ghost_name }
    ensures survives { Survives (state A.Store tx.old.conn.now) (state A.Store tx.new.conn.now)
        (λ _. ⊥) }
    ensures steps { (c : Stored) → Sees (state A.Store tx.old.conn.now) c
        → Steps (state A.Store tx.old.conn.now) (state A.Store tx.new.conn.now)
        (with_record top home [] c) result }
{
    match delete_record(tx, top) {
        Ok(()) => add_record(tx, top, home),
        Err(error) => Err(error),
    }
}

/// Deletes a record. Its parts go with it.
fn delete_record<A: Alter>(tx: &mut Transaction<'_, A>, top: u32) -> Result<(), Error>
    ensures same { tx.new.conn.ghost_name ≡ tx.old.conn.ghost_name }
    ensures survives { Survives (state A.Store tx.old.conn.now) (state A.Store tx.new.conn.now)
        (λ _. ⊥) }
    ensures steps { (c : Stored) → Sees (state A.Store tx.old.conn.now) c
        → Steps (state A.Store tx.old.conn.now) (state A.Store tx.new.conn.now)
        (after_discard top c) result }
{
    match tx.execute("DELETE FROM prepared WHERE top = ?1", &[number(top)]) {
        Ok(_) => Ok(()),
        Err(error) => Err(error),
    }
}

/// Writes a record with no parts for a top action that has none.
fn add_record<A: Alter>(tx: &mut Transaction<'_, A>, top: u32, home: u32) -> Result<(), Error>
    requires top { 0 < top }
    requires home { 0 < home }
    ensures same { tx.new.conn.ghost_name ≡ tx.old.conn.ghost_name }
    ensures survives { Survives (state A.Store tx.old.conn.now) (state A.Store tx.new.conn.now)
        (λ _. ⊥) }
    ensures steps { (c : Stored) → get c.prepared top ≡ None
        → Sees (state A.Store tx.old.conn.now) c → Steps (state A.Store tx.old.conn.now)
        (state A.Store tx.new.conn.now) (with_record top home [] c) result }
{
    match tx.execute(
        "INSERT INTO prepared VALUES (?1, ?2)",
        &[number(top), number(home)],
    ) {
        Ok(_) => Ok(()),
        Err(error) => Err(error),
    }
}

/// Deletes a record, and writes what its objects have then.
pub(crate) fn install_record<A: Alter>(
    tx: &mut Transaction<'_, A>,
    alloc: Global,
    top: u32,
    installed: &BTreeMap<u32, Part>,
) -> Result<(), Error>
    ensures same { tx.new.conn.ghost_name ≡ tx.old.conn.ghost_name }
    ensures survives { Survives (state A.Store tx.old.conn.now) (state A.Store tx.new.conn.now)
        (λ _. ⊥) }
    ensures steps { (c : Stored)
        → While (state A.Store tx.old.conn.now) (has_zero installed.now.entries ≡ false)
        → Sees (state A.Store tx.old.conn.now) c
        → Steps (state A.Store tx.old.conn.now) (state A.Store tx.new.conn.now)
        (with_base (all_put installed.now.entries c.base) (after_discard top c)) result }
{
    match delete_record(tx, top) {
        Ok(()) => put_base(tx, alloc, installed),
        Err(error) => Err(error),
    }
}

/// Deletes all that is decided, and writes these values into the base.
pub(crate) fn save_values<A: Alter>(
    tx: &mut Transaction<'_, A>,
    alloc: Global,
    values: &BTreeMap<u32, Part>,
) -> Result<(), Error>
    ensures same { tx.new.conn.ghost_name ≡ tx.old.conn.ghost_name }
    ensures survives { Survives (state A.Store tx.old.conn.now) (state A.Store tx.new.conn.now)
        (λ _. ⊥) }
    ensures steps { (c : Stored)
        → While (state A.Store tx.old.conn.now) (has_zero values.now.entries ≡ false)
        → Sees (state A.Store tx.old.conn.now) c
        → Steps (state A.Store tx.old.conn.now) (state A.Store tx.new.conn.now)
        (with_base (all_put values.now.entries c.base) (with_none_decided c)) result }
{
    match delete_decided(tx) {
        Ok(()) => put_base(tx, alloc, values),
        Err(error) => Err(error),
    }
}

/// Deletes all that is decided.
fn delete_decided<A: Alter>(tx: &mut Transaction<'_, A>) -> Result<(), Error>
    ensures same { tx.new.conn.ghost_name ≡ tx.old.conn.ghost_name }
    ensures survives { Survives (state A.Store tx.old.conn.now) (state A.Store tx.new.conn.now)
        (λ _. ⊥) }
    ensures steps { (c : Stored) → Sees (state A.Store tx.old.conn.now) c
        → Steps (state A.Store tx.old.conn.now) (state A.Store tx.new.conn.now)
        (with_none_decided c) result }
{
    match tx.execute("DELETE FROM decided", &[]) {
        Ok(_) => Ok(()),
        Err(error) => Err(error),
    }
}
