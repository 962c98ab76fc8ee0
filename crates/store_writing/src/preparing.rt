//! The statements that write the parts of a record, within a transaction.
ghost use Rattle.std.specs.Prelude.{◌≡◌, ◌<◌, ℕ, true, false, List, [], ◌∷◌, ◌++◌, length, OnOk};
ghost use Rattle.std.specs.List.{AllByRecursion};
ghost use Rattle.std.specs.Ordering.{nat_cmp};
ghost use Rattle.std.specs.FinMap.{is_sorted};
ghost use Rattle.sqlite.specs.State.{Survives};
ghost use Rattle.sqlite.specs.Held.{state};
ghost use Rattle.atomic_types.specs.declared.part.Part.{Part as Spec};
ghost use Rattle.atomic_types.specs.declared.part.Part.TheVariants.{Delta};
ghost use Rattle.stable_store.specs.Stored.{Stored};
ghost use Rattle.stable_store.specs.Numbers.{has_zero};
ghost use Rattle.store_tables.specs.Shown.{IsValue};
ghost use Rattle.store_tables.specs.Changes.{with_record};
ghost use Rattle.store_writing.specs.Steps.{Sees, Stays, Steps};
ghost use Rattle.store_writing.specs.Waiting.{IsTextOf, AreTextsOf, Waits, Takes};

use crate::faults::OUT_OF_MEMORY;
use crate::parameters::{amount, number, words};
use crate::waiting::{PartText, RUN, record_parameters, wait};
use atomic_types::Part;
use sqlite::{Alter, Error, Transaction};
use std::alloc::Global;
use std::collections::BTreeMap;

/// The statement that writes sixteen values of a record.
const VALUE_RUN: &str =
    "INSERT INTO prepared_val VALUES (?1, ?2, ?3), (?1, ?4, ?5), (?1, ?6, ?7), (?1, ?8, ?9), (?1, ?10, ?11), (?1, ?12, ?13), \
    (?1, ?14, ?15), (?1, ?16, ?17), (?1, ?18, ?19), (?1, ?20, ?21), (?1, ?22, ?23), (?1, ?24, ?25), (?1, ?26, ?27), \
    (?1, ?28, ?29), (?1, ?30, ?31), (?1, ?32, ?33)";

/// Writes the parts of a record that has none.
pub(crate) fn put_parts<A: Alter>(
    tx: &mut Transaction<'_, A>,
    alloc: Global,
    top: u32,
    parts: &BTreeMap<u32, Part>,
) -> Result<(), Error>
    requires top { 0 < top }
    requires objects { has_zero parts.now.entries ≡ false }
    ensures same { tx.new.conn.ghost_name ≡ tx.old.conn.ghost_name }
    ensures survives { Survives (state A.Store tx.old.conn.now) (state A.Store tx.new.conn.now)
        (λ _. ⊥) }
    ensures steps { (home : ℕ) (c : Stored)
        → Stays (state A.Store tx.old.conn.now) (with_record top home [] c)
        → Steps (state A.Store tx.old.conn.now) (state A.Store tx.new.conn.now)
        (with_record top home parts.now.entries c) result }
{
    let _rising = parts.len();
    let mut waiting = Vec::new(alloc);
    for (&object, part) in parts {
        match take_part(tx, alloc, top, &mut waiting, object, part) {
            Ok(()) => {}
            Err(error) => return Err(error),
        }
    }
    put_rest(tx, top, &waiting)
}

/// Takes one part more of a record. A value waits until one statement can write sixteen, a delta is
/// written behind those that wait.
fn take_part<A: Alter>(
    tx: &mut Transaction<'_, A>,
    alloc: Global,
    top: u32,
    waiting: &mut Vec<PartText>,
    object: u32,
    part: &Part,
) -> Result<(), Error>
    requires top { 0 < top }
    requires few { length waiting.old.items < 16 }
    ensures same { tx.new.conn.ghost_name ≡ tx.old.conn.ghost_name }
    ensures survives { Survives (state A.Store tx.old.conn.now) (state A.Store tx.new.conn.now)
        (λ _. ⊥) }
    ensures few { OnOk result (length waiting.new.items < 16) }
    ensures steps { (home : ℕ) (written all : List (ℕ × Spec)) (c : Stored)
        → has_zero (all ++ (object, part.now) ∷ []) ≡ false
        → is_sorted nat_cmp (all ++ (object, part.now) ∷ []) ≡ true
        → Waits IsValue waiting.old.items written all
        → Stays (state A.Store tx.old.conn.now) (with_record top home written c)
        → Takes IsValue (state A.Store tx.old.conn.now) (state A.Store tx.new.conn.now)
        waiting.new.items (all ++ (object, part.now) ∷ [])
        (λ es. with_record top home es c) result }
{
    match part {
        Part::Value(_) => take_value(tx, alloc, top, waiting, object, part),
        Part::Delta(by) => take_delta(tx, top, waiting, object, *by),
    }
}

/// Takes one value more of a record, and writes those that wait once there are sixteen.
fn take_value<A: Alter>(
    tx: &mut Transaction<'_, A>,
    alloc: Global,
    top: u32,
    waiting: &mut Vec<PartText>,
    object: u32,
    part: &Part,
) -> Result<(), Error>
    requires top { 0 < top }
    requires few { length waiting.old.items < 16 }
    ensures same { tx.new.conn.ghost_name ≡ tx.old.conn.ghost_name }
    ensures survives { Survives (state A.Store tx.old.conn.now) (state A.Store tx.new.conn.now)
        (λ _. ⊥) }
    ensures few { OnOk result (length waiting.new.items < 16) }
    ensures steps { IsValue part.now → (home : ℕ) (written all : List (ℕ × Spec)) (c : Stored)
        → has_zero (all ++ (object, part.now) ∷ []) ≡ false
        → is_sorted nat_cmp (all ++ (object, part.now) ∷ []) ≡ true
        → Waits IsValue waiting.old.items written all
        → Stays (state A.Store tx.old.conn.now) (with_record top home written c)
        → Takes IsValue (state A.Store tx.old.conn.now) (state A.Store tx.new.conn.now)
        waiting.new.items (all ++ (object, part.now) ∷ [])
        (λ es. with_record top home es c) result }
{
    let Ok(()) = wait(alloc, waiting, object, part) else {
        return Err(OUT_OF_MEMORY);
    };
    if waiting.len() < RUN {
        return Ok(());
    }
    match put_run(tx, alloc, top, waiting.as_slice()) {
        Ok(()) => {
            waiting.clear();
            Ok(())
        }
        Err(error) => Err(error),
    }
}

/// Writes the values of a record that wait, and a delta behind them.
fn take_delta<A: Alter>(
    tx: &mut Transaction<'_, A>,
    top: u32,
    waiting: &mut Vec<PartText>,
    object: u32,
    by: i64,
) -> Result<(), Error>
    requires top { 0 < top }
    ensures same { tx.new.conn.ghost_name ≡ tx.old.conn.ghost_name }
    ensures survives { Survives (state A.Store tx.old.conn.now) (state A.Store tx.new.conn.now)
        (λ _. ⊥) }
    ensures few { OnOk result (length waiting.new.items < 16) }
    ensures steps { (home : ℕ) (written all : List (ℕ × Spec)) (c : Stored)
        → has_zero (all ++ (object, Delta by) ∷ []) ≡ false
        → is_sorted nat_cmp (all ++ (object, Delta by) ∷ []) ≡ true
        → Waits IsValue waiting.old.items written all
        → Stays (state A.Store tx.old.conn.now) (with_record top home written c)
        → Takes IsValue (state A.Store tx.old.conn.now) (state A.Store tx.new.conn.now)
        waiting.new.items (all ++ (object, Delta by) ∷ [])
        (λ es. with_record top home es c) result }
{
    match put_rest(tx, top, waiting.as_slice()) {
        Ok(()) => {
            waiting.clear();
            put_delta(tx, top, object, by)
        }
        Err(error) => Err(error),
    }
}

/// Writes sixteen values more of a record.
fn put_run<A: Alter>(
    tx: &mut Transaction<'_, A>,
    alloc: Global,
    top: u32,
    values: &[PartText],
) -> Result<(), Error>
    requires top { 0 < top }
    requires full { length values.now ≡ 16 }
    ensures same { tx.new.conn.ghost_name ≡ tx.old.conn.ghost_name }
    ensures survives { Survives (state A.Store tx.old.conn.now) (state A.Store tx.new.conn.now)
        (λ _. ⊥) }
    ensures steps { (home : ℕ) (before es : List (ℕ × Spec)) (c : Stored)
        → AreTextsOf values.now es → AllByRecursion (λ e. IsValue e.1) es → has_zero es ≡ false
        → is_sorted nat_cmp (before ++ es) ≡ true
        → Sees (state A.Store tx.old.conn.now) (with_record top home before c)
        → Steps (state A.Store tx.old.conn.now) (state A.Store tx.new.conn.now)
        (with_record top home (before ++ es) c) result }
{
    let Ok(parameters) = record_parameters(alloc, top, values) else {
        return Err(OUT_OF_MEMORY);
    };
    match tx.execute(VALUE_RUN, &parameters) {
        Ok(_) => Ok(()),
        Err(error) => Err(error),
    }
}

/// Writes the values of a record that wait, one by one.
fn put_rest<A: Alter>(
    tx: &mut Transaction<'_, A>,
    top: u32,
    waiting: &[PartText],
) -> Result<(), Error>
    requires top { 0 < top }
    ensures same { tx.new.conn.ghost_name ≡ tx.old.conn.ghost_name }
    ensures survives { Survives (state A.Store tx.old.conn.now) (state A.Store tx.new.conn.now)
        (λ _. ⊥) }
    ensures steps { (home : ℕ) (written all : List (ℕ × Spec)) (c : Stored)
        → has_zero all ≡ false → is_sorted nat_cmp all ≡ true
        → Waits IsValue waiting.now written all
        → Stays (state A.Store tx.old.conn.now) (with_record top home written c)
        → Steps (state A.Store tx.old.conn.now) (state A.Store tx.new.conn.now)
        (with_record top home all c) result }
{
    for value in waiting {
        match put_value(tx, top, value) {
            Ok(()) => {}
            Err(error) => return Err(error),
        }
    }
    Ok(())
}

/// Writes one value more of a record.
fn put_value<A: Alter>(tx: &mut Transaction<'_, A>, top: u32, value: &PartText) -> Result<(), Error>
    requires top { 0 < top }
    ensures same { tx.new.conn.ghost_name ≡ tx.old.conn.ghost_name }
    ensures survives { Survives (state A.Store tx.old.conn.now) (state A.Store tx.new.conn.now)
        (λ _. ⊥) }
    ensures steps { (home : ℕ) (before : List (ℕ × Spec)) (e : ℕ × Spec) (c : Stored)
        → IsTextOf value.now e → IsValue e.1 → 0 < e.0 → is_sorted nat_cmp (before ++ e ∷ []) ≡ true
        → Sees (state A.Store tx.old.conn.now) (with_record top home before c)
        → Steps (state A.Store tx.old.conn.now) (state A.Store tx.new.conn.now)
        (with_record top home (before ++ e ∷ []) c) result }
{
    match tx.execute(
        "INSERT INTO prepared_val VALUES (?1, ?2, ?3)",
        &[number(top), number(value.object), words(&value.text)],
    ) {
        Ok(_) => Ok(()),
        Err(error) => Err(error),
    }
}

/// Writes one delta more of a record.
fn put_delta<A: Alter>(
    tx: &mut Transaction<'_, A>,
    top: u32,
    object: u32,
    by: i64,
) -> Result<(), Error>
    requires top { 0 < top }
    ensures same { tx.new.conn.ghost_name ≡ tx.old.conn.ghost_name }
    ensures survives { Survives (state A.Store tx.old.conn.now) (state A.Store tx.new.conn.now)
        (λ _. ⊥) }
    ensures steps { 0 < object → (home : ℕ) (before : List (ℕ × Spec)) (c : Stored)
        → is_sorted nat_cmp (before ++ (object, Delta by) ∷ []) ≡ true
        → Sees (state A.Store tx.old.conn.now) (with_record top home before c)
        → Steps (state A.Store tx.old.conn.now) (state A.Store tx.new.conn.now)
        (with_record top home (before ++ (object, Delta by) ∷ []) c) result }
{
    match tx.execute(
        "INSERT INTO prepared_delta VALUES (?1, ?2, ?3)",
        &[number(top), number(object), amount(by)],
    ) {
        Ok(_) => Ok(()),
        Err(error) => Err(error),
    }
}
