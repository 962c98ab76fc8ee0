//! What the rows of answers stand for, in maps.
ghost use Rattle.std.specs.Prelude.{◌≢◌, ℕ, OnOk, IfErr, IfOk, IsErrOf, IsSome};
ghost use Rattle.std.specs.Ordering.{nat_cmp};
ghost use Rattle.std.specs.FinMap.{from_entries, get, find};
ghost use Rattle.std.specs.FinSet as set;
ghost use Rattle.atomic_types.specs.declared.part.Part.{Part as Spec};
ghost use Rattle.stable_store.specs.Held.{parts_in, records_of};
ghost use Rattle.stable_store.specs.declared.fault.StoreFault.TheVariants.{Failed, NotOurs};
ghost use Rattle.store_tables.specs.Listed.{Lists};
ghost use Rattle.store_tables.specs.Shown.{ShowsPart, ShowsHome, ShowsRecord, ShowsTop};
ghost use Rattle.store_tables.specs.Parts.{HasBase, HasHome, HasPart, IsDecided, HaveNoParts, AreRising};
ghost use Rattle.store_tables.specs.Grown.{AddsShown, ListsMore, KeepsRecords, TakesOne};
ghost use Rattle.store_tables.specs.First.{IsPrepared};
ghost use Rattle.store_tables.specs.Keyed.{EachShows, KeysDiffer, PartsDiffer, AreNew, IsTaken};
ghost use Rattle.store_tables.specs.Spellings.{Spells};

use crate::columns::{Spelling, number_in, spelled_part, text_part};
use atomic_types::Part;
use sqlite::Row;
use stable_store::{Prepared, StoreFault};
use std::alloc::Global;
use std::collections::{BTreeMap, BTreeSet};

/// Adds what a row shows of an object. `NotOurs` where the object has something.
fn put_part(alloc: Global, row: &Row, base: &mut BTreeMap<u32, Part>) -> Result<(), StoreFault>
    ensures adds { OnOk result (AddsShown (ShowsPart 0) row.now (HasBase (parts_in base.old))
        (HasBase (parts_in base.new))) }
    ensures told { IsErrOf result NotOurs → (e : ℕ × Spec) → ShowsPart 0 row.now e
        → IsSome (get (parts_in base.old) e.0) }
    ensures ours { IfErr result (λ f. f ≢ Failed) }
{
    let object = number_in(row, 0)?;
    let part = text_part(alloc, row, 1)?;
    let replaced = base.insert(object, part)?;
    if replaced.is_some() {
        return Err(StoreFault::NotOurs);
    }
    Ok(())
}

/// The parts of rows of an object and a text each.
pub(crate) fn base_of(alloc: Global, rows: &[Row]) -> Result<BTreeMap<u32, Part>, StoreFault>
    ensures listed { IfOk result (λ base. Lists (ShowsPart 0) rows.now (HasBase (parts_in base))) }
    ensures told { IsErrOf result NotOurs → EachShows (ShowsPart 0) rows.now
        → ¬ KeysDiffer rows.now }
    ensures ours { IfErr result (λ f. f ≢ Failed) }
{
    let mut base = BTreeMap::new(alloc);
    for row in rows {
        put_part(alloc, row, &mut base)?;
    }
    Ok(base)
}

/// Adds the top action of a row, with its home and no parts. `NotOurs` where it is there.
fn put_home(
    alloc: Global,
    row: &Row,
    records: &mut BTreeMap<u32, Prepared>,
) -> Result<(), StoreFault>
    ensures adds { OnOk result
        (AddsShown (ShowsHome 0) row.now (HasHome (from_entries (records_of records.old.entries)))
        (HasHome (from_entries (records_of records.new.entries)))) }
    ensures empty { OnOk result (HaveNoParts (from_entries (records_of records.old.entries))
        → HaveNoParts (from_entries (records_of records.new.entries))) }
    ensures told { IsErrOf result NotOurs → (e : ℕ × ℕ) → ShowsHome 0 row.now e
        → IsPrepared (from_entries (records_of records.old.entries)) e.0 }
    ensures ours { IfErr result (λ f. f ≢ Failed) }
{
    let top = number_in(row, 0)?;
    let record = Prepared {
        home: number_in(row, 1)?,
        parts: BTreeMap::new(alloc),
    };
    let replaced = records.insert(top, record)?;
    if replaced.is_some() {
        return Err(StoreFault::NotOurs);
    }
    Ok(())
}

/// The records of rows of a top action and its home each, with no parts.
pub(crate) fn homes_of(alloc: Global, rows: &[Row]) -> Result<BTreeMap<u32, Prepared>, StoreFault>
    ensures homes { IfOk result (λ records.
        Lists (ShowsHome 0) rows.now (HasHome (from_entries (records_of records.entries)))) }
    ensures empty { IfOk result
        (λ records. HaveNoParts (from_entries (records_of records.entries))) }
    ensures told { IsErrOf result NotOurs → EachShows (ShowsHome 0) rows.now
        → ¬ KeysDiffer rows.now }
    ensures ours { IfErr result (λ f. f ≢ Failed) }
{
    let mut records = BTreeMap::new(alloc);
    for row in rows {
        put_home(alloc, row, &mut records)?;
    }
    Ok(records)
}

/// Adds a part to those of a record, of an object that has none there; else `NotOurs`.
fn put_into(parts: &mut BTreeMap<u32, Part>, object: u32, part: Part) -> Result<(), StoreFault>
    ensures takes { OnOk result (TakesOne object part parts.old.entries parts.new.entries) }
    ensures told { IsErrOf result NotOurs → IsSome (find nat_cmp object parts.old.entries) }
    ensures ours { IfErr result (λ f. f ≢ Failed) }
{
    let replaced = parts.insert(object, part)?;
    if replaced.is_some() {
        return Err(StoreFault::NotOurs);
    }
    Ok(())
}

/// Adds the part of a row to the record that the row names. `NotOurs` where there is none, or it has a part of that
/// object.
fn put_record_part(
    alloc: Global,
    row: &Row,
    spelling: Spelling,
    records: &mut BTreeMap<u32, Prepared>,
) -> Result<(), StoreFault>
    ensures adds { OnOk result
        (AddsShown (ShowsRecord (Spells spelling) 0) row.now (HasPart (from_entries
        (records_of records.old.entries)))
        (HasPart (from_entries (records_of records.new.entries)))) }
    ensures keeps { OnOk result
        (KeepsRecords (from_entries (records_of records.old.entries)) (from_entries
        (records_of records.new.entries))) }
    ensures told { IsErrOf result NotOurs → (e : ℕ × (ℕ × Spec))
        → ShowsRecord (Spells spelling) 0 row.now e
        → IsPrepared (from_entries (records_of records.old.entries)) e.0
        → IsTaken (from_entries (records_of records.old.entries)) e.0 e.1.0 }
    ensures ours { IfErr result (λ f. f ≢ Failed) }
{
    let top = number_in(row, 0)?;
    let object = number_in(row, 1)?;
    let part = spelled_part(alloc, row, 2, spelling)?;
    match records.get_mut(&top) {
        Some(record) => put_into(&mut record.parts, object, part),
        None => Err(StoreFault::NotOurs),
    }
}

/// Puts the parts of rows into the records that they name.
pub(crate) fn put_record_parts(
    alloc: Global,
    rows: &[Row],
    spelling: Spelling,
    records: &mut BTreeMap<u32, Prepared>,
) -> Result<(), StoreFault>
    ensures lists { OnOk result
        (ListsMore (ShowsRecord (Spells spelling) 0) rows.now (HasPart (from_entries
        (records_of records.old.entries)))
        (HasPart (from_entries (records_of records.new.entries)))) }
    ensures keeps { OnOk result
        (KeepsRecords (from_entries (records_of records.old.entries)) (from_entries
        (records_of records.new.entries))) }
    ensures told { IsErrOf result NotOurs
        → AreNew (Spells spelling) rows.now (from_entries (records_of records.old.entries))
        → ¬ PartsDiffer rows.now }
    ensures ours { IfErr result (λ f. f ≢ Failed) }
{
    for row in rows {
        put_record_part(alloc, row, spelling, records)?;
    }
    Ok(())
}

/// The top actions of rows of one each.
pub(crate) fn tops_of(alloc: Global, rows: &[Row]) -> Result<BTreeSet<u32>, StoreFault>
    ensures listed { IfOk result
        (λ tops. Lists ShowsTop rows.now (IsDecided (set.from_list tops.keys))) }
    ensures told { IsErrOf result NotOurs → ¬ EachShows ShowsTop rows.now }
    ensures ours { IfErr result (λ f. f ≢ Failed) }
{
    let mut tops = BTreeSet::new(alloc);
    for row in rows {
        tops.insert(number_in(row, 0)?)?;
    }
    Ok(tops)
}
