//! The content that answers stand for.
ghost use Rattle.std.specs.Prelude.{◌≡◌, ◌≢◌, ℕ, pos, ◌≤◌, length, IfErr, IfOk, OnOk, IsErrOf};
ghost use Rattle.sqlite.specs.declared.types.Value.TheVariants.{Int, Text};
ghost use Rattle.sqlite.specs.Order.{column};
ghost use Rattle.std.specs.FinMap.{from_entries};
ghost use Rattle.sqlite_rules.specs.Lists.{Has};
ghost use Rattle.sqlite_trees.specs.Tree.{IsTable};
ghost use Rattle.stable_store.specs.Stored.{Stored};
ghost use Rattle.stable_store.specs.declared.fault.StoreFault.TheVariants.{Failed, NotOurs};
ghost use Rattle.stable_store.specs.Held.{held, records_of};
ghost use Rattle.store_tables.specs.Listed.{Lists};
ghost use Rattle.store_tables.specs.Shown.{ShowsHome, ShowsRecord, ShowsNumber, IsValueText, IsAddedBy, IsValue, IsDelta};
ghost use Rattle.store_tables.specs.Parts.{Records, HasHome, HasPart, AreRising};
ghost use Rattle.store_tables.specs.Holds.{Holds, Tables, numbers as three_numbers, greatest_next};
ghost use Rattle.store_tables.specs.Answered.{answered, rows_of};
ghost use Rattle.store_tables.specs.Keyed.{KeysDiffer, PartsDiffer, AreKeyed};

use crate::columns::{Spelling, unread};
use crate::one_part_spelling;
use crate::parts::{base_of, homes_of, put_record_parts, tops_of};
use sqlite::Row;
use stable_store::{Kept, Prepared, StoreFault};
use std::alloc::Global;
use std::collections::BTreeMap;

/// The version of the tables.
const VERSION: u64 = 2;

/// The greatest number that comes after that of a top action.
const GREATEST_NEXT: u64 = 4_294_967_296;

/// The queries whose answers, in this order, are a content.
pub const QUERIES: [&str; 6] = [
    "SELECT rowid, k, v FROM meta ORDER BY rowid",
    "SELECT obj, val FROM base",
    "SELECT top, home FROM prepared",
    "SELECT top, obj, val FROM prepared_val",
    "SELECT top, obj, add_by FROM prepared_delta",
    "SELECT top FROM decided",
];

/// The two numbers that a content has.
#[derive(Drop)]
struct Numbers {
    count: u64,
    next_top: u64,
}

/// The content that answers to `QUERIES` stand for. `NotOurs` where they stand for none.
pub fn content_of(alloc: Global, answers: &[Vec<Row>]) -> Result<Kept, StoreFault>
    ensures found { IfOk result (λ kept. Holds 0 (answered (rows_of answers.now)) (held kept)) }
    ensures told { IsErrOf result NotOurs → length answers.now ≡ 6
        → AreKeyed (answered (rows_of answers.now)) → (c : Stored)
        → ¬ Holds 0 (answered (rows_of answers.now)) c }
    ensures ours { IfErr result (λ f. f ≢ Failed) }
{
    let [numbers, base, homes, values, deltas, decided] = answers else {
        return Err(StoreFault::NotOurs);
    };
    let numbers = numbers_of(numbers)?;
    let base = base_of(alloc, base)?;
    let prepared = prepared_of(alloc, homes, values, deltas)?;
    let decided = tops_of(alloc, decided)?;
    Ok(Kept {
        base,
        prepared,
        decided,
        count: numbers.count,
        next_top: numbers.next_top,
    })
}

/// Tables hold one content.
pub fn one_content_is_held()
    ensures { (first : ℕ) (tables : Tables) (c d : Stored) → Holds first tables c
        → Holds first tables d → c ≡ d }
{
    one_part_spelling();
}

/// The number of a row of `meta` that has this place and this name, or `NotOurs`.
fn number_at(row: &Row, place: u32, name: &str) -> Result<u64, StoreFault>
    ensures number { IfOk result (λ n. ShowsNumber row.now (place, (name.now, n))) }
    ensures told { IsErrOf result NotOurs → (n : ℕ) → ¬ ShowsNumber row.now (place, (name.now, n)) }
    ensures ours { IfErr result (λ f. f ≢ Failed) }
{
    check_place(row, place)?;
    check_name(row, name)?;
    match row.get::<u64>(2) {
        Ok(n) => Ok(n),
        Err(error) => Err(unread(error)),
    }
}

/// `NotOurs` where a row of `meta` has another place.
fn check_place(row: &Row, place: u32) -> Result<(), StoreFault>
    ensures is { OnOk result (column row.now 0 ≡ Int (pos place)) }
    ensures told { IsErrOf result NotOurs → column row.now 0 ≢ Int (pos place) }
    ensures ours { IfErr result (λ f. f ≢ Failed) }
{
    match row.get::<u32>(0) {
        Ok(n) if n == place => Ok(()),
        Ok(_) => Err(StoreFault::NotOurs),
        Err(error) => Err(unread(error)),
    }
}

/// `NotOurs` where a row of `meta` has another name.
fn check_name(row: &Row, name: &str) -> Result<(), StoreFault>
    ensures is { OnOk result (column row.now 1 ≡ Text name.now) }
    ensures told { IsErrOf result NotOurs → column row.now 1 ≢ Text name.now }
    ensures ours { IfErr result (λ f. f ≢ Failed) }
{
    match row.get::<String>(1) {
        Ok(text) if text.as_str() == name => Ok(()),
        Ok(_) => Err(StoreFault::NotOurs),
        Err(error) => Err(unread(error)),
    }
}

/// The numbers of the rows of `meta`, by place. `NotOurs` where other rows are there, where the version is another or
/// where the next top action's number is out of range.
fn numbers_of(rows: &[Row]) -> Result<Numbers, StoreFault>
    ensures listed { IfOk result
        (λ n. Lists ShowsNumber rows.now (Has (three_numbers n.count n.next_top))) }
    ensures low { IfOk result (λ n. 1 ≤ n.next_top) }
    ensures high { IfOk result (λ n. n.next_top ≤ greatest_next) }
    ensures told { IsErrOf result NotOurs → IsTable rows.now → (count next_top : ℕ) → 1 ≤ next_top
        → next_top ≤ greatest_next
        → ¬ Lists ShowsNumber rows.now (Has (three_numbers count next_top)) }
    ensures ours { IfErr result (λ f. f ≢ Failed) }
{
    let [version, count, next_top] = rows else {
        return Err(StoreFault::NotOurs);
    };
    if number_at(version, 1, "version")? != VERSION {
        return Err(StoreFault::NotOurs);
    }
    let count = number_at(count, 2, "count")?;
    let next_top = number_at(next_top, 3, "next_top")?;
    if next_top == 0 || next_top > GREATEST_NEXT {
        return Err(StoreFault::NotOurs);
    }
    Ok(Numbers { count, next_top })
}

/// The records of these rows. `NotOurs` where a part has no record.
fn prepared_of(
    alloc: Global,
    homes: &[Row],
    values: &[Row],
    deltas: &[Row],
) -> Result<BTreeMap<u32, Prepared>, StoreFault>
    ensures homes { IfOk result (λ records.
        Lists (ShowsHome 0) homes.now (HasHome (from_entries (records_of records.entries)))) }
    ensures values { IfOk result (λ records. Lists (ShowsRecord IsValueText 0) values.now
        (λ e. HasPart (from_entries (records_of records.entries)) e × IsValue e.1.1)) }
    ensures deltas { IfOk result (λ records. Lists (ShowsRecord IsAddedBy 0) deltas.now
        (λ e. HasPart (from_entries (records_of records.entries)) e × IsDelta e.1.1)) }
    ensures rising { IfOk result
        (λ records. AreRising (from_entries (records_of records.entries))) }
    ensures told { IsErrOf result NotOurs → KeysDiffer homes.now → PartsDiffer values.now
        → PartsDiffer deltas.now → (prepared : Records)
        → Lists (ShowsHome 0) homes.now (HasHome prepared)
        → Lists (ShowsRecord IsValueText 0) values.now (λ e. HasPart prepared e × IsValue e.1.1)
        → ¬ Lists (ShowsRecord IsAddedBy 0) deltas.now (λ e. HasPart prepared e × IsDelta e.1.1) }
    ensures ours { IfErr result (λ f. f ≢ Failed) }
{
    let mut records = homes_of(alloc, homes)?;
    put_record_parts(alloc, values, Spelling::ValueText, &mut records)?;
    put_record_parts(alloc, deltas, Spelling::AddedBy, &mut records)?;
    Ok(records)
}
