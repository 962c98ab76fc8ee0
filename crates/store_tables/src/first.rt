//! The content of tables of version 1.
ghost use Rattle.std.specs.Prelude.{◌≡◌, ◌≢◌, ◌⊎◌, ◌+◌, ℕ, length, IfErr, IfOk, IsErrOf};
ghost use Rattle.std.specs.FinMap.{from_entries};
ghost use Rattle.std.specs.FinSet as set;
ghost use Rattle.stable_store.specs.Stored.{Stored};
ghost use Rattle.stable_store.specs.Held.{held, records_of};
ghost use Rattle.stable_store.specs.declared.fault.StoreFault.TheVariants.{Failed, NotOurs};
ghost use Rattle.store_tables.specs.Answered.{rows_of};
ghost use Rattle.store_tables.specs.Listed.{Lists};
ghost use Rattle.store_tables.specs.Shown.{ShowsHome, ShowsRecord, IsText};
ghost use Rattle.store_tables.specs.Parts.{Records, HasHome, HasPart, IsDecided, AreRising};
ghost use Rattle.store_tables.specs.Keyed.{KeysDiffer, PartsDiffer, AreKeyedFirst};
ghost use Rattle.store_tables.specs.First.{first_answered, HoldsFirst, IsGreatest, IsPrepared};

use crate::columns::Spelling;
use crate::parts::{base_of, homes_of, put_record_parts, tops_of};
use sqlite::Row;
use stable_store::{Kept, Prepared, StoreFault};
use std::alloc::Global;
use std::collections::{BTreeMap, BTreeSet};

/// The queries whose answers, in this order, are a content of version 1 but for its count.
pub const FIRST_QUERIES: [&str; 4] = [
    "SELECT obj, val FROM base",
    "SELECT top, home FROM prepared",
    "SELECT top, obj, val FROM prepared_val",
    "SELECT top FROM decided",
];

/// The content with this count that answers to `FIRST_QUERIES` stand for, as version 2 has it: the number of the next
/// top action is one more than the greatest in the records and among the decided. `NotOurs` where they stand for
/// none.
pub fn first_content_of(alloc: Global, answers: &[Vec<Row>], count: u64) -> Result<Kept, StoreFault>
    ensures found { IfOk result (λ kept. HoldsFirst 0 (first_answered (rows_of answers.now)) count
        (held kept)) }
    ensures told { IsErrOf result NotOurs → length answers.now ≡ 4
        → AreKeyedFirst (first_answered (rows_of answers.now)) → (c : Stored)
        → ¬ HoldsFirst 0 (first_answered (rows_of answers.now)) count c }
    ensures ours { IfErr result (λ f. f ≢ Failed) }
{
    let [base, homes, parts, decided] = answers else {
        return Err(StoreFault::NotOurs);
    };
    let base = base_of(alloc, base)?;
    let prepared = prepared_of(alloc, homes, parts)?;
    let decided = tops_of(alloc, decided)?;
    let next_top = next_after(&prepared, &decided);
    Ok(Kept {
        base,
        prepared,
        decided,
        count,
        next_top,
    })
}

/// The records of these rows. `NotOurs` where a part has no record.
fn prepared_of(
    alloc: Global,
    homes: &[Row],
    parts: &[Row],
) -> Result<BTreeMap<u32, Prepared>, StoreFault>
    ensures homes { IfOk result (λ records. Lists (ShowsHome 0) homes.now
        (HasHome (from_entries (records_of records.entries)))) }
    ensures parts { IfOk result (λ records. Lists (ShowsRecord IsText 0) parts.now
        (HasPart (from_entries (records_of records.entries)))) }
    ensures rising { IfOk result (λ records.
        AreRising (from_entries (records_of records.entries))) }
    ensures told { IsErrOf result NotOurs → KeysDiffer homes.now → PartsDiffer parts.now
        → (prepared : Records) → Lists (ShowsHome 0) homes.now (HasHome prepared)
        → ¬ Lists (ShowsRecord IsText 0) parts.now (HasPart prepared) }
    ensures ours { IfErr result (λ f. f ≢ Failed) }
{
    let mut records = homes_of(alloc, homes)?;
    put_record_parts(alloc, parts, Spelling::Text, &mut records)?;
    Ok(records)
}

/// One more than the greatest number in the records and among the decided; 1 where there is none.
fn next_after(prepared: &BTreeMap<u32, Prepared>, decided: &BTreeSet<u32>) -> u64
    ensures { (last : ℕ) × IsGreatest (λ top.
        IsPrepared (from_entries (records_of prepared.now.entries)) top
        ⊎ IsDecided (set.from_list decided.now.keys) top) last × (result ≡ last + 1) }
{
    let last = last_prepared(prepared).max(last_decided(decided));
    u64::from(last) + 1
}

/// The greatest number in the records; 0 where there is none.
fn last_prepared(prepared: &BTreeMap<u32, Prepared>) -> u32
    ensures { IsGreatest (IsPrepared (from_entries (records_of prepared.now.entries))) result }
{
    match prepared.last_key_value() {
        Some((top, _)) => *top,
        None => 0,
    }
}

/// The greatest number among the decided; 0 where there is none.
fn last_decided(decided: &BTreeSet<u32>) -> u32
    ensures { IsGreatest (IsDecided (set.from_list decided.now.keys)) result }
{
    match decided.last() {
        Some(top) => *top,
        None => 0,
    }
}
