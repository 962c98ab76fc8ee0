//! Reading contents.
ghost use Rattle.std.specs.Prelude.{◌≡◌, ◌≢◌, ◌<◌, ℕ, ℤ, List, IfOk, IsErrOf, map as each};
ghost use Rattle.serde_json.specs.View.{items_view, view};
ghost use Rattle.values.specs.Totals.{IsCounter};
ghost use Rattle.atomic_types.specs.declared.part.Part.{Part as Spec};
ghost use Rattle.stable_store.specs.Held.{held, record_of as seen_record, records_of as seen_records};
ghost use Rattle.stable_store.specs.Stored.{Record, Stored};
ghost use Rattle.std.specs.List.{AllByRecursion};
ghost use Rattle.store_texts.specs.Texts.{AreNumbers, AreParts, AreRecords, AreStoresIn, IsContent, IsEntry, IsNumber, IsPart, IsRecord, Lists, delta_data, entry_data, items_data, list_data, lists_data, lists_of, number_data, part_data, record_data};

use crate::rising::{entries_rise, map_of, numbers_rise, set_of};
use crate::shape::{Members, count_of, items_of, number_of, three_of, two_of};
use atomic_types::Part;
use serde_json::Value as Json;
use stable_store::{Kept, Prepared};
use std::alloc::Global;
use std::collections::{BTreeMap, BTreeSet};
use values::{Content, Counter, ValueFault};

/// The contents whose array these bytes are. `Unfit` comes only where they are no array of contents.
pub fn read_stores(alloc: Global, bytes: &[u8]) -> Result<Vec<Kept>, ValueFault>
    ensures found { IfOk result (λ kept. AreStoresIn bytes.now (each held kept.items)) }
    ensures refused { IsErrOf result ValueFault.Unfit
        → (contents : List Stored) → AreStoresIn bytes.now contents → ⊥ }
{
    match Json::from_slice(alloc, bytes) {
        Ok(json) => contents_of(alloc, &json),
        Err(error) if error.is_memory() => Err(ValueFault::Memory),
        Err(_) => Err(ValueFault::Unfit),
    }
}

fn contents_of(alloc: Global, json: &Json) -> Result<Vec<Kept>, ValueFault>
    ensures found { IfOk result
        (λ kept. AllByRecursion IsContent (each lists_of kept.items)
        × (view json.now ≡ list_data lists_data (each lists_of kept.items))) }
    ensures refused { IsErrOf result ValueFault.Unfit → (lists : List Lists)
        → AllByRecursion IsContent lists → view json.now ≢ list_data lists_data lists }
{
    let items = items_of(json).ok_or(ValueFault::Unfit)?;
    read_contents(alloc, items)
}

fn read_contents(alloc: Global, documents: &[Json]) -> Result<Vec<Kept>, ValueFault>
    ensures found { IfOk result (λ read. AllByRecursion IsContent (each lists_of read.items)
        × (items_view documents.now ≡ items_data lists_data (each lists_of read.items))) }
    ensures refused { IsErrOf result ValueFault.Unfit → (xs : List Lists)
        → AllByRecursion IsContent xs → items_view documents.now ≢ items_data lists_data xs }
{
    let mut contents = Vec::with_capacity(alloc, documents.len())?;
    for document in documents {
        contents.push(content_of(alloc, document)?)?;
    }
    Ok(contents)
}

fn content_of(alloc: Global, json: &Json) -> Result<Kept, ValueFault>
    ensures found { IfOk result
        (λ kept. IsContent (lists_of kept) × (view json.now ≡ lists_data (lists_of kept))) }
    ensures refused { IsErrOf result ValueFault.Unfit → (lists : Lists) → IsContent lists
        → view json.now ≢ lists_data lists }
{
    let members = Members::of(json).ok_or(ValueFault::Unfit)?;
    Ok(Kept {
        base: parts_of(alloc, members.base)?,
        prepared: records_of(alloc, members.prepared)?,
        decided: numbers_of(alloc, members.decided)?,
        count: count_of(members.count).ok_or(ValueFault::Unfit)?,
        next_top: count_of(members.next_top).ok_or(ValueFault::Unfit)?,
    })
}

fn parts_of(alloc: Global, json: &Json) -> Result<BTreeMap<u32, Part>, ValueFault>
    ensures found { IfOk result (λ parts. AreParts parts.entries
        × (view json.now ≡ list_data entry_data parts.entries)) }
    ensures refused { IsErrOf result ValueFault.Unfit → (es : List (ℕ × Spec)) → AreParts es
        → view json.now ≢ list_data entry_data es }
{
    let items = items_of(json).ok_or(ValueFault::Unfit)?;
    let entries = read_entries(alloc, items)?;
    if !entries_rise(entries.as_slice()) {
        return Err(ValueFault::Unfit);
    }
    Ok(map_of(alloc, entries)?)
}

fn read_entries(alloc: Global, documents: &[Json]) -> Result<Vec<(u32, Part)>, ValueFault>
    ensures found { IfOk result (λ read. AllByRecursion IsEntry read.items
        × (items_view documents.now ≡ items_data entry_data read.items)) }
    ensures refused { IsErrOf result ValueFault.Unfit → (xs : List (ℕ × Spec))
        → AllByRecursion IsEntry xs → items_view documents.now ≢ items_data entry_data xs }
{
    let mut entries = Vec::with_capacity(alloc, documents.len())?;
    for document in documents {
        entries.push(entry_of(alloc, document)?)?;
    }
    Ok(entries)
}

fn entry_of(alloc: Global, json: &Json) -> Result<(u32, Part), ValueFault>
    ensures found { IfOk result (λ e. IsEntry e × (view json.now ≡ entry_data e)) }
    ensures refused { IsErrOf result ValueFault.Unfit → (e : ℕ × Spec) → IsEntry e
        → view json.now ≢ entry_data e }
{
    let (number, part) = two_of(json).ok_or(ValueFault::Unfit)?;
    let number = number_of(number)?;
    Ok((number, part_of(alloc, part)?))
}

fn part_of(alloc: Global, json: &Json) -> Result<Part, ValueFault>
    ensures found { IfOk result (λ p. IsPart p × (view json.now ≡ part_data p)) }
    ensures refused { IsErrOf result ValueFault.Unfit → (p : Spec) → IsPart p
        → view json.now ≢ part_data p }
{
    match Content::from_stored_json(alloc, json) {
        Ok(content) => Ok(Part::Value(content)),
        Err(ValueFault::Memory) => Err(ValueFault::Memory),
        Err(ValueFault::Unfit) => Ok(Part::Delta(delta_of(json)?.number())),
    }
}

fn delta_of(json: &Json) -> Result<Counter, ValueFault>
    ensures found { IfOk result (λ by. IsCounter by × (view json.now ≡ delta_data by)) }
    ensures refused { IsErrOf result ValueFault.Unfit → (by : ℤ) → IsCounter by
        → view json.now ≢ delta_data by }
{
    let mut members = json.as_object().ok_or(ValueFault::Unfit)?.iter();
    let (name, document) = members.next().ok_or(ValueFault::Unfit)?;
    if name.as_str() != "delta" || members.next().is_some() {
        return Err(ValueFault::Unfit);
    }
    Counter::from_json(document)
}

fn records_of(alloc: Global, json: &Json) -> Result<BTreeMap<u32, Prepared>, ValueFault>
    ensures found { IfOk result (λ records. AreRecords (seen_records records.entries)
        × (view json.now ≡ list_data record_data (seen_records records.entries))) }
    ensures refused { IsErrOf result ValueFault.Unfit → (rs : List (ℕ × Record)) → AreRecords rs
        → view json.now ≢ list_data record_data rs }
{
    let items = items_of(json).ok_or(ValueFault::Unfit)?;
    let records = read_records(alloc, items)?;
    if !entries_rise(records.as_slice()) {
        return Err(ValueFault::Unfit);
    }
    Ok(map_of(alloc, records)?)
}

fn read_records(alloc: Global, documents: &[Json]) -> Result<Vec<(u32, Prepared)>, ValueFault>
    ensures found { IfOk result (λ read. AllByRecursion IsRecord (seen_records read.items)
        × (items_view documents.now ≡ items_data record_data (seen_records read.items))) }
    ensures refused { IsErrOf result ValueFault.Unfit → (xs : List (ℕ × Record))
        → AllByRecursion IsRecord xs → items_view documents.now ≢ items_data record_data xs }
{
    let mut records = Vec::with_capacity(alloc, documents.len())?;
    for document in documents {
        records.push(record_of(alloc, document)?)?;
    }
    Ok(records)
}

fn record_of(alloc: Global, json: &Json) -> Result<(u32, Prepared), ValueFault>
    ensures found { IfOk result (λ r. IsRecord (r.0, seen_record r.1)
        × (view json.now ≡ record_data (r.0, seen_record r.1))) }
    ensures refused { IsErrOf result ValueFault.Unfit → (r : ℕ × Record) → IsRecord r
        → view json.now ≢ record_data r }
{
    let (top, home, parts) = three_of(json).ok_or(ValueFault::Unfit)?;
    let top = number_of(top)?;
    let home = number_of(home)?;
    let parts = parts_of(alloc, parts)?;
    Ok((top, Prepared { home, parts }))
}

fn numbers_of(alloc: Global, json: &Json) -> Result<BTreeSet<u32>, ValueFault>
    ensures found { IfOk result (λ set. AreNumbers set.keys
        × (view json.now ≡ list_data number_data set.keys)) }
    ensures refused { IsErrOf result ValueFault.Unfit → (ns : List ℕ) → AreNumbers ns
        → view json.now ≢ list_data number_data ns }
{
    let items = items_of(json).ok_or(ValueFault::Unfit)?;
    let numbers = read_numbers(alloc, items)?;
    if !numbers_rise(numbers.as_slice()) {
        return Err(ValueFault::Unfit);
    }
    Ok(set_of(alloc, numbers.as_slice())?)
}

fn read_numbers(alloc: Global, documents: &[Json]) -> Result<Vec<u32>, ValueFault>
    ensures found { IfOk result (λ read. AllByRecursion IsNumber read.items
        × (items_view documents.now ≡ items_data number_data read.items)) }
    ensures refused { IsErrOf result ValueFault.Unfit → (xs : List ℕ)
        → AllByRecursion IsNumber xs → items_view documents.now ≢ items_data number_data xs }
{
    let mut numbers = Vec::with_capacity(alloc, documents.len())?;
    for document in documents {
        numbers.push(number_of(document)?)?;
    }
    Ok(numbers)
}
