//! The content that the tables stand for, in maps.
ghost use Rattle.std.specs.Prelude.{◌≡◌, IsSome, IsTrue, IfOk, option_map};
ghost use Rattle.std.specs.Ordering.{nat_cmp};
ghost use Rattle.std.specs.FinMap.{get, from_entries};
ghost use Rattle.stable_store.specs.Held.{held, parts_in, record_of, records_of};
ghost use Rattle.stable_store.specs.Stored.{laid, values_of as values_spec};
ghost use Rattle.stable_store.specs.Numbers.{has_zero};
ghost use Rattle.store_tables.specs.Changes.{all_put};
ghost use Rattle.sql_store.specs.Mirror.{record_back};

use atomic_types::Part;
use stable_store::laid::part_over;
use stable_store::{Kept, Prepared};
use std::alloc::{AllocError, Global};
use std::collections::{BTreeMap, BTreeSet};
use store_tables::{one_part_spelling, part_text};
use values::Content;

/// Gives a top action the record back that it had before, or none. This takes no memory.
pub(crate) fn put_record_back(
    prepared: &mut BTreeMap<u32, Prepared>,
    top: u32,
    before: Option<Prepared>,
)
    requires { IsSome (get (from_entries {R = nat_cmp} (records_of prepared.old.entries)) top) }
    ensures { from_entries {R = nat_cmp} (records_of prepared.new.entries)
        ≡ record_back top (option_map record_of before)
        (from_entries (records_of prepared.old.entries)) }
{
    match before {
        Some(record) => {
            let replaced: Result<_, _> = prepared.insert(top, record);
            drop(replaced.unwrap());
        }
        None => drop(prepared.remove(&top)),
    }
}

/// What each of these objects has in the base once these parts are installed.
pub(crate) fn installed_over(
    alloc: Global,
    parts: &BTreeMap<u32, Part>,
    base: &BTreeMap<u32, Part>,
) -> Result<BTreeMap<u32, Part>, AllocError>
    ensures put { IfOk result (λ installed. all_put installed.entries (parts_in base.now)
        ≡ laid parts.now.entries (parts_in base.now)) }
    ensures above { IfOk result
        (λ installed. has_zero installed.entries ≡ has_zero parts.now.entries) }
{
    let mut installed = BTreeMap::new(alloc);
    for (&object, part) in parts {
        let part = part_over(part, base.get(&object))?;
        drop(installed.insert(object, part)?);
    }
    Ok(installed)
}

/// The contents as values.
pub(crate) fn values_of(
    alloc: Global,
    contents: &BTreeMap<u32, Content>,
) -> Result<BTreeMap<u32, Part>, AllocError>
    ensures values { IfOk result (λ values. values.entries ≡ values_spec contents.now.entries) }
    ensures above { IfOk result
        (λ values. has_zero values.entries ≡ has_zero contents.now.entries) }
{
    let mut values = BTreeMap::new(alloc);
    for (&object, content) in contents {
        drop(values.insert(object, Part::Value(content.copy()?))?);
    }
    Ok(values)
}

/// Whether two parts are the same.
fn is_same_part(alloc: Global, a: &Part, b: &Part) -> Result<bool, AllocError>
    ensures { IfOk result (λ same. IsTrue same → a.now ≡ b.now) }
{
    one_part_spelling();
    let text = part_text(alloc, a)?;
    let other = part_text(alloc, b)?;
    Ok(text.as_str() == other.as_str())
}

/// Whether two maps have the same parts of the same objects.
fn have_same_parts(
    alloc: Global,
    a: &BTreeMap<u32, Part>,
    b: &BTreeMap<u32, Part>,
) -> Result<bool, AllocError>
    ensures { IfOk result (λ same. IsTrue same → a.now.entries ≡ b.now.entries) }
{
    let mut others = b.iter();
    for (&object, part) in a {
        let Some((&other, expected)) = others.next() else {
            return Ok(false);
        };
        if object != other || !is_same_part(alloc, part, expected)? {
            return Ok(false);
        }
    }
    Ok(others.next().is_none())
}

/// Whether two records are the same.
fn is_same_record(alloc: Global, a: &Prepared, b: &Prepared) -> Result<bool, AllocError>
    ensures { IfOk result (λ same. IsTrue same → record_of a.now ≡ record_of b.now) }
{
    if a.home != b.home {
        return Ok(false);
    }
    have_same_parts(alloc, &a.parts, &b.parts)
}

/// Whether two maps have the same records of the same top actions.
fn have_same_records(
    alloc: Global,
    a: &BTreeMap<u32, Prepared>,
    b: &BTreeMap<u32, Prepared>,
) -> Result<bool, AllocError>
    ensures { IfOk result
        (λ same. IsTrue same → records_of a.now.entries ≡ records_of b.now.entries) }
{
    let mut others = b.iter();
    for (&top, record) in a {
        let Some((&other, expected)) = others.next() else {
            return Ok(false);
        };
        if top != other || !is_same_record(alloc, record, expected)? {
            return Ok(false);
        }
    }
    Ok(others.next().is_none())
}

/// Whether two sets have the same members.
fn have_same_members(a: &BTreeSet<u32>, b: &BTreeSet<u32>) -> bool
    ensures { IsTrue result → a.now.keys ≡ b.now.keys }
{
    let mut others = b.iter();
    for &top in a {
        let Some(&other) = others.next() else {
            return false;
        };
        if top != other {
            return false;
        }
    }
    others.next().is_none()
}

/// Whether two contents are the same.
pub(crate) fn are_same(alloc: Global, a: &Kept, b: &Kept) -> Result<bool, AllocError>
    ensures { IfOk result (λ same. IsTrue same → held a.now ≡ held b.now) }
{
    if a.count != b.count || a.next_top != b.next_top {
        return Ok(false);
    }
    if !have_same_members(&a.decided, &b.decided) || !have_same_parts(alloc, &a.base, &b.base)? {
        return Ok(false);
    }
    have_same_records(alloc, &a.prepared, &b.prepared)
}
