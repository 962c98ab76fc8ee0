//! Items by index: how some are put over others, so that all can be put back, and how those outside bounds are dropped.
ghost use Rattle.std.specs.Prelude.{◌≡◌, ℤ, int_le, int_lt, not, Some, None, IfOk, OnOk, OnErr, filter, if◌then◌else◌};
ghost use Rattle.std.specs.BTreeMap.{is_at};
ghost use Rattle.std.specs.List.{list_any};
ghost use Rattle.std.specs.Ordering.{int_cmp};
ghost use Rattle.overlays.specs.ArrayItems.{put_back_at, put_back_all};
ghost use Rattle.overlays.specs.ArrayOverlays.{AreLimited, changed_at, is_within, put_over};

use crate::bounds::Bounds;
use std::alloc::{AllocError, Global};
use std::collections::BTreeMap;
use values::Value;

/// Puts these items over those that are there. It looks up as many as it puts. If memory runs out, all are as they
/// were.
pub(crate) fn put_all(
    alloc: Global,
    items: &mut BTreeMap<i64, Value>,
    mut upper: Vec<(i64, Value)>,
) -> Result<(), AllocError>
    ensures put { OnOk result
        ((i : ℤ) → changed_at items.new.entries i ≡ put_over None upper.items items.old.entries i) }
    ensures err { OnErr result (items.new.entries ≡ items.old.entries) }
{
    let mut before = Vec::with_capacity(alloc, upper.len())?;
    while let Some((index, item)) = upper.pop() {
        let Ok(replaced) = replace(items, index, item) else {
            put_back(items, before);
            return Err(AllocError);
        };
        before.push_reserved((index, replaced));
    }
    Ok(())
}

// Puts the item at the index, and gives what was there. If memory runs out, all are as they were.
fn replace(
    items: &mut BTreeMap<i64, Value>,
    index: i64,
    item: Value,
) -> Result<Option<Value>, AllocError>
    ensures put { OnOk result ((i : ℤ) → changed_at items.new.entries i
        ≡ (if is_at (int_cmp index) i then Some item else changed_at items.old.entries i)) }
    ensures back { IfOk result
        (λ before. put_back_at items.new.entries index before ≡ items.old.entries) }
    ensures err { OnErr result (items.new.entries ≡ items.old.entries) }
{
    Ok(items.insert(index, item)?)
}

// Puts back what was there before, the last first. This takes no memory.
fn put_back(items: &mut BTreeMap<i64, Value>, mut before: Vec<(i64, Option<Value>)>)
    ensures { items.new.entries ≡ put_back_all before.items items.old.entries }
{
    while let Some((index, item)) = before.pop() {
        put_back_one(items, index, item);
    }
}

// Puts back what was at the index before. This takes no memory.
fn put_back_one(items: &mut BTreeMap<i64, Value>, index: i64, before: Option<Value>)
    ensures { items.new.entries ≡ put_back_at items.old.entries index before }
{
    match before {
        Some(item) => {
            if let Some(held) = items.get_mut(&index) {
                *held = item;
            }
        }
        None => {
            items.remove(&index);
        }
    }
}

/// Drops the items whose indices lie outside the bounds. It looks at these and two more. This takes no memory.
pub(crate) fn drop_outside(items: &mut BTreeMap<i64, Value>, bounds: Bounds)
    requires { AreLimited bounds }
    ensures { items.new.entries ≡ filter (λ e. is_within bounds e.0) items.old.entries }
{
    drop_before(items, bounds.low);
    drop_from(items, bounds.low + bounds.size as i64);
}

// Drops the items before the index.
fn drop_before(items: &mut BTreeMap<i64, Value>, low: i64)
    ensures { items.new.entries ≡ filter (λ e. int_le low e.0) items.old.entries }
{
    while begins_before(items, low) {
        items.pop_first();
    }
}

// Drops the items from the index on.
fn drop_from(items: &mut BTreeMap<i64, Value>, end: i64)
    ensures { items.new.entries ≡ filter (λ e. int_lt e.0 end) items.old.entries }
{
    while reaches(items, end) {
        items.pop_last();
    }
}

// Whether there is an item before the index.
fn begins_before(items: &BTreeMap<i64, Value>, low: i64) -> bool
    ensures { result ≡ list_any (λ e. not (int_le low e.0)) items.now.entries }
{
    match items.first_key_value() {
        Some((first, _)) => *first < low,
        None => false,
    }
}

// Whether there is an item from the index on.
fn reaches(items: &BTreeMap<i64, Value>, end: i64) -> bool
    ensures { result ≡ list_any (λ e. not (int_lt e.0 end)) items.now.entries }
{
    match items.last_key_value() {
        Some((last, _)) => *last >= end,
        None => false,
    }
}
