//! Maps and sets of what comes with rising numbers.
ghost use Rattle.std.specs.Prelude.{◌≡◌, ◌↔◌, IfOk, IsTrue};
ghost use Rattle.std.specs.List.Sorted.{IsStrictlySortedBy};
ghost use Rattle.std.specs.Ordering.{nat_cmp};
ghost use Rattle.store_texts.specs.Texts.{AreRising};

use std::alloc::{AllocError, Global};
use std::collections::{BTreeMap, BTreeSet};

/// Whether each entry's number is below the next one's.
pub(crate) fn entries_rise<T>(entries: &[(u32, T)]) -> bool
    ensures { IsTrue result ↔ AreRising entries.now }
{
    entries.is_sorted_by(|a, b| a.0 < b.0)
}

/// Whether each number is below the next.
pub(crate) fn numbers_rise(numbers: &[u32]) -> bool
    ensures { IsTrue result ↔ IsStrictlySortedBy nat_cmp numbers.now }
{
    numbers.is_sorted_by(|a, b| *a < *b)
}

/// A map with these entries.
pub(crate) fn map_of<T: Drop>(
    alloc: Global,
    entries: Vec<(u32, T)>,
) -> Result<BTreeMap<u32, T>, AllocError>
    requires { AreRising entries.items }
    ensures { IfOk result (λ map. map.entries ≡ entries.items) }
{
    let mut map = BTreeMap::new(alloc);
    for (number, value) in entries {
        drop(map.insert(number, value)?);
    }
    Ok(map)
}

/// A set of these numbers.
pub(crate) fn set_of(alloc: Global, numbers: &[u32]) -> Result<BTreeSet<u32>, AllocError>
    requires { IsStrictlySortedBy nat_cmp numbers.now }
    ensures { IfOk result (λ set. set.keys ≡ numbers.now) }
{
    let mut set = BTreeSet::new(alloc);
    for &number in numbers {
        set.insert(number)?;
    }
    Ok(set)
}
