//! Numbers of top actions, guardians and objects are from 1.
ghost use Rattle.std.specs.Prelude.{◌≡◌};
ghost use Rattle.stable_store.specs.Numbers.{has_zero as has_zero_key, is_misnumbered as has_misnumbered};

use atomic_types::Part;
use std::collections::BTreeMap;

/// Whether something has the number 0.
pub fn has_zero<T>(map: &BTreeMap<u32, T>) -> bool
    ensures { result ≡ has_zero_key map.now.entries }
{
    map.contains_key(&0)
}

/// Whether a record's top action, its home or one of its objects has the number 0.
pub fn is_misnumbered(top: u32, home: u32, parts: &BTreeMap<u32, Part>) -> bool
    ensures { result ≡ has_misnumbered top home parts.now.entries }
{
    top == 0 || home == 0 || has_zero(parts)
}
