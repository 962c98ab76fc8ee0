//! Whether what stores hold may stand in the stores of a setup's guardians.
ghost use Rattle.std.specs.Prelude.{◌≡◌, ◌≤◌, length, option_map, true};
ghost use Rattle.run_model.specs.Openings.{objects_at};
ghost use Rattle.std.specs.BTreeMap as tree;
ghost use Rattle.std.specs.FinMap as map;
ghost use Rattle.std.specs.List.{list_all};
ghost use Rattle.std.specs.Ordering.{nat_cmp};
ghost use Rattle.stable_store.specs.Held.{held, parts_in, record_of, records_of};
ghost use Rattle.store_recovery.specs.Settling.{contents};
ghost use Rattle.store_recovery.specs.Steps.{all_hold};
ghost use Rattle.store_recovery.specs.Belonging.{all_belong, all_suit, belongs, object_at, record_belongs, suits};

use crate::settling::kept_in;
use crate::types::suits;
use atomic_types::Part;
use run_model::{Content, Setup};
use stable_store::{Kept, Prepared, Stable};
use std::collections::BTreeMap;

/// Whether each store's content may stand in the store of its guardian.
pub(crate) fn all_belong<S: Stable>(setup: &Setup, stores: &[S]) -> bool
    requires hold { all_hold S.seen stores.now ≡ true }
    requires each { length stores.now ≡ length setup.now }
    ensures { result ≡ all_belong setup.now (contents S.seen stores.now) }
{
    let guardians = setup.guardians() as u32;
    for guardian in 1..=guardians {
        if !store_belongs(setup, guardian, &stores[guardian as usize - 1]) {
            return false;
        }
    }
    true
}

// Whether the store's content may stand in the store of this guardian.
fn store_belongs<S: Stable>(setup: &Setup, guardian: u32, store: &S) -> bool
    requires hold { (S.seen store.now).holds_content ≡ true }
    requires number { 1 ≤ guardian }
    ensures { result ≡ belongs setup.now guardian (S.seen store.now).content }
{
    belongs(setup, guardian, kept_in(store))
}

/// Whether a content may stand in the store of this guardian: its parts are of the objects that the guardian was set
/// up with, a value of its object's type, a delta only for a counter, and the home of each record is a guardian of
/// the setup. This takes no memory.
pub fn belongs(setup: &Setup, guardian: u32, kept: &Kept) -> bool
    requires { 1 ≤ guardian }
    ensures { result ≡ belongs setup.now guardian (held kept.now) }
{
    let objects = setup.objects(guardian);
    all_suit(objects, &kept.base) && records_belong(setup, objects, &kept.prepared)
}

// Whether each record's home is a guardian, and its parts suit these objects.
fn records_belong(setup: &Setup, objects: &[Content], records: &BTreeMap<u32, Prepared>) -> bool
    ensures belong { result ≡ list_all (λ r. record_belongs setup.now objects.now (record_of r))
        (tree.values records.now) }
    ensures rising { map.entries (map.from_entries {R = nat_cmp} (records_of records.now.entries))
        ≡ records_of records.now.entries }
{
    records
        .values()
        .all(|prepared| record_belongs(setup, objects, prepared))
}

// Whether the record's home is a guardian, and its parts suit these objects.
fn record_belongs(setup: &Setup, objects: &[Content], prepared: &Prepared) -> bool
    ensures { result ≡ record_belongs setup.now objects.now (record_of prepared.now) }
{
    prepared.home >= 1
        && prepared.home as usize <= setup.guardians()
        && all_suit(objects, &prepared.parts)
}

// Whether each part suits its object.
fn all_suit(objects: &[Content], parts: &BTreeMap<u32, Part>) -> bool
    ensures suit { result ≡ all_suit objects.now parts.now.entries }
    ensures rising { map.entries (parts_in parts.now) ≡ parts.now.entries }
{
    parts
        .iter()
        .all(|(&object, part)| part_suits(objects, object, part))
}

// Whether the part suits the object of this number.
fn part_suits(objects: &[Content], object: u32, part: &Part) -> bool
    ensures { result ≡ suits (object_at objects.now object) part.now }
{
    match object_at(objects, object) {
        Some(content) => suits(content, part),
        None => false,
    }
}

// The content of the object of this number, if there is one.
fn object_at(objects: &[Content], object: u32) -> Option<&Content>
    ensures { option_map (λ content. content.now) result ≡ object_at objects.now object }
{
    objects.get((object as usize).checked_sub(1)?)
}
