ghost use Rattle.std.specs.Prelude.{◌≡◌, IfOk};
ghost use Rattle.stable_store.specs.Stored.{empty};
ghost use Rattle.stable_store.specs.Held.{held, record_of, records_of};

use atomic_types::Part;
use std::alloc::{AllocError, Global};
use std::collections::{BTreeMap, BTreeSet};

/// The record of a prepared top action.
#[derive(Drop)]
pub struct Prepared {
    /// The number of the guardian that is its home.
    pub home: u32,
    /// The value or the delta that it would install, by the number of the object.
    pub parts: BTreeMap<u32, Part>,
}

/// A store's content, in maps.
#[derive(Drop)]
pub struct Kept {
    /// What is installed of each object that has something, by the object's number.
    pub base: BTreeMap<u32, Part>,
    /// The record of each prepared top action, by its number.
    pub prepared: BTreeMap<u32, Prepared>,
    /// The numbers of the decided top actions.
    pub decided: BTreeSet<u32>,
    /// How many recoveries were counted.
    pub count: u64,
    /// A number above those of all top actions that were ever prepared, from 1 to 4294967296.
    pub next_top: u64,
}

impl Prepared {
    /// An equal record.
    pub fn copy(&self, alloc: Global) -> Result<Prepared, AllocError>
        ensures { IfOk result (λ copy. record_of copy ≡ record_of self.now) }
    {
        Ok(Prepared {
            home: self.home,
            parts: copy_parts(alloc, &self.parts)?,
        })
    }
}

impl Kept {
    /// The content of a new store. This takes no memory.
    pub fn new(alloc: Global) -> Kept
        ensures { held result ≡ empty }
    {
        Kept {
            base: BTreeMap::new(alloc),
            prepared: BTreeMap::new(alloc),
            decided: BTreeSet::new(alloc),
            count: 0,
            next_top: 1,
        }
    }

    /// An equal content.
    pub fn copy(&self, alloc: Global) -> Result<Kept, AllocError>
        ensures { IfOk result (λ copy. held copy ≡ held self.now) }
    {
        Ok(Kept {
            base: copy_parts(alloc, &self.base)?,
            prepared: copy_records(alloc, &self.prepared)?,
            decided: self.decided.clone()?,
            count: self.count,
            next_top: self.next_top,
        })
    }
}

/// The same parts of the same objects.
fn copy_parts(alloc: Global, parts: &BTreeMap<u32, Part>) -> Result<BTreeMap<u32, Part>, AllocError>
    ensures { IfOk result (λ copy. copy.entries ≡ parts.now.entries) }
{
    let mut copy = BTreeMap::new(alloc);
    for (&object, part) in parts {
        drop(copy.insert(object, part.copy()?)?);
    }
    Ok(copy)
}

/// Equal records of the same top actions.
fn copy_records(
    alloc: Global,
    records: &BTreeMap<u32, Prepared>,
) -> Result<BTreeMap<u32, Prepared>, AllocError>
    ensures { IfOk result (λ copy. records_of copy.entries ≡ records_of records.now.entries) }
{
    let mut copy = BTreeMap::new(alloc);
    for (&top, record) in records {
        drop(copy.insert(top, record.copy(alloc)?)?);
    }
    Ok(copy)
}
