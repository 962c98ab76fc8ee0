//! The calls of a store, over its connection and its content in maps.
ghost use Rattle.std.specs.Prelude.{◌≡◌, ◌≤◌, ◌<◌, false, IfOk, IsErrOf};
ghost use Rattle.sqlite.specs.Held.{state};
ghost use Rattle.stable_store.specs.Stored.{after_prepare, after_install, after_discard, after_decide, after_bump, after_save, greatest_count};
ghost use Rattle.stable_store.specs.Numbers.{has_zero};
ghost use Rattle.stable_store.specs.Calls.{Changes, IsRefused};
ghost use Rattle.stable_store.specs.Held.{held};
ghost use Rattle.stable_store.specs.declared.fault.StoreFault.TheVariants.{NotOurs};
ghost use Rattle.store_writing.specs.Steps.{Stands, Carries};

use crate::asking::read_content;
use crate::mirror;
use atomic_types::Part;
use sqlite::{Alter, Connection};
use stable_store::{GREATEST_COUNT, Kept, Prepared, StoreFault, laid};
use std::alloc::Global;
use std::collections::BTreeMap;
use store_writing::faults::fault_of;
use store_writing::statements;
use values::Content;

pub(crate) fn prepare<A: Alter>(
    conn: &mut Connection<A>,
    kept: &mut Kept,
    alloc: Global,
    top: u32,
    home: u32,
    parts: BTreeMap<u32, Part>,
) -> Result<(), StoreFault>
    requires top { 0 < top }
    requires home { 0 < home }
    requires objects { has_zero parts.entries ≡ false }
    ensures changes { Changes (held kept.old) (after_prepare top home parts.entries (held kept.old))
        (held kept.new) result }
    ensures carries { Stands (state A.Store conn.old) (held kept.old)
        → Carries (state A.Store conn.old) (state A.Store conn.new) (held kept.old)
        (after_prepare top home parts.entries (held kept.old)) result }
    ensures told { IsErrOf result NotOurs → ⊥ }
{
    let Ok(before) = kept.prepared.insert(top, Prepared { home, parts }) else {
        return Err(StoreFault::Memory);
    };
    let Some(record) = kept.prepared.get(&top) else {
        unreachable!()
    };
    match statements::prepare(conn, alloc, top, record, kept.next_top) {
        Ok(()) => {
            kept.next_top = kept.next_top.max(u64::from(top) + 1);
            Ok(())
        }
        Err(error) => {
            mirror::put_record_back(&mut kept.prepared, top, before);
            Err(fault_of(error))
        }
    }
}

pub(crate) fn install<A: Alter>(
    conn: &mut Connection<A>,
    kept: &mut Kept,
    alloc: Global,
    top: u32,
) -> Result<(), StoreFault>
    ensures changes { Changes (held kept.old) (after_install top (held kept.old))
        (held kept.new) result }
    ensures carries { Stands (state A.Store conn.old) (held kept.old)
        → Carries (state A.Store conn.old) (state A.Store conn.new) (held kept.old)
        (after_install top (held kept.old)) result }
    ensures told { IsErrOf result NotOurs → ⊥ }
{
    let Some(record) = kept.prepared.get(&top) else {
        return discard(conn, kept, top);
    };
    let Ok(installed) = mirror::installed_over(alloc, &record.parts, &kept.base) else {
        return Err(StoreFault::Memory);
    };
    let Ok(replaced) = laid::lay(alloc, &mut kept.base, &record.parts) else {
        return Err(StoreFault::Memory);
    };
    match statements::install(conn, alloc, top, &installed) {
        Ok(()) => {
            drop(kept.prepared.remove(&top));
            Ok(())
        }
        Err(error) => {
            laid::undo(&mut kept.base, replaced);
            Err(fault_of(error))
        }
    }
}

pub(crate) fn save<A: Alter>(
    conn: &mut Connection<A>,
    kept: &mut Kept,
    alloc: Global,
    contents: &BTreeMap<u32, Content>,
) -> Result<(), StoreFault>
    requires { has_zero contents.now.entries ≡ false }
    ensures changes { Changes (held kept.old) (after_save contents.now.entries (held kept.old))
        (held kept.new) result }
    ensures carries { Stands (state A.Store conn.old) (held kept.old)
        → Carries (state A.Store conn.old) (state A.Store conn.new) (held kept.old)
        (after_save contents.now.entries (held kept.old)) result }
    ensures told { IsErrOf result NotOurs → ⊥ }
{
    let Ok(values) = mirror::values_of(alloc, contents) else {
        return Err(StoreFault::Memory);
    };
    let Ok(replaced) = laid::lay(alloc, &mut kept.base, &values) else {
        return Err(StoreFault::Memory);
    };
    match statements::save(conn, alloc, &values) {
        Ok(()) => {
            kept.decided.clear();
            Ok(())
        }
        Err(error) => {
            laid::undo(&mut kept.base, replaced);
            Err(fault_of(error))
        }
    }
}

pub(crate) fn discard<A: Alter>(
    conn: &mut Connection<A>,
    kept: &mut Kept,
    top: u32,
) -> Result<(), StoreFault>
    ensures changes { Changes (held kept.old) (after_discard top (held kept.old))
        (held kept.new) result }
    ensures carries { Stands (state A.Store conn.old) (held kept.old)
        → Carries (state A.Store conn.old) (state A.Store conn.new) (held kept.old)
        (after_discard top (held kept.old)) result }
    ensures told { IsErrOf result NotOurs → ⊥ }
{
    match statements::discard(conn, top) {
        Ok(()) => {
            drop(kept.prepared.remove(&top));
            Ok(())
        }
        Err(error) => Err(fault_of(error)),
    }
}

pub(crate) fn decide<A: Alter>(
    conn: &mut Connection<A>,
    kept: &mut Kept,
    top: u32,
) -> Result<(), StoreFault>
    requires { 0 < top }
    ensures changes { Changes (held kept.old) (after_decide top (held kept.old))
        (held kept.new) result }
    ensures carries { Stands (state A.Store conn.old) (held kept.old)
        → Carries (state A.Store conn.old) (state A.Store conn.new) (held kept.old)
        (after_decide top (held kept.old)) result }
    ensures told { IsErrOf result NotOurs → ⊥ }
{
    let Ok(added) = kept.decided.insert(top) else {
        return Err(StoreFault::Memory);
    };
    match statements::decide(conn, top) {
        Ok(()) => Ok(()),
        Err(error) => {
            if added {
                kept.decided.remove(&top);
            }
            Err(fault_of(error))
        }
    }
}

pub(crate) fn bump<A: Alter>(conn: &mut Connection<A>, kept: &mut Kept) -> Result<(), StoreFault>
    ensures changes { Changes (held kept.old) (after_bump (held kept.old)) (held kept.new) result }
    ensures carries { Stands (state A.Store conn.old) (held kept.old)
        → Carries (state A.Store conn.old) (state A.Store conn.new) (held kept.old)
        (after_bump (held kept.old)) result }
    ensures told { IsErrOf result NotOurs → ⊥ }
    ensures spent { greatest_count ≤ (held kept.old).count → IsRefused result }
{
    if kept.count >= GREATEST_COUNT {
        return Err(StoreFault::Failed);
    }
    let count = kept.count + 1;
    match statements::count(conn, count) {
        Ok(()) => {
            kept.count = count;
            Ok(())
        }
        Err(error) => Err(fault_of(error)),
    }
}

pub(crate) fn load<A: Alter>(
    conn: &mut Connection<A>,
    kept: &Kept,
    alloc: Global,
) -> Result<Kept, StoreFault>
    ensures loaded { IfOk result (λ it. held it ≡ held kept.now) }
    ensures carries { Stands (state A.Store conn.old) (held kept.now)
        → Carries (state A.Store conn.old) (state A.Store conn.new) (held kept.now)
        (held kept.now) result }
{
    let found = read_content(conn, alloc)?;
    if !mirror::are_same(alloc, &found, kept)? {
        return Err(StoreFault::Failed);
    }
    Ok(kept.copy(alloc)?)
}
