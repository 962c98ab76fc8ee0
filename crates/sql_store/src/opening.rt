//! Opening a database: its tables are made, migrated or taken.
ghost use Rattle.std.specs.Prelude.{◌≡◌, ◌≢◌, codes, false, IfOk, OnOk, OnErr, IsErrOf, IfSome, IsTrue, Some, option_map};
ghost use Rattle.sqlite.specs.Held.{state};
ghost use Rattle.sqlite.specs.State.{HasCleanDisk};
ghost use Rattle.stable_store.specs.Stored.{Stored, empty};
ghost use Rattle.stable_store.specs.Held.{held};
ghost use Rattle.store_tables.specs.Tables.{no_schema, stable_schema};
ghost use Rattle.sql_store.specs.declared.layout.Layout.TheVariants.{Nothing, Second};
ghost use Rattle.sql_store.specs.Schemas.{HasTables, LaysOut};
ghost use Rattle.store_writing.specs.Steps.{Stands};
ghost use Rattle.store_tables.specs.Holds.{IsLaidOut};
ghost use Rattle.stable_store.specs.declared.fault.StoreFault.TheVariants.{NotOurs};
ghost use Rattle.sql_store.specs.Reading.{Quiets, LooksUp, StopLeaves, IsNumberOf, Knows, Recognizes};
ghost use Rattle.sql_store.specs.First.{IsFirst, RecognizesFirst};
ghost use Rattle.sql_store.specs.Beside.{IsBeside, RecognizesBeside};

use crate::asking::{read_first, read_store};
use crate::building::build;
use crate::layout::{Layout, READ_COUNT, is_alone, layout_of, number_named};
use crate::places::have_places;
use sqlite::{Alter, Connection};
use stable_store::{Kept, StoreFault};
use std::alloc::Global;
use store_tables::one_content_is_held;
use store_writing::faults::fault_of;

const READ_VERSION: &str = "SELECT v FROM meta WHERE k = 'version'";

const READ_NEXT: &str = "SELECT v FROM meta WHERE k = 'next_top'";

/// How many numbers `meta` has.
const COUNT_NUMBERS: &str = "SELECT count(*) FROM meta";

/// The greatest number that comes after that of a top action.
const GREATEST_NEXT: u64 = 4_294_967_296;

/// What was found in the tables of a database.
#[derive(Drop)]
pub(crate) struct Opened {
    /// Their content; none where they hold no content of a store.
    pub(crate) kept: Option<Kept>,
    /// Whether the database has the tables of a store and nothing else, and no transaction is under way.
    pub(crate) is_known: bool,
}

/// Makes the tables, migrates them or takes them. With a fault the database is what it was.
pub(crate) fn open<A: Alter>(alloc: Global, conn: &mut Connection<A>) -> Result<Opened, StoreFault>
    ensures stands { IfOk result (λ it. IsTrue it.is_known
        → IfSome it.kept (λ kept. Stands (state A.Store conn.new) (held kept))) }
    ensures known { IfOk result (λ it. Knows (state A.Store conn.new) it.is_known) }
    ensures makes { LaysOut Nothing (state A.Store conn.old) (state A.Store conn.new) result }
    ensures fresh { HasCleanDisk (state A.Store conn.new)
        → (state A.Store conn.old).now.schema ≡ no_schema
        → IfOk result (λ it. option_map held it.kept ≡ Some empty) }
    ensures reads { HasCleanDisk (state A.Store conn.new) → (c : Stored)
        → Stands (state A.Store conn.old) c
        → LooksUp (state A.Store conn.old) (state A.Store conn.new)
        (λ _ it. option_map held it.kept ≡ Some c) result }
    ensures recognized { Recognizes (state A.Store conn.old) (state A.Store conn.new) result }
    ensures refused { HasCleanDisk (state A.Store conn.new)
        → (state A.Store conn.old).now.schema ≡ no_schema
        → OnErr result (IsTrue (state A.Store conn.new).is_open
        → (state A.Store conn.new).now ≡ (state A.Store conn.old).now) }
    ensures migrates { HasCleanDisk (state A.Store conn.new) → (c : Stored)
        → IsFirst (state A.Store conn.old) c
        → IfOk result (λ it. option_map held it.kept ≡ Some c) }
    ensures makes_anew { HasCleanDisk (state A.Store conn.new) → (c : Stored)
        → IsFirst (state A.Store conn.old) c
        → OnOk result ((state A.Store conn.new).now.schema ≡ stable_schema) }
    ensures recognized_first { RecognizesFirst (state A.Store conn.old) (state A.Store conn.new)
        result }
    ensures refused_first { HasCleanDisk (state A.Store conn.new) → (c : Stored)
        → IsFirst (state A.Store conn.old) c
        → OnErr result (IsTrue (state A.Store conn.new).is_open
        → (state A.Store conn.new).now ≡ (state A.Store conn.old).now) }
    ensures leaves { (state A.Store conn.old).now.schema ≡ no_schema
        → StopLeaves (state A.Store conn.old) (state A.Store conn.new) empty }
    ensures leaves_first { (c : Stored) → IsFirst (state A.Store conn.old) c
        → StopLeaves (state A.Store conn.old) (state A.Store conn.new) c }
    ensures beside { HasCleanDisk (state A.Store conn.new) → (c : Stored)
        → IsBeside (state A.Store conn.old) c
        → LooksUp (state A.Store conn.old) (state A.Store conn.new)
        (λ _ it. option_map held it.kept ≡ Some c) result }
    ensures recognized_beside { RecognizesBeside (state A.Store conn.old) (state A.Store conn.new)
        result }
{
    if !conn.is_autocommit() {
        return Err(StoreFault::Failed);
    }
    match layout_of(conn)? {
        Layout::Nothing => lay_out(alloc, conn, Layout::Nothing, &Kept::new(alloc)),
        Layout::First => migrate(alloc, conn),
        Layout::Second => take(alloc, conn),
        Layout::Others => Err(StoreFault::NotOurs),
    }
}

/// Migrates the tables of version 1. If they hold no content of a store they stay as they are.
fn migrate<A: Alter>(alloc: Global, conn: &mut Connection<A>) -> Result<Opened, StoreFault>
    ensures stands { IfOk result (λ it. IsTrue it.is_known
        → IfSome it.kept (λ kept. Stands (state A.Store conn.new) (held kept))) }
    ensures known { (state A.Store conn.old).in_transaction ≡ false
        → IfOk result (λ it. Knows (state A.Store conn.new) it.is_known) }
    ensures clean { HasCleanDisk (state A.Store conn.new) → HasCleanDisk (state A.Store conn.old) }
    ensures migrates { HasCleanDisk (state A.Store conn.new) → (c : Stored)
        → IsFirst (state A.Store conn.old) c
        → IfOk result (λ it. option_map held it.kept ≡ Some c) }
    ensures makes { HasCleanDisk (state A.Store conn.new) → (c : Stored)
        → IsFirst (state A.Store conn.old) c
        → OnOk result ((state A.Store conn.new).now.schema ≡ stable_schema) }
    ensures recognized { RecognizesFirst (state A.Store conn.old) (state A.Store conn.new) result }
    ensures refused { HasCleanDisk (state A.Store conn.new) → (c : Stored)
        → IsFirst (state A.Store conn.old) c
        → OnErr result (IsTrue (state A.Store conn.new).is_open
        → (state A.Store conn.new).now ≡ (state A.Store conn.old).now) }
    ensures leaves { (c : Stored) → IsFirst (state A.Store conn.old) c
        → StopLeaves (state A.Store conn.old) (state A.Store conn.new) c }
{
    if number_named(conn, READ_VERSION)? != 1 {
        return Err(StoreFault::NotOurs);
    }
    match read_first(conn, alloc) {
        Ok(kept) => lay_out(alloc, conn, Layout::First, &kept),
        Err(StoreFault::NotOurs) => Ok(Opened {
            kept: None,
            is_known: is_alone(conn),
        }),
        Err(fault) => Err(fault),
    }
}

/// Takes the tables that are there, and their content.
fn take<A: Alter>(alloc: Global, conn: &mut Connection<A>) -> Result<Opened, StoreFault>
    ensures stands { IfOk result (λ it. IsTrue it.is_known
        → IfSome it.kept (λ kept. Stands (state A.Store conn.new) (held kept))) }
    ensures known { (state A.Store conn.old).in_transaction ≡ false
        → IfOk result (λ it. Knows (state A.Store conn.new) it.is_known) }
    ensures clean { HasCleanDisk (state A.Store conn.new) → HasCleanDisk (state A.Store conn.old) }
    ensures reads { HasCleanDisk (state A.Store conn.new) → IsTrue (state A.Store conn.old).is_open
        → (c : Stored) → Stands (state A.Store conn.old) c
        → LooksUp (state A.Store conn.old) (state A.Store conn.new)
        (λ _ it. option_map held it.kept ≡ Some c) result }
    ensures recognized { Recognizes (state A.Store conn.old) (state A.Store conn.new) result }
    ensures beside { HasCleanDisk (state A.Store conn.new) → (c : Stored)
        → IsBeside (state A.Store conn.old) c
        → LooksUp (state A.Store conn.old) (state A.Store conn.new)
        (λ _ it. option_map held it.kept ≡ Some c) result }
    ensures recognized_beside { RecognizesBeside (state A.Store conn.old) (state A.Store conn.new)
        result }
{
    one_content_is_held();
    let is_known = is_alone(conn);
    match read_store(conn, alloc, is_known) {
        Ok(kept) => Ok(Opened {
            kept: Some(kept),
            is_known,
        }),
        Err(StoreFault::NotOurs) => take_others(alloc, conn),
        Err(fault) => Err(fault),
    }
}

/// Takes tables whose rows stand for no content as they are. `NotOurs` where they are of another version than 2.
fn take_others<A: Alter>(alloc: Global, conn: &mut Connection<A>) -> Result<Opened, StoreFault>
    ensures stands { IfOk result (λ it. IsTrue it.is_known
        → IfSome it.kept (λ kept. Stands (state A.Store conn.new) (held kept))) }
    ensures known { (state A.Store conn.old).in_transaction ≡ false
        → IfOk result (λ it. Knows (state A.Store conn.new) it.is_known) }
    ensures clean { HasCleanDisk (state A.Store conn.new) → HasCleanDisk (state A.Store conn.old) }
{
    check_numbers(conn)?;
    put_in_place(alloc, conn)
}

/// `NotOurs` where `meta` has another version than 2, or a number of the next top action that is none.
fn check_numbers<A: Alter>(conn: &mut Connection<A>) -> Result<(), StoreFault>
    ensures mode { (state A.Store conn.old).in_transaction ≡ false
        → (state A.Store conn.new).in_transaction ≡ false }
    ensures clean { HasCleanDisk (state A.Store conn.new) → HasCleanDisk (state A.Store conn.old) }
{
    if number_named(conn, READ_VERSION)? != 2 {
        return Err(StoreFault::NotOurs);
    }
    let next_top = number_named(conn, READ_NEXT)?;
    if next_top == 0 || next_top > GREATEST_NEXT {
        return Err(StoreFault::NotOurs);
    }
    Ok(())
}

/// Puts the numbers of `meta` in their places, where they are in others and the tables hold a content of a store then.
fn put_in_place<A: Alter>(alloc: Global, conn: &mut Connection<A>) -> Result<Opened, StoreFault>
    ensures stands { IfOk result (λ it. IsTrue it.is_known
        → IfSome it.kept (λ kept. Stands (state A.Store conn.new) (held kept))) }
    ensures known { (state A.Store conn.old).in_transaction ≡ false
        → IfOk result (λ it. Knows (state A.Store conn.new) it.is_known) }
    ensures clean { HasCleanDisk (state A.Store conn.new) → HasCleanDisk (state A.Store conn.old) }
{
    if have_places(conn)? {
        return Ok(Opened {
            kept: None,
            is_known: is_alone(conn),
        });
    }
    match write_numbers(alloc, conn) {
        Err(StoreFault::NotOurs) => Ok(Opened {
            kept: None,
            is_known: is_alone(conn),
        }),
        opened => opened,
    }
}

/// Writes the numbers of `meta` anew. `NotOurs` where there are others too or where the tables hold no content then,
/// and they stay as they are.
fn write_numbers<A: Alter>(alloc: Global, conn: &mut Connection<A>) -> Result<Opened, StoreFault>
    ensures stands { IfOk result (λ it. IsTrue it.is_known
        → IfSome it.kept (λ kept. Stands (state A.Store conn.new) (held kept))) }
    ensures mode { (state A.Store conn.old).in_transaction ≡ false
        → (state A.Store conn.new).in_transaction ≡ false }
    ensures known { (state A.Store conn.old).in_transaction ≡ false
        → IfOk result (λ it. Knows (state A.Store conn.new) it.is_known) }
    ensures clean { HasCleanDisk (state A.Store conn.new) → HasCleanDisk (state A.Store conn.old) }
    ensures numbers { HasCleanDisk (state A.Store conn.new) → Quiets (state A.Store conn.old)
        → IfOk result (λ it. IfSome it.kept (λ kept.
        IsNumberOf stable_schema (codes "SELECT v FROM meta WHERE k = 'count'")
        (state A.Store conn.old).now kept.count
        × IsNumberOf stable_schema (codes "SELECT v FROM meta WHERE k = 'next_top'")
        (state A.Store conn.old).now kept.next_top)) }
{
    if number_named(conn, COUNT_NUMBERS)? != 3 {
        return Err(StoreFault::NotOurs);
    }
    let mut numbers = Kept::new(alloc);
    numbers.count = number_named(conn, READ_COUNT)?;
    numbers.next_top = number_named(conn, READ_NEXT)?;
    lay_out(alloc, conn, Layout::Second, &numbers)
}

/// Lays the tables out as those of a store of version 2, in one transaction.
fn lay_out<A: Alter>(
    alloc: Global,
    conn: &mut Connection<A>,
    layout: Layout,
    content: &Kept,
) -> Result<Opened, StoreFault>
    ensures stands { IfOk result (λ it. IsTrue it.is_known
        → IfSome it.kept (λ kept. Stands (state A.Store conn.new) (held kept))) }
    ensures mode { (state A.Store conn.old).in_transaction ≡ false
        → (state A.Store conn.new).in_transaction ≡ false }
    ensures known { (state A.Store conn.old).in_transaction ≡ false
        → IfOk result (λ it. Knows (state A.Store conn.new) it.is_known) }
    ensures lays_out { LaysOut layout (state A.Store conn.old) (state A.Store conn.new) result }
    ensures clean { HasCleanDisk (state A.Store conn.new) → HasCleanDisk (state A.Store conn.old) }
    ensures as_given { layout ≢ Second
        → IfOk result (λ it. option_map held it.kept ≡ Some (held content.now)) }
    ensures told { layout ≢ Second → ¬ IsErrOf result NotOurs }
    ensures refused { HasCleanDisk (state A.Store conn.new)
        → OnErr result (IsTrue (state A.Store conn.new).is_open
        → (state A.Store conn.new).now ≡ (state A.Store conn.old).now) }
    ensures leaves { layout ≢ Second → HasTables layout (state A.Store conn.old).now.schema
        → StopLeaves (state A.Store conn.old) (state A.Store conn.new) (held content.now) }
    ensures numbers { IfOk result (λ it. IfSome it.kept (λ kept. (kept.count ≡ content.now.count)
        × (kept.next_top ≡ content.now.next_top))) }
{
    let kept = lay_tables(alloc, conn, layout, content)?;
    Ok(Opened {
        is_known: is_alone(conn),
        kept: Some(kept),
    })
}

/// Lays the tables out as those of a store of version 2, in one transaction, and gives the content that they hold then.
fn lay_tables<A: Alter>(
    alloc: Global,
    conn: &mut Connection<A>,
    layout: Layout,
    content: &Kept,
) -> Result<Kept, StoreFault>
    ensures mode { (state A.Store conn.old).in_transaction ≡ false
        → (state A.Store conn.new).in_transaction ≡ false }
    ensures lays_out { LaysOut layout (state A.Store conn.old) (state A.Store conn.new) result }
    ensures made { HasCleanDisk (state A.Store conn.new)
        → IfOk result (λ kept. (state A.Store conn.new).now.schema ≡ stable_schema
        → IsLaidOut (state A.Store conn.new).now.trees (held kept)) }
    ensures refused { HasCleanDisk (state A.Store conn.new)
        → OnErr result (IsTrue (state A.Store conn.new).is_open
        → (state A.Store conn.new).now ≡ (state A.Store conn.old).now) }
    ensures clean { HasCleanDisk (state A.Store conn.new) → HasCleanDisk (state A.Store conn.old) }
    ensures as_given { layout ≢ Second → IfOk result (λ kept. held kept ≡ held content.now) }
    ensures told { layout ≢ Second → ¬ IsErrOf result NotOurs }
    ensures leaves { layout ≢ Second → HasTables layout (state A.Store conn.old).now.schema
        → StopLeaves (state A.Store conn.old) (state A.Store conn.new) (held content.now) }
    ensures numbers { IfOk result (λ kept. (kept.count ≡ content.now.count)
        × (kept.next_top ≡ content.now.next_top)) }
{
    if !conn.is_autocommit() {
        return Err(StoreFault::Failed);
    }
    let mut tx = conn.transaction();
    match build(&mut tx, alloc, layout, content) {
        Ok(kept) => match tx.commit() {
            Ok(()) => Ok(kept),
            Err(error) => Err(fault_of(error)),
        },
        Err(fault) => {
            tx.rollback();
            Err(laying_fault(layout, fault))
        }
    }
}

/// The fault where tables were not laid out. A database that holds other rows than were just written has failed, so
/// `NotOurs` is left to rows that were there before.
fn laying_fault(layout: Layout, fault: StoreFault) -> StoreFault
    ensures { layout ≢ Second → result ≢ NotOurs }
{
    match fault {
        StoreFault::NotOurs => match layout {
            Layout::Second => StoreFault::NotOurs,
            Layout::Nothing | Layout::First | Layout::Others => StoreFault::Failed,
        },
        fault => fault,
    }
}
