//! Two threads at one object: each writes it in one top action after another, and the other's operations wait for
//! these.
ghost use Rattle.std.specs.Prelude.{◌≡◌, []};
ghost use Rattle.run_model.specs.Openings.{opening_in};
ghost use Rattle.stable_store.specs.Plain.{plain_view};
ghost use Rattle.guardian.specs.Guardians.{IsWhole};
ghost use Rattle.registry.specs.Registries.{StandsIn};
ghost use Rattle.world_steps.specs.Standings.{IsWorld};
ghost use Rattle.world.specs.Worlds.{seen_of};

use crate::runs::{Threaded, answered, end, first_begun, kept, made, operation, setup_of, started};
use action_names::Name;
use guardian::Guardian;
use registry::Registry;
use rows::RowFault;
use run_model::{Answer, ObjectId, Op, Step};
use runtime::{OfRun, OpenGate, Receipts, Start};
use stable_store::PlainStable;
use std::alloc::Global;
use std::marker::Brand;
use std::sync::Wait;
use std::thread::{Threads, join};

/// How many top actions each thread makes.
const ROUNDS: u32 = 200;

/// The object that they write.
const OBJECT: ObjectId = ObjectId {
    guardian: 1,
    number: 1,
};

/// Whether each operation of two threads that write one object was granted in the end.
pub(crate) fn both_are_granted<H: Threads + Wait + Sync>(
    alloc: Global,
    rt: &H,
) -> Result<bool, RowFault> {
    let setup = setup_of(alloc, 1, "{\"record\":{\"a\":0}}")?;
    let (start, registry, guardians) = started(alloc, setup.as_str())?;
    both_in::<Brand, H>(alloc, rt, start, registry, guardians)
}

fn both_in<K: OfRun + Send + Sync, H: Threads + Wait + Sync>(
    alloc: Global,
    rt: &H,
    start: Start,
    registry: Registry,
    guardians: Vec<Guardian<PlainStable>>,
) -> Result<bool, RowFault>
    requires table { start.run.table.shared.table_id ≡ K.table }
    requires opening { opening_in start.run.table.shared.key ≡ K.opening }
    requires world { IsWorld (λ g s. IsWhole plain_view g s)
        (λ g. seen_of plain_view g) (StandsIn registry) K.opening [] guardians.items }
{
    let runtime = Threaded::<K, OpenGate>::new(alloc, start, registry, guardians, OpenGate)?;
    let mut receipts = runtime.no_receipts();
    let granted = both_write(alloc, rt, &runtime, &mut receipts);
    end(runtime, receipts)?;
    granted
}

/// Two threads that write one object.
fn both_write<K: OfRun + Send + Sync, H: Threads + Wait + Sync>(
    alloc: Global,
    rt: &H,
    runtime: &Threaded<K, OpenGate>,
    receipts: &mut Receipts<K>,
) -> Result<bool, RowFault> {
    let mut others = runtime.no_receipts();
    let (one, other) = join(
        rt,
        || writes(alloc, rt, runtime, receipts),
        || writes(alloc, rt, runtime, &mut others),
    );
    runtime.join_receipts(receipts, others);
    Ok(one? && other?)
}

/// Writes the object in one top action after another. Whether each write was granted.
fn writes<K: OfRun, H: Wait>(
    alloc: Global,
    rt: &H,
    runtime: &Threaded<K, OpenGate>,
    receipts: &mut Receipts<K>,
) -> Result<bool, RowFault> {
    let write = operation(alloc, "op 1 1/1 set a 1")?;
    for _ in 0..ROUNDS {
        if !writes_once(rt, runtime, &write, receipts)? {
            return Ok(false);
        }
    }
    Ok(true)
}

/// Begins a top action, writes the object, aborts the action, and tells the guardian so.
fn writes_once<K: OfRun, H: Wait>(
    rt: &H,
    runtime: &Threaded<K, OpenGate>,
    write: &Op,
    receipts: &mut Receipts<K>,
) -> Result<bool, RowFault> {
    let top = begun(rt, runtime, receipts)?;
    let granted = is_granted(rt, runtime, &top, write, receipts)?;
    aborted(rt, runtime, &top, receipts)?;
    told(rt, runtime, top, receipts)?;
    Ok(granted)
}

fn begun<K: OfRun, H: Wait>(
    rt: &H,
    runtime: &Threaded<K, OpenGate>,
    receipts: &mut Receipts<K>,
) -> Result<Name, RowFault> {
    first_begun(&made(runtime, rt, &Step::Top(1), receipts)?)
}

fn aborted<K: OfRun, H: Wait>(
    rt: &H,
    runtime: &Threaded<K, OpenGate>,
    top: &Name,
    receipts: &mut Receipts<K>,
) -> Result<(), RowFault> {
    made(runtime, rt, &Step::Abort(top.copy()?), receipts)?;
    Ok(())
}

fn told<K: OfRun, H: Wait>(
    rt: &H,
    runtime: &Threaded<K, OpenGate>,
    top: Name,
    receipts: &mut Receipts<K>,
) -> Result<(), RowFault> {
    made(runtime, rt, &Step::Tell(1, top), receipts)?;
    Ok(())
}

/// Whether the write of the action was granted, after it waited.
fn is_granted<K: OfRun, H: Wait>(
    rt: &H,
    runtime: &Threaded<K, OpenGate>,
    top: &Name,
    write: &Op,
    receipts: &mut Receipts<K>,
) -> Result<bool, RowFault> {
    let given = answered(runtime.op_wait(rt, top, OBJECT, write, &[]))?;
    Ok(matches!(kept(runtime, given, receipts), Answer::Granted(_)))
}
