//! Operations at 64 guardians at once: a gate holds each of them inside the lock of its guardian until all have come.
ghost use Rattle.std.specs.Prelude.{◌≡◌, []};
ghost use Rattle.run_model.specs.Openings.{opening_in};
ghost use Rattle.stable_store.specs.Plain.{plain_view};
ghost use Rattle.guardian.specs.Guardians.{IsWhole};
ghost use Rattle.registry.specs.Registries.{StandsIn};
ghost use Rattle.world_steps.specs.Standings.{IsWorld};
ghost use Rattle.world.specs.Worlds.{seen_of};

use crate::runs::{Threaded, answered, end, first_begun, kept, made, push, setup_of, started};
use action_names::Name;
use guardian::Guardian;
use registry::Registry;
use rows::RowFault;
use run_model::{Answer, Step};
use runtime::{Answered, Gate, OfRun, Receipts, Start};
use stable_store::PlainStable;
use std::alloc::Global;
use std::marker::Brand;
use std::sync::Wait;
use std::sync::atomic::{AtomicBool, AtomicU64, Ordering};
use std::thread::{Threads, map_indices, yield_now};

/// How many operations meet.
const SIZE: u32 = 64;

/// How often an operation looks whether the others have come, before it gives up.
const TURNS: u32 = 1_000_000;

/// A gate at which operations meet, once it is on.
#[derive(Drop)]
struct Meeting {
    is_on: AtomicBool,
    came: AtomicU64,
    failed: AtomicBool,
}

impl<'a> Gate for &'a Meeting {
    fn pass(&self, _guardian: u32, _action: Option<&Name>) {
        if !self.is_on.load(Ordering::SeqCst) {
            return;
        }
        self.came.fetch_add(1, Ordering::SeqCst);
        for _ in 0..TURNS {
            if self.came.load(Ordering::SeqCst) >= SIZE as u64 {
                return;
            }
            yield_now();
        }
        self.failed.store(true, Ordering::SeqCst);
    }
}

/// Whether an operation at each of 64 guardians met the others inside the lock of its guardian, and was granted. They
/// are every so many-th of all guardians.
pub(crate) fn all_meet<H: Threads + Wait + Sync>(
    alloc: Global,
    rt: &H,
    every: u32,
) -> Result<bool, RowFault> {
    let meeting = Meeting {
        is_on: AtomicBool::new(false),
        came: AtomicU64::new(0),
        failed: AtomicBool::new(false),
    };
    let setup = setup_of(alloc, every.saturating_mul(SIZE), "{\"counter\":0}")?;
    let (start, registry, guardians) = started(alloc, setup.as_str())?;
    let granted = meet_in::<Brand, H>(alloc, rt, start, registry, guardians, every, &meeting)?;
    Ok(granted && !meeting.failed.load(Ordering::SeqCst))
}

fn meet_in<K: OfRun + Send + Sync, H: Threads + Wait + Sync>(
    alloc: Global,
    rt: &H,
    start: Start,
    registry: Registry,
    guardians: Vec<Guardian<PlainStable>>,
    every: u32,
    meeting: &Meeting,
) -> Result<bool, RowFault>
    requires table { start.run.table.shared.table_id ≡ K.table }
    requires opening { opening_in start.run.table.shared.key ≡ K.opening }
    requires world { IsWorld (λ g s. IsWhole plain_view g s)
        (λ g. seen_of plain_view g) (StandsIn registry) K.opening [] guardians.items }
{
    let runtime = Threaded::<K, &Meeting>::new(alloc, start, registry, guardians, meeting)?;
    let mut receipts = runtime.no_receipts();
    let granted = meet(alloc, rt, &runtime, every, meeting, &mut receipts);
    end(runtime, receipts)?;
    granted
}

/// Begins a top action at each of the guardians, and has all their operations meet.
fn meet<K: OfRun + Send + Sync, H: Threads + Wait + Sync>(
    alloc: Global,
    rt: &H,
    runtime: &Threaded<K, &Meeting>,
    every: u32,
    meeting: &Meeting,
    receipts: &mut Receipts<K>,
) -> Result<bool, RowFault> {
    let operations = begun(alloc, rt, runtime, every, receipts)?;
    meeting.is_on.store(true, Ordering::SeqCst);
    let steps = operations.as_slice();
    let given = map_indices(
        rt,
        alloc,
        steps.len(),
        &|index| { answered(runtime.step(rt, &steps[index])) },
    )?;
    all_granted(runtime, given, receipts)
}

/// Begins a top action at each of the guardians, and gives an operation of each.
fn begun<K: OfRun, P: Gate, H: Wait>(
    alloc: Global,
    rt: &H,
    runtime: &Threaded<K, P>,
    every: u32,
    receipts: &mut Receipts<K>,
) -> Result<Vec<Step>, RowFault> {
    let mut operations = Vec::new(alloc);
    for place in 1..=SIZE {
        let guardian = place.saturating_mul(every);
        let answer = made(runtime, rt, &Step::Top(guardian), receipts)?;
        push(&mut operations, operation_of(alloc, &answer, guardian)?)?;
    }
    Ok(operations)
}

/// Whether all operations were granted. Their receipts are kept.
fn all_granted<K: OfRun, P: Gate>(
    runtime: &Threaded<K, P>,
    given: Vec<Result<Answered<K>, RowFault>>,
    receipts: &mut Receipts<K>,
) -> Result<bool, RowFault> {
    let mut all = true;
    for one in given {
        let answer = kept(runtime, one?, receipts);
        all = all && answer.is_accepted();
    }
    Ok(all)
}

/// An operation of the action that the answer began, at this guardian.
fn operation_of(alloc: Global, answer: &Answer, guardian: u32) -> Result<Step, RowFault> {
    let name = first_begun(answer)?;
    let mut text = String::new(alloc);
    name.write_to(&mut text)?;
    let name = text.as_str();
    let text = format!(in alloc; "op {name} {guardian}/1 add 1")?;
    Step::read(alloc, text.as_str().as_bytes())?.ok_or(RowFault::Unread)
}
