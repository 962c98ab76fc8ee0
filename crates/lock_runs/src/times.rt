//! What steps cost: by a world and by a runtime with one caller, and by threads that share a runtime or a world under
//! one lock.
ghost use Rattle.std.specs.Prelude.{◌≡◌, []};
ghost use Rattle.run_model.specs.Openings.{opening_in};
ghost use Rattle.stable_store.specs.Plain.{plain_view};
ghost use Rattle.guardian.specs.Guardians.{IsWhole};
ghost use Rattle.registry.specs.Registries.{StandsIn};
ghost use Rattle.world_steps.specs.Standings.{IsWorld};
ghost use Rattle.world.specs.Worlds.{seen_of};

use crate::examples::make_all;
use crate::runs::{Threaded, end, push, setup_of, started, world_answer, world_of};
use crate::transfers::{ACCOUNT, GUARDIANS, Share, Steps, Work, Workers, all_work, gather};
use guardian::Guardian;
use registry::Registry;
use rows::RowFault;
use run_model::{Answer, Step};
use runtime::{OfRun, OpenGate, Start};
use stable_store::PlainStable;
use std::alloc::Global;
use std::io;
use std::marker::Brand;
use std::sync::{Mutex, Wait};
use std::thread::{Threads, map_indices};
use std::time::{Clock, Instant};
use world::World;

/// How often each is timed; the least counts.
const ROUNDS: u32 = 5;

/// The nanoseconds since then.
fn since<C: Clock>(clock: &C, begun: io::Result<Instant>) -> Result<u64, RowFault> {
    let Ok(begun) = begun else {
        return Err(RowFault::Unread);
    };
    match begun.elapsed(clock) {
        Ok(taken) => Ok(u64::try_from(taken.as_nanos()).unwrap_or(u64::MAX)),
        Err(_error) => Err(RowFault::Unread),
    }
}

/// Nanoseconds of the same steps, made two ways.
#[derive(Clone, Copy)]
pub(crate) struct Both {
    pub(crate) world: u64,
    pub(crate) runtime: u64,
}

/// The steps, by a world and by a runtime in turn.
pub(crate) fn both_ways<H: Threads + Wait + Sync + Clock>(
    alloc: Global,
    rt: &H,
    setup: &str,
    steps: &[Step],
) -> Result<Both, RowFault> {
    let mut least = Both {
        world: u64::MAX,
        runtime: u64::MAX,
    };
    for _ in 0..ROUNDS {
        least.world = by_world(alloc, rt, setup, steps)?.min(least.world);
        least.runtime = by_runtime(alloc, rt, setup, steps)?.min(least.runtime);
    }
    Ok(least)
}

/// The nanoseconds of the steps, made by a world.
fn by_world<C: Clock>(
    alloc: Global,
    clock: &C,
    setup: &str,
    steps: &[Step],
) -> Result<u64, RowFault> {
    let mut world = world_of(alloc, setup)?;
    let begun = Instant::now(clock);
    answer_all(alloc, &mut world, steps)?;
    since(clock, begun)
}

/// Makes the steps in the world, and keeps the answers while it does.
fn answer_all(
    alloc: Global,
    world: &mut World<PlainStable>,
    steps: &[Step],
) -> Result<(), RowFault> {
    let mut answers = Vec::new(alloc);
    for step in steps {
        push(&mut answers, world_answer(world, step)?)?;
    }
    Ok(())
}

/// The nanoseconds of the steps, made by a runtime with one caller.
fn by_runtime<H: Wait + Clock>(
    alloc: Global,
    rt: &H,
    setup: &str,
    steps: &[Step],
) -> Result<u64, RowFault> {
    let (start, registry, guardians) = started(alloc, setup)?;
    listed_in::<Brand, H>(alloc, rt, start, registry, guardians, steps)
}

fn listed_in<K: OfRun, H: Wait + Clock>(
    alloc: Global,
    rt: &H,
    start: Start,
    registry: Registry,
    guardians: Vec<Guardian<PlainStable>>,
    steps: &[Step],
) -> Result<u64, RowFault>
    requires table { start.run.table.shared.table_id ≡ K.table }
    requires opening { opening_in start.run.table.shared.key ≡ K.opening }
    requires world { IsWorld (λ g s. IsWhole plain_view g s)
        (λ g. seen_of plain_view g) (StandsIn registry) K.opening [] guardians.items }
{
    let runtime = Threaded::<K, OpenGate>::new(alloc, start, registry, guardians, OpenGate)?;
    let mut receipts = runtime.no_receipts();
    let begun = Instant::now(rt);
    let made = make_all(alloc, rt, &runtime, steps, &mut receipts);
    let taken = since(rt, begun);
    end(runtime, receipts)?;
    made?;
    taken
}

/// The nanoseconds of the work by threads that share a runtime.
pub(crate) fn over_runtime<H: Threads + Wait + Sync + Clock>(
    alloc: Global,
    rt: &H,
    workers: Workers,
) -> Result<u64, RowFault> {
    let setup = setup_of(alloc, GUARDIANS, ACCOUNT)?;
    let mut least = u64::MAX;
    for _ in 0..ROUNDS {
        least = by_workers(alloc, rt, setup.as_str(), workers)?.min(least);
    }
    Ok(least)
}

/// The nanoseconds of the work, once.
fn by_workers<H: Threads + Wait + Sync + Clock>(
    alloc: Global,
    rt: &H,
    setup: &str,
    workers: Workers,
) -> Result<u64, RowFault> {
    let (start, registry, guardians) = started(alloc, setup)?;
    workers_in::<Brand, H>(alloc, rt, start, registry, guardians, workers)
}

fn workers_in<K: OfRun + Send + Sync, H: Threads + Wait + Sync + Clock>(
    alloc: Global,
    rt: &H,
    start: Start,
    registry: Registry,
    guardians: Vec<Guardian<PlainStable>>,
    workers: Workers,
) -> Result<u64, RowFault>
    requires table { start.run.table.shared.table_id ≡ K.table }
    requires opening { opening_in start.run.table.shared.key ≡ K.opening }
    requires world { IsWorld (λ g s. IsWhole plain_view g s)
        (λ g. seen_of plain_view g) (StandsIn registry) K.opening [] guardians.items }
{
    let runtime = Threaded::<K, OpenGate>::new(alloc, start, registry, guardians, OpenGate)?;
    let begun = Instant::now(rt);
    let worked = all_work(alloc, rt, &runtime, workers);
    let taken = since(rt, begun);
    let mut receipts = runtime.no_receipts();
    let gathered = gather(&runtime, worked, &mut receipts);
    end(runtime, receipts)?;
    gathered?;
    taken
}

/// A world under one lock, as one thread sees it.
#[derive(Drop)]
struct Locked<'a, H> {
    rt: &'a H,
    world: &'a Mutex<World<PlainStable>>,
}

impl<'a, H: Wait> Steps for Locked<'a, H> {
    fn answer(&mut self, step: &Step) -> Result<Answer, RowFault> {
        let mut world = self.world.lock(self.rt);
        world_answer(&mut world, step)
    }
}

/// The nanoseconds of the work by threads that share a world under one lock.
pub(crate) fn over_world<H: Threads + Wait + Sync + Clock>(
    alloc: Global,
    rt: &H,
    workers: Workers,
) -> Result<u64, RowFault> {
    let setup = setup_of(alloc, GUARDIANS, ACCOUNT)?;
    let mut least = u64::MAX;
    for _ in 0..ROUNDS {
        let world = Mutex::new(world_of(alloc, setup.as_str())?);
        least = by_all(alloc, rt, &world, workers)?.min(least);
    }
    Ok(least)
}

fn by_all<H: Threads + Wait + Sync + Clock>(
    alloc: Global,
    rt: &H,
    world: &Mutex<World<PlainStable>>,
    workers: Workers,
) -> Result<u64, RowFault> {
    let begun = Instant::now(rt);
    let worked = map_indices(
        rt,
        alloc,
        workers.threads as usize,
        &|index| {
            let share = Share {
                index: index as u32,
                threads: workers.threads,
                turns: workers.turns,
            };
            workers.work.make(alloc, &mut Locked { rt, world }, share)
        },
    )?;
    for one in worked {
        one?;
    }
    since(rt, begun)
}
