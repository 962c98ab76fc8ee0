//! Threads that make steps at random, at once. One world then makes all that was accepted, in the order of the
//! receipts, and has to answer the same.
ghost use Rattle.std.specs.Prelude.{◌≡◌, []};
ghost use Rattle.run_model.specs.Openings.{opening_in};
ghost use Rattle.stable_store.specs.Plain.{plain_view};
ghost use Rattle.guardian.specs.Guardians.{IsWhole};
ghost use Rattle.registry.specs.Registries.{StandsIn};
ghost use Rattle.world_steps.specs.Standings.{IsWorld};
ghost use Rattle.world.specs.Worlds.{seen_of};

use crate::random::{SETUP, Walk};
use crate::runs::{Threaded, answered, append, end, push, started, world_answer, world_of};
use guardian::Guardian;
use registry::Registry;
use rows::RowFault;
use run_model::{Answer, Step};
use runtime::{Answered, OfRun, OpenGate, Receipts, Start};
use stable_store::PlainStable;
use std::alloc::Global;
use std::marker::Brand;
use std::sync::Wait;
use std::thread::{Threads, map_indices};
use world::World;

/// A step that was accepted, its answer, and the number of its receipt.
#[derive(Drop)]
pub(crate) struct Made {
    number: u64,
    step: Step,
    answer: Answer,
}

/// So many threads make so many steps each, at random. Whether their receipts close the run, and a world answers the
/// same to the steps in the order of the receipts.
pub(crate) fn at_once<H: Threads + Wait + Sync>(
    alloc: Global,
    rt: &H,
    walkers: Walkers,
) -> Result<bool, RowFault> {
    let (start, registry, guardians) = started(alloc, SETUP)?;
    let mut made = all_in::<Brand, H>(alloc, rt, start, registry, guardians, walkers)?;
    made.sort_by_key(|one| one.number)?;
    is_one_run(alloc, &made)
}

/// Whether a new world answers so.
fn is_one_run(alloc: Global, made: &[Made]) -> Result<bool, RowFault> {
    let mut world = world_of(alloc, SETUP)?;
    all_answered_so(alloc, &mut world, made)
}

fn all_answered_so(
    alloc: Global,
    world: &mut World<PlainStable>,
    made: &[Made],
) -> Result<bool, RowFault> {
    for one in made {
        if !answers_so(alloc, world, one)? {
            return Ok(false);
        }
    }
    Ok(!made.is_empty())
}

/// Whether the world answers the step as the threads were answered.
fn answers_so(alloc: Global, world: &mut World<PlainStable>, one: &Made) -> Result<bool, RowFault> {
    let answer = world_answer(world, &one.step)?;
    Ok(answer.text(alloc)?.as_str() == one.answer.text(alloc)?.as_str())
}

/// Threads that make so many steps each.
#[derive(Clone, Copy)]
pub(crate) struct Walkers {
    pub(crate) threads: usize,
    pub(crate) steps: u64,
    pub(crate) seed: u64,
}

fn all_in<K: OfRun + Send + Sync, H: Threads + Wait + Sync>(
    alloc: Global,
    rt: &H,
    start: Start,
    registry: Registry,
    guardians: Vec<Guardian<PlainStable>>,
    walkers: Walkers,
) -> Result<Vec<Made>, RowFault>
    requires table { start.run.table.shared.table_id ≡ K.table }
    requires opening { opening_in start.run.table.shared.key ≡ K.opening }
    requires world { IsWorld (λ g s. IsWhole plain_view g s)
        (λ g. seen_of plain_view g) (StandsIn registry) K.opening [] guardians.items }
{
    let runtime = Threaded::<K, OpenGate>::new(alloc, start, registry, guardians, OpenGate)?;
    let mut receipts = runtime.no_receipts();
    let made = all_walk(alloc, rt, &runtime, walkers, &mut receipts);
    end(runtime, receipts)?;
    made
}

/// What all threads made.
fn all_walk<K: OfRun + Send + Sync, H: Threads + Wait + Sync>(
    alloc: Global,
    rt: &H,
    runtime: &Threaded<K, OpenGate>,
    walkers: Walkers,
    receipts: &mut Receipts<K>,
) -> Result<Vec<Made>, RowFault> {
    let walked = map_indices(
        rt,
        alloc,
        walkers.threads,
        &|index| {
            let seed = walkers.seed.wrapping_add(index as u64);
            walk(alloc, rt, runtime, walkers.steps, seed)
        },
    )?;
    let mut made = Vec::new(alloc);
    for one in walked {
        let Walked {
            made: more,
            receipts: others,
        } = one?;
        append(&mut made, more)?;
        runtime.join_receipts(receipts, others);
    }
    Ok(made)
}

/// What one thread made.
#[derive(Drop)]
struct Walked<K: OfRun> {
    made: Vec<Made>,
    receipts: Receipts<K>,
}

/// Makes so many steps at random, and gives those that were accepted.
fn walk<K: OfRun, H: Wait>(
    alloc: Global,
    rt: &H,
    runtime: &Threaded<K, OpenGate>,
    count: u64,
    seed: u64,
) -> Result<Walked<K>, RowFault> {
    let mut walked = Walked {
        made: Vec::new(alloc),
        receipts: runtime.no_receipts(),
    };
    let mut walk = Walk::new(alloc, seed);
    for _ in 0..count {
        go_on(rt, runtime, &mut walk, &mut walked)?;
    }
    Ok(walked)
}

/// Makes the next step of the walk.
fn go_on<K: OfRun, H: Wait>(
    rt: &H,
    runtime: &Threaded<K, OpenGate>,
    walk: &mut Walk,
    walked: &mut Walked<K>,
) -> Result<(), RowFault> {
    let step = walk.next_step()?;
    let given = answered(runtime.step(rt, &step))?;
    keep(runtime, walk, walked, step, given)
}

/// Notes what a step began, and keeps the step if it was accepted.
fn keep<K: OfRun>(
    runtime: &Threaded<K, OpenGate>,
    walk: &mut Walk,
    walked: &mut Walked<K>,
    step: Step,
    given: Answered<K>,
) -> Result<(), RowFault> {
    walk.note(&given.answer)?;
    let Answered {
        answer,
        receipt,
        seen: _,
    } = given;
    if let Some(receipt) = receipt {
        let number = receipt.number();
        runtime.add_receipt(&mut walked.receipts, receipt);
        push(
            &mut walked.made,
            Made {
                number,
                step,
                answer,
            },
        )?;
    }
    Ok(())
}
