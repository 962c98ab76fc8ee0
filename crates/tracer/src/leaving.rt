//! The histories that a run leaves with the registry and with each guardian.
ghost use Rattle.std.specs.Prelude.{◌≡◌, ◌==◌, ◌+◌, [], List, IfOk, OnOk, if◌then◌else◌, length, replicate};
ghost use Rattle.run_model.specs.declared.history.Event.{Event};
ghost use Rattle.run_model.specs.LocalHistories.{takes_registry};
ghost use Rattle.run_model.specs.Openings.{opening_in};
ghost use Rattle.traces.specs.Traces.{histories_in, lists_of};
ghost use Rattle.tracer.specs.Homes.{AreHomes};
ghost use Rattle.tracer.specs.Leaving.{IsKept, histories_of, put_behind};

use crate::homes::Homes;
use crate::steps::takes_registry;
use run_model::{Event, History, Opening};
use std::alloc::{AllocError, Global};
use traces::{Stamped, Trace};

/// The trace of what has happened since the opening. An event has its number for its stamp. Each history has copies of
/// its events.
pub fn trace_of(alloc: Global, opening: &Opening, history: &History) -> Result<Trace, AllocError>
    ensures setup { IfOk result (λ trace. trace.setup ≡ opening.now.setup) }
    ensures histories { IfOk result (λ trace.
        histories_in trace.registry.items trace.guardians.items
        ≡ histories_of (opening_in opening.now) history.now) }
{
    let setup = opening.setup().copy()?;
    let mut histories = empty_histories(alloc, setup.guardians() + 1)?;
    let mut homes = Homes::new(alloc);
    for (before, event) in history.events().iter().enumerate() {
        keep(&mut histories, &homes, before as u64 + 1, event)?;
        homes.add(&event.step, &event.answer)?;
    }
    let registry = histories.remove(0);
    Ok(Trace {
        setup,
        registry,
        guardians: histories,
    })
}

/// So many histories without events.
fn empty_histories(alloc: Global, count: usize) -> Result<Vec<Vec<Stamped>>, AllocError>
    ensures { IfOk result (λ histories. lists_of histories.items ≡ replicate count []) }
{
    let mut histories = Vec::with_capacity(alloc, count)?;
    for _ in 0..count {
        histories.push(Vec::new(alloc))?;
    }
    Ok(histories)
}

/// Puts copies of the event behind the histories that have it: the registry's is the first, and a guardian's stands at
/// the guardian's number.
fn keep(
    histories: &mut Vec<Vec<Stamped>>,
    homes: &Homes,
    stamp: u64,
    event: &Event,
) -> Result<(), AllocError>
    ensures { (past : List Event) → AreHomes homes.now past → OnOk result (IsKept past
        (stamp, event.now) (lists_of histories.old.items) (lists_of histories.new.items)) }
{
    let (one, other) = homes.named(&event.step)?;
    keep_with_registry(histories, stamp, event)?;
    keep_at(histories, one, stamp, event)?;
    if one == other {
        return Ok(());
    }
    keep_at(histories, other, stamp, event)
}

fn keep_with_registry(
    histories: &mut Vec<Vec<Stamped>>,
    stamp: u64,
    event: &Event,
) -> Result<(), AllocError>
    ensures { OnOk result (lists_of histories.new.items ≡ (if takes_registry event.now.step
        then put_behind 0 (stamp, event.now) (lists_of histories.old.items)
        else lists_of histories.old.items)) }
{
    if !takes_registry(&event.step) {
        return Ok(());
    }
    put(histories, 0, stamp, event)
}

/// The same with a guardian's history. 0 is no guardian.
fn keep_at(
    histories: &mut Vec<Vec<Stamped>>,
    guardian: u32,
    stamp: u64,
    event: &Event,
) -> Result<(), AllocError>
    ensures { OnOk result (lists_of histories.new.items ≡ (if guardian == 0
        then lists_of histories.old.items
        else put_behind guardian (stamp, event.now) (lists_of histories.old.items))) }
{
    if guardian == 0 {
        return Ok(());
    }
    put(histories, guardian as usize, stamp, event)
}

/// Puts a copy of the event behind the history of this number, if there is one.
fn put(
    histories: &mut Vec<Vec<Stamped>>,
    number: usize,
    stamp: u64,
    event: &Event,
) -> Result<(), AllocError>
    ensures { OnOk result (lists_of histories.new.items
        ≡ put_behind number (stamp, event.now) (lists_of histories.old.items)) }
{
    if number >= histories.len() {
        return Ok(());
    }
    let event = event.copy()?;
    histories[number].push(Stamped { stamp, event })?;
    Ok(())
}
