//! A runtime over a setup's guardians, its steps, and whether its receipts close the run.
ghost use Rattle.std.specs.Prelude.{◌≡◌, [], IfOk};
ghost use Rattle.std.specs.Arc.{arc_value};
ghost use Rattle.run_model.specs.Openings.{opening_in};
ghost use Rattle.stable_store.specs.Plain.{plain_view};
ghost use Rattle.guardian.specs.Guardians.{IsWhole};
ghost use Rattle.registry.specs.Registries.{StandsIn};
ghost use Rattle.world_steps.specs.Standings.{IsWorld};
ghost use Rattle.world.specs.Worlds.{seen_of};

use action_names::Name;
use guardian::Guardian;
use layer_contracts::Fault;
use registry::Registry;
use rows::RowFault;
use run_model::{Answer, Op, Opening, Setup, SetupFault, Step};
use runtime::{Answered, CloseFault, Ends, Gate, OfRun, Receipts, Runtime, Start, StepFault};
use stable_store::PlainStable;
use std::alloc::{AllocError, Global};
use std::sync::{Arc, Wait};
use world::World;

/// A runtime over stores in memory.
pub(crate) type Threaded<K, P> = Runtime<K, Registry, Guardian<PlainStable>, P>;

/// Why a run over stores in memory was not closed.
type Unclosed<K> = CloseFault<K, Registry, Guardian<PlainStable>>;

/// Ends a run, which these receipts have to close.
pub(crate) fn end<K: OfRun, P: Gate>(
    runtime: Threaded<K, P>,
    receipts: Receipts<K>,
) -> Result<(), RowFault> {
    let ended = runtime.close_all(receipts);
    how_closed(&ended)
}

/// Whether a run was closed. What stood under the locks is only looked at, since letting it go at each exit is dear to
/// check.
fn how_closed<K: OfRun>(
    ended: &Result<Ends<Registry, Guardian<PlainStable>>, Unclosed<K>>,
) -> Result<(), RowFault> {
    match ended {
        Ok(_) => Ok(()),
        Err(CloseFault::Memory) => Err(RowFault::Memory),
        Err(CloseFault::Receipts(_, _)) => Err(RowFault::Unread),
    }
}

/// What a runtime begins with, and the opening of its run.
#[derive(Drop)]
pub(crate) struct Parts {
    pub(crate) opening: Arc<Opening, Global>,
    pub(crate) start: Start,
    pub(crate) registry: Registry,
    pub(crate) guardians: Vec<Guardian<PlainStable>>,
}

/// The beginning of a run of a setup's document, with the registry and the guardians of a new world.
pub(crate) fn opened(alloc: Global, document: &str) -> Result<Parts, RowFault>
    ensures opening { IfOk result (λ o. o.start.run.table.shared.key ≡ arc_value o.opening) }
    ensures world { IfOk result (λ o. IsWorld (λ g s. IsWhole plain_view g s)
        (λ g. seen_of plain_view g) (StandsIn o.registry)
        (opening_in o.start.run.table.shared.key) [] o.guardians.items) }
{
    let (opening, registry, guardians) = world_of(alloc, document)?.into_parts();
    let start = Start::new(alloc, &opening)?;
    Ok(Parts {
        opening,
        start,
        registry,
        guardians,
    })
}

/// The same without the opening.
pub(crate) fn started(
    alloc: Global,
    document: &str,
) -> Result<(Start, Registry, Vec<Guardian<PlainStable>>), RowFault>
    ensures { IfOk result (λ r. IsWorld (λ g s. IsWhole plain_view g s) (λ g. seen_of plain_view g)
        (StandsIn r.1) (opening_in r.0.run.table.shared.key) [] r.2.items) }
{
    let Parts {
        opening: _,
        start,
        registry,
        guardians,
    } = opened(alloc, document)?;
    Ok((start, registry, guardians))
}

/// A new world of a setup's document.
pub(crate) fn world_of(alloc: Global, document: &str) -> Result<World<PlainStable>, RowFault>
    ensures { IfOk result (λ world. world.run.past ≡ []) }
{
    match Setup::read(alloc, document.as_bytes()) {
        Ok(setup) => Ok(World::in_memory(alloc, setup)?),
        Err(SetupFault::Memory) => Err(RowFault::Memory),
        Err(SetupFault::Bad) => Err(RowFault::Unread),
    }
}

/// The world's answer to a step.
pub(crate) fn world_answer(
    world: &mut World<PlainStable>,
    step: &Step,
) -> Result<Answer, RowFault> {
    match world.step(step) {
        Ok(answer) => Ok(answer),
        Err(Fault::Memory) => Err(RowFault::Memory),
        Err(Fault::Stable) => Err(RowFault::Unread),
    }
}

/// The first of the actions that the answer began.
pub(crate) fn first_begun(answer: &Answer) -> Result<Name, RowFault> {
    match answer {
        Answer::Began(names) => first_of(names.as_slice()),
        _ => Err(RowFault::Unread),
    }
}

fn first_of(names: &[Name]) -> Result<Name, RowFault> {
    match names.first() {
        Some(name) => Ok(name.copy()?),
        None => Err(RowFault::Unread),
    }
}

/// The operation of a step's text.
pub(crate) fn operation(alloc: Global, text: &str) -> Result<Op, RowFault> {
    match Step::read(alloc, text.as_bytes())? {
        Some(step) => operation_of(step),
        None => Err(RowFault::Unread),
    }
}

fn operation_of(step: Step) -> Result<Op, RowFault> {
    match step {
        Step::Op(_, _, operation) => Ok(operation),
        _ => Err(RowFault::Unread),
    }
}

/// The setup of so many guardians with these objects each.
pub(crate) fn setup_of(alloc: Global, guardians: u32, objects: &str) -> Result<String, AllocError> {
    let mut text = String::from_str(alloc, "{\"guardians\":[")?;
    for guardian in 0..guardians {
        if guardian > 0 {
            text.push_str(",")?;
        }
        text.push_str("{\"objects\":[")?;
        text.push_str(objects)?;
        text.push_str("]}")?;
    }
    text.push_str("]}")?;
    Ok(text)
}

/// Adds one at the end.
pub(crate) fn push<T: Drop>(all: &mut Vec<T>, one: T) -> Result<(), AllocError> {
    all.push(one)?;
    Ok(())
}

/// Adds the others at the end.
pub(crate) fn append<T: Drop>(all: &mut Vec<T>, others: Vec<T>) -> Result<(), AllocError> {
    for one in others {
        all.push(one)?;
    }
    Ok(())
}

/// What came of a step under locks.
pub(crate) fn answered<K: OfRun>(
    given: Result<Answered<K>, StepFault>,
) -> Result<Answered<K>, RowFault> {
    match given {
        Ok(answered) => Ok(answered),
        Err(StepFault::Memory) => Err(RowFault::Memory),
        Err(StepFault::Stable | StepFault::UsedUp) => Err(RowFault::Unread),
    }
}

/// Makes a step, and keeps its receipt.
pub(crate) fn made<K: OfRun, P: Gate, H: Wait>(
    runtime: &Threaded<K, P>,
    rt: &H,
    step: &Step,
    receipts: &mut Receipts<K>,
) -> Result<Answer, RowFault> {
    Ok(kept(runtime, answered(runtime.step(rt, step))?, receipts))
}

/// The answer; its receipt is kept.
pub(crate) fn kept<K: OfRun, P: Gate>(
    runtime: &Threaded<K, P>,
    given: Answered<K>,
    receipts: &mut Receipts<K>,
) -> Answer {
    let Answered {
        answer,
        receipt,
        seen: _,
    } = given;
    if let Some(receipt) = receipt {
        runtime.add_receipt(receipts, receipt);
    }
    answer
}
