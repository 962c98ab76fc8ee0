//! Rows of traces: what the engine says of them, and which trace a run of a script leaves.
ghost use Rattle.std.specs.Prelude.{◌≡◌, IfOk};
ghost use Rattle.run_model.specs.Runs.{new_world};

use crate::examples::Examples;
use crate::pieces::{Reader, Writer};
use argus_engine::{Ended, Fault, trace_file};
use rows::{Row, RowFault};
use run_model::Setup;
use script_engine::run_file;
use script_runs::Serially;
use stable_store::PlainStable;
use std::alloc::Global;
use world::World;

/// `trace READER WRITER`: what the engine writes of the section's steps as a trace. If they are one, and its histories
/// are one run, the world that made it is the section's.
pub(crate) fn gather_trace(
    examples: &mut Examples,
    row: &Row<'_>,
    answer: &mut String,
) -> Result<(), RowFault> {
    if let Some(world) = gathered(examples, row, answer)? {
        examples.world = world;
    }
    Ok(())
}

fn gathered(
    examples: &Examples,
    row: &Row<'_>,
    answer: &mut String,
) -> Result<Option<World<PlainStable>>, RowFault> {
    let alloc = examples.alloc;
    let mut words = row.words();
    let mut reader = Reader::of_word(words.word()?, examples.steps.as_slice())?;
    let mut writer = Writer::of_word(alloc, words.word()?)?;
    let (ended, world) = match trace_file(
        alloc,
        |setup| begin(alloc, setup),
        &mut reader,
        &mut writer,
    ) {
        Ok(Some(world)) => (Ok(Ended::Done), Some(world)),
        Ok(None) => (Ok(Ended::Stopped), None),
        Err(fault) => (Err(fault), None),
    };
    writer.tell(alloc, ended, row.answer, answer)?;
    Ok(world)
}

/// `run_traced WRITER WRITER`: what is told of a run of the section's script, and behind it the trace that the first
/// writer took. The trace is then the section's steps.
pub(crate) fn trace_script(
    examples: &mut Examples,
    row: &Row<'_>,
    answer: &mut String,
) -> Result<(), RowFault> {
    let mut words = row.words();
    let mut out = Some(Writer::of_word(examples.alloc, words.word()?)?);
    let mut writer = Writer::of_word(examples.alloc, words.word()?)?;
    let ended = run_file(
        examples.alloc,
        &mut Serially,
        examples.script.as_bytes(),
        &mut out,
        &mut writer,
    );
    let Some(out) = out else {
        return Err(RowFault::Unread);
    };
    if out.was_refused() {
        return Err(RowFault::Memory);
    }
    writer.push_end(ended, answer)?;
    answer.push_str("; ")?;
    out.push("trace", answer)?;
    examples.steps = out.into_taken();
    Ok(())
}

fn begin(alloc: Global, setup: Setup) -> Result<World<PlainStable>, Fault>
    ensures { IfOk result (λ world. world.run ≡ new_world setup) }
{
    Ok(World::in_memory(alloc, setup)?)
}
