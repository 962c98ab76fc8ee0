//! Scripts whose clients and arms run in threads, and the traces of these runs.
ghost use Rattle.std.specs.Prelude.{◌≡◌, IfOk};
ghost use Rattle.run_model.specs.Runs.{new_world};

use argus_engine::{Fault, trace_file};
use rows::{RowFault, again};
use run_model::Setup;
use script_engine::run_file;
use script_threads::{InThreads, Watching};
use stable_store::PlainStable;
use std::alloc::Global;
use std::sync::Wait;
use std::thread::Threads;
use std::time::Clock;
use world::World;

/// What a run of the script in threads writes, and whether its trace gathers, on one line. A run for which memory was
/// refused is made once more.
pub(crate) fn written<H: Threads + Wait + Clock + Eprint + Sync>(
    alloc: Global,
    rt: &H,
    script: &str,
    watching: Watching,
) -> Result<String, RowFault> {
    match again!(run(alloc, rt, script, watching)) {
        Ok(lines) => on_one_line(alloc, lines.as_slice()),
        Err(Fault::Memory) => Err(RowFault::Memory),
        Err(_) => Err(RowFault::Unread),
    }
}

fn run<H: Threads + Wait + Clock + Eprint + Sync>(
    alloc: Global,
    rt: &H,
    script: &str,
    watching: Watching,
) -> Result<Vec<u8>, Fault> {
    let mut out = Some(Vec::new(alloc));
    let mut lines = Vec::new(alloc);
    run_file(
        alloc,
        &mut InThreads::new(rt, watching),
        script.as_bytes(),
        &mut out,
        &mut lines,
    )?;
    let has_gathered = match &out {
        Some(trace) => gathers(alloc, trace)?,
        None => false,
    };
    let verdict: &[u8] = if has_gathered {
        b"gathers\n"
    } else {
        b"does not gather\n"
    };
    lines.extend_from_slice(verdict)?;
    Ok(lines)
}

/// Whether the histories of a trace are one run.
fn gathers(alloc: Global, trace: &[u8]) -> Result<bool, Fault> {
    let mut reader = trace;
    let mut verdict = Vec::new(alloc);
    let world = trace_file(
        alloc,
        |setup| in_memory(alloc, setup),
        &mut reader,
        &mut verdict,
    )?;
    Ok(world.is_some())
}

fn in_memory(alloc: Global, setup: Setup) -> Result<World<PlainStable>, Fault>
    ensures { IfOk result (λ world. world.run ≡ new_world setup) }
{
    Ok(World::in_memory(alloc, setup)?)
}

/// The lines, with ` | ` between two.
fn on_one_line(alloc: Global, lines: &[u8]) -> Result<String, RowFault> {
    let text = str::from_utf8(lines).map_err(|_| RowFault::Unread)?;
    let mut one = String::new(alloc);
    for (index, line) in text.lines().enumerate() {
        if index > 0 {
            one.push_str(" | ")?;
        }
        one.push_str(line)?;
    }
    Ok(one)
}
