//! What the program writes about a trace.

ghost use Rattle.std.specs.Prelude.{◌≡◌, ◌≢◌, ◌↔◌, ℕ, List, Result, IfErr, IfOk, option_map, string_bytes};
ghost use Rattle.std.specs.Io.KnownBytes.{Keeps};
ghost use Rattle.std.specs.IoError.{error_kind};
ghost use Rattle.traces.specs.Faults.{IsFaultOf};
ghost use Rattle.traces.specs.Traces.{IsTrace, histories_in};
ghost use Rattle.argus_engine.specs.Serving.{Gives, Writes};
ghost use Rattle.argus_engine.specs.Reading.{IsOfReader};
ghost use Rattle.argus_engine.specs.Tracing.{BeginsVerdict, GivesNewWorlds, IsDenied, IsVerdict, OneVerdict, TellsTrace};
ghost use Rattle.argus_engine.specs.Tracing.{IsOfMaking, IsOfTrace};
ghost use Rattle.argus_engine.specs.declared.engine.Fault.TheVariants.{Memory, Output};

use crate::engine::Fault;
use crate::writing::finish;
use run_model::Setup;
use std::alloc::{AllocError, Global};
use std::io::{self, ErrorKind, Read, Write};
use stepping::MakesSteps;
use tracer::{Gathered, gather};
use traces::{Trace, TraceFault};

/// Reads a trace, makes its events as steps in a new world of its setup, and writes `yes` with the number of events,
/// or `no` with the least stamp at which the histories fail. If the bytes are no trace, it writes `error setup`, or
/// `error` with the number of the first bad line. The world comes with `yes` alone. After a fault of the writer
/// a beginning of that line was written; each other fault comes before anything is written. Such a fault is of memory,
/// of the reader, of a store, or the one that was given in place of a world.
pub fn trace_file<M, B, R, W>(
    alloc: Global,
    begin: B,
    reader: &mut R,
    writer: &mut W,
) -> Result<Option<M>, Fault>
where
    M: MakesSteps + Drop,
    B: FnOnce(Setup) -> Result<M, Fault>,
    R: Read,
    W: Write,
    requires callable { B.IsAlwaysCallable begin }
    requires begins { GivesNewWorlds M.run (B.post begin) }
    ensures ok { IfOk result (λ found. Writes (W.contents writer.old) (W.contents writer.new)
        (TellsTrace (R.remaining reader.old) (option_map M.run found))) }
    // also after a fault
    ensures begun { Writes (W.contents writer.old) (W.contents writer.new)
        (BeginsVerdict (R.remaining reader.old)) }
    ensures fault { IfErr result (IsOfTrace (B.post begin)) }
    ensures silent { IfErr result (λ fault. fault ≢ Output
        → Keeps (W.contents writer.old) (W.contents writer.new)) }
{
    let bytes = read_whole(alloc, reader)?;
    let (world, line) = verdict(alloc, begin, bytes)?;
    finish(writer, line.as_str())?;
    Ok(world)
}

fn read_whole<R: Read>(alloc: Global, reader: &mut R) -> Result<Vec<u8>, Fault>
    ensures given { IfOk result (λ bytes. Gives (R.remaining reader.old) bytes.items) }
    ensures fault { IfErr result IsOfReader }
{
    let mut bytes = Vec::new(alloc);
    match reader.read_to_end(&mut bytes) {
        Ok(_) => Ok(bytes),
        Err(error) => Err(read_fault(&error)),
    }
}

fn read_fault(error: &io::Error) -> Fault
    ensures reader { IsOfReader result }
    ensures memory { result ≡ Memory ↔ (error_kind error.now ≡ ErrorKind.OutOfMemory) }
{
    match error.kind() {
        ErrorKind::OutOfMemory => Fault::Memory,
        _ => Fault::Input,
    }
}

/// The line for the bytes, and the world that made their run.
fn verdict<M, B>(alloc: Global, begin: B, bytes: Vec<u8>) -> Result<(Option<M>, String), Fault>
where
    M: MakesSteps + Drop,
    B: FnOnce(Setup) -> Result<M, Fault>,
    requires callable { B.IsAlwaysCallable begin }
    requires begins { GivesNewWorlds M.run (B.post begin) }
    ensures said { IfOk result
        (λ said. IsVerdict bytes.items (option_map M.run said.0) (string_bytes said.1)) }
    ensures fault { IfErr result (IsOfMaking (B.post begin)) }
{
    let read = Trace::read(alloc, bytes.as_slice());
    drop(bytes);
    match read {
        Ok(trace) => gathered(alloc, begin, trace),
        Err(fault) => Ok((None, error_line(alloc, fault)?)),
    }
}

/// The line for a trace, and the world that made its run.
fn gathered<M, B>(alloc: Global, begin: B, trace: Trace) -> Result<(Option<M>, String), Fault>
where
    M: MakesSteps + Drop,
    B: FnOnce(Setup) -> Result<M, Fault>,
    requires callable { B.IsAlwaysCallable begin }
    requires begins { GivesNewWorlds M.run (B.post begin) }
    ensures said { (bytes : List ℕ)
        → IsTrace bytes trace.setup (histories_in trace.registry.items trace.guardians.items)
        → IfOk result (λ said. IsVerdict bytes (option_map M.run said.0) (string_bytes said.1)) }
    ensures fault { IfErr result (IsOfMaking (B.post begin)) }
{
    let Trace {
        setup,
        registry,
        guardians,
    } = trace;
    let mut world = begin(setup)?;
    match gather(alloc, &mut world, &registry, &guardians)? {
        Gathered::Yes(count) => Ok((Some(world), format!(in alloc; "yes {count}\n")?)),
        Gathered::No(stamp) => Ok((None, format!(in alloc; "no {stamp}\n")?)),
    }
}

/// The line for bytes that are no trace.
fn error_line(alloc: Global, fault: TraceFault) -> Result<String, AllocError>
    ensures { IfOk result (λ line.
        (bytes : List ℕ) → IsFaultOf bytes fault → IsDenied bytes (string_bytes line)) }
{
    match fault {
        TraceFault::Setup => String::from_str(alloc, "error setup\n"),
        TraceFault::Line(number) => format!(in alloc; "error {number}\n"),
        TraceFault::Memory => Err(AllocError),
    }
}

/// Bytes have one verdict.
pub fn one_verdict()
    ensures { OneVerdict }
{}
