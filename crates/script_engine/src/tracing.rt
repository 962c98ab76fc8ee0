//! Writing the trace of a run, where one is wanted.

ghost use Rattle.std.specs.Prelude.{◌≡◌, [], IfErr, IfOk, IsNone, IsOkAnd, IsSome, OnOk, string_bytes};
ghost use Rattle.std.specs.Io.KnownBytes.{Appends};
ghost use Rattle.run_model.specs.Openings.{opening_in};
ghost use Rattle.traces.specs.Traces.{trace_text};
ghost use Rattle.tracer.specs.Leaving.{histories_of};
ghost use Rattle.argus_engine.specs.declared.engine.Fault.TheVariants.{Output};
ghost use Rattle.argus_engine.specs.Serving.{TakesFront};
ghost use Rattle.script_engine.specs.Running.{known};

use crate::clients::Traced;
use argus_engine::{Fault, finish};
use std::alloc::{AllocError, Global};
use std::io::Write;

/// The text of the trace of what has happened in the system. If no writer wants it, it is empty.
pub(crate) fn wanted_trace<S: Traced, T>(
    alloc: Global,
    system: &S,
    out: &Option<T>,
) -> Result<String, AllocError>
    ensures trace { IfOk result (λ text. IsSome out.now → string_bytes text
        ≡ trace_text (S.run system.now).lists.setup
        (histories_of (opening_in (S.run system.now).lists) (S.run system.now).past)) }
    ensures unwanted { IsNone out.now → IsOkAnd result (λ text. string_bytes text ≡ []) }
{
    if out.is_none() {
        return Ok(String::new(alloc));
    }
    let trace = system.trace(alloc)?;
    trace.text(alloc)
}

/// Writes the text to the writer, if there is one. After a fault of the writer a beginning of the text was written;
/// there is no other.
pub(crate) fn write_wanted<T: Write>(out: &mut Option<T>, text: &str) -> Result<(), Fault>
    ensures ok { OnOk result
        (Appends (known T.contents out.old) (known T.contents out.new) text.now) }
    ensures front { TakesFront (known T.contents out.old) (known T.contents out.new) text.now }
    ensures fault { IfErr result (λ fault. fault ≡ Output) }
{
    match out {
        Some(writer) => finish(writer, text),
        None => Ok(()),
    }
}
