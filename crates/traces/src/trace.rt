//! A whole trace: its setup and its histories, from bytes and to bytes.

ghost use Rattle.std.specs.Prelude.{◌≡◌, [], ◌++◌, ◌+◌, IfErr, IfOk, OnOk, string_bytes};
ghost use Rattle.std.specs.List.{AllByRecursion};
ghost use Rattle.run_model.specs.Texts.{IsOpeningSetup};
ghost use Rattle.traces.specs.Traces.{AreHistoriesOver, IsLine, IsTrace, histories_in, lines_from, lines_of, lines_text, lists_of, owned_lines, trace_text};
ghost use Rattle.traces.specs.Faults.{IsFaultOf, IsStop};

use crate::line::{append_line, append_setup, cut};
use crate::reader::TraceReader;
use crate::stamped::Stamped;
use run_model::Setup;
use std::alloc::{AllocError, Global};
use thiserror::Error;

/// A setup, and the histories of a run of it, each with its oldest event first. A guardian's history
/// stands at the guardian's number less one.
#[derive(Drop)]
pub struct Trace {
    pub setup: Setup,
    pub registry: Vec<Stamped>,
    pub guardians: Vec<Vec<Stamped>>,
}

/// Why bytes are no trace.
#[derive(Clone, Copy, Debug, PartialEq, Eq, Drop, Error)]
pub enum TraceFault {
    /// The first line is no setup line.
    #[error("error setup")]
    Setup,
    /// The line of this number is no line of a trace, or must not follow the lines before it. The
    /// setup line is line 1.
    #[error("error {0}")]
    Line(u64),
    #[error("fault memory")]
    Memory,
}

impl From<AllocError> for TraceFault {
    ghost use Rattle.std.specs.Prelude.{◌≡◌};
    ghost use Rattle.traces.specs.declared.trace.TraceFault.TheVariants.{Memory};

    ghost from_gives = { λ _ fault. fault ≡ Memory };

    fn from(_refused: AllocError) -> TraceFault {
        TraceFault::Memory
    }
}

impl Trace {
    /// The trace that the bytes are. A fault says where they stop being one; `Memory` comes only if
    /// memory runs out.
    pub fn read(alloc: Global, bytes: &[u8]) -> Result<Trace, TraceFault>
        ensures found { IfOk result (λ t.
            IsTrace bytes.now t.setup (histories_in t.registry.items t.guardians.items)) }
        ensures fault { IfErr result (IsFaultOf bytes.now) }
    {
        let Some((line, rest)) = cut(bytes, b'\n') else {
            return Err(TraceFault::Setup);
        };
        let Some(mut reader) = TraceReader::new(alloc, line)? else {
            return Err(TraceFault::Setup);
        };
        read_lines(&mut reader, rest)?;
        Ok(reader.finish())
    }

    /// The text of the trace. `read` reads it as this trace, if its histories are those of a trace
    /// over its setup.
    pub fn text(&self, alloc: Global) -> Result<String, AllocError>
        ensures text { IfOk result (λ text. string_bytes text
            ≡ trace_text self.now.setup
            (histories_in self.now.registry.items self.now.guardians.items)) }
        ensures read_back { IfOk result (λ text. IsOpeningSetup self.now.setup
            → AllByRecursion IsLine
            (lines_of (histories_in self.now.registry.items self.now.guardians.items))
            → AreHistoriesOver self.now.setup (lists_of self.now.guardians.items)
            → IsTrace (string_bytes text) self.now.setup
            (histories_in self.now.registry.items self.now.guardians.items)) }
    {
        trace_text(alloc, &self.setup, &self.registry, &self.guardians)
    }
}

/// Reads the lines behind the setup line.
fn read_lines(reader: &mut TraceReader, bytes: &[u8]) -> Result<(), TraceFault>
    requires { reader.old.lines ≡ [] }
    ensures ok { OnOk result ((reader.new.setup ≡ reader.old.setup)
        × (bytes.now ≡ lines_text reader.new.lines)) }
    ensures fault { IfErr result (IsStop bytes.now) }
{
    let mut rest = bytes;
    // There are fewer lines than bytes.
    for number in 2..bytes.len() as u64 + 3 {
        if rest.is_empty() {
            return Ok(());
        }
        let Some((line, others)) = cut(rest, b'\n') else {
            return Err(TraceFault::Line(number));
        };
        if !reader.push(line)? {
            return Err(TraceFault::Line(number));
        }
        rest = others;
    }
    unreachable!()
}

/// The text of the trace of these histories over the setup. `Trace::read` reads it as this trace, if
/// they are the histories of a trace.
pub fn trace_text(
    alloc: Global,
    setup: &Setup,
    registry: &[Stamped],
    guardians: &[Vec<Stamped>],
) -> Result<String, AllocError>
    ensures text { IfOk result (λ text.
        string_bytes text ≡ trace_text setup.now (histories_in registry.now guardians.now)) }
    ensures read_back { IfOk result (λ text. IsOpeningSetup setup.now
        → AllByRecursion IsLine (lines_of (histories_in registry.now guardians.now))
        → AreHistoriesOver setup.now (lists_of guardians.now)
        → IsTrace (string_bytes text) setup.now (histories_in registry.now guardians.now)) }
{
    let mut text = String::new(alloc);
    append_setup(setup, &mut text)?;
    append_history(0, registry, &mut text)?;
    append_histories(guardians, &mut text)?;
    Ok(text)
}

/// Appends the lines of the guardians' histories. If memory runs out, a part may stand at the end.
fn append_histories(guardians: &[Vec<Stamped>], text: &mut String) -> Result<(), AllocError>
    ensures { OnOk result (string_bytes text.new
        ≡ string_bytes text.old ++ lines_text (lines_from 1 (lists_of guardians.now))) }
{
    for (before, history) in guardians.iter().enumerate() {
        append_history(before + 1, history, text)?;
    }
    Ok(())
}

/// Appends the lines of one history. If memory runs out, a part may stand at the end.
fn append_history(owner: usize, history: &[Stamped], text: &mut String) -> Result<(), AllocError>
    ensures { OnOk result (string_bytes text.new
        ≡ string_bytes text.old ++ lines_text (owned_lines owner history.now)) }
{
    for stamped in history {
        append_line(owner, stamped, text)?;
    }
    Ok(())
}
