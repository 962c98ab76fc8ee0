//! Reading a trace line by line.

ghost use Rattle.std.specs.Prelude.{◌≡◌, ◌<◌, ◌+◌, List, [], ◌∷◌, ◌++◌, length, IfOk, IfSome, IsNone, OnErr, OnOk, replicate, slice_index_or, slice_set};
ghost use Rattle.std.specs.List.{AllByRecursion};
ghost use Rattle.limits.specs.Limits.{max_guardians};
ghost use Rattle.run_model.specs.Reading.{Reads};
ghost use Rattle.values.specs.declared.content.Content.{Content};
ghost use Rattle.traces.specs.Traces.{AreHistoriesOver, IsLine, histories_in, line_text, lines_of, lists_of};
ghost use Rattle.traces.specs.Reading.{IsLineFrom, SpellsSetup, TakesLine};

use crate::line::{Line, after};
use crate::stamped::Stamped;
use crate::trace::Trace;
use limits::MAX_GUARDIANS;
use run_model::{Setup, SetupFault};
use std::alloc::{AllocError, Global};
use std::marker::Model;

/// What was read of a trace.
#[derive(Drop)]
pub struct TraceReader {
    setup: Setup,
    // the registry's, and behind it one for each guardian that a setup may have
    histories: Vec<Vec<Stamped>>,
    // whose history the last line is of
    last: usize,
}

impl Model for TraceReader {
    ghost use Rattle.traces.specs.Traces.{lines_from, lists_of};
    ghost use Rattle.traces.specs.Reading.{IsKept, Reading};

    ghost Value = { Reading };

    ghost view = { λ a.
        record { setup = a.setup; lines = lines_from 0 (lists_of a.histories.items) } };

    ghost invariant = { λ a. IsKept a.setup (lists_of a.histories.items) a.last };
}

impl TraceReader {
    /// Reads the first line, without its line feed. `None` comes exactly if it is no setup line. It
    /// fails only if memory runs out.
    pub fn new(alloc: Global, line: &[u8]) -> Result<Option<TraceReader>, AllocError>
        ensures found { IfOk result (λ r. IfSome r (λ reader.
            SpellsSetup line.now reader.setup × (reader.lines ≡ []))) }
        ensures none { IfOk result (λ r. IsNone r
            → (setup : List (List Content)) → SpellsSetup line.now setup → ⊥) }
    {
        let Some(document) = after(line, b"setup ") else {
            return Ok(None);
        };
        let setup = match Setup::read_opening(alloc, document) {
            Ok(setup) => setup,
            Err(SetupFault::Bad) => return Ok(None),
            Err(SetupFault::Memory) => return Err(AllocError),
        };
        let histories = empty_histories(alloc)?;
        Ok(Some(TraceReader {
            setup,
            histories,
            last: 0,
        }))
    }

    /// Reads one more line, without its line feed. `false` comes exactly if it is no line of a
    /// trace, or one that must not follow the lines before it; then nothing is changed, nor if
    /// memory runs out.
    pub fn push(&mut self, text: &[u8]) -> Result<bool, AllocError>
        ensures ok { IfOk result (TakesLine text.now self.old self.new) }
        ensures err { OnErr result (self.new ≡ self.old) }
    {
        let alloc = *self.histories.allocator();
        let Some(line) = next_line(alloc, text, self.last)? else {
            return Ok(false);
        };
        let owner = line.owner;
        put(&mut self.histories, line)?;
        self.last = owner;
        Ok(true)
    }

    /// The trace of the lines that were read.
    pub fn finish(self) -> Trace
        ensures setup { result.setup ≡ self.setup }
        ensures lines { lines_of (histories_in result.registry.items result.guardians.items)
            ≡ self.lines }
        ensures each { AllByRecursion IsLine self.lines }
        ensures guardians { AreHistoriesOver self.setup (lists_of result.guardians.items) }
    {
        let TraceReader {
            setup,
            mut histories,
            last,
        } = self;
        histories.truncate(last.max(setup.guardians()) + 1);
        let registry = histories.remove(0);
        Trace {
            setup,
            registry,
            guardians: histories,
        }
    }
}

/// A history without events for the registry, and one for each guardian that a setup may have.
fn empty_histories(alloc: Global) -> Result<Vec<Vec<Stamped>>, AllocError>
    ensures { IfOk result
        (λ histories. lists_of histories.items ≡ replicate (max_guardians + 1) []) }
{
    let mut histories = Vec::with_capacity(alloc, MAX_GUARDIANS + 1)?;
    for _ in 0..MAX_GUARDIANS + 1 {
        histories.push(Vec::new(alloc))?;
    }
    Ok(histories)
}

/// The line that the text spells, if its owner is none before this one.
fn next_line(alloc: Global, text: &[u8], last: usize) -> Result<Option<Line>, AllocError>
    ensures { IfOk result (Reads (IsLineFrom last) line_text text.now) }
{
    let read = Line::read(alloc, text)?;
    Ok(read.filter(|line| line.owner >= last))
}

/// Puts the line's event behind the history that it is of. If memory runs out, nothing is changed.
fn put(histories: &mut Vec<Vec<Stamped>>, line: Line) -> Result<(), AllocError>
    requires { line.owner < length histories.old.items }
    ensures ok { OnOk result (lists_of histories.new.items
        ≡ slice_set (lists_of histories.old.items) line.owner
        (slice_index_or (lists_of histories.old.items) line.owner [] ++ line.stamped ∷ [])) }
    ensures err { OnErr result (lists_of histories.new.items ≡ lists_of histories.old.items) }
{
    let Line { owner, stamped } = line;
    histories[owner].push(stamped)?;
    Ok(())
}
