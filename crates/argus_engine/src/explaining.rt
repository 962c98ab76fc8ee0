//! What the program says of one action, after the answers.

ghost use Rattle.std.specs.Prelude.{◌≡◌, ◌≢◌, ℕ, List, IfErr, IfOk, string_bytes};
ghost use Rattle.std.specs.Io.KnownBytes.{Keeps};
ghost use Rattle.run_model.specs.Explaining.{IsExplained};
ghost use Rattle.argus_engine.specs.declared.engine.Ended.TheVariants.{Done};
ghost use Rattle.argus_engine.specs.declared.engine.Fault.TheVariants.{Output};
ghost use Rattle.argus_engine.specs.Serving.{Begins, IsOfWriter, Writes};

use crate::engine::{Ended, Fault};
use crate::writing::finish;
use run_model::{History, Name, NameFault};
use std::alloc::{AllocError, Global};
use std::io::Write;
use tracer::{Explained, explain};

/// Writes what the action whose name the word is sees of the history: a line an operation, by place in the serial
/// order, as in `5.4.3 1.1 2/1 get n -> 0`, with `*` for a closing step that has not come; or `orphan` alone; or
/// `refused 2` alone where no such action was begun, also where the word is no name. After a fault of the
/// writer a beginning of these lines was written, and none where memory ran out.
#[tactic(auto, using(crate::proofs::Explanations::front_written, crate::proofs::Explanations::nothing_written))]
pub fn explain_text<W: Write>(
    alloc: Global,
    history: &History,
    word: &str,
    writer: &mut W,
) -> Result<Ended, Fault>
    ensures ok { IfOk result (λ ended. (ended ≡ Done)
        × Writes (W.contents writer.old) (W.contents writer.new)
        (IsExplained word.now history.now)) }
    // also after a fault
    ensures begun { Writes (W.contents writer.old) (W.contents writer.new)
        (λ written. (lines : List ℕ) → IsExplained word.now history.now lines
        → Begins written lines) }
    ensures fault { IfErr result IsOfWriter }
    ensures silent { IfErr result (λ fault. fault ≢ Output
        → Keeps (W.contents writer.old) (W.contents writer.new)) }
{
    let lines = explained_lines(alloc, history, word)?;
    finish(writer, lines.as_str())?;
    Ok(Ended::Done)
}

/// The lines that explain the action whose name the word is.
fn explained_lines(alloc: Global, history: &History, word: &str) -> Result<String, AllocError>
    ensures explained { IfOk result (λ text. IsExplained word.now history.now (string_bytes text)) }
    ensures only { IfOk result (λ text. (lines : List ℕ) → IsExplained word.now history.now lines
        → lines ≡ string_bytes text) }
{
    match Name::parse(alloc, word) {
        Ok(action) => explain(alloc, history, &action)?.text(alloc),
        Err(NameFault::NotAName) => Explained::NotBegun.text(alloc),
        // A name that is too deep is no name: only memory is left.
        Err(NameFault::TooDeep | NameFault::Memory) => Err(AllocError),
    }
}
