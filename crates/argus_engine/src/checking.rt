//! What the program says of a script.

ghost use Rattle.std.specs.Prelude.{◌≡◌, ◌≢◌, ℕ, List, IfOk, IfErr, IsErrOf, OnErr, string_bytes};
ghost use Rattle.std.specs.Io.KnownBytes.{Keeps};
ghost use Rattle.argus_engine.specs.declared.engine.Ended.TheVariants.{Stopped};
ghost use Rattle.argus_engine.specs.declared.engine.Fault.TheVariants.{Output};
ghost use Rattle.argus_engine.specs.Judging.{AreFaulty, BeginsFault, BeginsJudgement};
ghost use Rattle.argus_engine.specs.Judging.{IsFaultOf, IsJudged, IsRead, IsScriptIn};
ghost use Rattle.argus_engine.specs.Serving.{IsOfWriter, Writes};

use crate::engine::{Ended, Fault};
use crate::writing::finish;
use script::{Checked, ScriptFault, check, read};
use std::alloc::{AllocError, Global};
use std::io::Write;

/// Writes `ok` where the bytes are a script, and else `fault`, the number of the first fault, from 1 to 12, and the
/// JSON pointer of its place, which is `/` for the whole document; then it has `Stopped`. After a fault of the writer
/// a beginning of that line was written, and none where memory ran out.
pub fn check_script<W: Write>(alloc: Global, bytes: &[u8], writer: &mut W) -> Result<Ended, Fault>
    ensures ok { IfOk result (λ ended.
        Writes (W.contents writer.old) (W.contents writer.new) (IsJudged bytes.now ended)) }
    // also after a fault
    ensures begun { Writes (W.contents writer.old) (W.contents writer.new)
        (BeginsJudgement bytes.now) }
    ensures fault { IfErr result IsOfWriter }
    ensures silent { IfErr result (λ fault. fault ≢ Output
        → Keeps (W.contents writer.old) (W.contents writer.new)) }
{
    let (ended, line) = judgement(alloc, bytes)?;
    finish(writer, line.as_str())?;
    Ok(ended)
}

/// The script that the bytes are. Where they are none, it writes `fault`, the number of the first fault, from 1 to 12,
/// and the JSON pointer of its place, which is `/` for the whole document; then it gives `None`. After a fault of
/// the writer a beginning of that line was written, and none where memory ran out.
pub fn read_script<W: Write>(
    alloc: Global,
    bytes: &[u8],
    writer: &mut W,
) -> Result<Option<Checked>, Fault>
    ensures read { IfOk result (IsRead bytes.now (W.contents writer.old) (W.contents writer.new)) }
    ensures begun { OnErr result
        (Writes (W.contents writer.old) (W.contents writer.new) (BeginsFault bytes.now)) }
    ensures fault { IfErr result IsOfWriter }
    ensures silent { IfErr result (λ fault. fault ≢ Output
        → Keeps (W.contents writer.old) (W.contents writer.new)) }
    // of a script nothing is written
    ensures faulty { IsErrOf result Output → AreFaulty bytes.now }
{
    match script_in(alloc, bytes) {
        Ok(script) => Ok(Some(script)),
        Err(fault) => {
            let line = fault_line(alloc, fault)?;
            finish(writer, line.as_str())?;
            Ok(None)
        }
    }
}

/// What the command writes about the bytes, and how it ends.
fn judgement(alloc: Global, bytes: &[u8]) -> Result<(Ended, String), AllocError>
    ensures { IfOk result (λ said. IsJudged bytes.now said.0 (string_bytes said.1)) }
{
    match script_in(alloc, bytes) {
        Ok(_) => Ok((Ended::Done, String::from_str(alloc, "ok\n")?)),
        Err(fault) => Ok((Ended::Stopped, fault_line(alloc, fault)?)),
    }
}

/// The line of a fault.
fn fault_line(alloc: Global, fault: ScriptFault) -> Result<String, AllocError>
    ensures { IfOk result (λ line. (bytes : List ℕ) → IsFaultOf bytes fault
        → IsJudged bytes Stopped (string_bytes line)) }
{
    match fault {
        ScriptFault::Bad(why, place) => format!(in alloc; "fault {why} {place}\n"),
        ScriptFault::Memory => Err(AllocError),
    }
}

/// The script that the bytes are, or their first fault.
fn script_in(alloc: Global, bytes: &[u8]) -> Result<Checked, ScriptFault>
    ensures script { IfOk result (IsScriptIn bytes.now) }
    ensures fault { IfErr result (IsFaultOf bytes.now) }
{
    check(alloc, read(alloc, bytes)?)
}
