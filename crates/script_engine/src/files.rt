//! Running the script that the bytes of a file are.

ghost use Rattle.std.specs.Prelude.{◌≢◌, IfErr, IfOk};
ghost use Rattle.std.specs.Io.KnownBytes.{Keeps};
ghost use Rattle.argus_engine.specs.declared.engine.Fault.TheVariants.{Output};
ghost use Rattle.script_engine.specs.Files.{BeginsFile, TellsFile};
ghost use Rattle.script_engine.specs.Running.{IsOfRun, WriteBoth, known};

use crate::clients::RunsClients;
use crate::running::run_script;
use argus_engine::{Ended, Fault, read_script};
use std::alloc::Global;
use std::io::Write;

/// Runs the clients of the script that the bytes are, in a new system of its objects, writes what `run_script` does,
/// and has `Done`. Where they are no script it writes no trace, but `fault`, the number of the first fault, from 1 to
/// 12, and the JSON pointer of its place, which is `/` for the whole document; then it has `Stopped`. After a fault
/// of a writer a beginning of that was written, and after another fault nothing.
pub fn run_file<R: RunsClients, T: Write, W: Write>(
    alloc: Global,
    runner: &mut R,
    bytes: &[u8],
    out: &mut Option<T>,
    writer: &mut W,
) -> Result<Ended, Fault>
    requires { R.ready }
    ensures ok { IfOk result (λ ended. WriteBoth
        (known T.contents out.old) (known T.contents out.new)
        (W.contents writer.old) (W.contents writer.new) (TellsFile R.comes bytes.now ended)) }
    ensures begun { WriteBoth (known T.contents out.old) (known T.contents out.new)
        (W.contents writer.old) (W.contents writer.new) (BeginsFile R.comes bytes.now) }
    ensures silent { IfErr result (λ fault. fault ≢ Output
        → Keeps (W.contents writer.old) (W.contents writer.new)) }
    ensures untraced { IfErr result (λ fault. fault ≢ Output
        → Keeps (known T.contents out.old) (known T.contents out.new)) }
    ensures fault { IfErr result (IsOfRun R.faults) }
{
    let Some(script) = read_script(alloc, bytes, writer)? else {
        return Ok(Ended::Stopped);
    };
    run_script(alloc, runner, &script, out, writer)?;
    Ok(Ended::Done)
}
