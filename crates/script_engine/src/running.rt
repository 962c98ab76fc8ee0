//! Running a script, and what the program says of that.

ghost use Rattle.std.specs.Prelude.{◌≡◌, ◌≢◌, ◌<◌, ◌++◌, ◌∷◌, [], length, map, string_bytes};
ghost use Rattle.std.specs.Prelude.{IfErr, IfOk, OnOk};
ghost use Rattle.std.specs.Io.KnownBytes.{Keeps};
ghost use Rattle.script_model.specs.Laws.{HasFewObjects};
ghost use Rattle.limits.specs.Limits.{max_guardians};
ghost use Rattle.argus_engine.specs.declared.engine.Fault.TheVariants.{Output};
ghost use Rattle.script_engine.specs.Running.{BeginsRun, IsFit, IsOfRun, TellsRun, WriteBoth};
ghost use Rattle.script_engine.specs.Running.{base_lines, end_line, end_text, known, run_text};

use crate::clients::RunsClients;
use crate::tracing::{wanted_trace, write_wanted};
use activities::ClientEnd;
use argus_engine::{Fault, finish};
use run_model::{Setup, SetupFault};
use script::Checked;
use std::alloc::{AllocError, Global};
use std::collections::BTreeMap;
use std::io::Write;
use values::Content;

/// Runs a script's clients in a new system of its objects. Writes the trace of the run to `out`, if that is a writer.
/// Then it writes a line for each client, `client 1 committed`, with the value that it returned behind it, or `client 1
/// aborted`, and then a line for each object: its base, as in `1/1 {"record":{"balance":40}}`. After a fault of a
/// writer a beginning of that was written, no line before the whole trace, and after another fault nothing.
pub fn run_script<R: RunsClients, T: Write, W: Write>(
    alloc: Global,
    runner: &mut R,
    script: &Checked,
    out: &mut Option<T>,
    writer: &mut W,
) -> Result<(), Fault>
    requires script { IsFit script.now }
    requires ready { R.ready }
    ensures ok { OnOk result (WriteBoth (known T.contents out.old) (known T.contents out.new)
        (W.contents writer.old) (W.contents writer.new)
        (TellsRun R.comes script.now script.now.guardians)) }
    // also after a fault
    ensures begun { WriteBoth (known T.contents out.old) (known T.contents out.new)
        (W.contents writer.old) (W.contents writer.new)
        (BeginsRun R.comes script.now script.now.guardians) }
    ensures silent { IfErr result (λ fault. fault ≢ Output
        → Keeps (W.contents writer.old) (W.contents writer.new)) }
    ensures untraced { IfErr result (λ fault. fault ≢ Output
        → Keeps (known T.contents out.old) (known T.contents out.new)) }
    ensures fault { IfErr result (IsOfRun R.faults) }
{
    let outcome = runner.run_clients(alloc, setup_of(alloc, script)?, script)?;
    let text = run_text(alloc, outcome.ends.as_slice(), outcome.bases.as_slice())?;
    let trace = wanted_trace(alloc, &outcome.system, out)?;
    write_wanted(out, trace.as_str())?;
    finish(writer, text.as_str())
}

/// The setup of a script's own objects.
pub fn setup_of(alloc: Global, script: &Checked) -> Result<Setup, AllocError>
    requires { IsFit script.now }
    ensures { IfOk result (λ setup. setup ≡ script.now.guardians) }
{
    let mut setup = Setup::new(alloc);
    for objects in script.guardians.as_slice() {
        add_guardian(&mut setup, copies(alloc, objects.as_slice())?)?;
    }
    Ok(setup)
}

fn copies(alloc: Global, contents: &[Content]) -> Result<Vec<Content>, AllocError>
    ensures { IfOk result (λ copies. copies.items ≡ contents.now) }
{
    let mut copies = Vec::with_capacity(alloc, contents.len())?;
    for content in contents {
        copies.push(content.copy()?)?;
    }
    Ok(copies)
}

/// Adds a guardian with these objects, where there is room for it.
pub(crate) fn add_guardian(setup: &mut Setup, contents: Vec<Content>) -> Result<(), AllocError>
    requires room { length setup.old < max_guardians }
    requires few { HasFewObjects contents.items }
    ensures { OnOk result (setup.new ≡ setup.old ++ (contents.items ∷ [])) }
{
    match setup.add_guardian(contents) {
        Ok(()) => Ok(()),
        Err(SetupFault::Memory) => Err(AllocError),
        Err(SetupFault::Bad) => unreachable!(),
    }
}

/// The text of a run.
pub(crate) fn run_text(
    alloc: Global,
    ends: &[ClientEnd],
    bases: &[BTreeMap<u32, Content>],
) -> Result<String, AllocError>
    ensures { IfOk result (λ text. string_bytes text
        ≡ run_text ends.now (map (λ base. base.entries) bases.now)) }
{
    let mut text = String::new(alloc);
    for (index, end) in ends.iter().enumerate() {
        push_end(alloc, index + 1, end, &mut text)?;
    }
    for (index, base) in bases.iter().enumerate() {
        push_bases(alloc, index + 1, base, &mut text)?;
    }
    Ok(text)
}

fn push_end(
    alloc: Global,
    number: usize,
    end: &ClientEnd,
    text: &mut String,
) -> Result<(), AllocError>
    ensures { OnOk result (string_bytes text.new
        ≡ string_bytes text.old ++ end_line number end.now) }
{
    let line = format!(in alloc; "client {number} ")?;
    text.push_str(line.as_str())?;
    push_end_text(end, text)?;
    text.push('\n')
}

/// How the client ended, and the value that it returned.
fn push_end_text(end: &ClientEnd, text: &mut String) -> Result<(), AllocError>
    ensures { OnOk result (string_bytes text.new ≡ string_bytes text.old ++ end_text end.now) }
{
    match end {
        ClientEnd::Committed {
            value: Some(value),
            ..
        } => {
            text.push_str("committed ")?;
            value.write_to(text)
        }
        ClientEnd::Committed { value: None, .. } => text.push_str("committed"),
        ClientEnd::Aborted { .. } => text.push_str("aborted"),
    }
}

fn push_bases(
    alloc: Global,
    guardian: usize,
    bases: &BTreeMap<u32, Content>,
    text: &mut String,
) -> Result<(), AllocError>
    ensures { OnOk result (string_bytes text.new
        ≡ string_bytes text.old ++ base_lines guardian bases.now.entries) }
{
    for (&object, content) in bases {
        let content = content.text(alloc)?;
        let line = format!(in alloc; "{guardian}/{object} {}\n", content.as_str())?;
        text.push_str(line.as_str())?;
    }
    Ok(())
}
