//! Running a script over stores, in which its objects are kept.

ghost use Rattle.std.specs.Prelude.{◌≡◌, ◌≢◌, ◌≤◌, ◌<◌, ◌⊎◌, ℕ, List, Some};
ghost use Rattle.std.specs.Prelude.{get_or, length, map, option_copied, take};
ghost use Rattle.std.specs.Prelude.{IfErr, IfOk, IsErrOf, MatchBool, MatchOption, OnErr, OnOk};
ghost use Rattle.std.specs.FinMap.{get};
ghost use Rattle.std.specs.Io.KnownBytes.{Keeps};
ghost use Rattle.values.specs.declared.content.Content.{Content};
ghost use Rattle.atomic_types.specs.Parts.{laid_where};
ghost use Rattle.stable_store.specs.Held.{held, parts_in};
ghost use Rattle.script_model.specs.Laws.{HasFewObjects};
ghost use Rattle.argus_engine.specs.declared.engine.Fault.TheVariants.{Output, Store};
ghost use Rattle.script_engine.specs.Running.{IsFit, WriteBoth, known};
ghost use Rattle.script_engine.specs.Storing.{CanOpen, HasOnly, IsOpened, IsOpening, Opens};
ghost use Rattle.script_engine.specs.Storing.{all_failures, all_found, all_held, found_in, saved};
ghost use Rattle.script_engine.specs.Storing.{ArePartlySaved, BeginsStoredRun, IsOfStore, IsOfStoredRun, IsStoredRun};
ghost use Rattle.script_engine.specs.Storing.{LeavesStoredRun};

use crate::clients::RunsClients;
use crate::running::{add_guardian, run_text};
use crate::tracing::{wanted_trace, write_wanted};
use argus_engine::{Ended, Fault, finish};
use atomic_types::Part;
use run_model::Setup;
use script::Checked;
use stable_store::{Kept, Stable};
use std::alloc::{AllocError, Global};
use std::collections::BTreeMap;
use std::io::Write;
use values::Content;

/// Runs a script as `run_script` does, in a new system of the contents that the stores have, one store for each
/// guardian in order; an object of which a store has nothing has the script's content, and one of which it has a delta
/// has that added to the script's. Then it saves the base of each object, a call for each store in order, writes the
/// trace to `out`, if that is a writer, and writes the lines.
///
/// Where a store holds no content, or a top action is prepared there, or it has an object that the script lacks, `error
/// store` is written, no trace, `Stopped` comes, and the stores are as they were. After a fault the first stores may
/// have been saved, and the others are as they were. Where a writer failed all that was to be saved is, and a beginning
/// of what was to be written was written, no line before the whole trace; after another fault nothing was.
pub fn run_stored<R: RunsClients, S: Stable, T: Write, W: Write>(
    alloc: Global,
    runner: &mut R,
    script: &Checked,
    stores: &mut [S],
    out: &mut Option<T>,
    writer: &mut W,
) -> Result<Ended, Fault>
    requires script { IsFit script.now }
    requires count { length stores.old ≡ length script.now.guardians }
    requires ready { R.ready }
    ensures ok { IfOk result (λ ended. WriteBoth
        (known T.contents out.old) (known T.contents out.new)
        (W.contents writer.old) (W.contents writer.new)
        (IsStoredRun R.comes script.now (all_found S.seen stores.old)
        (all_held S.seen stores.old) (all_held S.seen stores.new) ended)) }
    // also after a fault
    ensures begun { WriteBoth (known T.contents out.old) (known T.contents out.new)
        (W.contents writer.old) (W.contents writer.new)
        (BeginsStoredRun R.comes script.now (all_found S.seen stores.old)) }
    ensures err { OnErr result (ArePartlySaved R.comes script.now (all_found S.seen stores.old)
        (all_held S.seen stores.old) (all_held S.seen stores.new)) }
    // so no line is written before all is saved
    ensures silent { IfErr result (λ fault. fault ≢ Output
        → Keeps (W.contents writer.old) (W.contents writer.new)) }
    // nor is the trace
    ensures untraced { IfErr result (λ fault. fault ≢ Output
        → Keeps (known T.contents out.old) (known T.contents out.new)) }
    // if the fault is none of the clients' run
    ensures untold { IfErr result (λ fault. fault ≡ Output → ¬ R.faults Output
        → LeavesStoredRun R.comes script.now (all_found S.seen stores.old)
        (all_held S.seen stores.old) (all_held S.seen stores.new)) }
    // so no other fault hides that of a store
    ensures calm { IsErrOf result Store
        ⊎ (all_failures S.seen stores.new ≡ all_failures S.seen stores.old) }
    ensures fault { IfErr result (IsOfStoredRun R.faults) }
{
    let Some(setup) = open_setup(alloc, script, stores)? else {
        finish(writer, "error store\n")?;
        return Ok(Ended::Stopped);
    };
    let outcome = runner.run_clients(alloc, setup, script)?;
    let text = run_text(alloc, outcome.ends.as_slice(), outcome.bases.as_slice())?;
    let trace = wanted_trace(alloc, &outcome.system, out)?;
    save_all(alloc, stores, outcome.bases.as_slice())?;
    write_wanted(out, trace.as_str())?;
    finish(writer, text.as_str())?;
    Ok(Ended::Done)
}

/// The setup that the stores open; none where one of them opens no guardian.
fn open_setup<S: Stable>(
    alloc: Global,
    script: &Checked,
    stores: &[S],
) -> Result<Option<Setup>, AllocError>
    requires script { IsFit script.now }
    requires count { length stores.now ≡ length script.now.guardians }
    ensures { IfOk result (IsOpened (all_found S.seen stores.now) script.now.guardians) }
{
    let mut setup = Setup::new(alloc);
    for (index, own) in script.guardians.as_slice().iter().enumerate() {
        let Some(kept) = stores[index].kept() else {
            return Ok(None);
        };
        let Some(contents) = contents_over(alloc, kept, own.as_slice())? else {
            return Ok(None);
        };
        add_guardian(&mut setup, contents)?;
    }
    Ok(Some(setup))
}

/// Whether a store can open a guardian that has so many objects: it holds a content, no top action is prepared there,
/// and it has no object but those from number 1 to the last.
pub fn can_open<S: Stable>(store: &S, objects: usize) -> bool
    ensures { MatchBool result (CanOpen (found_in S.seen store.now) objects)
        (CanOpen (found_in S.seen store.now) objects → ⊥) }
{
    match store.kept() {
        Some(kept) => is_opening(kept, objects),
        None => false,
    }
}

/// Whether nothing is prepared, and there are no objects but those from number 1 to this one.
fn is_opening(kept: &Kept, last: usize) -> bool
    ensures { MatchBool result (IsOpening (held kept.now) last)
        (IsOpening (held kept.now) last → ⊥) }
{
    kept.prepared.is_empty() && is_within(&kept.base, last)
}

/// The contents of a guardian's objects, where a store can open it.
fn contents_over(
    alloc: Global,
    kept: &Kept,
    own: &[Content],
) -> Result<Option<Vec<Content>>, AllocError>
    requires { HasFewObjects own.now }
    ensures { IfOk result (λ found. MatchOption found
        ((contents : List Content) → Opens (Some (held kept.now)) own.now contents → ⊥)
        (λ contents. Opens (Some (held kept.now)) own.now contents.items)) }
{
    if !is_opening(kept, own.len()) {
        return Ok(None);
    }
    let mut contents = Vec::with_capacity(alloc, own.len())?;
    for (index, content) in own.iter().enumerate() {
        let number = index as u32 + 1;
        contents.push(content_under(kept.base.get(&number), content)?)?;
    }
    Ok(Some(contents))
}

/// What an object holds under what a store has of it: its own content where that is nothing, and a delta on that.
fn content_under(part: Option<&Part>, own: &Content) -> Result<Content, AllocError>
    ensures { IfOk result (λ content. content ≡ laid_where (option_copied part.entry) own.now) }
{
    match part {
        Some(part) => part.laid_on(own),
        None => own.copy(),
    }
}

/// Whether there are only objects from number 1 to this one.
fn is_within(base: &BTreeMap<u32, Part>, last: usize) -> bool
    ensures { MatchBool result (HasOnly (parts_in base.now) last)
        (HasOnly (parts_in base.now) last → ⊥) }
{
    for (&object, _) in base {
        if object == 0 || object as usize > last {
            return false;
        }
    }
    true
}

/// Saves the bases, each at its store.
fn save_all<S: Stable>(
    alloc: Global,
    stores: &mut [S],
    bases: &[BTreeMap<u32, Content>],
) -> Result<(), Fault>
    requires { length stores.old ≡ length bases.now }
    ensures ok { OnOk result (all_held S.seen stores.new
        ≡ saved (map (λ base. base.entries) bases.now) (all_held S.seen stores.old)) }
    ensures err { OnErr result ((count : ℕ) × (all_held S.seen stores.new
        ≡ saved (take count (map (λ base. base.entries) bases.now)) (all_held S.seen stores.old))) }
    ensures calm { IsErrOf result Store
        ⊎ (all_failures S.seen stores.new ≡ all_failures S.seen stores.old) }
    ensures fault { IfErr result IsOfStore }
{
    for (index, store) in stores.iter_mut().enumerate() {
        store.save(alloc, base_at(bases, index))?;
    }
    Ok(())
}

fn base_at(bases: &[BTreeMap<u32, Content>], index: usize) -> &BTreeMap<u32, Content>
    requires { index < length bases.now }
    ensures { result.now ≡ get_or bases.now index result.now }
{
    &bases[index]
}
