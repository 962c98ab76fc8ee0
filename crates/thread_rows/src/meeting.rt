//! Two arms of one client, each with an operation at a guardian of its own. A gate holds each operation inside the lock
//! of its guardian until the other has come.
ghost use Rattle.std.specs.Prelude.{◌≡◌, [], IfOk};
ghost use Rattle.std.specs.Arc.{arc_value};
ghost use Rattle.run_model.specs.Openings.{opening_in};
ghost use Rattle.stable_store.specs.Plain.{plain_view};
ghost use Rattle.script_model.specs.Resolved.{IsResolved};
ghost use Rattle.guardian.specs.Guardians.{IsWhole};
ghost use Rattle.registry.specs.Registries.{StandsIn};
ghost use Rattle.world_steps.specs.Standings.{IsWorld};
ghost use Rattle.world.specs.Worlds.{seen_of};
ghost use Rattle.script_engine.specs.Running.{IsFit};

use action_names::Name;
use activities::ClientEnd;
use client_threads::{Watch, run_clients};
use guardian::Guardian;
use registry::Registry;
use rows::RowFault;
use run_model::Opening;
use runtime::{Gate, OfRun, Runtime, Start, StepFault};
use script::{Checked, ScriptFault, check, read};
use script_engine::setup_of;
use stable_store::PlainStable;
use std::alloc::Global;
use std::marker::Brand;
use std::sync::atomic::{AtomicBool, AtomicU64, Ordering};
use std::sync::{Arc, Wait};
use std::thread::{Threads, yield_now};
use world::World;

/// A client at guardian 3, whose arms call guardians 1 and 2.
const SCRIPT: &str = "{\"guardians\":[\
    {\"objects\":[{\"counter\":0}],\"handlers\":\
    {\"add\":{\"params\":[],\"gives\":\"none\",\"body\":[{\"op\":[1,\"add\",1]}]}}},\
    {\"objects\":[{\"counter\":0}],\"handlers\":\
    {\"add\":{\"params\":[],\"gives\":\"none\",\"body\":[{\"op\":[1,\"add\",1]}]}}},\
    {\"objects\":[],\"handlers\":{}}],\
    \"clients\":[{\"home\":3,\"body\":[{\"coenter\":[\
    {\"arm\":\"sub\",\"body\":[{\"call\":[1,\"add\",[]]}]},\
    {\"arm\":\"sub\",\"body\":[{\"call\":[2,\"add\",[]]}]}]}]}]}";

/// How many numbers the name of a called action has: it is a subaction of an arm.
const CALLED: usize = 3;

/// How often an operation looks whether the other has come, before it gives up.
const TURNS: u32 = 1_000_000;

/// A gate at which the first steps of the two called actions meet. These are their operations.
#[derive(Drop)]
struct Meeting {
    came: AtomicU64,
    has_failed: AtomicBool,
}

impl<'a> Gate for &'a Meeting {
    fn pass(&self, _guardian: u32, action: Option<&Name>) {
        let Some(action) = action else {
            return;
        };
        if action.depth() != CALLED {
            return;
        }
        self.came.fetch_add(1, Ordering::SeqCst);
        for _ in 0..TURNS {
            if self.came.load(Ordering::SeqCst) >= 2 {
                return;
            }
            yield_now();
        }
        self.has_failed.store(true, Ordering::SeqCst);
    }
}

/// Whether the operations of two arms met inside the locks of two guardians, and their client committed.
pub(crate) fn gate_two_arms<H: Threads + Wait + Sync>(
    alloc: Global,
    rt: &H,
) -> Result<bool, RowFault> {
    let meeting = Meeting {
        came: AtomicU64::new(0),
        has_failed: AtomicBool::new(false),
    };
    let script = script_of(alloc, SCRIPT)?;
    let setup = setup_of(alloc, &script)?;
    let world = World::in_memory(alloc, setup)?;
    let (opening, registry, guardians) = world.into_parts();
    let start = Start::new(alloc, &opening)?;
    let has_committed = meet_in::<Brand, H>(
        alloc, rt, opening, &script, start, registry, guardians, &meeting,
    )?;
    Ok(has_committed && !meeting.has_failed.load(Ordering::SeqCst))
}

/// Runs the client in the run of this name, which has to close. Whether the client committed.
fn meet_in<K: OfRun + Send + Sync, H: Threads + Wait + Sync>(
    alloc: Global,
    rt: &H,
    opening: Arc<Opening, Global>,
    script: &Checked,
    start: Start,
    registry: Registry,
    guardians: Vec<Guardian<PlainStable>>,
    meeting: &Meeting,
) -> Result<bool, RowFault>
    requires table { start.run.table.shared.table_id ≡ K.table }
    requires named { opening_in start.run.table.shared.key ≡ K.opening }
    requires opening { start.run.table.shared.key ≡ arc_value opening }
    requires world { IsWorld (λ g s. IsWhole plain_view g s) (λ g. seen_of plain_view g)
        (StandsIn registry) K.opening [] guardians.items }
    requires script { IsResolved script.now }
{
    let runtime = Runtime::<K, Registry, Guardian<PlainStable>, &Meeting>::new(
        alloc, start, registry, guardians, meeting,
    )?;
    match run_clients(alloc, rt, &runtime, &opening, script, &Watch::new()) {
        Ok((ends, receipts)) => {
            if runtime.close_all(receipts).is_err() {
                return Err(RowFault::Unread);
            }
            Ok(matches!(ends.first(), Some(ClientEnd::Committed { .. })))
        }
        Err(fault) => {
            let none = runtime.no_receipts();
            let _ = runtime.close_all(none);
            Err(fault_of(fault))
        }
    }
}

fn fault_of(fault: StepFault) -> RowFault {
    match fault {
        StepFault::Memory => RowFault::Memory,
        StepFault::Stable | StepFault::UsedUp => RowFault::Unread,
    }
}

/// The script of a text that is one.
fn script_of(alloc: Global, text: &str) -> Result<Checked, RowFault>
    ensures fits { IfOk result IsFit }
    ensures resolved { IfOk result IsResolved }
{
    match checked(alloc, text) {
        Ok(script) => Ok(script),
        Err(ScriptFault::Memory) => Err(RowFault::Memory),
        Err(ScriptFault::Bad(_, _)) => Err(RowFault::Unread),
    }
}

fn checked(alloc: Global, text: &str) -> Result<Checked, ScriptFault>
    ensures fits { IfOk result IsFit }
    ensures resolved { IfOk result IsResolved }
{
    check(alloc, read(alloc, text.as_bytes())?)
}
