ghost use Rattle.std.specs.Prelude.{◌≡◌, [], ℕ, IfErr, IfOk, length, map, reverse};
ghost use Rattle.std.specs.Arc.{arc_value};
ghost use Rattle.run_model.specs.Openings.{objects_at, opening_in};
ghost use Rattle.run_model.specs.Runs.{World as Ran};
ghost use Rattle.stable_store.specs.Plain.{plain_view};
ghost use Rattle.script_model.specs.Resolved.{IsResolved};
ghost use Rattle.guardian.specs.Guardians.{IsWhole};
ghost use Rattle.registry.specs.Registries.{StandsIn};
ghost use Rattle.world_steps.specs.Standings.{IsWorld};
ghost use Rattle.world.specs.Worlds.{seen_of};
ghost use Rattle.client_threads.specs.Clients.{AllDid};
ghost use Rattle.script_runs.specs.SerialRuns.{all_bases, bases_at};
ghost use Rattle.script_threads.specs.ThreadRuns.{AreAt, ComesOf, HaveKept, IsOfThreads, StandsAt, kept_run};

use crate::beside::run_beside;
use crate::ended::have_all_ended;
use crate::watching::{Watched, Watching, keep_watch};
use activities::ClientEnd;
use argus_engine::Fault;
use client_threads::run_clients;
use guardian::Guardian;
use layer_contracts::{Forest, Guardian as Serves};
use registry::Registry;
use run_model::{Opening, Setup};
use runtime::{
    CloseFault, Ended, Ends, Gate, OfRun, OpenGate, Receipts, Runtime, Start, StepFault,
    StoredHistory,
};
use script::Checked;
use script_engine::{Outcome, RunsClients, Traced};
use stable_store::PlainStable;
use std::alloc::{AllocError, Global};
use std::collections::BTreeMap;
use std::marker::Brand;
use std::sync::{Arc, Wait};
use std::thread::{Promise, Threads};
use std::time::Clock;
use traces::{Stamped, Trace};
use values::Content;
use world::World;

/// Runs each client, and each arm of a `coenter`, in a thread of its own, in a new system whose stores are in memory. A
/// fault is out of memory, a guardian that has drawn all its stamps, a receipt that is missing, an action that has not
/// ended, or a time that is over.
/// Where no thread can be made for the clients, the first thread runs them and does not watch: their time has no limit,
/// and no progress is shown.
#[derive(Clone, Copy)]
pub struct InThreads<'a, H> {
    rt: &'a H,
    watching: Watching,
}

impl<'a, H> InThreads<'a, H> {
    /// Threads are made and wait by this handle, and the first of them watches so.
    pub fn new(rt: &'a H, watching: Watching) -> InThreads<'a, H> {
        InThreads { rt, watching }
    }
}

/// A runtime whose stores are in memory.
type InMemory<K> = Runtime<K, Registry, Guardian<PlainStable>, OpenGate>;

/// The registry and the guardians in which clients ran in threads, once all threads have ended.
#[derive(Drop)]
pub struct EndedThreads {
    opening: Arc<Opening, Global>,
    ends: Ends<Registry, Guardian<PlainStable>>,
    ghost kept: { HaveKept (arc_value opening) ends },
}

impl Traced for EndedThreads {
    ghost use Rattle.std.specs.Arc.{arc_value};
    ghost use Rattle.script_threads.specs.ThreadRuns.{kept_run};

    ghost run = { λ it. record { lists = arc_value it.opening; past = kept_run it.ends } };

    fn trace(&self, alloc: Global) -> Result<Trace, AllocError> {
        let mut guardians = Vec::with_capacity(alloc, self.ends.guardians.len())?;
        for ended in &self.ends.guardians {
            guardians.push(kept_events(alloc, &ended.history)?)?;
        }
        Ok(Trace {
            setup: self.opening.setup().copy()?,
            registry: kept_events(alloc, &self.ends.registry.history)?,
            guardians,
        })
    }
}

/// The events that a lock has kept, the oldest first.
fn kept_events(alloc: Global, kept: &StoredHistory) -> Result<Vec<Stamped>, AllocError>
    ensures { IfOk result (λ events. events.items ≡ reverse kept.now) }
{
    let mut events = Vec::with_capacity(alloc, kept.len())?;
    for place in 0..kept.len() {
        let Some((stamp, event)) = kept.event(place)? else {
            unreachable!()
        };
        events.push(Stamped { stamp, event })?;
    }
    Ok(events)
}

impl<'a, H: Threads + Wait + Clock + Eprint + Sync> RunsClients for InThreads<'a, H> {
    ghost use Rattle.std.specs.Thread.{IsSync};
    ghost use Rattle.script_threads.specs.ThreadRuns.{ComesInThreads, IsOfThreads};

    type System = EndedThreads;

    ghost comes = { ComesInThreads };

    ghost faults = { IsOfThreads };

    ghost ready = { IsSync H.row };

    fn run_clients(
        &mut self,
        alloc: Global,
        setup: Setup,
        script: &Checked,
    ) -> Result<Outcome<EndedThreads>, Fault> {
        let world = World::in_memory(alloc, setup)?;
        let (opening, registry, guardians) = world.into_parts();
        let start = Start::new(alloc, &opening)?;
        let watcher = Watcher {
            clock: self.rt,
            watching: self.watching,
        };
        in_run::<Brand, H, H>(
            alloc, self.rt, watcher, opening, script, start, registry, guardians,
        )
    }
}

/// How the first thread watches, and by which clock.
#[derive(Clone, Copy)]
struct Watcher<'a, C> {
    clock: &'a C,
    watching: Watching,
}

/// Runs the clients in the run of this name.
fn in_run<K: OfRun + Send + Sync, H: Threads + Wait + Sync, C: Wait + Clock + Eprint>(
    alloc: Global,
    rt: &H,
    watcher: Watcher<'_, C>,
    opening: Arc<Opening, Global>,
    script: &Checked,
    start: Start,
    registry: Registry,
    guardians: Vec<Guardian<PlainStable>>,
) -> Result<Outcome<EndedThreads>, Fault>
    requires table { start.run.table.shared.table_id ≡ K.table }
    requires named { opening_in start.run.table.shared.key ≡ K.opening }
    requires opening { start.run.table.shared.key ≡ arc_value opening }
    requires world { IsWorld (λ g s. IsWhole plain_view g s) (λ g. seen_of plain_view g)
        (StandsIn registry) K.opening [] guardians.items }
    requires script { IsResolved script.now }
    ensures came { IfOk result (λ it. ComesOf script.now (arc_value opening) it.ends.items
        (map (λ base. base.entries) it.bases.items) (kept_run it.system.ends)) }
    ensures count { IfOk result (λ it. length it.bases.items ≡ length (arc_value opening).setup) }
    ensures begun { IfOk result (λ it. arc_value it.system.opening ≡ arc_value opening) }
    ensures fault { IfErr result IsOfThreads }
{
    let runtime = InMemory::<K>::new(alloc, start, registry, guardians, OpenGate)?;
    let (ends, receipts) = match run_within(alloc, rt, watcher, &runtime, &opening, script) {
        Ok(ran) => ran,
        Err(fault) => {
            let none = runtime.no_receipts();
            let _ = runtime.close_all(none);
            return Err(fault);
        }
    };
    match runtime.close_all(receipts) {
        Ok(closed) => {
            if !have_all_ended(&closed.registry)? {
                return Err(Fault::Open);
            }
            let Ok(bases) = bases_of(alloc, opening.setup(), closed.guardians.as_slice()) else {
                return Err(Fault::Memory);
            };
            let system = EndedThreads {
                opening,
                ends: closed,
            };
            Ok(Outcome {
                ends,
                bases,
                system,
            })
        }
        Err(CloseFault::Memory) => Err(Fault::Memory),
        Err(CloseFault::Receipts(_, _)) => Err(Fault::Receipts),
    }
}

/// What clients came to, and the receipts of all their events.
type Done<K> = (Vec<ClientEnd>, Receipts<K>);

/// What the clients of a run are run by.
#[derive(Drop)]
struct Clients<'a, K: OfRun, R: Forest, G: Serves, P: Gate, H> {
    alloc: Global,
    rt: &'a H,
    runtime: &'a Runtime<K, R, G, P>,
    opening: &'a Opening,
    script: &'a Checked,
    watched: &'a Watched,
}

/// Runs the clients, within the time that they have.
fn run_within<
    K: OfRun + Send + Sync,
    R: Forest + Send,
    G: Serves + Send,
    P: Gate + Sync,
    H: Threads + Wait + Sync,
    C: Wait + Clock + Eprint,
>(
    alloc: Global,
    rt: &H,
    watcher: Watcher<'_, C>,
    runtime: &Runtime<K, R, G, P>,
    opening: &Opening,
    script: &Checked,
) -> Result<Done<K>, Fault>
    requires opening { opening_in opening.now ≡ K.opening }
    requires script { IsResolved script.now }
    ensures did { IfOk result (λ r. AllDid script.now.clients r.0.items r.1) }
    ensures fault { IfErr result IsOfThreads }
{
    let watched = Watched::new();
    let clients = Clients {
        alloc,
        rt,
        runtime,
        opening,
        script,
        watched: &watched,
    };
    let ran = if watcher.watching.is_on() {
        run_watched(&clients, watcher)
    } else {
        run_all(&clients)
    };
    if watched.watch().is_stopped() {
        return Err(Fault::Time);
    }
    ran.map_err(fault_of)
}

/// The promise that the clients of a script run to their ends.
#[derive(Clone, Copy)]
struct RunsAll<'a> {
    script: &'a Checked,
}

impl<'a, K: OfRun> Promise<Result<Done<K>, StepFault>> for RunsAll<'a> {
    ghost kept_by = { λ it done. IfOk done
        (λ r. AllDid it.script.now.clients r.0.items r.1) };
}

/// Runs the clients in a thread, and watches them. If no thread can be made, runs them here, and nobody watches.
fn run_watched<
    K: OfRun + Send + Sync,
    R: Forest + Send,
    G: Serves + Send,
    P: Gate + Sync,
    H: Threads + Wait + Sync,
    C: Wait + Clock + Eprint,
>(clients: &Clients<'_, K, R, G, P, H>, watcher: Watcher<'_, C>) -> Result<Done<K>, StepFault>
    requires opening { opening_in clients.now.opening.now ≡ K.opening }
    requires script { IsResolved clients.now.script.now }
    ensures { IfOk result (λ r. AllDid clients.now.script.now.clients r.0.items r.1) }
{
    let run = move || -> Result<Done<K>, StepFault>
        requires opening { opening_in clients.now.opening.now ≡ K.opening }
        requires script { IsResolved clients.now.script.now }
        ensures { IfOk result
            (λ r. AllDid clients.entry.now.script.now.clients r.0.items r.1) }
    { run_all(clients) };
    let promise = RunsAll {
        script: clients.script,
    };
    run_beside(clients.rt, promise, run, || watch(clients, watcher))
}

/// Runs the clients.
fn run_all<
    K: OfRun + Send + Sync,
    R: Forest + Send,
    G: Serves + Send,
    P: Gate + Sync,
    H: Threads + Wait + Sync,
>(clients: &Clients<'_, K, R, G, P, H>) -> Result<Done<K>, StepFault>
    requires opening { opening_in clients.now.opening.now ≡ K.opening }
    requires script { IsResolved clients.now.script.now }
    ensures { IfOk result (λ r. AllDid clients.now.script.now.clients r.0.items r.1) }
{
    let done = run_clients(
        clients.alloc,
        clients.rt,
        clients.runtime,
        clients.opening,
        clients.script,
        clients.watched.watch(),
    );
    clients.watched.end(clients.rt);
    done
}

/// Watches the clients until they have ended.
fn watch<K: OfRun, R: Forest, G: Serves, P: Gate, H, C: Wait + Clock + Eprint>(
    clients: &Clients<'_, K, R, G, P, H>,
    watcher: Watcher<'_, C>,
) {
    keep_watch(
        watcher.clock,
        clients.runtime,
        clients.opening,
        clients.script.clients.len(),
        clients.watched,
        watcher.watching,
    )
}

/// What a step's fault is to the command.
fn fault_of(fault: StepFault) -> Fault
    ensures { IsOfThreads result }
{
    match fault {
        // a store in memory fails no call that a guardian makes of it
        StepFault::Memory | StepFault::Stable => Fault::Memory,
        StepFault::UsedUp => Fault::Stamps,
    }
}

/// The bases of all objects, of each guardian in order.
fn bases_of(
    alloc: Global,
    setup: &Setup,
    guardians: &[Ended<Guardian<PlainStable>>],
) -> Result<Vec<BTreeMap<u32, Content>>, AllocError>
    requires { length guardians.now ≡ length setup.now }
    ensures bases { (w : Ran) → AreAt w setup.now guardians.now
        → IfOk result (λ found. map (λ base. base.entries) found.items ≡ all_bases w) }
    ensures count { IfOk result (λ found. length found.items ≡ length setup.now) }
{
    let mut found = Vec::new(alloc);
    for index in 0..setup.guardians() {
        let count = setup.objects(index as u32 + 1).len() as u32;
        found.push(bases_at(alloc, &guardians[index].value, count)?)?;
    }
    Ok(found)
}

/// The bases of the first so many objects of a guardian, by number.
fn bases_at(
    alloc: Global,
    guardian: &Guardian<PlainStable>,
    count: u32,
) -> Result<BTreeMap<u32, Content>, AllocError>
    ensures { (w : Ran) (g : ℕ) → StandsAt w g guardian.now
        → count ≡ length (objects_at w.lists.setup g)
        → IfOk result (λ found. found.entries ≡ bases_at w g) }
{
    let mut found = BTreeMap::new(alloc);
    for index in 0..count {
        let number = index + 1;
        if let Some(base) = guardian.base(number) {
            drop(found.insert(number, base.content()?)?);
        }
    }
    Ok(found)
}
