//! The clients of a script, each in a thread of its own.
ghost use Rattle.std.specs.Prelude.{◌≡◌, ◌<◌, IfOk, IsTrue, List, length};
ghost use Rattle.run_model.specs.Openings.{opening_in};
ghost use Rattle.script_model.specs.declared.checked.Client.{Client as Asked};
ghost use Rattle.script_model.specs.Resolved.{IsResolved, is_resolved_client};
ghost use Rattle.activities.specs.Bodies.{IsOf};
ghost use Rattle.client_threads.specs.Callers.{only};
ghost use Rattle.client_threads.specs.Clients.{AllDid, AreDone, IsDone, IsDoneAt};

use crate::caller::Caller;
use crate::calls::OverRuntime;
use crate::handed::{OfScript, Order};
use crate::starting::start_arms;
use crate::watch::Watch;
use activities::{Checked, ClientEnd, run_client};
use crossbeam_channel::{Receiver, bounded};
use layer_contracts::{Forest, Guardian};
use run_model::Opening;
use runtime::{Gate, OfRun, Receipts, Runtime, StepFault};
use script_model::Client;
use std::alloc::{AllocError, Global};
use std::marker::Brand;
use std::sync::Wait;
use std::thread::{self, Scope, Threads, map_indices};

/// How many `coenter`s may wait until the thread that starts arms takes them.
const ORDERS: usize = 64;

/// A client that has been run, with the receipts of its events.
#[derive(Drop)]
struct DoneClient<K: OfRun> {
    end: Result<ClientEnd, StepFault>,
    receipts: Receipts<K>,
}

/// Runs each client, and each arm of a `coenter`, in a thread of its own, and gives how the clients ended, in their
/// order, with the receipts of all events. Where no thread can be made for a client, it runs in a thread that runs
/// another, before or after it. Where none can be made for an arm, it and those behind it run in the thread of their
/// `coenter`, once the arms before it have ended.
///
/// Who has the watch sees how far the run is, and may stop it.
///
/// # Errors The fault of the lowest client that met one. Such a client aborts its open actions, outwards, as far as
/// that succeeds; the others are run all the same.
pub fn run_clients<
    K: OfRun + Send + Sync,
    R: Forest + Send,
    G: Guardian + Send,
    P: Gate + Sync,
    H: Threads + Wait + Sync,
>(
    alloc: Global,
    rt: &H,
    runtime: &Runtime<K, R, G, P>,
    opening: &Opening,
    script: &Checked,
    watch: &Watch,
) -> Result<(Vec<ClientEnd>, Receipts<K>), StepFault>
    requires opening { opening_in opening.now ≡ K.opening }
    requires script { IsResolved script.now }
    ensures { IfOk result (λ r. AllDid script.now.clients r.0.items r.1) }
{
    let done = run_named::<K, Brand, R, G, P, H>(alloc, rt, runtime, opening, script, watch)?;
    ends_of(alloc, runtime, done)
}

/// The same for a script that has a name in the types of what threads share.
fn run_named<
    K: OfRun + Send + Sync,
    S: OfScript + Send + Sync,
    R: Forest + Send,
    G: Guardian + Send,
    P: Gate + Sync,
    H: Threads + Wait + Sync,
>(
    alloc: Global,
    rt: &H,
    runtime: &Runtime<K, R, G, P>,
    opening: &Opening,
    script: &Checked,
    watch: &Watch,
) -> Result<Vec<DoneClient<K>>, AllocError>
    requires opening { opening_in opening.now ≡ K.opening }
    requires script { IsOf (only S.script) script.now }
    ensures { IfOk result (λ done. AreDone script.now.clients done.items) }
{
    let (orders, taken) = bounded::<Order<K, S>, Global>(alloc, ORDERS)?;
    let calls = OverRuntime {
        alloc,
        rt,
        runtime,
        opening,
        orders: &orders,
        watch,
    };
    in_threads(&calls, script, taken)
}

/// Runs the clients, and meanwhile starts the threads of their arms in a thread for that. If that cannot be made, arms
/// run in order.
fn in_threads<
    'a,
    K: OfRun + Send + Sync,
    S: OfScript + Send + Sync,
    R: Forest + Send,
    G: Guardian + Send,
    P: Gate + Sync,
    H: Threads + Wait + Sync,
>(
    calls: &'a OverRuntime<'a, K, S, R, G, P, H>,
    script: &'a Checked,
    orders: Receiver<Order<K, S>>,
) -> Result<Vec<DoneClient<K>>, AllocError>
    requires { IsOf (only S.script) script.now }
    ensures { IfOk result (λ done. AreDone script.now.clients done.items) }
{
    thread::scope(
        thread::scope_env(),
        calls.rt,
        |scope| -> Result<Vec<DoneClient<K>>, AllocError>
            requires { IsOf (only S.script) script.now }
            ensures { IfOk result (λ done. AreDone script.entry.now.clients done.items) }
        { run_beside_starter(scope, calls, script, orders) },
    )
}

/// Starts the thread that starts the threads of arms, runs the clients, and tells it to stop.
fn run_beside_starter<
    'a,
    E,
    K: OfRun + Send + Sync,
    S: OfScript + Send + Sync,
    R: Forest + Send,
    G: Guardian + Send,
    P: Gate + Sync,
    H: Threads + Wait + Sync,
>(
    scope: &Scope<'a, E>,
    calls: &'a OverRuntime<'a, K, S, R, G, P, H>,
    script: &'a Checked,
    orders: Receiver<Order<K, S>>,
) -> Result<Vec<DoneClient<K>>, AllocError>
    requires { IsOf (only S.script) script.now }
    ensures { IfOk result (λ done. AreDone script.now.clients done.items) }
{
    let has_starter = scope
        .spawn(
            move ||
                requires { IsOf (only S.script) script.now }
            { start_arms(calls, script, orders) },
        )
        .is_ok();
    let done = run_all(calls, script, has_starter);
    let _ = calls.orders.send(calls.rt, Order::Stop);
    done
}

/// Runs each client in a thread of its own.
fn run_all<
    'a,
    K: OfRun + Send + Sync,
    S: OfScript + Send + Sync,
    R: Forest + Send,
    G: Guardian + Send,
    P: Gate + Sync,
    H: Threads + Wait + Sync,
>(
    calls: &'a OverRuntime<'a, K, S, R, G, P, H>,
    script: &Checked,
    has_arms_apart: bool,
) -> Result<Vec<DoneClient<K>>, AllocError>
    requires { IsOf (only S.script) script.now }
    ensures { IfOk result (λ done. AreDone script.now.clients done.items) }
{
    let run = move |place: usize| -> DoneClient<K>
        requires { IsOf (only S.script) script.now × (place < length script.now.clients) }
        ensures { IsDoneAt script.entry.now.clients place result }
    { run_at(calls, script, place, has_arms_apart) };
    map_indices(calls.rt, calls.alloc, script.clients.len(), &run)
}

/// Runs the client at this place.
fn run_at<K: OfRun, S: OfScript, R: Forest, G: Guardian, P: Gate, H: Wait>(
    calls: &OverRuntime<'_, K, S, R, G, P, H>,
    script: &Checked,
    place: usize,
    has_arms_apart: bool,
) -> DoneClient<K>
    requires script { IsOf (only S.script) script.now }
    requires place { place < length script.now.clients }
    ensures { IsDoneAt script.now.clients place result }
{
    let clients = script.clients.as_slice();
    run_one(calls, script, &clients[place], has_arms_apart)
}

/// Runs a client.
fn run_one<K: OfRun, S: OfScript, R: Forest, G: Guardian, P: Gate, H: Wait>(
    calls: &OverRuntime<'_, K, S, R, G, P, H>,
    script: &Checked,
    client: &Client,
    has_arms_apart: bool,
) -> DoneClient<K>
    requires script { IsOf (only S.script) script.now }
    requires client { IsTrue (is_resolved_client script.now client.now) }
    ensures { IsDone client.now result }
{
    let mut caller = Caller::of_client(calls, has_arms_apart);
    let end = match run_client(calls.alloc, &mut caller, script, client) {
        Ok(end) => Ok(end),
        Err(fault) => Err(caller.fault_of(fault)),
    };
    calls.watch.note_end();
    let receipts = caller.into_receipts();
    DoneClient { end, receipts }
}

/// How the clients ended, and the receipts of all.
fn ends_of<K: OfRun, R: Forest, G: Guardian, P: Gate>(
    alloc: Global,
    runtime: &Runtime<K, R, G, P>,
    done: Vec<DoneClient<K>>,
) -> Result<(Vec<ClientEnd>, Receipts<K>), StepFault>
    ensures { (clients : List Asked) → AreDone clients done.items
        → IfOk result (λ r. AllDid clients r.0.items r.1) }
{
    let mut ends = Vec::with_capacity(alloc, done.len())?;
    let mut receipts = runtime.no_receipts();
    for one in done {
        let DoneClient { end, receipts: own } = one;
        let end = end?;
        runtime.join_receipts(&mut receipts, own);
        ends.push_reserved(end);
    }
    Ok((ends, receipts))
}
