//! The thread that starts a thread for each arm that is handed over.
ghost use Rattle.std.specs.Prelude.{◌≡◌};
ghost use Rattle.activities.specs.Bodies.{IsOf};
ghost use Rattle.client_threads.specs.Callers.{only};

use crate::caller::Caller;
use crate::calls::OverRuntime;
use crate::handed::{Handed, OfScript, Order, Started};
use activities::{Checked, run_arm};
use crossbeam_channel::Receiver;
use layer_contracts::{Forest, Guardian};
use runtime::{Gate, OfRun};
use std::sync::Wait;
use std::thread::{self, Scope, Threads};

/// Starts a thread for each arm that is handed over, until it is told to stop, and returns once all these threads have
/// ended. Where no thread can be made for an arm, the arm and those behind it in its `coenter` are not run here.
pub(crate) fn start_arms<
    'a,
    K: OfRun + Send + Sync,
    S: OfScript + Send + Sync,
    R: Forest + Send,
    G: Guardian + Send,
    P: Gate + Sync,
    H: Threads + Wait + Sync,
>(calls: &'a OverRuntime<'a, K, S, R, G, P, H>, script: &'a Checked, orders: Receiver<Order<K, S>>)
    requires { IsOf (only S.script) script.now }
{
    thread::scope(
        thread::scope_env(),
        calls.rt,
        |scope|
            requires { IsOf (only S.script) script.now }
        { start_ordered(scope, calls, script, orders) },
    );
}

/// Starts a thread for each arm that is handed over, until it is told to stop.
fn start_ordered<
    'a,
    E,
    K: OfRun + Send + Sync,
    S: OfScript + Send + Sync,
    R: Forest + Send,
    G: Guardian + Send,
    P: Gate + Sync,
    H: Threads + Wait + Sync,
>(
    scope: &Scope<'a, E>,
    calls: &'a OverRuntime<'a, K, S, R, G, P, H>,
    script: &'a Checked,
    orders: Receiver<Order<K, S>>,
)
    requires { IsOf (only S.script) script.now }
{
    for order in orders.iter(calls.rt) {
        match order {
            Order::Start(handed) => start_each(scope, calls, script, handed),
            Order::Stop => return,
        }
    }
}

/// Starts a thread for each of these arms, up to the first for which none can be made.
fn start_each<
    'a,
    E,
    K: OfRun + Send + Sync,
    S: OfScript + Send + Sync,
    R: Forest + Send,
    G: Guardian + Send,
    P: Gate + Sync,
    H: Threads + Wait + Sync,
>(
    scope: &Scope<'a, E>,
    calls: &'a OverRuntime<'a, K, S, R, G, P, H>,
    script: &'a Checked,
    handed: Handed<K, S>,
)
    requires { IsOf (only S.script) script.now }
{
    let Handed {
        arms,
        coenters,
        ended,
        of: _,
    } = handed;
    for (place, arm) in arms.into_iter().enumerate() {
        let Ok(started) = Started::<K, S>::new(calls.alloc, place, arm, &coenters, &ended) else {
            return;
        };
        if scope
            .spawn(
                move ||
                    requires { IsOf (only S.script) script.now }
                { run_started(calls, script, started) },
            )
            .is_err()
        {
            return;
        }
    }
}

/// Runs an arm, and gives it back to who waits for it.
fn run_started<K: OfRun, S: OfScript, R: Forest, G: Guardian, P: Gate, H: Wait>(
    calls: &OverRuntime<'_, K, S, R, G, P, H>,
    script: &Checked,
    started: Started<K, S>,
)
    requires { IsOf (only S.script) script.now }
{
    let Started {
        place,
        arm,
        coenters,
        ended,
        of: _,
    } = started;
    let mut caller = Caller::of_arm(calls, coenters);
    let arm = run_arm(calls.alloc, &mut caller, script, arm);
    calls.give_back(&ended, caller.into_done(place, arm));
}
