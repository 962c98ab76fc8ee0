//! The sessions of arms, each of which runs in a thread of its own.
ghost use Rattle.std.specs.Prelude.{◌≡◌};
ghost use Rattle.sessions.specs.Sessions.{GoesOnFromBoth, LooksOn};

use crate::session::Session;
use layer_contracts::{Fault, Forest, Guardian};
use runtime::{Gate, OfRun, Patience, Receipts, Runtime, Seen};
use service::RunsArms;
use std::sync::Wait;
use std::thread::Threads;

impl<
    'a,
    K: OfRun + Send + Sync,
    R: Forest + Send,
    G: Guardian + Send,
    P: Gate + Sync,
    U: Patience + Sync,
    H: Threads + Wait + Sync,
> RunsArms for Session<'a, K, R, G, P, U, H> {
    ghost use Rattle.std.specs.Prelude.{◌++◌};

    type Handle = H;

    ghost stand = { λ s. s.since ++ s.receipts };

    fn threads(&self) -> &H {
        self.rt
    }

    fn arm(&mut self) -> Result<Session<'a, K, R, G, P, U, H>, Fault> {
        let mut since = self.runtime.copy_known(&mut self.since);
        let own = self.runtime.told(&mut self.receipts);
        self.runtime.join_known(&mut since, own);
        let last_seen = copied(self.runtime, &mut self.last_seen);
        Ok(Session {
            rt: self.rt,
            runtime: self.runtime,
            opening: self.opening,
            patience: self.patience,
            receipts: self.runtime.no_receipts(),
            since,
            last_seen,
            last_fault: None,
        })
    }

    fn join(&mut self, one: Session<'a, K, R, G, P, U, H>, other: Session<'a, K, R, G, P, U, H>) {
        let arms = both(self.runtime, self.last_seen.take(), one.last_seen);
        let seen = both(self.runtime, arms, other.last_seen);
        self.runtime.join_receipts(&mut self.receipts, one.receipts);
        self.runtime
            .join_receipts(&mut self.receipts, other.receipts);
        self.last_seen = looked(self.runtime, &mut self.receipts, seen);
    }
}

/// What two threads have seen, together, if either has seen anything.
fn both<K: OfRun, R: Forest, G: Guardian, P: Gate>(
    runtime: &Runtime<K, R, G, P>,
    one: Option<Seen<K>>,
    other: Option<Seen<K>>,
) -> Option<Seen<K>>
    ensures { GoesOnFromBoth K.opening one other result }
{
    match (one, other) {
        (Some(one), Some(other)) => Some(runtime.join(one, other)),
        (Some(one), None) => Some(one),
        (None, other) => other,
    }
}

/// What was seen once more, if anything was.
fn copied<K: OfRun, R: Forest, G: Guardian, P: Gate>(
    runtime: &Runtime<K, R, G, P>,
    seen: &mut Option<Seen<K>>,
) -> Option<Seen<K>>
    ensures copied { result ≡ seen.old }
    ensures same { seen.new ≡ seen.old }
{
    match seen {
        Some(seen) => Some(runtime.copy(seen)),
        None => None,
    }
}

/// Looks at the run together with what was seen of it, if anything was. No two of the receipts are of one event.
fn looked<K: OfRun, R: Forest, G: Guardian, P: Gate>(
    runtime: &Runtime<K, R, G, P>,
    receipts: &mut Receipts<K>,
    seen: Option<Seen<K>>,
) -> Option<Seen<K>>
    ensures looks { LooksOn K.opening receipts.old seen result }
    ensures same { receipts.new ≡ receipts.old }
{
    match seen {
        Some(seen) => Some(runtime.look(receipts, seen)),
        None => None,
    }
}
