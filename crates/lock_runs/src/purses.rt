//! Threads that move coins between purses, each coin by a transaction. Who waits for a purse sleeps.
ghost use Rattle.std.specs.Prelude.{◌≡◌, ◌<◌, ◌^◌, []};
ghost use Rattle.std.specs.Arc.{arc_value};
ghost use Rattle.run_model.specs.Openings.{opening_in};
ghost use Rattle.stable_store.specs.Plain.{plain_view};
ghost use Rattle.guardian.specs.Guardians.{IsWhole};
ghost use Rattle.registry.specs.Registries.{StandsIn};
ghost use Rattle.world_steps.specs.Standings.{IsWorld};
ghost use Rattle.world.specs.Worlds.{seen_of};

use crate::runs::{Parts, Threaded, end, opened, setup_of};
use rows::RowFault;
use run_model::{ObjectId, Op, Opening, Reply, Value};
use runtime::{Endless, OfRun, OpenGate, Receipts};
use service::{Begun, CallFault, Cause, Outcome, Service, Transacted, Transaction, Work};
use sessions::Session;
use std::alloc::Global;
use std::marker::Brand;
use std::sync::Wait;
use std::thread::{Threads, map_indices};
use stepping::MakesOwnSteps;

/// How many guardians there are. Each has a purse.
const PURSES: u32 = 4;

/// What is in each purse at first.
const PURSE: &str = "{\"array\":{\"of\":\"int\",\"low\":1,\"items\":[1,1,1,1,1]}}";

/// How many coins there are.
const COINS: i64 = 20;

/// How many threads move coins.
const THREADS: usize = 4;

/// How many coins each thread moves.
const MOVES: u32 = 50;

/// How many pairs of purses there are. Coins that go by two arms at once stay within a pair: then no two transactions
/// wait for one another.
const PAIRS: usize = 2;

/// A coin goes from the purse of one guardian to that of another.
#[derive(Clone, Copy)]
struct Move {
    from: u32,
    to: u32,
}

/// What a guardian does with its purse.
#[derive(Clone, Copy)]
enum Change {
    Take(u32),
    Put(u32),
}

/// A call of the guardian that is to change its purse.
#[derive(Clone, Copy)]
struct Calls(Change);

/// How many coins are in the purse of a guardian.
#[derive(Clone, Copy)]
struct Count(u32);

/// Why a coin does not go.
#[derive(Drop)]
enum MoveFault {
    Call(CallFault),
    /// The purse has none.
    Empty,
}

impl From<CallFault> for MoveFault {
    fn from(fault: CallFault) -> MoveFault {
        MoveFault::Call(fault)
    }
}

impl<W: MakesOwnSteps + Drop> Work<W> for Move {
    type Value = ();

    type Error = MoveFault;

    // the purse of the lower number comes first, so that no two threads wait for one another
    fn run<B: Begun>(&mut self, tx: &mut Transaction<'_, W, B>) -> Result<(), MoveFault> {
        let (mut take, mut put) = (Change::Take(self.from), Change::Put(self.to));
        if self.from < self.to {
            tx.call(self.from, &mut take)?;
            tx.call(self.to, &mut put)
        } else {
            tx.call(self.to, &mut put)?;
            tx.call(self.from, &mut take)
        }
    }
}

impl<W: MakesOwnSteps + Drop> Work<W> for Calls {
    type Value = ();

    type Error = MoveFault;

    fn run<B: Begun>(&mut self, tx: &mut Transaction<'_, W, B>) -> Result<(), MoveFault> {
        let guardian = match self.0 {
            Change::Take(guardian) | Change::Put(guardian) => guardian,
        };
        tx.call(guardian, &mut self.0)
    }
}

impl<W: MakesOwnSteps + Drop> Work<W> for Change {
    type Value = ();

    type Error = MoveFault;

    fn run<B: Begun>(&mut self, tx: &mut Transaction<'_, W, B>) -> Result<(), MoveFault> {
        let reply = match self {
            Change::Take(guardian) => tx.operate(purse(*guardian), Op::RemoveLow)?,
            Change::Put(guardian) => tx.operate(purse(*guardian), Op::AddHigh(Value::Int(1)))?,
        };
        match reply {
            Reply::Signals(_) => Err(MoveFault::Empty),
            _ => Ok(()),
        }
    }
}

impl<W: MakesOwnSteps + Drop> Work<W> for Count {
    type Value = i64;

    type Error = CallFault;

    fn run<B: Begun>(&mut self, tx: &mut Transaction<'_, W, B>) -> Result<i64, CallFault> {
        match tx.operate(purse(self.0), Op::Size)? {
            Reply::Gives(Value::Int(coins)) => Ok(coins),
            _ => Ok(0),
        }
    }
}

/// The purse of the guardian.
fn purse(guardian: u32) -> ObjectId {
    ObjectId {
        guardian,
        number: 1,
    }
}

/// Whether as many coins are there as before, once all threads have moved theirs.
pub(crate) fn no_coin_is_lost<H: Threads + Wait + Sync>(
    alloc: Global,
    rt: &H,
) -> Result<bool, RowFault> {
    let setup = setup_of(alloc, PURSES, PURSE)?;
    counted_in::<Brand, H>(alloc, rt, opened(alloc, setup.as_str())?)
}

fn counted_in<K: OfRun + Send + Sync, H: Threads + Wait + Sync>(
    alloc: Global,
    rt: &H,
    parts: Parts,
) -> Result<bool, RowFault>
    requires table { parts.start.run.table.shared.table_id ≡ K.table }
    requires named { opening_in parts.start.run.table.shared.key ≡ K.opening }
    requires opening { parts.start.run.table.shared.key ≡ arc_value parts.opening }
    requires world { IsWorld (λ g s. IsWhole plain_view g s) (λ g. seen_of plain_view g)
        (StandsIn parts.registry) K.opening [] parts.guardians.items }
{
    let Parts {
        opening,
        start,
        registry,
        guardians,
    } = parts;
    let runtime = Threaded::<K, OpenGate>::new(alloc, start, registry, guardians, OpenGate)?;
    let mut receipts = runtime.no_receipts();
    let counted = moved_and_counted(alloc, rt, &runtime, &opening, &mut receipts);
    end(runtime, receipts)?;
    Ok(counted? == COINS)
}

/// How many coins there are once all threads have moved theirs.
fn moved_and_counted<K: OfRun + Send + Sync, H: Threads + Wait + Sync>(
    alloc: Global,
    rt: &H,
    runtime: &Threaded<K, OpenGate>,
    opening: &Opening,
    receipts: &mut Receipts<K>,
) -> Result<i64, RowFault>
    requires { opening_in opening.now ≡ K.opening }
{
    let moved = map_indices(
        rt,
        alloc,
        THREADS,
        &|index|
            requires opening { opening_in opening.now ≡ K.opening }
            requires few { index < 2 ^ 32 }
        { move_all(alloc, rt, runtime, opening, index as u32) },
    )?;
    for one in moved {
        runtime.join_receipts(receipts, one?);
    }
    let moved = map_indices(
        rt,
        alloc,
        PAIRS,
        &|index|
            requires opening { opening_in opening.now ≡ K.opening }
            requires few { index < 2 ^ 31 }
        { move_in_pair(alloc, rt, runtime, opening, index as u32) },
    )?;
    for one in moved {
        runtime.join_receipts(receipts, one?);
    }
    count_all(alloc, rt, runtime, opening, receipts)
}

/// What one thread moves; its receipts.
fn move_all<K: OfRun, H: Wait>(
    alloc: Global,
    rt: &H,
    runtime: &Threaded<K, OpenGate>,
    opening: &Opening,
    index: u32,
) -> Result<Receipts<K>, RowFault>
    requires { opening_in opening.now ≡ K.opening }
{
    let mut service = Service::over(Session::new(rt, runtime, opening, &Endless));
    for turn in 0..MOVES {
        let from = index.wrapping_add(turn) % PURSES;
        let to = from.wrapping_add(1).wrapping_add(turn % (PURSES - 1)) % PURSES;
        let mut coin = Move {
            from: from + 1,
            to: to + 1,
        };
        let Transacted { outcome, left: _ } = service.transact(alloc, from + 1, &mut coin);
        settle(outcome)?;
    }
    Ok(service.world.into_receipts())
}

/// What one thread moves between the purses of a pair, each coin by two arms at once; its receipts.
fn move_in_pair<K: OfRun + Send + Sync, H: Threads + Wait + Sync>(
    alloc: Global,
    rt: &H,
    runtime: &Threaded<K, OpenGate>,
    opening: &Opening,
    pair: u32,
) -> Result<Receipts<K>, RowFault>
    requires opening { opening_in opening.now ≡ K.opening }
    requires few { pair < 2 ^ 31 }
{
    let mut service = Service::over(Session::new(rt, runtime, opening, &Endless));
    let first = (2 * pair).wrapping_add(1);
    let second = first.wrapping_add(1);
    for turn in 0..MOVES {
        let (from, to) = if turn % 2 == 0 {
            (first, second)
        } else {
            (second, first)
        };
        let mut take = Calls(Change::Take(from));
        let mut put = Calls(Change::Put(to));
        let Transacted { outcome, left: _ } = service.transact_together(
            alloc, from, &mut take, &mut put,
        );
        settle(outcome)?;
    }
    Ok(service.world.into_receipts())
}

/// Whether the coin went, or there was none.
fn settle<T: Drop>(outcome: Outcome<T, MoveFault>) -> Result<(), RowFault> {
    match outcome {
        Outcome::Committed(_) | Outcome::Aborted(Cause::Work(MoveFault::Empty)) => Ok(()),
        Outcome::Aborted(_) => Err(RowFault::Unread),
    }
}

/// How many coins are in all purses. Keeps the receipts.
fn count_all<K: OfRun, H: Wait>(
    alloc: Global,
    rt: &H,
    runtime: &Threaded<K, OpenGate>,
    opening: &Opening,
    receipts: &mut Receipts<K>,
) -> Result<i64, RowFault>
    requires { opening_in opening.now ≡ K.opening }
{
    let mut service = Service::over(Session::new(rt, runtime, opening, &Endless));
    let mut all: i64 = 0;
    for guardian in 1..=PURSES {
        let Transacted { outcome, left: _ } = service.transact(
            alloc,
            guardian,
            &mut Count(guardian),
        );
        match outcome {
            Outcome::Committed(coins) => all = all.wrapping_add(coins),
            Outcome::Aborted(_) => return Err(RowFault::Unread),
        }
    }
    runtime.join_receipts(receipts, service.world.into_receipts());
    Ok(all)
}
