//! Transfers by transactions of a service.
ghost use Rattle.std.specs.Prelude.{◌≡◌};

use crate::fault::SpeedFault;
use crate::transfers::{Change, FIELD, Local, Transfer, new_world};
use run_model::Value;
use service::{Begun, Outcome, Service, Transacted, Transaction, Work, get, set};
use std::alloc::Global;
use stepping::MakesOwnSteps;

/// A transfer: the account at home is written, and the other one by a handler call.
#[derive(Drop)]
struct Both<'a> {
    alloc: Global,
    transfer: &'a Transfer,
}

/// The handler that writes an account.
#[derive(Drop)]
struct One<'a> {
    alloc: Global,
    change: &'a Change,
}

impl<W: MakesOwnSteps + Drop> Work<W> for Both<'_> {
    type Value = ();

    type Error = SpeedFault;

    fn run<B: Begun>(&mut self, tx: &mut Transaction<'_, W, B>) -> Result<(), SpeedFault> {
        update(self.alloc, tx, &self.transfer.home)?;
        let other = &self.transfer.other;
        let mut handler = One {
            alloc: self.alloc,
            change: other,
        };
        tx.call(other.account.guardian, &mut handler)
    }
}

impl<W: MakesOwnSteps + Drop> Work<W> for One<'_> {
    type Value = ();

    type Error = SpeedFault;

    fn run<B: Begun>(&mut self, tx: &mut Transaction<'_, W, B>) -> Result<(), SpeedFault> {
        update(self.alloc, tx, self.change)
    }
}

/// Reads an account and writes it.
fn update<W: MakesOwnSteps + Drop, B: Begun>(
    alloc: Global,
    tx: &mut Transaction<'_, W, B>,
    change: &Change,
) -> Result<(), SpeedFault>
    ensures same_service { tx.new.service.ghost_name ≡ tx.old.service.ghost_name }
    ensures same_action { tx.new.at.ghost_name ≡ tx.old.at.ghost_name }
{
    tx.operate(change.account, get(alloc, FIELD)?)?;
    tx.operate(change.account, set(alloc, FIELD, Value::Int(change.value))?)?;
    Ok(())
}

/// A new world in which so many transfers are made.
pub(crate) fn make(alloc: Global, count: u32) -> Result<Local, SpeedFault> {
    let mut service = Service::over(new_world(alloc)?);
    for number in 1..=count {
        make_one(alloc, &mut service, &Transfer::numbered(number))?;
    }
    Ok(service.world)
}

/// Makes a transfer.
fn make_one(
    alloc: Global,
    service: &mut Service<Local>,
    transfer: &Transfer,
) -> Result<(), SpeedFault> {
    let home = transfer.home.account.guardian;
    let Transacted { outcome, left } = service.transact(alloc, home, &mut Both { alloc, transfer });
    match (outcome, left) {
        (Outcome::Committed(()), None) => Ok(()),
        _ => Err(SpeedFault::Step),
    }
}
