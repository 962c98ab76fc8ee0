//! What the bank does: a payment is the work of a transaction, and calls a handler at each of two branches.
ghost use Rattle.std.specs.Prelude.{◌≡◌, ◌+ℤ◌, ◌<ℤ◌, ◌≤ℤ◌, IfOk, IsErrOf, pos};

use run_model::{ObjectId, Reply, Value};
use service::{Begun, CallFault, Transaction, Work, get, set};
use std::alloc::Global;
use std::fmt;
use stepping::MakesOwnSteps;
use thiserror::Error;
use values::ValueFault;

/// The field of an account.
pub(crate) const BALANCE: &str = "balance";

/// An account: an object of a branch, which is a record with a balance.
#[derive(Clone, Copy)]
pub(crate) struct Account {
    pub(crate) owner: &'static str,
    pub(crate) object: ObjectId,
}

/// A payment, whole or not at all: a handler call at each of two branches.
#[derive(Clone, Copy)]
pub(crate) struct Payment {
    pub(crate) alloc: Global,
    pub(crate) from: Account,
    pub(crate) to: Account,
    pub(crate) amount: u32,
}

impl<W: MakesOwnSteps + Drop> Work<W> for Payment {
    type Value = ();

    type Error = PayFault;

    fn run<B: Begun>(&mut self, tx: &mut Transaction<'_, W, B>) -> Result<(), PayFault> {
        let (mut take, mut give) = self.changes();
        tx.call(self.from.object.guardian, &mut take)?;
        tx.call(self.to.object.guardian, &mut give)
    }
}

/// A handler of a branch: it adds the amount to an account, and is aborted if there is too little.
#[derive(Clone, Copy)]
pub(crate) struct Change {
    pub(crate) alloc: Global,
    pub(crate) object: ObjectId,
    pub(crate) amount: i64,
}

impl<W: MakesOwnSteps + Drop> Work<W> for Change {
    type Value = ();

    type Error = PayFault;

    fn run<B: Begun>(&mut self, tx: &mut Transaction<'_, W, B>) -> Result<(), PayFault> {
        let read = tx.operate(self.object, get(self.alloc, BALANCE)?)?;
        let balance = Value::Int(self.after(balance_in(&read)?)?);
        tx.operate(self.object, set(self.alloc, BALANCE, balance)?)?;
        Ok(())
    }
}

/// A handler of a branch: it reads the balance of an account.
#[derive(Clone, Copy)]
pub(crate) struct Look {
    pub(crate) alloc: Global,
    pub(crate) object: ObjectId,
}

impl<W: MakesOwnSteps + Drop> Work<W> for Look {
    type Value = i64;

    type Error = PayFault;

    fn run<B: Begun>(&mut self, tx: &mut Transaction<'_, W, B>) -> Result<i64, PayFault> {
        balance_in(&tx.operate(self.object, get(self.alloc, BALANCE)?)?)
    }
}

/// Why a payment is aborted.
#[derive(Debug, Drop, Error)]
pub(crate) enum PayFault {
    #[error("too little money")]
    LacksMoney,
    #[error("{0}")]
    Call(#[from] CallFault),
    #[error("{0}")]
    Value(#[from] ValueFault),
}

impl Account {
    pub(crate) fn pays(self, alloc: Global, to: Account, amount: u32) -> Payment {
        Payment {
            alloc,
            from: self,
            to,
            amount,
        }
    }
}

impl Payment {
    /// The handlers that take the money and give it.
    pub(crate) fn changes(&self) -> (Change, Change)
        ensures give { result.1.amount ≡ pos self.now.amount }
        ensures sum { result.0.amount +ℤ result.1.amount ≡ pos 0 }
    {
        let (alloc, amount) = (self.alloc, i64::from(self.amount));
        let take = Change {
            alloc,
            object: self.from.object,
            amount: -amount,
        };
        let give = Change {
            alloc,
            object: self.to.object,
            amount,
        };
        (take, give)
    }
}

impl Change {
    /// The balance after the change, which may not be negative. `LacksMoney` comes only if it would be.
    pub(crate) fn after(&self, balance: i64) -> Result<i64, PayFault>
        ensures sum { IfOk result (λ after. after ≡ balance +ℤ self.now.amount) }
        ensures money { IfOk result (λ after. pos 0 ≤ℤ after) }
        ensures lacks { IsErrOf result PayFault.LacksMoney
            → (balance +ℤ self.now.amount) <ℤ pos 0 }
    {
        match balance.checked_add(self.amount) {
            Some(after) if after >= 0 => Ok(after),
            Some(_) => Err(PayFault::LacksMoney),
            None => Err(PayFault::Value(ValueFault::Unfit)),
        }
    }
}

/// The balance that was read.
pub(crate) fn balance_in(read: &Reply) -> Result<i64, PayFault> {
    match read {
        Reply::Gives(Value::Int(balance)) => Ok(*balance),
        _ => Err(PayFault::Value(ValueFault::Unfit)),
    }
}

impl fmt::Display for Payment {
    fn fmt<W: fmt::Write>(&self, f: &mut fmt::Formatter<W>) -> fmt::Result {
        let (from, to) = (self.from.owner, self.to.owner);
        write!(f, "{from} pays {to} {}", self.amount)
    }
}
