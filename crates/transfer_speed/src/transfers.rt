//! Transfers, and the worlds in which they are made.
use crate::fault::SpeedFault;
use run_model::{ObjectId, Setup};
use std::alloc::{AllocError, Global};
use world::{PlainStable, World};

/// A world over stores in memory.
pub(crate) type Local = World<PlainStable>;

/// The field of an account.
pub(crate) const FIELD: &str = "n";

/// How many guardians there are, and how many accounts each has.
const GUARDIANS: u32 = 4;

const ACCOUNTS: u32 = 64;

/// What is written to an account.
#[derive(Clone, Copy)]
pub(crate) struct Change {
    pub(crate) account: ObjectId,
    pub(crate) value: i64,
}

/// A transfer between an account at its home and one at another guardian.
#[derive(Clone, Copy)]
pub(crate) struct Transfer {
    pub(crate) home: Change,
    pub(crate) other: Change,
}

impl Transfer {
    /// The transfer of this number.
    pub(crate) fn numbered(number: u32) -> Transfer {
        let amount = i64::from(number);
        Transfer {
            home: written(number, number, amount.wrapping_neg()),
            other: written(number.wrapping_add(1), number, amount),
        }
    }

    /// Both guardians, in rising number.
    pub(crate) fn guardians(self) -> [u32; 2] {
        let home = self.home.account.guardian;
        let other = self.other.account.guardian;
        [home.min(other), home.max(other)]
    }
}

/// What is written to an account of a guardian, both chosen by numbers.
fn written(guardian: u32, account: u32, value: i64) -> Change {
    let account = ObjectId {
        guardian: guardian % GUARDIANS + 1,
        number: account % ACCOUNTS + 1,
    };
    Change { account, value }
}

/// A new world of accounts.
pub(crate) fn new_world(alloc: Global) -> Result<Local, SpeedFault> {
    let setup = Setup::read(alloc, document(alloc)?.as_str().as_bytes())?;
    Ok(World::in_memory(alloc, setup)?)
}

/// The setup's document.
fn document(alloc: Global) -> Result<String, AllocError> {
    let mut text = String::from_str(alloc, "{\"guardians\":[")?;
    for guardian in 0..GUARDIANS {
        if guardian > 0 {
            text.push_str(",")?;
        }
        push_accounts(&mut text)?;
    }
    text.push_str("]}")?;
    Ok(text)
}

/// Adds the accounts of a guardian.
fn push_accounts(text: &mut String) -> Result<(), AllocError> {
    text.push_str("{\"objects\":[")?;
    for account in 0..ACCOUNTS {
        if account > 0 {
            text.push_str(",")?;
        }
        text.push_str("{\"record\":{\"n\":0}}")?;
    }
    text.push_str("]}")?;
    Ok(())
}
