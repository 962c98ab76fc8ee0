//! `bank`, a service over a world: payments between two branches. One lacks money, and one has to wait for another. A
//! branch crashes between the phases of a third, and a stop of the whole bank undoes a fourth, which is made again.
#![tactic(auto)]

mod bank;
mod payments;

use anyhow::{Result, bail};
use bank::Bank;
use payments::{Account, Look, Payment};
use run_model::ObjectId;
use service::{Cause, Outcome};

const ANN: Account = Account {
    owner: "ann",
    object: ObjectId {
        guardian: 1,
        number: 1,
    },
};

const BEN: Account = Account {
    owner: "ben",
    object: ObjectId {
        guardian: 1,
        number: 2,
    },
};

const CLEO: Account = Account {
    owner: "cleo",
    object: ObjectId {
        guardian: 2,
        number: 1,
    },
};

const DAN: Account = Account {
    owner: "dan",
    object: ObjectId {
        guardian: 2,
        number: 2,
    },
};

fn main(rt: HostRuntime) -> Result<()> {
    let to_dan = BEN.pays(rt.alloc(), DAN, 45);
    run_until_a_stop(&rt, to_dan)?;
    let mut bank = Bank::reopen(&rt)?;
    pay(&rt, &mut bank, to_dan)?;
    for account in [ANN, BEN, CLEO, DAN] {
        show(&rt, &mut bank, account)?;
    }
    Ok(())
}

/// Makes payments, until the bank stops within this one.
fn run_until_a_stop(rt: &HostRuntime, last: Payment) -> Result<()> {
    let mut bank = Bank::open(rt)?;
    pay(rt, &mut bank, ANN.pays(rt.alloc(), CLEO, 30))?;
    pay(rt, &mut bank, last)?;
    pay_over_a_crash(rt, &mut bank, CLEO.pays(rt.alloc(), BEN, 25), last)?;
    bank.vote_on(&last)?;
    println!(rt; "the bank stops before {last} is decided, and opens again")?;
    Ok(())
}

/// Makes the payment and prints how it ended.
fn pay(rt: &HostRuntime, bank: &mut Bank<'_>, payment: Payment) -> Result<()> {
    let mut work = payment;
    match bank.transact(payment.from.object.guardian, &mut work)? {
        Outcome::Committed(()) => println!(rt; "{payment}: paid")?,
        Outcome::Aborted(Cause::Work(fault)) => println!(rt; "{payment}: aborted, {fault}")?,
        Outcome::Aborted(Cause::Step(fault)) => println!(rt; "{payment}: aborted, {fault}")?,
        Outcome::Aborted(Cause::Vote) => println!(rt; "{payment}: aborted by a vote")?,
    }
    Ok(())
}

/// Makes a payment, but the payee's branch crashes between the two phases. Another payment meets it before that.
fn pay_over_a_crash(
    rt: &HostRuntime,
    bank: &mut Bank<'_>,
    payment: Payment,
    other: Payment,
) -> Result<()> {
    let top = bank.vote_on(&payment)?;
    println!(rt; "{payment}: both branches vote yes")?;
    pay(rt, bank, other)?;
    let branch = payment.to.object.guardian;
    bank.crash(branch)?;
    println!(rt; "branch {branch} crashes and recovers")?;
    bank.decide(&top)?;
    println!(rt; "{payment}: paid")?;
    Ok(())
}

/// Prints the balance of an account.
fn show(rt: &HostRuntime, bank: &mut Bank<'_>, account: Account) -> Result<()> {
    let Account { owner, object } = account;
    let alloc = rt.alloc();
    let mut look = Look { alloc, object };
    let Outcome::Committed(balance) = bank.transact(object.guardian, &mut look)? else {
        bail!("{owner} has no balance");
    };
    println!(rt; "{owner} has {balance}")?;
    Ok(())
}
