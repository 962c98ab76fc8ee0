//! Transfers between two of four guardians, made by steps of a world or by transactions of a service.
//!
//! `transfer_speed step N` makes N transfers by steps, and `transfer_speed transact N` makes them by transactions. It
//! prints N. With no words it makes a few transfers each way, and prints their steps and whether both ways made these.
#![tactic(auto)]

mod by_steps;
mod by_transactions;
mod fault;
mod transfers;

use fault::SpeedFault;
use std::alloc::Global;
use std::env;
use std::process::ExitCode;
use transfers::Local;

/// How many transfers are shown. The homes differ, and one has a higher number than the other guardian.
const SHOWN: u32 = 3;

fn main(rt: HostRuntime) -> ExitCode {
    match run(&rt) {
        Ok(()) => ExitCode::SUCCESS,
        Err(fault) => {
            let _ = eprintln!(&rt; "{fault}");
            ExitCode::FAILURE
        }
    }
}

/// Does what the words ask for.
fn run(rt: &HostRuntime) -> Result<(), SpeedFault> {
    let mut words = env::args(rt)?;
    words.next();
    match (words.next(), words.next()) {
        (None, _) => show(rt),
        (Some(_), None) => Err(SpeedFault::Words),
        (Some(way), Some(count)) => measured(rt, way.as_str(), count.as_str()),
    }
}

/// Makes so many transfers this way, and prints how many.
fn measured(rt: &HostRuntime, way: &str, count: &str) -> Result<(), SpeedFault> {
    let count = count.parse().map_err(|_| SpeedFault::Words)?;
    let made = match way {
        "step" => by_steps::make(rt.alloc(), count),
        "transact" => by_transactions::make(rt.alloc(), count),
        _ => Err(SpeedFault::Words),
    };
    made?;
    println!(rt; "{count}")?;
    Ok(())
}

/// Makes a few transfers each way, prints the steps of the transactions, and whether the others are the same.
fn show(rt: &HostRuntime) -> Result<(), SpeedFault> {
    let stepped = text_of(rt.alloc(), &by_steps::make(rt.alloc(), SHOWN)?)?;
    let transacted = text_of(rt.alloc(), &by_transactions::make(rt.alloc(), SHOWN)?)?;
    let same = stepped.as_str() == transacted.as_str();
    print!(rt; "{transacted}")?;
    println!(rt; "the same by steps: {same}")?;
    Ok(())
}

/// The steps that happened in the world, with their answers, a line each.
fn text_of(alloc: Global, world: &Local) -> Result<String, SpeedFault> {
    let mut text = String::new(alloc);
    for event in world.history().unpacked()?.events() {
        let step = event.step.text(alloc)?;
        let answer = event.answer.text(alloc)?;
        writeln!(text, "{step}: {answer}")?;
    }
    Ok(text)
}
