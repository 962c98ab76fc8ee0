//! Scripts whose clients and arms run in threads: what each run has to write, and that its trace gathers. Then the
//! operations of two arms meet inside the locks of two guardians.
#![tactic(auto)]

mod meeting;
mod scripts;
mod written;

use meeting::gate_two_arms;
use rows::RowFault;
use scripts::{Expected, Scripts};
use std::alloc::Global;
use std::io;
use std::sync::Wait;
use std::thread::Threads;
use std::time::Clock;

fn main(rt: HostRuntime) -> io::Result<()> {
    let mut scripts = Scripts::new(rt.alloc());
    rows::run(&rt, &mut scripts)?;
    report(&rt, rt.alloc(), scripts.expected())?;
    report_arms(&rt, rt.alloc())
}

/// Runs the scripts, and prints how many write anything but what they have to, behind what these write.
fn report<H: Threads + Wait + Clock + Print + Eprint + Sync>(
    rt: &H,
    alloc: Global,
    scripts: &[Expected],
) -> io::Result<()> {
    let mut others: u64 = 0;
    for expected in scripts {
        match expected.other(alloc, rt) {
            Ok(None) => continue,
            Ok(Some(came)) => println!(rt; "{}, not {}", came.as_str(), expected.outcome())?,
            Err(RowFault::Memory) => println!(rt; "no memory for {}", expected.outcome())?,
            Err(RowFault::Unread) => println!(rt; "not read: {}", expected.outcome())?,
        }
        others = others.saturating_add(1);
    }
    let count = scripts.len();
    println!(rt; "{count} scripts in threads: {others} that write anything but what is expected")
}

/// Prints whether the operations of two arms met.
fn report_arms<H: Threads + Wait + Sync + Print>(rt: &H, alloc: Global) -> io::Result<()> {
    let met = match gate_two_arms(alloc, rt) {
        Ok(true) => "met",
        Ok(false) => "not met",
        Err(RowFault::Memory) => "out of memory",
        Err(RowFault::Unread) => "the script was not run",
    };
    println!(rt; "two arms inside the locks of two guardians: {met}")
}
