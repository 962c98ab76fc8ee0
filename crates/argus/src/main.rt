//! `argus`, the program: it reads its command line and runs the command. Answers go to standard output, faults to
//! standard error.
#![tactic(auto)]

mod refusing;
mod run;
mod stores;

use crate::refusing::FAULT;
use crate::stores::Files;
use argus_engine::Fault;
use command_line::request::Command;
use std::env;
use std::process::ExitCode;
use std::sync::Wait;
use std::thread::Threads;
use std::time::Clock;

fn main(rt: HostRuntime) -> ExitCode {
    match obey(&rt, &rt) {
        Ok(status) => status,
        Err(fault) => {
            let _ = eprintln!(&rt; "{fault}");
            ExitCode::from(FAULT)
        }
    }
}

/// Reads the command line and runs its command.
fn obey<H: Threads + Wait + Clock + Eprint + Sync>(
    rt: &HostRuntime,
    threads: &H,
) -> Result<ExitCode, Fault> {
    let given = match env::args(rt) {
        Ok(given) => given,
        Err(error) => return Err(run::read_fault(&error)),
    };
    let mut texts = Vec::new(rt.alloc());
    for text in given {
        texts.push(text)?;
    }
    let mut words = Vec::new(rt.alloc());
    for text in texts.iter().skip(1) {
        words.push(text.as_str())?;
    }
    match command_line::command(rt.alloc(), words.as_slice()) {
        Ok(Command::Steps(given)) => run::steps(rt, &Files { rt }, &given),
        Ok(Command::Check(given)) => run::check(rt, &given),
        Ok(Command::Run(given)) => run::run(rt, threads, &Files { rt }, &given),
        Ok(Command::Trace(given)) => run::trace(rt, &given),
        Err(fault) => refusing::explain(rt, &fault),
    }
}
