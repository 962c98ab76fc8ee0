//! Steps of a runtime: the worked examples, lists at random that a world answers alike, and threads at once. What the
//! threads did is replayed by one world, and the receipts of each section have to close its run.
//!
//! `lock_runs steps` reads a setup, a line, and steps, and times them by a world and by a runtime. `lock_runs threads
//! N` times the work of threads, each of which does its share of N.
#![tactic(auto)]

mod examples;
mod meeting;
mod purses;
mod random;
mod runs;
mod same;
mod threads;
mod times;
mod transfers;
mod waiting;

use examples::Examples;
use meeting::all_meet;
use purses::no_coin_is_lost;
use rows::RowFault;
use run_model::Step;
use same::same_answers;
use std::alloc::{AllocError, Global};
use std::env;
use std::io::{self, BufRead, BufReader};
use std::sync::Wait;
use std::thread::Threads;
use std::time::Clock;
use threads::{Walkers, at_once};
use times::{both_ways, over_runtime, over_world};
use transfers::{Work, Workers};
use waiting::both_are_granted;

fn main(rt: HostRuntime) -> io::Result<()> {
    let mut words = env::args(&rt)?;
    words.next();
    match (words.next(), words.next()) {
        (None, _) => {
            let mut examples = Examples::new(rt.alloc(), &rt);
            rows::run(&rt, &mut examples)?;
            tests(&rt, rt.alloc())
        }
        (Some(_steps), None) => times_of_steps(&rt, rt.alloc()),
        (Some(_threads), Some(count)) => {
            times_of_threads(&rt, rt.alloc(), count.as_str().parse().unwrap_or(1_000))
        }
    }
}

/// Runs the tests of lists at random and of threads.
fn tests<H: Threads + Wait + Sync + Print>(rt: &H, alloc: Global) -> io::Result<()> {
    report_same(rt, alloc)?;
    report(rt, alloc, 2, 200)?;
    report(rt, alloc, 16, 6_250)?;
    let met = outcome(all_meet(alloc, rt, 1), "met", "not met");
    println!(rt; "operations inside the locks of 64 guardians: {met}")?;
    let met = outcome(all_meet(alloc, rt, 16), "met", "not met");
    println!(rt; "operations inside the locks of every sixteenth of 1024 guardians: {met}")?;
    let granted = outcome(both_are_granted(alloc, rt), "granted", "not granted");
    println!(rt; "two threads whose operations wait for one another: {granted}")?;
    let kept = outcome(no_coin_is_lost(alloc, rt), "none lost", "some lost");
    println!(rt; "coins that four threads move by transactions: {kept}")
}

/// Prints the nanoseconds of the steps of standard input, by a world and by a runtime.
fn times_of_steps<H: Threads + Wait + Sync + Clock + Print + Input>(
    rt: &H,
    alloc: Global,
) -> io::Result<()> {
    let mut setup = String::new(alloc);
    let mut steps = Vec::new(alloc);
    for line in BufReader::new(alloc, rt.reader())?.lines(alloc) {
        let line = line?;
        if setup.is_empty() {
            setup = line;
        } else if let Some(step) = Step::read(alloc, line.as_str().as_bytes())? {
            steps.push(step).map_err(AllocError::from)?;
        }
    }
    let count = steps.len();
    match both_ways(alloc, rt, setup.as_str(), &steps) {
        Ok(least) => {
            let world = least.world;
            let runtime = least.runtime;
            println!(rt; "{count} steps: world {world}, runtime {runtime}")
        }
        Err(fault) => {
            let why = outcome(Err(fault), "", "");
            println!(rt; "{why}")
        }
    }
}

/// Prints the nanoseconds of each work, by one, two and four threads.
fn times_of_threads<H: Threads + Wait + Sync + Clock + Print>(
    rt: &H,
    alloc: Global,
    count: u32,
) -> io::Result<()> {
    for threads in [1, 2, 4] {
        let share = count / threads;
        time_of(rt, alloc, "transfers", Work::Transfers, threads, share)?;
        time_of(rt, alloc, "operations", Work::Operations, threads, share)?;
    }
    Ok(())
}

/// Prints the nanoseconds of a work, over a runtime and over a world under one lock.
fn time_of<H: Threads + Wait + Sync + Clock + Print>(
    rt: &H,
    alloc: Global,
    name: &'static str,
    work: Work,
    threads: u32,
    turns: u32,
) -> io::Result<()> {
    let workers = Workers {
        work,
        threads,
        turns,
    };
    match (
        over_runtime(alloc, rt, workers),
        over_world(alloc, rt, workers),
    ) {
        (Ok(runtime), Ok(world)) => {
            println!(rt; "{threads} threads, {turns} {name} each: world {world}, runtime {runtime}")
        }
        (Err(fault), _) | (_, Err(fault)) => {
            let why = outcome(Err(fault), "", "");
            println!(rt; "{why}")
        }
    }
}

/// What came of a section of threads, in words.
fn outcome(done: Result<bool, RowFault>, yes: &'static str, no: &'static str) -> &'static str {
    match done {
        Ok(true) => yes,
        Ok(false) => no,
        Err(RowFault::Memory) => "out of memory",
        Err(RowFault::Unread) => "a step was not answered",
    }
}

/// Prints whether a world and a runtime answer lists of steps alike, and how many answers occur in them.
fn report_same<H: Threads + Wait + Sync + Print>(rt: &H, alloc: Global) -> io::Result<()> {
    match same_answers(alloc, rt) {
        Ok(compared) => {
            let same = if compared.same {
                "same answers"
            } else {
                "other answers"
            };
            let refusals = compared.refusals;
            let kinds = compared.kinds;
            println!(rt; "200 lists of 500 steps: {same}, {refusals} refusals, {kinds} other kinds")
        }
        Err(fault) => {
            let why = outcome(Err(fault), "", "");
            println!(rt; "200 lists of 500 steps: {why}")
        }
    }
}

/// Prints what comes of threads that make so many steps each at random.
fn report<H: Threads + Wait + Sync + Print>(
    rt: &H,
    alloc: Global,
    threads: usize,
    steps: u64,
) -> io::Result<()> {
    let walkers = Walkers {
        threads,
        steps,
        seed: 1,
    };
    let ended = outcome(at_once(alloc, rt, walkers), "one run", "no run");
    println!(rt; "{threads} threads, {steps} steps each: {ended}")
}
