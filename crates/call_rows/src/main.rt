//! Tests of printed texts, of the limits of documents, and of public calls that no example reaches, as rows of data.
//!
//! The first word of a section's name is the crate that its rows call. A name with no crate stands for `run_model`,
//! `packed_history` and `traces`.
#![tactic(auto)]

mod answers;
mod contents;
mod faults;
mod names;
mod operations;
mod packed;
mod past;
mod reading;
mod runs;
mod setups;
mod steps;
mod texts;
mod trace_files;

use operations::Performing;
use rows::{Row, RowFault, Subject};
use runs::Runs;
use std::alloc::{AllocError, Global};
use std::io;

fn main(rt: HostRuntime) -> io::Result<()> {
    let mut tested = Tested {
        alloc: rt.alloc(),
        section: Section::ActionNames,
    };
    rows::run(&rt, &mut tested)
}

/// What is kept from row to row of a section, by the crate that it calls.
#[derive(Drop)]
enum Section {
    ActionNames,
    Values,
    AtomicTypes(Performing),
    StableStore,
    Runs(Runs),
}

#[derive(Drop)]
struct Tested {
    alloc: Global,
    section: Section,
}

impl Tested {
    fn keep(&mut self, section: Section) {
        self.section = section;
    }
}

impl Subject for Tested {
    fn begin(&mut self, section: &str) -> Result<(), AllocError> {
        let (called, _) = section.split_once(' ').unwrap_or((section, ""));
        self.keep(new_section(self.alloc, called));
        Ok(())
    }

    fn answer(&mut self, row: &Row<'_>, answer: &mut String) -> Result<(), RowFault> {
        match &mut self.section {
            Section::ActionNames => names::answer(self.alloc, row, answer),
            Section::Values => contents::answer(self.alloc, row, answer),
            Section::AtomicTypes(performing) => performing.answer(row, answer),
            Section::StableStore => faults::answer(row, answer),
            Section::Runs(runs) => runs.answer(row, answer),
        }
    }
}

/// A section of rows that call this crate.
fn new_section(alloc: Global, called: &str) -> Section {
    match called {
        "action_names" => Section::ActionNames,
        "values" => Section::Values,
        "atomic_types" => Section::AtomicTypes(Performing::new(alloc)),
        "stable_store" => Section::StableStore,
        _ => Section::Runs(Runs::new(alloc)),
    }
}
