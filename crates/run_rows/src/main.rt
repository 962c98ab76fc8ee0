//! Tests of the examples, which `scripts/example-runs` writes to `stdin`, and of the rows of `rows/`, as rows of data.
//!
//! A section has a setup, steps, a script and databases, which rows give it, and a world. The sections `failing/..`
//! have a world over stores in memory that fail at one call. What takes several lines stands in one row, with `\n` for
//! each line feed.
#![tactic(auto)]

mod contents;
mod examples;
mod failing;
mod picture_rows;
mod pieces;
mod repeating;
mod scripts;
mod serial;
mod step_rows;
mod stores;
mod system;
mod text;
mod trace_rows;
mod trials;
mod worlds;

use examples::Examples;
use failing::Section;
use rows::{Row, RowFault, Subject};
use std::alloc::{AllocError, Global};
use std::io;
use worlds::StoredWorld;

fn main(rt: HostRuntime) -> io::Result<()> {
    let alloc = rt.alloc();
    let mut tested = Tested {
        alloc,
        section: Tried::Failing(Section::new(alloc)),
    };
    rows::run(&rt, &mut tested)
}

/// What the rows of a section work on.
#[derive(Drop)]
enum Tried {
    Examples(Examples),
    Failing(Section<StoredWorld>),
}

#[derive(Drop)]
struct Tested {
    alloc: Global,
    section: Tried,
}

impl Tested {
    fn keep(&mut self, section: Tried) {
        self.section = section;
    }
}

impl Subject for Tested {
    fn begin(&mut self, section: &str) -> Result<(), AllocError> {
        self.keep(new_section(self.alloc, section)?);
        Ok(())
    }

    fn answer(&mut self, row: &Row<'_>, answer: &mut String) -> Result<(), RowFault> {
        match &mut self.section {
            Tried::Examples(examples) => examples.answer(row, answer),
            Tried::Failing(section) => section.answer(row, answer),
        }
    }
}

/// What the rows of a section of this name work on.
fn new_section(alloc: Global, name: &str) -> Result<Tried, AllocError> {
    if name.starts_with("failing/") {
        return Ok(Tried::Failing(Section::new(alloc)));
    }
    Ok(Tried::Examples(Examples::new(alloc)?))
}
