//! The loop over the rows of standard input.
use crate::row::{Row, RowFault};
use std::alloc::AllocError;
use std::io::{self, Read};

/// What is tested: it makes the calls of rows.
pub trait Subject {
    /// Begins a section, in which nothing is left of the one before.
    fn begin(&mut self, section: &str) -> Result<(), AllocError>;

    /// Makes the call of a row, and writes its answer behind what is written. After an error nothing has changed but
    /// that what is written may go on.
    fn answer(&mut self, row: &Row<'_>, answer: &mut String) -> Result<(), RowFault>;
}

/// A section, how many rows it had so far, and how many of them did not hold.
#[derive(Clone, Copy, Drop)]
struct Section<'a> {
    name: &'a str,
    rows: u64,
    wrong: u64,
}

/// Makes the call of each row of standard input. Prints a line for each section with the number of its rows, after a
/// line for each row that does not hold. Lines that are empty or begin with `#` are passed over.
pub fn run(rt: &HostRuntime, subject: &mut impl Subject) -> io::Result<()> {
    let mut input = String::new(rt.alloc());
    rt.reader().read_to_string(&mut input)?;
    let mut section = Section::new("");
    for line in input.as_str().split('\n') {
        if let Some(name) = section_of(line) {
            section.print(rt)?;
            begin(rt, subject, name)?;
            section = Section::new(name);
        } else if !line.is_empty() && !line.starts_with('#') {
            section.count(holds(rt, subject, line)?);
        }
    }
    section.print(rt)
}

impl<'a> Section<'a> {
    fn new(name: &'a str) -> Section<'a> {
        Section {
            name,
            rows: 0,
            wrong: 0,
        }
    }

    fn count(&mut self, holds: bool) {
        self.rows = self.rows.saturating_add(1);
        if !holds {
            self.wrong = self.wrong.saturating_add(1);
        }
    }

    /// Prints how the rows came out; nothing stands before the first section.
    fn print(&self, rt: &impl Print) -> io::Result<()> {
        if self.name.is_empty() && self.rows == 0 {
            return Ok(());
        }
        match self.wrong {
            0 => println!(rt; "[{}] {} rows", self.name, self.rows),
            wrong => println!(rt; "[{}] {} rows, {wrong} WRONG", self.name, self.rows),
        }
    }
}

/// The name in a line `[NAME]`.
fn section_of(line: &str) -> Option<&str> {
    line.strip_prefix('[')?.strip_suffix(']')
}

/// Begins a section, once more where memory was refused.
fn begin(rt: &HostRuntime, subject: &mut impl Subject, name: &str) -> io::Result<()> {
    if subject.begin(name).is_err() {
        note_refusal(rt);
        subject.begin(name)?;
    }
    Ok(())
}

/// Whether the line is a row that holds; else what was found is printed.
fn holds(rt: &HostRuntime, subject: &mut impl Subject, line: &str) -> io::Result<bool> {
    let Some(row) = Row::read(line) else {
        println!(rt; "no row: {line}")?;
        return Ok(false);
    };
    let mut found = String::new(rt.alloc());
    match answer_row(rt, subject, &row, &mut found) {
        Ok(()) if found.as_str() == row.answer => return Ok(true),
        Ok(()) => println!(rt;
            "{} {} => {}, not {}",
            row.call,
            row.given,
            found.as_str(),
            row.answer
        )?,
        Err(RowFault::Unread) => println!(rt; "not read: {line}")?,
        Err(RowFault::Memory) => println!(rt; "no memory: {line}")?,
    }
    Ok(false)
}

/// Makes the call of the row, once more where memory was refused.
fn answer_row(
    rt: &HostRuntime,
    subject: &mut impl Subject,
    row: &Row<'_>,
    found: &mut String,
) -> Result<(), RowFault> {
    match subject.answer(row, found) {
        Err(RowFault::Memory) => {
            note_refusal(rt);
            found.clear();
            subject.answer(row, found)
        }
        answer => answer,
    }
}

/// Notes a refusal on standard error.
fn note_refusal(rt: &impl Eprint) {
    let _ = eprintln!(rt; "memory was refused");
}
