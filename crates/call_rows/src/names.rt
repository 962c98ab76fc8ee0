//! Calls that make, copy and print names.
use crate::reading::{self, next_small_number, small_number};
use action_names::{Name, NameFault};
use rows::{Row, RowFault, Words};
use std::alloc::{AllocError, Global};

/// Answers the calls that make a name, and passes on the others.
pub(crate) fn answer(alloc: Global, row: &Row<'_>, answer: &mut String) -> Result<(), RowFault> {
    match row.call {
        "parse" => write_name(Name::parse(alloc, row.given), answer),
        "top" => write_name(Name::top(alloc, small_number(row.given)?), answer),
        "child" => child(alloc, row.words(), answer),
        call => tell(&reading::name(alloc, row.given)?, call, answer),
    }
}

/// Writes the name, or why there is none.
fn write_name(name: Result<Name, NameFault>, answer: &mut String) -> Result<(), RowFault> {
    match name {
        Ok(name) => Ok(write!(answer, "{name}")?),
        Err(NameFault::Memory) => Err(RowFault::Memory),
        Err(fault) => Ok(write!(answer, "{fault:?}")?),
    }
}

fn child(alloc: Global, mut words: Words<'_>, answer: &mut String) -> Result<(), RowFault> {
    let name = reading::name(alloc, words.word()?)?;
    let number = next_small_number(&mut words)?;
    write_name(name.child(number), answer)
}

/// Answers the calls of one name.
fn tell(name: &Name, call: &str, answer: &mut String) -> Result<(), RowFault> {
    let told = match call {
        "display" => write!(answer, "{name}"),
        "debug" => write!(answer, "{name:?}"),
        "write" => name.write_to(answer),
        "copy" => write_copy(name, answer),
        "parent" => write_parent(name, answer),
        _ => return Err(RowFault::Unread),
    };
    Ok(told?)
}

fn write_copy(name: &Name, answer: &mut String) -> Result<(), AllocError> {
    let copy = name.copy()?;
    write!(answer, "{copy}")
}

fn write_parent(name: &Name, answer: &mut String) -> Result<(), AllocError> {
    match name.parent()? {
        Some(parent) => write!(answer, "{parent}"),
        None => answer.push_str("none"),
    }
}
