//! Lines that are read as steps, and what stands in the steps.
use crate::reading;
use rows::{RowFault, Words, again};
use run_model::Step;
use std::alloc::{AllocError, Global};

/// `step LINE`: what stands in a copy of the step that the line spells, or `none`.
pub(crate) fn copy(alloc: Global, line: &str, answer: &mut String) -> Result<(), RowFault> {
    let line = reading::bytes(alloc, line)?;
    match Step::read(alloc, line.as_slice())? {
        Some(step) => write_copy(&step, answer)?,
        None => answer.push_str("none")?,
    }
    Ok(())
}

fn write_copy(step: &Step, answer: &mut String) -> Result<(), AllocError> {
    write(&again!(step.copy())?, answer)
}

/// Writes the fields of a step, in other words than those in which it is spelled.
pub(crate) fn write(step: &Step, answer: &mut String) -> Result<(), AllocError> {
    match step {
        Step::Top(g) => write!(answer, "T {g}"),
        Step::NestedTop(a) => write!(answer, "N {a}"),
        Step::Call(a, g) => write!(answer, "C {a} {g}"),
        Step::Arms(a, kinds) => write!(answer, "A {a} {}", kinds.len()),
        Step::Op(a, x, op) => write!(
            answer,
            "O {a} {} {} {}",
            x.guardian,
            x.number,
            op.name().text()
        ),
        Step::Commit(a) => write!(answer, "commits {a}"),
        Step::Close(a) => write!(answer, "closes {a}"),
        Step::Prepare(g, a) => write!(answer, "P {g} {a}"),
        Step::Decide(a) => write!(answer, "decides {a}"),
        Step::Abort(a) => write!(answer, "aborts {a}"),
        Step::Tell(g, a) => write!(answer, "tells {g} {a}"),
        Step::Crash(g) => write!(answer, "crashes {g}"),
        Step::Recover(g) => write!(answer, "recovers {g}"),
    }
}

/// `long_arms COUNT FRONT`: how long the line is that has so many arms behind the front, and whether it is a step.
pub(crate) fn long_arms(
    alloc: Global,
    mut words: Words<'_>,
    answer: &mut String,
) -> Result<(), RowFault> {
    let arms = words.number()?;
    let mut line = String::from_str(alloc, words.rest())?;
    for _ in 0..arms {
        line.push_str(" s")?;
    }
    write_whether_step(alloc, line.as_str(), answer)
}

/// `long_text COUNT`: how long the line is that writes a text of so many bytes, and whether it is a step.
pub(crate) fn long_text(
    alloc: Global,
    mut words: Words<'_>,
    answer: &mut String,
) -> Result<(), RowFault> {
    let mut line = String::from_str(alloc, "op 1 1/1 set f \"")?;
    for _ in 0..words.number()? {
        line.push('a')?;
    }
    line.push('"')?;
    write_whether_step(alloc, line.as_str(), answer)
}

fn write_whether_step(alloc: Global, line: &str, answer: &mut String) -> Result<(), RowFault> {
    let found = match Step::read(alloc, line.as_bytes())? {
        Some(_) => "a step",
        None => "no step",
    };
    write!(answer, "{} bytes, {found}", line.len())?;
    Ok(())
}
