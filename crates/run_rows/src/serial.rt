//! Rows of what `run_serial` makes and leaves.
use crate::examples::Examples;
use crate::scripts::script_of;
use crate::step_rows::{answer_to, fault_of_step, made, world_of};
use activities::{ClientEnd, run_serial};
use rows::{Row, RowFault, Words};
use run_model::{Answer, Name, ObjectId, Step};
use stable_store::{PlainStable, Stable};
use std::alloc::{AllocError, Global};
use world::World;

/// `serial COUNT`: how the clients of the section's script end in so many runs in one new world, which the section then
/// has.
pub(crate) fn run_clients(
    examples: &mut Examples,
    mut words: Words<'_>,
    answer: &mut String,
) -> Result<(), RowFault> {
    let count = words.number()?;
    examples.world = world_after(examples, count, answer)?;
    Ok(())
}

/// A new world after so many runs of the section's script.
fn world_after(
    examples: &Examples,
    count: u64,
    answer: &mut String,
) -> Result<World<PlainStable>, RowFault> {
    let mut world = world_of(examples.alloc, examples.setup.as_str())?;
    run_again(examples, count, &mut world, answer)?;
    Ok(world)
}

/// Runs the section's script so many times in the world.
fn run_again(
    examples: &Examples,
    count: u64,
    world: &mut World<PlainStable>,
    answer: &mut String,
) -> Result<(), RowFault> {
    let script = script_of(examples.alloc, examples.script.as_str())?;
    for _ in 0..count {
        let ends = run_serial(examples.alloc, world, &script).map_err(fault_of_step)?;
        push_ends(ends.as_slice(), answer)?;
    }
    Ok(())
}

fn push_ends(ends: &[ClientEnd], answer: &mut String) -> Result<(), AllocError> {
    for end in ends {
        if !answer.is_empty() {
            answer.push_str(", ")?;
        }
        push_end(end, answer)?;
    }
    Ok(())
}

fn push_end(end: &ClientEnd, answer: &mut String) -> Result<(), AllocError> {
    match end {
        ClientEnd::Aborted { .. } => answer.push_str("aborted"),
        ClientEnd::Committed { value: None, .. } => answer.push_str("committed"),
        ClientEnd::Committed {
            value: Some(value),
            ..
        } => {
            answer.push_str("committed ")?;
            value.write_to(answer)
        }
    }
}

/// `events`: how many steps of the section's world are in its history.
pub(crate) fn count_events(examples: &Examples, answer: &mut String) -> Result<(), RowFault> {
    let count = examples.world.history().len();
    let text = format!(in examples.alloc; "{count}")?;
    Ok(answer.push_str(text.as_str())?)
}

/// `event NUMBER`: the step of the section's world that has this place, from 1, and its answer.
pub(crate) fn print_event(
    examples: &Examples,
    mut words: Words<'_>,
    answer: &mut String,
) -> Result<(), RowFault> {
    let number = words.number()?;
    let index = number.checked_sub(1).ok_or(RowFault::Unread)? as usize;
    let history = examples.world.history().unpacked()?;
    let event = history.events().get(index).ok_or(RowFault::Unread)?;
    answer.push_str(event.step.text(examples.alloc)?.as_str())?;
    answer.push_str(" -> ")?;
    Ok(event.answer.write_to(answer)?)
}

/// `base GUARDIAN NUMBER`: the base of the object in the section's world.
pub(crate) fn print_base(
    examples: &Examples,
    mut words: Words<'_>,
    answer: &mut String,
) -> Result<(), RowFault> {
    let guardian = small(words.word()?)?;
    let number = small(words.word()?)?;
    let count = examples.world.setup().objects(guardian).len();
    if guardian == 0 || number == 0 || number as usize > count {
        return Err(RowFault::Unread);
    }
    let base = examples.world.base(ObjectId { guardian, number })?;
    let text = base.text(examples.alloc)?;
    Ok(answer.push_str(text.as_str())?)
}

/// `unlocked GUARDIAN OPERATION|..`: what new top actions are answered to these operations after a run of the section's
/// script in a new world. If memory is refused to the run, they must be answered so too.
pub(crate) fn probe_locks(
    examples: &Examples,
    row: &Row<'_>,
    answer: &mut String,
) -> Result<(), RowFault> {
    let mut world = world_of(examples.alloc, examples.setup.as_str())?;
    let is_run = is_run_in(examples, &mut world)?;
    push_probes(examples.alloc, &mut world, row.given, answer)?;
    if is_run || answer.as_str() != row.answer {
        return Ok(());
    }
    Err(RowFault::Memory)
}

/// Whether a run of the section's script in the world came to its end.
fn is_run_in(examples: &Examples, world: &mut World<PlainStable>) -> Result<bool, RowFault> {
    let script = script_of(examples.alloc, examples.script.as_str())?;
    Ok(run_serial(examples.alloc, world, &script).is_ok())
}

fn push_probes<S: Stable>(
    alloc: Global,
    world: &mut World<S>,
    probes: &str,
    answer: &mut String,
) -> Result<(), RowFault> {
    for probe in probes.split('|') {
        if !answer.is_empty() {
            answer.push('|')?;
        }
        let (guardian, operation) = probe.split_once(' ').ok_or(RowFault::Unread)?;
        push_probe(alloc, world, small(guardian)?, operation, answer)?;
    }
    Ok(())
}

/// Writes the answer of a new top action's operation, given as it stands behind the action's name.
fn push_probe<S: Stable>(
    alloc: Global,
    world: &mut World<S>,
    guardian: u32,
    operation: &str,
    answer: &mut String,
) -> Result<(), RowFault> {
    let line = operation_line(alloc, world, guardian, operation)?;
    let given = made(alloc, world, line.as_str())?;
    Ok(given.write_to(answer)?)
}

/// The line of an operation by a new top action.
fn operation_line<S: Stable>(
    alloc: Global,
    world: &mut World<S>,
    guardian: u32,
    operation: &str,
) -> Result<String, RowFault> {
    let begun = answer_to(world, &Step::Top(guardian))?;
    line_by(alloc, &begun, operation)
}

/// The line of an operation by the action that the answer began.
fn line_by(alloc: Global, begun: &Answer, operation: &str) -> Result<String, RowFault> {
    match begun {
        Answer::Began(names) => Ok(line_of(alloc, names.as_slice(), operation)?),
        _ => Err(RowFault::Unread),
    }
}

fn line_of(alloc: Global, names: &[Name], operation: &str) -> Result<String, AllocError> {
    let mut line = String::from_str(alloc, "op")?;
    for name in names {
        line.push(' ')?;
        name.write_to(&mut line)?;
    }
    line.push(' ')?;
    line.push_str(operation)?;
    Ok(line)
}

fn small(word: &str) -> Result<u32, RowFault> {
    word.parse().map_err(|_| RowFault::Unread)
}
