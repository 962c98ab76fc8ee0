//! Rows of steps: what a world and the engine answer to them.
use crate::examples::Examples;
use crate::pieces::{Reader, Writer};
use crate::text::{escape, unescaped, unescaped_text};
use argus_engine::{Fault, explain_text, steps};
use rows::{Row, RowFault, Words};
use run_model::{Answer, Setup, SetupFault, Step};
use stable_store::{PlainStable, Stable};
use std::alloc::{AllocError, Global};
use std::str;
use world::World;

/// `setup DOCUMENT`: the section has this setup, and a new world of it.
pub(crate) fn keep_setup(examples: &mut Examples, document: &str) -> Result<(), RowFault> {
    let setup = unescaped_text(examples.alloc, document)?;
    examples.world = world_of(examples.alloc, setup.as_str())?;
    examples.setup = setup;
    Ok(())
}

/// A new world of a setup's document.
pub(crate) fn world_of(alloc: Global, document: &str) -> Result<World<PlainStable>, RowFault> {
    match Setup::read(alloc, document.as_bytes()) {
        Ok(setup) => Ok(World::in_memory(alloc, setup)?),
        Err(SetupFault::Memory) => Err(RowFault::Memory),
        Err(SetupFault::Bad) => Err(RowFault::Unread),
    }
}

/// `steps LINES`: the section has these steps.
pub(crate) fn keep_steps(examples: &mut Examples, lines: &str) -> Result<(), RowFault> {
    examples.steps = unescaped(examples.alloc, lines)?;
    Ok(())
}

/// `long_line LENGTH`: behind the section's steps stands a line of so many bytes.
pub(crate) fn lengthen_steps(
    examples: &mut Examples,
    mut words: Words<'_>,
) -> Result<(), RowFault> {
    let mut lengthened = Vec::from_slice(examples.alloc, examples.steps.as_slice())?;
    for _ in 0..words.number()? {
        lengthened.push(b'a').map_err(AllocError::from)?;
    }
    lengthened.push(b'\n').map_err(AllocError::from)?;
    examples.steps = lengthened;
    Ok(())
}

/// What a row says of the fault of a step: a store that failed was not asked for.
pub(crate) fn fault_of_step(fault: world::Fault) -> RowFault {
    match fault {
        world::Fault::Memory => RowFault::Memory,
        world::Fault::Stable => RowFault::Unread,
    }
}

/// `step LINE`: the answer of the section's world to the step.
pub(crate) fn make_step<S: Stable>(
    alloc: Global,
    world: &mut World<S>,
    line: &str,
    answer: &mut String,
) -> Result<(), RowFault> {
    let given = made(alloc, world, line)?;
    // the step is made: only its answer's text can be asked for once more
    if given.write_to(answer).is_err() {
        given.write_to(answer)?;
    }
    Ok(())
}

/// The answer of the world to the step that the line spells.
pub(crate) fn made<S: Stable>(
    alloc: Global,
    world: &mut World<S>,
    line: &str,
) -> Result<Answer, RowFault> {
    match Step::read(alloc, line.as_bytes())? {
        Some(step) => answer_to(world, &step),
        None => Err(RowFault::Unread),
    }
}

/// The answer of the world to the step.
pub(crate) fn answer_to<S: Stable>(world: &mut World<S>, step: &Step) -> Result<Answer, RowFault> {
    world.step(step).map_err(fault_of_step)
}

/// `list`: what a new world answers to the section's steps as one list.
pub(crate) fn list_answers(examples: &Examples, answer: &mut String) -> Result<(), RowFault> {
    let mut answers: Vec<Answer> = Vec::new(examples.alloc);
    run_kept_steps(examples, &mut answers)?;
    write_answers(examples.alloc, answers.as_slice(), answer)
}

/// Makes the section's steps in a new world.
fn run_kept_steps(examples: &Examples, answers: &mut Vec<Answer>) -> Result<(), RowFault> {
    let list = list_of(examples.alloc, examples.steps.as_slice())?;
    let mut world = world_of(examples.alloc, examples.setup.as_str())?;
    run_list(&mut world, list.as_slice(), answers).map_err(fault_of_step)
}

fn write_answers(alloc: Global, answers: &[Answer], answer: &mut String) -> Result<(), RowFault> {
    for given in answers {
        let line = given.text(alloc)?;
        escape(line.as_str(), answer)?;
        answer.push_str("\\n")?;
    }
    Ok(())
}

/// The steps that lines with a line feed spell.
fn list_of(alloc: Global, lines: &[u8]) -> Result<Vec<Step>, RowFault> {
    let lines = str::from_utf8(lines).map_err(|_| RowFault::Unread)?;
    let (lines, _cut) = lines.rsplit_once('\n').unwrap_or(("", lines));
    let mut list = Vec::new(alloc);
    for line in lines.split('\n') {
        if let Some(step) = Step::read(alloc, line.as_bytes())? {
            list.push(step).map_err(AllocError::from)?;
        }
    }
    Ok(list)
}

/// Makes the steps one after another, and appends their answers. If memory was refused, the steps that have an answer
/// are made, and only the others are asked again.
fn run_list<S: Stable>(
    world: &mut World<S>,
    list: &[Step],
    answers: &mut Vec<Answer>,
) -> Result<(), world::Fault> {
    let before = answers.len();
    if world.run(list, answers).is_ok() {
        return Ok(());
    }
    match list.get(answers.len() - before..) {
        Some(left) => world.run(left, answers),
        None => Err(world::Fault::Memory),
    }
}

/// `engine READER WRITER`: what the engine writes of the section's steps in a new world, which the section then has.
pub(crate) fn engine_answers(
    examples: &mut Examples,
    row: &Row<'_>,
    answer: &mut String,
) -> Result<(), RowFault> {
    let mut world = world_of(examples.alloc, examples.setup.as_str())?;
    engine_answers_in(examples, &mut world, row, answer)?;
    examples.world = world;
    Ok(())
}

fn engine_answers_in(
    examples: &Examples,
    world: &mut World<PlainStable>,
    row: &Row<'_>,
    answer: &mut String,
) -> Result<(), RowFault> {
    let mut words = row.words();
    let mut reader = Reader::of_word(words.word()?, examples.steps.as_slice())?;
    let mut writer = Writer::of_word(examples.alloc, words.word()?)?;
    let ended = steps(examples.alloc, world, &mut reader, &mut writer);
    writer.tell(examples.alloc, ended, row.answer, answer)
}

/// `explain WRITER ACTION`: what is written of the action after what happened in the section's world.
pub(crate) fn explain_action(
    examples: &Examples,
    row: &Row<'_>,
    answer: &mut String,
) -> Result<(), RowFault> {
    let mut words = row.words();
    let mut writer = Writer::of_word(examples.alloc, words.word()?)?;
    let history = examples.world.history().unpacked()?;
    let ended = explain_text(examples.alloc, &history, words.rest(), &mut writer);
    writer.tell(examples.alloc, ended, row.answer, answer)
}

/// `rewrite LINE`: the step of the line, written again.
pub(crate) fn rewrite_step(alloc: Global, line: &str, answer: &mut String) -> Result<(), RowFault> {
    match Step::read(alloc, line.as_bytes())? {
        Some(step) => write_step(alloc, &step, answer),
        None => Err(RowFault::Unread),
    }
}

fn write_step(alloc: Global, step: &Step, answer: &mut String) -> Result<(), RowFault> {
    let text = step.text(alloc)?;
    Ok(answer.push_str(text.as_str())?)
}

/// `fault NAME`: the text of the engine's fault.
pub(crate) fn name_fault(alloc: Global, name: &str, answer: &mut String) -> Result<(), RowFault> {
    let fault = match name {
        "Memory" => Fault::Memory,
        "Store" => Fault::Store,
        "Input" => Fault::Input,
        "Output" => Fault::Output,
        _ => return Err(RowFault::Unread),
    };
    let text = format!(in alloc; "{fault}")?;
    Ok(answer.push_str(text.as_str())?)
}
