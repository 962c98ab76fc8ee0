//! Rows of scripts: which faults they have, and what comes of their runs.
ghost use Rattle.std.specs.Prelude.{IfOk};
ghost use Rattle.script_model.specs.Resolved.{IsResolved};
ghost use Rattle.script_engine.specs.Running.{IsFit};

use crate::examples::Examples;
use crate::pieces::Writer;
use crate::step_rows::fault_of_step;
use crate::text::unescaped_text;
use activities::run_serial;
use argus_engine::{Ended, Fault, check_script, read_script, steps};
use rows::{Row, RowFault};
use run_model::History;
use script::{Checked, ScriptFault, check, read};
use script_engine::{run_file, setup_of};
use script_model::{FaultKind, Pointer};
use script_runs::Serially;
use stable_store::PlainStable;
use std::alloc::{AllocError, Global};
use world::World;

/// The steps of a run and their answers, a line each.
#[derive(Drop)]
struct Lines {
    steps: String,
    answers: String,
}

/// The script of a text that is one.
pub(crate) fn script_of(alloc: Global, text: &str) -> Result<Checked, RowFault>
    ensures fits { IfOk result IsFit }
    ensures resolved { IfOk result IsResolved }
{
    match checked(alloc, text) {
        Ok(script) => Ok(script),
        Err(ScriptFault::Memory) => Err(RowFault::Memory),
        Err(ScriptFault::Bad(_, _)) => Err(RowFault::Unread),
    }
}

fn checked(alloc: Global, text: &str) -> Result<Checked, ScriptFault>
    ensures fits { IfOk result IsFit }
    ensures resolved { IfOk result IsResolved }
{
    check(alloc, read(alloc, text.as_bytes())?)
}

/// `check WRITER TEXT`: what the engine writes of the text in the section's frame.
pub(crate) fn check_text(
    examples: &Examples,
    row: &Row<'_>,
    answer: &mut String,
) -> Result<(), RowFault> {
    let alloc = examples.alloc;
    let mut words = row.words();
    let mut writer = Writer::of_word(alloc, words.word()?)?;
    let text = unescaped_text(alloc, words.rest())?;
    let text = framed(alloc, examples.frame.as_str(), text.as_str())?;
    let ended = check_script(alloc, text.as_bytes(), &mut writer);
    writer.tell(alloc, ended, row.answer, answer)
}

/// The text in the place of the frame's `%`.
fn framed(alloc: Global, frame: &str, text: &str) -> Result<String, AllocError> {
    let (before, after) = frame.split_once('%').unwrap_or((frame, ""));
    format!(in alloc; "{before}{text}{after}")
}

/// `script TEXT`: how many guardians, handlers and clients the script has, which the section then has. Nothing was
/// written then. Of a text that is no script, its fault was.
pub(crate) fn keep_script(
    examples: &mut Examples,
    row: &Row<'_>,
    answer: &mut String,
) -> Result<(), RowFault> {
    let script = unescaped_text(examples.alloc, row.given)?;
    let mut writer = Writer::of_word(examples.alloc, "wide")?;
    match counts(examples.alloc, script.as_str(), &mut writer) {
        Ok(Some(counts)) => {
            writer.push(counts.as_str(), answer)?;
            examples.script = script;
            Ok(())
        }
        Ok(None) => writer.tell(examples.alloc, Ok(Ended::Stopped), row.answer, answer),
        Err(fault) => writer.tell(examples.alloc, Err(fault), row.answer, answer),
    }
}

/// How much the script of a text has, if it is one.
fn counts(alloc: Global, text: &str, writer: &mut Writer) -> Result<Option<String>, Fault> {
    let Some(script) = read_script(alloc, text.as_bytes(), writer)? else {
        return Ok(None);
    };
    let guardians = script.guardians.len();
    let handlers = script.handlers.len();
    let clients = script.clients.len();
    Ok(Some(format!(in alloc; "{guardians} guardians, {handlers} handlers, {clients} clients")?))
}

/// `run WRITER`: what is told of a run of the section's script.
pub(crate) fn run_kept_script(
    examples: &Examples,
    row: &Row<'_>,
    answer: &mut String,
) -> Result<(), RowFault> {
    let mut untraced: Option<Writer> = None;
    let mut writer = Writer::of_word(examples.alloc, row.given)?;
    let ended = run_file(
        examples.alloc,
        &mut Serially,
        examples.script.as_bytes(),
        &mut untraced,
        &mut writer,
    );
    writer.tell(examples.alloc, ended, row.answer, answer)
}

/// `run_text WRITER TEXT`: what is told of a run of the text, which may be no script.
pub(crate) fn run_text(alloc: Global, row: &Row<'_>, answer: &mut String) -> Result<(), RowFault> {
    let mut words = row.words();
    let mut untraced: Option<Writer> = None;
    let mut writer = Writer::of_word(alloc, words.word()?)?;
    let text = unescaped_text(alloc, words.rest())?;
    let ended = run_file(
        alloc,
        &mut Serially,
        text.as_bytes(),
        &mut untraced,
        &mut writer,
    );
    writer.tell(alloc, ended, row.answer, answer)
}

/// `remake`: whether the engine gives the same answers to the steps of a run of the section's script, as lines, in a
/// new world.
pub(crate) fn remake_steps(examples: &Examples, answer: &mut String) -> Result<(), RowFault> {
    let script = script_of(examples.alloc, examples.script.as_str())?;
    let made = made(examples.alloc, &script)?;
    match answers_again(examples.alloc, &script, made.steps.as_str()) {
        Ok(again) if again.as_slice() == made.answers.as_bytes() => {
            Ok(answer.push_str("the same answers")?)
        }
        Ok(_) => Ok(answer.push_str(made.answers.as_str())?),
        // the writer takes memory alone
        Err(Fault::Memory | Fault::Output) => Err(RowFault::Memory),
        Err(_) => Err(RowFault::Unread),
    }
}

/// What a run of the script makes.
fn made(alloc: Global, script: &Checked) -> Result<Lines, RowFault>
    requires fits { IsFit script.now }
    requires resolved { IsResolved script.now }
{
    let mut world = World::in_memory(alloc, setup_of(alloc, script)?)?;
    run_in(alloc, &mut world, script)?;
    lines_in(alloc, &world)
}

fn run_in(alloc: Global, world: &mut World<PlainStable>, script: &Checked) -> Result<(), RowFault>
    requires { IsResolved script.now }
{
    run_serial(alloc, world, script).map_err(fault_of_step)?;
    Ok(())
}

/// What has happened in the world.
fn lines_in(alloc: Global, world: &World<PlainStable>) -> Result<Lines, RowFault> {
    let history = world.history().unpacked()?;
    Ok(lines_of(alloc, &history)?)
}

fn lines_of(alloc: Global, history: &History) -> Result<Lines, AllocError> {
    let mut steps = String::new(alloc);
    let mut answers = String::new(alloc);
    for event in history.events() {
        steps.push_str(event.step.text(alloc)?.as_str())?;
        steps.push('\n')?;
        answers.push_str(event.answer.text(alloc)?.as_str())?;
        answers.push('\n')?;
    }
    Ok(Lines { steps, answers })
}

/// What the engine writes of these steps in a new world of the script's objects.
fn answers_again(alloc: Global, script: &Checked, made: &str) -> Result<Vec<u8>, Fault>
    requires { IsFit script.now }
{
    let mut world = World::in_memory(alloc, setup_of(alloc, script)?)?;
    let mut reader = made.as_bytes();
    let mut written = Vec::new(alloc);
    steps(alloc, &mut world, &mut reader, &mut written)?;
    Ok(written)
}

/// `place TEXT`: the text of the place.
pub(crate) fn print_place(alloc: Global, text: &str, answer: &mut String) -> Result<(), RowFault> {
    let place = Pointer::new(String::from_str(alloc, text)?);
    Ok(answer.push_str(place.as_str())?)
}

/// `fault_number NAME`: the number of the script's fault.
pub(crate) fn number_fault(alloc: Global, name: &str, answer: &mut String) -> Result<(), RowFault> {
    let number = match name {
        "Shape" => FaultKind::Shape.number(),
        "Recursion" => FaultKind::Recursion.number(),
        _ => return Err(RowFault::Unread),
    };
    let text = format!(in alloc; "{number}")?;
    Ok(answer.push_str(text.as_str())?)
}
