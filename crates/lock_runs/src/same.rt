//! Lists of steps at random, which a world and a runtime with one caller answer alike.

use crate::examples::answers_to;
use crate::random::{SETUP, Walk};
use crate::runs::{push, world_answer, world_of};
use rows::RowFault;
use run_model::{Answer, Step};
use stable_store::PlainStable;
use std::alloc::{AllocError, Global};
use std::sync::Wait;
use std::thread::Threads;
use world::World;

/// How many lists there are, and how many steps each has.
const LISTS: u64 = 200;

const STEPS: u64 = 500;

/// How many refusals there are, and how many kinds of other answers.
const REFUSALS: usize = 19;

const KINDS: usize = 6;

/// What the lists were answered.
#[derive(Drop)]
pub(crate) struct Compared {
    /// Whether each answer of the runtime was that of the world.
    pub(crate) same: bool,
    /// How many of the refusals occurred.
    pub(crate) refusals: usize,
    /// How many of the kinds of other answers.
    pub(crate) kinds: usize,
}

/// Steps and their answers.
#[derive(Drop)]
struct List {
    steps: Vec<Step>,
    answers: Vec<Answer>,
}

/// Which answers occurred: the refusals by number, and then the other kinds.
type Occurred = [bool; REFUSALS + KINDS];

/// Makes each list by a world, and then by a runtime.
pub(crate) fn same_answers<H: Threads + Wait + Sync>(
    alloc: Global,
    rt: &H,
) -> Result<Compared, RowFault> {
    let mut occurred = [false; REFUSALS + KINDS];
    let mut same = true;
    for seed in 1..=LISTS {
        let list = list_of(alloc, seed)?;
        let answers = answers_to(alloc, rt, SETUP, &list.steps)?;
        same = same && are_same(alloc, &list.answers, &answers)?;
        note(&list.answers, &mut occurred);
    }
    Ok(Compared {
        same,
        refusals: count(&occurred[..REFUSALS]),
        kinds: count(&occurred[REFUSALS..]),
    })
}

/// A list of steps at random, with what a world answers.
fn list_of(alloc: Global, seed: u64) -> Result<List, RowFault> {
    let mut world = world_of(alloc, SETUP)?;
    let mut walk = Walk::new(alloc, seed);
    let mut list = List {
        steps: Vec::new(alloc),
        answers: Vec::new(alloc),
    };
    make_list(&mut world, &mut walk, &mut list)?;
    Ok(list)
}

/// Makes the steps of the walk in the world, and notes them and the answers.
fn make_list(
    world: &mut World<PlainStable>,
    walk: &mut Walk,
    list: &mut List,
) -> Result<(), RowFault> {
    for _ in 0..STEPS {
        make_next(world, walk, list)?;
    }
    Ok(())
}

fn make_next(
    world: &mut World<PlainStable>,
    walk: &mut Walk,
    list: &mut List,
) -> Result<(), RowFault> {
    let step = walk.next_step()?;
    let answer = world_answer(world, &step)?;
    push(&mut list.steps, step)?;
    walk.note(&answer)?;
    push(&mut list.answers, answer)?;
    Ok(())
}

/// Whether the answers are the same, one by one.
fn are_same(alloc: Global, these: &[Answer], those: &[Answer]) -> Result<bool, AllocError> {
    if these.len() != those.len() {
        return Ok(false);
    }
    for (one, other) in these.iter().zip(those) {
        if one.text(alloc)?.as_str() != other.text(alloc)?.as_str() {
            return Ok(false);
        }
    }
    Ok(true)
}

/// Notes which answers occurred.
fn note(answers: &[Answer], occurred: &mut Occurred) {
    for answer in answers {
        if let Some(place) = occurred.get_mut(place_of(answer)) {
            *place = true;
        }
    }
}

fn place_of(answer: &Answer) -> usize {
    match answer {
        Answer::Refused(why) => (why.number() as usize).saturating_sub(1),
        Answer::Began(_) => REFUSALS,
        Answer::Granted(_) => REFUSALS + 1,
        Answer::Waits(_) => REFUSALS + 2,
        Answer::VoteYes => REFUSALS + 3,
        Answer::VoteNo => REFUSALS + 4,
        Answer::Done(_) => REFUSALS + 5,
    }
}

fn count(occurred: &[bool]) -> usize {
    occurred.iter().filter(|place| **place).count()
}
