//! Steps, which are made once more if a store failed.
use crate::system::System;
use rows::{RowFault, again};
use run_model::{Answer, Step};
use world::Fault;

/// Room for what is written before an answer.
const ROOM: usize = 64;

/// What a store did in a step.
#[derive(Clone, Copy, PartialEq, Eq, Drop)]
pub(crate) enum Trouble {
    /// None failed.
    None,
    /// One failed, and nothing had happened.
    Failed,
    /// One failed, and the history was another.
    Happened,
}

impl Trouble {
    /// What is written of it before the answer.
    pub(crate) fn text(self) -> &'static str {
        match self {
            Trouble::None => "",
            Trouble::Failed => "failed, then ",
            Trouble::Happened => "failed with another history, then ",
        }
    }
}

/// The answer of a step, and what a store did before.
#[derive(Drop)]
pub(crate) struct Made {
    pub(crate) answer: Answer,
    pub(crate) trouble: Trouble,
}

/// Makes the step, once more if a store failed. If memory is refused, nothing has happened.
pub(crate) fn make<W: System>(world: &mut W, step: &Step) -> Result<Made, RowFault> {
    let before = world.events();
    match world.make(step) {
        Ok(answer) => Ok(Made {
            answer,
            trouble: Trouble::None,
        }),
        Err(Fault::Memory) => Err(RowFault::Memory),
        Err(Fault::Stable) => make_again(world, step, before),
    }
}

/// Makes the step in which a store failed, once more if memory was refused then. There were so many events before it.
fn make_again<W: System>(world: &mut W, step: &Step, before: usize) -> Result<Made, RowFault> {
    let trouble = if world.events() == before {
        Trouble::Failed
    } else {
        Trouble::Happened
    };
    let made = match world.make(step) {
        Err(Fault::Memory) => world.make(step),
        made => made,
    };
    match made {
        Ok(answer) => Ok(Made { answer, trouble }),
        Err(Fault::Memory) => Err(RowFault::Memory),
        Err(Fault::Stable) => Err(RowFault::Unread),
    }
}

/// `step LINE`: makes the step, and writes its answer.
pub(crate) fn write_step<W: System>(
    world: &mut W,
    step: &Step,
    answer: &mut String,
) -> Result<(), RowFault> {
    answer.reserve(ROOM)?;
    let made = make(world, step)?;
    // the step is made, and there is room: only the text of its answer can be asked for once more
    answer.push_str(made.trouble.text())?;
    Ok(again!(made.answer.write_to(answer))?)
}
