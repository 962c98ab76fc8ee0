//! Events in rows, and where their parts lie.
ghost use Rattle.std.specs.Prelude.{◌≡◌, ◌≤◌, IfOk, MatchOption, OnErr, length};
ghost use Rattle.packed_history.specs.Steps.{action_in};
ghost use Rattle.packed_history.specs.Arenas.{HasRow, IsKept, event_in, no_parts, parts_before};

use crate::answers::{Answers, ShortAnswer};
use crate::steps::{ShortStep, Steps};
use run_model::{Event, EventRef, Step};
use std::alloc::{AllocError, Global};
use std::marker::Model;

/// An event. In its short form the numbers of the name in the step, if there is one, begin at a place; an event that
/// has no short form is kept whole.
#[derive(Clone, Copy)]
pub(crate) enum Row {
    Short {
        depth: u8,
        start: u32,
        step: ShortStep,
        answer: ShortAnswer,
    },
    Whole(usize),
}

const _: () = prove!(size_of::<Row>() == 24);

/// The parts of events, those of a sort behind one another.
#[derive(Drop)]
pub(crate) struct Arenas {
    /// Of the names in steps.
    numbers: Vec<u32>,
    steps: Steps,
    answers: Answers,
    whole: Vec<Event>,
}

impl Model for Arenas {
    ghost use Rattle.packed_history.specs.Arenas.{Parts};

    ghost Value = { Parts };

    ghost view = { λ a.
        record { numbers = a.numbers.items; steps = a.steps; answers = a.answers; whole = a.whole.items } };
}

impl Arenas {
    /// No parts. This takes no memory.
    pub(crate) fn new(alloc: Global) -> Arenas
        ensures { result ≡ no_parts }
    {
        Arenas {
            numbers: Vec::new(alloc),
            steps: Steps::new(alloc),
            answers: Answers::new(alloc),
            whole: Vec::new(alloc),
        }
    }

    /// Keeps the parts of an event, and says where they lie. Without memory nothing is changed.
    pub(crate) fn keep(&mut self, event: &EventRef<'_>) -> Result<Row, AllocError>
        ensures ok { IfOk result (λ row. IsKept self.old self.new row event.now) }
        ensures err { OnErr result (self.new ≡ self.old) }
    {
        match self.keep_short(event)? {
            Some(row) => Ok(row),
            None => self.keep_whole(event),
        }
    }

    fn keep_whole(&mut self, event: &EventRef<'_>) -> Result<Row, AllocError>
        ensures ok { IfOk result (λ row. IsKept self.old self.new row event.now) }
        ensures err { OnErr result (self.new ≡ self.old) }
    {
        let place = self.whole.len();
        self.whole.push(Event::of(event)?)?;
        Ok(Row::Whole(place))
    }

    // Keeps the event in its short form, if it has one.
    fn keep_short(&mut self, event: &EventRef<'_>) -> Result<Option<Row>, AllocError>
        ensures ok { IfOk result (λ row. MatchOption row (self.new ≡ self.old)
            (λ r. IsKept self.old self.new r event.now)) }
        ensures err { OnErr result (self.new ≡ self.old) }
    {
        let Ok(start) = u32::try_from(self.numbers.len()) else {
            return Ok(None);
        };
        let action = action_of(event.step);
        self.numbers.reserve(action.len())?;
        let Some(step) = self.steps.keep(event.step)? else {
            return Ok(None);
        };
        match self.answers.keep(action, event.answer) {
            Ok(Some(answer)) => {
                self.numbers.extend_from_slice(action).unwrap();
                Ok(Some(Row::Short {
                    depth: action.len() as u8,
                    start,
                    step,
                    answer,
                }))
            }
            other => {
                self.steps.cut(step);
                other.map(|_| None)
            }
        }
    }

    /// Forgets what was kept from this event on. This takes no memory.
    pub(crate) fn cut(&mut self, row: Row)
        ensures { self.new ≡ parts_before self.old row }
    {
        match row {
            Row::Short {
                start,
                step,
                answer,
                ..
            } => {
                self.numbers.truncate(start as usize);
                self.steps.cut(step);
                self.answers.cut(answer);
            }
            Row::Whole(place) => self.whole.truncate(place),
        }
    }

    /// The event.
    pub(crate) fn event(&self, row: Row) -> Result<Event, AllocError>
        requires { HasRow self.now row }
        ensures { IfOk result (λ event. event ≡ event_in self.now row) }
    {
        match row {
            Row::Short {
                depth,
                start,
                step,
                answer,
            } => {
                let start = start as usize;
                let action = &self.numbers[start..start + depth as usize];
                Ok(Event {
                    step: self.steps.step(action, step)?,
                    answer: self.answers.answer(action, answer)?,
                })
            }
            Row::Whole(place) => self.whole[place].copy(),
        }
    }
}

// The numbers of the action that the step names, if it names one.
fn action_of(step: &Step) -> &[u32]
    ensures numbers { result.now ≡ action_in step.now }
    ensures short { length result.now ≤ 32 }
{
    match step {
        Step::Top(_) | Step::Crash(_) | Step::Recover(_) => &[],
        Step::NestedTop(action) | Step::Call(action, _) => action.components(),
        Step::Arms(action, _) | Step::Op(action, _, _) => action.components(),
        Step::Commit(action) | Step::Close(action) | Step::Decide(action) => action.components(),
        Step::Abort(action) => action.components(),
        Step::Prepare(_, action) | Step::Tell(_, action) => action.components(),
    }
}
