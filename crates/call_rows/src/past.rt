//! A history that grows row by row.
use crate::{answers, packed, reading, steps};
use rows::{RowFault, Words};
use run_model::{Event, History};
use std::alloc::{AllocError, Global};

/// What has happened so far, and an event that came back because memory was refused. It stays until the row is
/// answered again.
#[derive(Drop)]
pub(crate) struct Past {
    history: History,
    returned: Option<Event>,
}

impl Past {
    pub(crate) fn new(alloc: Global) -> Past {
        Past {
            history: History::new(alloc),
            returned: None,
        }
    }

    /// Answers the rows `history CALL`.
    pub(crate) fn answer(
        &mut self,
        alloc: Global,
        mut words: Words<'_>,
        answer: &mut String,
    ) -> Result<(), RowFault> {
        match words.word()? {
            "push" => self.push(alloc, words.rest(), answer),
            "copy" => self.copy(answer),
            "events" => write_events(alloc, &self.history, answer),
            "packed" => packed::write(alloc, &self.history, answer),
            _ => Err(RowFault::Unread),
        }
    }

    /// `push STEP -> ANSWER`: records the event. If memory is refused, the event comes back. It is recorded when the
    /// row is answered again.
    fn push(&mut self, alloc: Global, text: &str, answer: &mut String) -> Result<(), RowFault> {
        answer.push_str("pushed")?;
        let event = match self.returned.take() {
            Some(event) => event,
            None => read_event(alloc, text)?,
        };
        match self.history.push(event) {
            Ok(()) => Ok(()),
            Err(failed) => {
                self.returned = Some(failed.value);
                Err(RowFault::Memory)
            }
        }
    }

    /// `copy`: puts a copy in the place of the history.
    fn copy(&mut self, answer: &mut String) -> Result<(), RowFault> {
        answer.push_str("copied")?;
        self.history = self.history.copy()?;
        Ok(())
    }
}

/// The event of a text `STEP -> ANSWER`.
fn read_event(alloc: Global, text: &str) -> Result<Event, RowFault> {
    let (step, said) = text.split_once(" -> ").ok_or(RowFault::Unread)?;
    let answer = answers::read(alloc, said)?;
    let step = reading::step(alloc, step)?;
    Ok(Event { step, answer })
}

/// `events`: the fields of each step, and its answer.
fn write_events(alloc: Global, history: &History, answer: &mut String) -> Result<(), RowFault> {
    for event in history.events() {
        write_event(alloc, event, answer)?;
    }
    Ok(())
}

fn write_event(alloc: Global, event: &Event, answer: &mut String) -> Result<(), AllocError> {
    answer.push('[')?;
    steps::write(&event.step, answer)?;
    write!(answer, ": {}]", event.answer.text(alloc)?.as_str())
}
