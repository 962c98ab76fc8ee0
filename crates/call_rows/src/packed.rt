//! The history of a section, kept compactly.
use packed_history::PackedHistory;
use rows::{RowFault, again};
use run_model::{Event, EventRef, History};
use std::alloc::{AllocError, Global};

/// `packed`: how many events a packed history of these has, and the lines of each. The newest is recorded twice and
/// taken back once.
pub(crate) fn write(alloc: Global, history: &History, answer: &mut String) -> Result<(), RowFault> {
    let packed = packed(alloc, history)?;
    write!(
        answer,
        "{} {} {}",
        packed.len(),
        packed.is_empty(),
        packed.next_stamp()
    )?;
    write_each(alloc, &packed, answer)?;
    answer.push_str(" and again")?;
    for event in again!(packed.unpacked())?.events() {
        write_lines(alloc, event, answer)?;
    }
    Ok(())
}

fn packed(alloc: Global, history: &History) -> Result<PackedHistory, AllocError> {
    let mut packed = PackedHistory::new(alloc);
    for event in history.events() {
        push(&mut packed, event)?;
        push(&mut packed, event)?;
        packed.pop();
    }
    Ok(packed)
}

/// Records the event; once more if memory is refused.
fn push(packed: &mut PackedHistory, event: &Event) -> Result<(), AllocError> {
    let event = EventRef {
        step: &event.step,
        answer: &event.answer,
    };
    again!(packed.push(&event))
}

/// Each event by its place, until there is none.
fn write_each(alloc: Global, packed: &PackedHistory, answer: &mut String) -> Result<(), RowFault> {
    for place in 0..=packed.len() {
        match again!(packed.event(place))? {
            Some(event) => write_lines(alloc, &event, answer)?,
            None => write!(answer, " none at {place}")?,
        }
    }
    Ok(())
}

fn write_lines(alloc: Global, event: &Event, answer: &mut String) -> Result<(), AllocError> {
    let step = event.step.text(alloc)?;
    let said = event.answer.text(alloc)?;
    write!(answer, " [{}: {}]", step.as_str(), said.as_str())
}
