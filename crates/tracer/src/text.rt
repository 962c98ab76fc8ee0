//! The text of what is explained.
ghost use Rattle.std.specs.Prelude.{◌≡◌, ◌∷◌, [], ◌++◌, List, IfOk, OnOk, string_bytes};
ghost use Rattle.run_model.specs.declared.history.Event.{Event};
ghost use Rattle.run_model.specs.Explaining.{Explanation, explanation_lines, place_number, place_text};
ghost use Rattle.run_model.specs.Transcripts.{line_feed};
ghost use Rattle.tracer.specs.Places.{step_number, place_numbers};
ghost use Rattle.tracer.specs.Explained.{Explains, told_at, entries_text};

use crate::explained::{Explained, Performed};
use crate::place::{ClosingStep, Place};
use itoa::Buffer;
use run_model::text::{append_reply, append_request};
use run_model::{Answer, Refusal};
use std::alloc::{AllocError, Global};
use std::collections::BTreeMap;

impl Explained {
    /// Its lines, each with its line feed: `refused 2` for an action that was not begun, `orphan`, or a line an
    /// operation: its place, with `*` for a closing step that has not come, its action, its object, itself and its
    /// reply, as in `5.4.3 1.1 2/1 get n -> 0`.
    pub fn text(&self, alloc: Global) -> Result<String, AllocError>
        ensures { (told : Explanation) (past : List Event) → Explains self.now told past
            → IfOk result (λ text. string_bytes text ≡ explanation_lines told past) }
    {
        let mut text = String::new(alloc);
        match self {
            Explained::NotBegun => {
                Answer::Refused(Refusal::NoAction).write_to(&mut text)?;
                text.push('\n')?;
            }
            Explained::Orphan => text.push_str("orphan\n")?,
            Explained::Sees(operations) => append_lines(operations, &mut text)?,
        }
        Ok(text)
    }
}

/// Appends the lines of operations, by place.
fn append_lines(
    operations: &BTreeMap<Place, Performed>,
    text: &mut String,
) -> Result<(), AllocError>
    ensures { OnOk result
        (string_bytes text.new ≡ string_bytes text.old ++ entries_text operations.now.entries) }
{
    for (place, performed) in operations.iter() {
        append_line(place, performed, text)?;
    }
    Ok(())
}

/// Appends the line of an operation, with its line feed.
fn append_line(place: &Place, performed: &Performed, text: &mut String) -> Result<(), AllocError>
    ensures { OnOk result (string_bytes text.new
        ≡ string_bytes text.old ++ (told_at place.now performed.now ++ line_feed ∷ [])) }
{
    append_place(place, text)?;
    text.push(' ')?;
    performed.action.write_to(text)?;
    append_request(performed.object, &performed.operation, text)?;
    text.push_str(" -> ")?;
    append_reply(&performed.reply, text)?;
    text.push('\n')?;
    Ok(())
}

/// Appends the numbers of a place, joined by dots.
fn append_place(place: &Place, text: &mut String) -> Result<(), AllocError>
    ensures { OnOk result
        (string_bytes text.new ≡ string_bytes text.old ++ place_text (place_numbers place.now)) }
{
    let Some((first, others)) = place.steps().split_first() else {
        return Ok(());
    };
    append_number(first, text)?;
    for step in others {
        text.push('.')?;
        append_number(step, text)?;
    }
    Ok(())
}

fn append_number(step: &ClosingStep, text: &mut String) -> Result<(), AllocError>
    ensures { OnOk result
        (string_bytes text.new ≡ string_bytes text.old ++ place_number (step_number step.now)) }
{
    match step {
        ClosingStep::Came(number) => text.push_str(Buffer::new().format(*number)),
        ClosingStep::NotCome => text.push('*'),
    }
}
