//! Rows of pictures: what is shown over shapes.
use crate::examples::Examples;
use picture::{Window, lay_out, svg};
use rows::{Row, RowFault};

/// `picture FROM TO CLASS`: what is shown over the shapes of these classes in a picture of the section's world, or
/// what their texts are, with ` | ` between two. A `-` in place of an event is none.
pub(crate) fn list_shown(
    examples: &Examples,
    row: &Row<'_>,
    answer: &mut String,
) -> Result<(), RowFault> {
    let alloc = examples.alloc;
    let mut words = row.words();
    let window = Window {
        from: event(words.word()?)?,
        to: event(words.word()?)?,
    };
    let class = words.rest();
    let history = examples.world.history().unpacked()?;
    let layout = lay_out(alloc, examples.world.setup(), history.events(), window)?;
    let document = svg(alloc, &layout)?;
    let mut is_first = true;
    for line in document.as_str().lines() {
        if let Some(shown) = shown_over(line, class) {
            if !is_first {
                answer.push_str(" | ")?;
            }
            answer.push_str(shown)?;
            is_first = false;
        }
    }
    Ok(())
}

fn event(word: &str) -> Result<Option<u64>, RowFault> {
    if word == "-" {
        return Ok(None);
    }
    match word.parse() {
        Ok(number) => Ok(Some(number)),
        Err(_) => Err(RowFault::Unread),
    }
}

/// What is shown over the shape of the line, or its text, if it has a class that begins so.
fn shown_over<'a>(line: &'a str, class: &str) -> Option<&'a str> {
    let (_, rest) = line.split_once(" class=\"")?;
    if !rest.starts_with(class) {
        return None;
    }
    let (_, inside) = rest.split_once('>')?;
    let inside = inside.strip_prefix("<title>").unwrap_or(inside);
    let (shown, _) = inside.split_once("</")?;
    Some(shown)
}
