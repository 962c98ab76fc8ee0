//! Calls that read a content, and write its one spelling. In their texts `↵` stands for a line feed.
use crate::texts;
use rows::{Row, RowFault};
use serde_json::Value as Json;
use std::alloc::Global;
use values::{Content, ValueFault};

pub(crate) fn answer(alloc: Global, row: &Row<'_>, answer: &mut String) -> Result<(), RowFault> {
    let text = row.given.replace(alloc, '↵', "\n")?;
    match read(alloc, row.call, text.as_str()) {
        Some(content) => write_content(alloc, content, answer),
        None => texts::answer(alloc, row, answer),
    }
}

/// What a call of this name reads, if there is one.
fn read(alloc: Global, call: &str, text: &str) -> Option<Result<Content, ValueFault>> {
    Some(match call {
        "read" => Content::read(alloc, text),
        "read_stored" => Content::read_stored(alloc, text),
        "spelling" => Content::from_spelling(alloc, text),
        "stored_spelling" => Content::from_stored_spelling(alloc, text),
        "json" => from_json(alloc, text),
        "stored_json" => from_stored_json(alloc, text),
        "copy" => copied(Content::from_spelling(alloc, text)),
        "stored_copy" => copied(Content::from_stored_spelling(alloc, text)),
        _ => return None,
    })
}

fn from_json(alloc: Global, text: &str) -> Result<Content, ValueFault> {
    let json = Json::from_str(alloc, text)?;
    Content::from_json(alloc, &json)
}

fn from_stored_json(alloc: Global, text: &str) -> Result<Content, ValueFault> {
    let json = Json::from_str(alloc, text)?;
    Content::from_stored_json(alloc, &json)
}

fn copied(content: Result<Content, ValueFault>) -> Result<Content, ValueFault> {
    Ok(content?.copy()?)
}

/// Writes the content, or why there is none.
fn write_content(
    alloc: Global,
    content: Result<Content, ValueFault>,
    answer: &mut String,
) -> Result<(), RowFault> {
    match content {
        Ok(content) => Ok(answer.push_str(content.text(alloc)?.as_str())?),
        Err(ValueFault::Memory) => Err(RowFault::Memory),
        Err(fault) => Ok(write!(answer, "{fault:?}")?),
    }
}
