//! Calls of identifiers, texts and values.
use crate::reading::{identifier, spelled_value};
use rows::{Row, RowFault};
use serde_json::Value as Json;
use std::alloc::{AllocError, Global};
use values::{Identifier, Text, Value, ValueFault};

pub(crate) fn answer(alloc: Global, row: &Row<'_>, answer: &mut String) -> Result<(), RowFault> {
    match row.call {
        "identifier" => shown_identifier(&identifier(alloc, row.given)?, answer),
        "identifier_of" | "text_of" | "quoted_of" => limit(alloc, row, answer),
        _ => answer_value(alloc, row, answer),
    }
}

/// Answers the calls of values.
fn answer_value(alloc: Global, row: &Row<'_>, answer: &mut String) -> Result<(), RowFault> {
    let text = row.given;
    match row.call {
        "value" => write_read(alloc, Value::from_spelling(alloc, text), answer),
        "value_json" => write_read(alloc, value_json(alloc, text), answer),
        "value_text" => write_read(alloc, Text::new(alloc, text).map(Value::Text), answer),
        "kind" => Ok(write!(answer, "{:?}", spelled_value(alloc, text)?.kind())?),
        _ => Err(RowFault::Unread),
    }
}

/// Writes the identifier as text, by `Display` and by `Debug`.
fn shown_identifier(name: &Identifier, answer: &mut String) -> Result<(), RowFault> {
    Ok(write!(answer, "{} {name} {name:?}", name.as_str())?)
}

/// How many bytes are read of a piece so many times, or why it is refused.
fn limit(alloc: Global, row: &Row<'_>, answer: &mut String) -> Result<(), RowFault> {
    let mut words = row.words();
    let piece = words.word()?;
    let count = words.number()?;
    let length = match row.call {
        "identifier_of" => identifier_length(alloc, repeated(alloc, "", piece, count)?.as_str()),
        "text_of" => text_length(alloc, repeated(alloc, "", piece, count)?.as_str()),
        _ => value_length(alloc, repeated(alloc, "\"", piece, count)?.as_str()),
    };
    match length {
        Ok(length) => Ok(write!(answer, "{length}")?),
        Err(ValueFault::Memory) => Err(RowFault::Memory),
        Err(fault) => Ok(write!(answer, "{fault:?}")?),
    }
}

/// The piece so many times, between two ends.
fn repeated(alloc: Global, end: &str, piece: &str, count: u64) -> Result<String, AllocError> {
    let mut text = String::from_str(alloc, end)?;
    for _ in 0..count {
        text.push_str(piece)?;
    }
    text.push_str(end)?;
    Ok(text)
}

fn identifier_length(alloc: Global, text: &str) -> Result<usize, ValueFault> {
    Ok(Identifier::parse(alloc, text)?.as_str().len())
}

fn text_length(alloc: Global, text: &str) -> Result<usize, ValueFault> {
    Ok(Text::new(alloc, text)?.as_str().len())
}

/// How long the text is that this spells; an int has no length.
fn value_length(alloc: Global, text: &str) -> Result<usize, ValueFault> {
    match Value::read(alloc, text)? {
        Value::Text(text) => Ok(text.as_str().len()),
        Value::Int(_) => Err(ValueFault::Unfit),
    }
}

fn value_json(alloc: Global, text: &str) -> Result<Value, ValueFault> {
    let json = Json::from_str(alloc, text)?;
    Value::from_json(alloc, &json)
}

/// Writes the value, or why there is none.
fn write_read(
    alloc: Global,
    value: Result<Value, ValueFault>,
    answer: &mut String,
) -> Result<(), RowFault> {
    match value {
        Ok(value) => Ok(answer.push_str(value.text(alloc)?.as_str())?),
        Err(ValueFault::Memory) => Err(RowFault::Memory),
        Err(fault) => Ok(write!(answer, "{fault:?}")?),
    }
}
