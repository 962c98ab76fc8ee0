//! Arguments of rows that more than one module reads.
use action_names::{Name, NameFault, Names};
use percent_encoding::percent_decode;
use rows::{RowFault, Words};
use run_model::Step;
use std::alloc::{AllocError, Global};
use values::{Content, Identifier, Value, ValueFault};

/// A number, as those of guardians and top actions.
pub(crate) fn small_number(text: &str) -> Result<u32, RowFault> {
    text.parse().map_err(|_| RowFault::Unread)
}

/// The next word as such a number.
pub(crate) fn next_small_number(words: &mut Words<'_>) -> Result<u32, RowFault> {
    small_number(words.word()?)
}

pub(crate) fn int(words: &mut Words<'_>) -> Result<i64, RowFault> {
    words.word()?.parse().map_err(|_| RowFault::Unread)
}

pub(crate) fn identifier(alloc: Global, text: &str) -> Result<Identifier, RowFault> {
    Identifier::parse(alloc, text).map_err(value_unread)
}

/// The next word as an identifier.
pub(crate) fn next_identifier(
    alloc: Global,
    words: &mut Words<'_>,
) -> Result<Identifier, RowFault> {
    identifier(alloc, words.word()?)
}

/// The next word as a value by its one spelling.
pub(crate) fn next_value(alloc: Global, words: &mut Words<'_>) -> Result<Value, RowFault> {
    spelled_value(alloc, words.word()?)
}

/// A value by its one spelling.
pub(crate) fn spelled_value(alloc: Global, text: &str) -> Result<Value, RowFault> {
    Value::from_spelling(alloc, text).map_err(value_unread)
}

/// The content that the text spells.
pub(crate) fn content(alloc: Global, text: &str) -> Result<Content, RowFault> {
    Content::from_spelling(alloc, text).map_err(value_unread)
}

/// Why an argument that has to be a value, a content or an identifier is none.
fn value_unread(fault: ValueFault) -> RowFault {
    match fault {
        ValueFault::Memory => RowFault::Memory,
        ValueFault::Unfit => RowFault::Unread,
    }
}

/// The name that the text spells.
pub(crate) fn name(alloc: Global, text: &str) -> Result<Name, RowFault> {
    match Name::parse(alloc, text) {
        Ok(name) => Ok(name),
        Err(NameFault::Memory) => Err(RowFault::Memory),
        Err(_) => Err(RowFault::Unread),
    }
}

/// The names that the text spells, a blank between two.
pub(crate) fn names(alloc: Global, text: &str) -> Result<Names, RowFault> {
    let mut names = Names::new(alloc);
    for word in text.split(' ') {
        names.push(name(alloc, word)?).map_err(AllocError::from)?;
    }
    Ok(names)
}

/// The step that the text spells.
pub(crate) fn step(alloc: Global, text: &str) -> Result<Step, RowFault> {
    Step::read(alloc, text.as_bytes())?.ok_or(RowFault::Unread)
}

/// The bytes of the text, in which `%0A` stands for the byte 10.
pub(crate) fn bytes(alloc: Global, text: &str) -> Result<Vec<u8>, AllocError> {
    let mut bytes = Vec::new(alloc);
    percent_decode(text.as_bytes()).append_to(&mut bytes)?;
    Ok(bytes)
}
