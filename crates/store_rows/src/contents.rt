//! Contents of stores, as rows write and show them.
use atomic_types::Part;
use rows::{RowFault, Words};
use stable_store::Kept;
use std::alloc::{AllocError, Global};
use std::collections::BTreeMap;
use std::fmt::Write;
use store_tables::{part_from_text, part_text};
use values::{Content, ValueFault};

/// The next word as the number of an object, a top action or a guardian.
pub(crate) fn number(words: &mut Words<'_>) -> Result<u32, RowFault> {
    words.word()?.parse().map_err(|_| RowFault::Unread)
}

/// The parts by object number of words `OBJECT=SPELLING`.
pub(crate) fn parts(alloc: Global, words: Words<'_>) -> Result<BTreeMap<u32, Part>, RowFault> {
    let mut parts = BTreeMap::new(alloc);
    for word in words.rest().split(' ') {
        if !word.is_empty() {
            let (object, spelling) = split(word)?;
            put(&mut parts, object, part(alloc, spelling)?)?;
        }
    }
    Ok(parts)
}

/// The contents by object number of words `OBJECT=SPELLING`.
pub(crate) fn contents(
    alloc: Global,
    words: Words<'_>,
) -> Result<BTreeMap<u32, Content>, RowFault> {
    let mut contents = BTreeMap::new(alloc);
    for word in words.rest().split(' ') {
        if !word.is_empty() {
            let (object, spelling) = split(word)?;
            put(&mut contents, object, content(alloc, spelling)?)?;
        }
    }
    Ok(contents)
}

/// The number of an object, and the spelling of what it has.
fn split(word: &str) -> Result<(u32, &str), RowFault> {
    let (object, spelling) = word.split_once('=').ok_or(RowFault::Unread)?;
    let object = object.parse().map_err(|_| RowFault::Unread)?;
    Ok((object, spelling))
}

fn put<T: Drop>(map: &mut BTreeMap<u32, T>, object: u32, value: T) -> Result<(), RowFault> {
    match map.insert(object, value) {
        Ok(_) => Ok(()),
        Err(_) => Err(RowFault::Memory),
    }
}

fn part(alloc: Global, spelling: &str) -> Result<Part, RowFault> {
    part_from_text(alloc, spelling).map_err(unread)
}

fn content(alloc: Global, spelling: &str) -> Result<Content, RowFault> {
    Content::from_stored_spelling(alloc, spelling).map_err(unread)
}

fn unread(fault: ValueFault) -> RowFault {
    match fault {
        ValueFault::Memory => RowFault::Memory,
        ValueFault::Unfit => RowFault::Unread,
    }
}

/// Writes a content in one line.
pub(crate) fn write_kept(alloc: Global, kept: &Kept, text: &mut String) -> Result<(), AllocError> {
    write!(text, "count {} next {}", kept.count, kept.next_top)?;
    write_parts(alloc, &kept.base, text)?;
    for (top, record) in &kept.prepared {
        write!(text, " [{top}@{}:", record.home)?;
        write_parts(alloc, &record.parts, text)?;
        text.push(']')?;
    }
    for top in &kept.decided {
        write!(text, " !{top}")?;
    }
    Ok(())
}

/// Writes each object's number with its part.
fn write_parts(
    alloc: Global,
    parts: &BTreeMap<u32, Part>,
    text: &mut String,
) -> Result<(), AllocError> {
    for (object, part) in parts {
        let spelling = part_text(alloc, part)?;
        write!(text, " {object}={}", spelling.as_str())?;
    }
    Ok(())
}
