//! What a store holds, in words and in one line.
use atomic_types::Part;
use rows::{RowFault, Words};
use stable_store::{Kept, Prepared};
use std::alloc::{AllocError, Global};
use std::collections::BTreeMap;
use store_tables::{part_from_text, part_text};
use values::ValueFault;

/// The next word as the number of a guardian, an object or a top action.
pub(crate) fn number(words: &mut Words<'_>) -> Result<u32, RowFault> {
    words.word()?.parse().map_err(|_| RowFault::Unread)
}

/// The parts by object number of words `OBJECT=SPELLING`.
pub(crate) fn parts(alloc: Global, words: Words<'_>) -> Result<BTreeMap<u32, Part>, RowFault> {
    let mut parts = BTreeMap::new(alloc);
    for word in words.rest().split(' ') {
        if !word.is_empty() {
            let (object, spelling) = split(word)?;
            put(&mut parts, object, part(alloc, spelling)?)?;
        }
    }
    Ok(parts)
}

/// The number of an object, and the spelling of what it has.
fn split(word: &str) -> Result<(u32, &str), RowFault> {
    let (object, spelling) = word.split_once('=').ok_or(RowFault::Unread)?;
    let object = object.parse().map_err(|_| RowFault::Unread)?;
    Ok((object, spelling))
}

fn put(parts: &mut BTreeMap<u32, Part>, object: u32, part: Part) -> Result<(), AllocError> {
    drop(parts.insert(object, part)?);
    Ok(())
}

fn part(alloc: Global, spelling: &str) -> Result<Part, RowFault> {
    match part_from_text(alloc, spelling) {
        Ok(part) => Ok(part),
        Err(ValueFault::Memory) => Err(RowFault::Memory),
        Err(ValueFault::Unfit) => Err(RowFault::Unread),
    }
}

/// What so many new stores hold.
pub(crate) fn empty(alloc: Global, count: usize) -> Result<Vec<Kept>, AllocError> {
    let mut stores = Vec::new(alloc);
    for _ in 0..count {
        stores.push(Kept::new(alloc))?;
    }
    Ok(stores)
}

/// Puts the record of a prepared top action into what a store holds.
pub(crate) fn put_record(kept: &mut Kept, top: u32, record: Prepared) -> Result<(), AllocError> {
    drop(kept.prepared.insert(top, record)?);
    kept.next_top = kept.next_top.max(u64::from(top) + 1);
    Ok(())
}

/// Puts a top action among the decided ones of what a store holds.
pub(crate) fn put_decided(kept: &mut Kept, top: u32) -> Result<(), AllocError> {
    kept.decided.insert(top)?;
    Ok(())
}

/// Writes in one line what a store holds.
pub(crate) fn write_kept(alloc: Global, kept: &Kept, text: &mut String) -> Result<(), AllocError> {
    write!(text, "count {} ", kept.count)?;
    write_uncounted(alloc, kept, text)
}

/// The same without the count of recoveries.
pub(crate) fn write_uncounted(
    alloc: Global,
    kept: &Kept,
    text: &mut String,
) -> Result<(), AllocError> {
    write!(text, "next {}", kept.next_top)?;
    write_parts(alloc, &kept.base, text)?;
    for (top, record) in &kept.prepared {
        write!(text, " [{top}@{}:", record.home)?;
        write_parts(alloc, &record.parts, text)?;
        text.push(']')?;
    }
    for top in &kept.decided {
        write!(text, " !{top}")?;
    }
    Ok(())
}

/// Writes each object's number with its part.
fn write_parts(
    alloc: Global,
    parts: &BTreeMap<u32, Part>,
    text: &mut String,
) -> Result<(), AllocError> {
    for (object, part) in parts {
        let spelling = part_text(alloc, part)?;
        write!(text, " {object}={}", spelling.as_str())?;
    }
    Ok(())
}
