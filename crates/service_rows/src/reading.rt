//! The arguments of rows.
use rows::{RowFault, Words};
use run_model::{ArmKind, ArmKinds, Name, NameFault, ObjectId, Value};
use std::alloc::{AllocError, Global};
use values::ValueFault;

/// The next word as the number of a guardian.
pub(crate) fn small_number(words: &mut Words<'_>) -> Result<u32, RowFault> {
    words.word()?.parse().map_err(|_| RowFault::Unread)
}

/// All words that are left, as numbers of guardians.
pub(crate) fn small_numbers(alloc: Global, words: Words<'_>) -> Result<Vec<u32>, RowFault> {
    let mut numbers = Vec::new(alloc);
    for word in words.rest().split(' ') {
        let number = word.parse().map_err(|_| RowFault::Unread)?;
        numbers.push(number).map_err(AllocError::from)?;
    }
    Ok(numbers)
}

/// The next word as the name of an action.
pub(crate) fn name(alloc: Global, words: &mut Words<'_>) -> Result<Name, RowFault> {
    match Name::parse(alloc, words.word()?) {
        Ok(name) => Ok(name),
        Err(NameFault::Memory) => Err(RowFault::Memory),
        Err(_) => Err(RowFault::Unread),
    }
}

/// The next word as an object: `2/1` is object 1 of guardian 2.
pub(crate) fn object(words: &mut Words<'_>) -> Result<ObjectId, RowFault> {
    let (guardian, number) = words.word()?.split_once('/').ok_or(RowFault::Unread)?;
    Ok(ObjectId {
        guardian: guardian.parse().map_err(|_| RowFault::Unread)?,
        number: number.parse().map_err(|_| RowFault::Unread)?,
    })
}

/// All words that are left, as kinds of arms.
pub(crate) fn kinds(alloc: Global, words: Words<'_>) -> Result<ArmKinds, RowFault> {
    let mut kinds = ArmKinds::new(alloc);
    for word in words.rest().split(' ') {
        kinds.push(kind(word)?)?;
    }
    Ok(kinds)
}

fn kind(word: &str) -> Result<ArmKind, RowFault> {
    match word {
        "sub" => Ok(ArmKind::Sub),
        "top" => Ok(ArmKind::Top),
        _ => Err(RowFault::Unread),
    }
}

/// All that is left, as a value.
pub(crate) fn value(alloc: Global, words: Words<'_>) -> Result<Value, RowFault> {
    match Value::from_spelling(alloc, words.rest()) {
        Ok(value) => Ok(value),
        Err(ValueFault::Memory) => Err(RowFault::Memory),
        Err(ValueFault::Unfit) => Err(RowFault::Unread),
    }
}
