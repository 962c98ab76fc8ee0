//! A setup that is read, or put together guardian by guardian.
use crate::reading;
use limits::MAX_GUARDIANS;
use rows::{RowFault, Words};
use run_model::{Content, Kind, Setup, SetupFault};
use std::alloc::{AllocError, Global};
use values::Array;

/// Answers the rows `setup CALL`.
pub(crate) fn answer(
    alloc: Global,
    setup: &mut Setup,
    mut words: Words<'_>,
    answer: &mut String,
) -> Result<(), RowFault> {
    match words.word()? {
        "read" => read(alloc, setup, words.rest(), answer),
        "read_opening" => read_opening(alloc, setup, words.rest(), answer),
        "text" => Ok(answer.push_str(setup.text(alloc)?.as_str())?),
        "copy" => copy(setup, answer),
        "add" => add(setup, contents(alloc, words.rest())?, answer),
        "add_arrays" => add(setup, arrays(alloc, words.number()?)?, answer),
        "fill" => fill(alloc, setup, answer),
        "guardians" => Ok(write!(answer, "{}", setup.guardians())?),
        "objects" => write_count(setup, reading::next_small_number(&mut words)?, answer),
        "spelled" => write_contents(
            alloc,
            setup,
            reading::next_small_number(&mut words)?,
            answer,
        ),
        "inhabited" => write_inhabited(setup, answer),
        _ => Err(RowFault::Unread),
    }
}

/// `read DOCUMENT`: puts the setup of the document in the place of the one that is there, if it is one.
fn read(
    alloc: Global,
    setup: &mut Setup,
    document: &str,
    answer: &mut String,
) -> Result<(), RowFault> {
    answer.reserve(4)?;
    let bytes = reading::bytes(alloc, document)?;
    put(setup, Setup::read(alloc, bytes.as_slice()), answer)
}

/// `read_opening DOCUMENT`: the same of the setup of a trace.
fn read_opening(
    alloc: Global,
    setup: &mut Setup,
    document: &str,
    answer: &mut String,
) -> Result<(), RowFault> {
    answer.reserve(4)?;
    let bytes = reading::bytes(alloc, document)?;
    put(setup, Setup::read_opening(alloc, bytes.as_slice()), answer)
}

/// Puts the setup that was found in the place of the one that is there, if one was found.
fn put(
    setup: &mut Setup,
    found: Result<Setup, SetupFault>,
    answer: &mut String,
) -> Result<(), RowFault> {
    match found {
        Ok(found) => *setup = found,
        Err(SetupFault::Memory) => return Err(RowFault::Memory),
        Err(SetupFault::Bad) => return Ok(answer.push_str("bad")?),
    }
    Ok(answer.push_str("read")?)
}

/// `copy`: puts a copy in the place of the setup.
fn copy(setup: &mut Setup, answer: &mut String) -> Result<(), RowFault> {
    answer.push_str("copied")?;
    *setup = setup.copy()?;
    Ok(())
}

/// `add CONTENTS`: adds a guardian with these objects; so does `add_arrays COUNT`, with so many arrays. Before it is
/// added there is room for what is written then.
fn add(setup: &mut Setup, contents: Vec<Content>, answer: &mut String) -> Result<(), RowFault> {
    answer.reserve(64)?;
    write!(answer, "{} objects ", contents.len())?;
    let there = setup.guardians();
    let said = match setup.add_guardian(contents) {
        Ok(()) => "added",
        Err(SetupFault::Bad) => "bad",
        Err(SetupFault::Memory) => return Err(refused(setup, there)),
    };
    Ok(answer.push_str(said)?)
}

/// Memory was refused for a guardian. The setup has to have as many as before, or else the row is not read.
fn refused(setup: &Setup, there: usize) -> RowFault {
    if setup.guardians() == there {
        RowFault::Memory
    } else {
        RowFault::Unread
    }
}

/// The contents that the text spells, a blank between two.
fn contents(alloc: Global, text: &str) -> Result<Vec<Content>, RowFault> {
    let mut contents = Vec::new(alloc);
    for word in text.split_whitespace() {
        contents
            .push(reading::content(alloc, word)?)
            .map_err(AllocError::from)?;
    }
    Ok(contents)
}

/// So many arrays of no items.
fn arrays(alloc: Global, count: u64) -> Result<Vec<Content>, RowFault> {
    let mut contents = Vec::new(alloc);
    for _ in 0..count {
        contents
            .push(Content::Array(array(alloc)?))
            .map_err(AllocError::from)?;
    }
    Ok(contents)
}

fn array(alloc: Global) -> Result<Array, RowFault> {
    Array::from_items(Kind::Int, 1, Vec::new(alloc))?.map_err(|_| RowFault::Unread)
}

/// `fill`: adds guardians of no objects to the limit. If memory is refused for one of them, the row goes on with it
/// when it is answered again.
fn fill(alloc: Global, setup: &mut Setup, answer: &mut String) -> Result<(), RowFault> {
    answer.push_str("filled")?;
    for there in setup.guardians()..MAX_GUARDIANS {
        match setup.add_guardian(Vec::new(alloc)) {
            Ok(()) => {}
            Err(SetupFault::Bad) => return Err(RowFault::Unread),
            Err(SetupFault::Memory) => return Err(refused(setup, there)),
        }
    }
    Ok(())
}

/// `objects GUARDIAN`: how many it has.
fn write_count(setup: &Setup, guardian: u32, answer: &mut String) -> Result<(), RowFault> {
    write!(answer, "{}", setup.objects(guardian).len())?;
    Ok(())
}

/// `spelled GUARDIAN`: the contents of its objects.
fn write_contents(
    alloc: Global,
    setup: &Setup,
    guardian: u32,
    answer: &mut String,
) -> Result<(), RowFault> {
    let contents = setup.objects(guardian);
    write!(answer, "{}:", contents.len())?;
    for content in contents {
        write_content(alloc, content, answer)?;
    }
    Ok(())
}

fn write_content(alloc: Global, content: &Content, answer: &mut String) -> Result<(), AllocError> {
    let text = content.text(alloc)?;
    write!(answer, " {}", text.as_str())
}

/// `inhabited`: how many of the guardians that may be there have objects.
fn write_inhabited(setup: &Setup, answer: &mut String) -> Result<(), RowFault> {
    let count = (0..=MAX_GUARDIANS as u32)
        .filter(|number| !setup.objects(*number).is_empty())
        .count();
    write!(answer, "{count}")?;
    Ok(())
}
