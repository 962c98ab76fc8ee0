//! Operations on an object.
use crate::reading::{content, int, next_identifier, next_value};
use atomic_types::{Arguments, AtomicType, Form, Op, OpName, Reply};
use rows::{Row, RowFault, Words};
use std::alloc::{AllocError, Global};
use values::{Content, Identifier, Record, Value};

/// The object on which operations are performed.
#[derive(Drop)]
pub(crate) struct Performing {
    alloc: Global,
    object: Option<Content>,
}

impl Performing {
    pub(crate) fn new(alloc: Global) -> Performing {
        Performing {
            alloc,
            object: None,
        }
    }

    pub(crate) fn answer(&mut self, row: &Row<'_>, answer: &mut String) -> Result<(), RowFault> {
        match row.call {
            "content" => self.hold_content(row.given),
            "describe" => describe(self.alloc, row.words(), answer),
            _ => self.perform(row, answer),
        }
    }

    fn hold_content(&mut self, spelling: &str) -> Result<(), RowFault> {
        self.object = Some(content(self.alloc, spelling)?);
        Ok(())
    }

    /// Performs the operation that the row spells.
    fn perform(&mut self, row: &Row<'_>, answer: &mut String) -> Result<(), RowFault> {
        let op = read_op(self.alloc, row.call, row.words())?;
        match &mut self.object {
            Some(object) => perform_on(self.alloc, object, &op, answer),
            None => Err(RowFault::Unread),
        }
    }
}

/// The operation of this name.
fn read_op(alloc: Global, name: &str, words: Words<'_>) -> Result<Op, RowFault> {
    let name = OpName::read(name).ok_or(RowFault::Unread)?;
    let arguments = read_arguments(alloc, name.form(), words)?;
    Op::of(name, arguments).ok_or(RowFault::Unread)
}

/// Arguments of this form.
fn read_arguments(
    alloc: Global,
    form: Form,
    mut words: Words<'_>,
) -> Result<Arguments<Identifier, i64, Value>, RowFault> {
    Ok(match form {
        Form::Nothing => Arguments::Nothing,
        Form::Word => Arguments::Word(next_identifier(alloc, &mut words)?),
        Form::Index => Arguments::Index(int(&mut words)?),
        Form::Value => Arguments::Value(next_value(alloc, &mut words)?),
        Form::WordValue => {
            let word = next_identifier(alloc, &mut words)?;
            Arguments::WordValue(word, next_value(alloc, &mut words)?)
        }
        Form::IndexValue => {
            let index = int(&mut words)?;
            Arguments::IndexValue(index, next_value(alloc, &mut words)?)
        }
    })
}

/// Writes what a copy of the object replies to the operation. Then the object itself performs it, and must reply the
/// same.
fn perform_on<T: AtomicType>(
    alloc: Global,
    object: &mut T,
    op: &Op,
    answer: &mut String,
) -> Result<(), RowFault> {
    if !object.knows(op) {
        return Ok(answer.push_str("unknown")?);
    }
    let wanted = reply_of_copy(object, op)?;
    write_reply(alloc, &wanted, answer)?;
    if object.apply(op)? == wanted {
        return Ok(());
    }
    Ok(answer.push_str(" of a copy alone")?)
}

fn reply_of_copy<T: AtomicType>(object: &T, op: &Op) -> Result<Reply, RowFault> {
    let mut copy = object.copy()?;
    if !copy.knows(op) {
        return Err(RowFault::Unread);
    }
    Ok(copy.apply(op)?)
}

fn write_reply(alloc: Global, reply: &Reply, answer: &mut String) -> Result<(), RowFault> {
    match reply {
        Reply::Gives(value) => answer.push_str(value.text(alloc)?.as_str())?,
        Reply::Truth(holds) => write!(answer, "{holds}")?,
        Reply::Done => answer.push_str("done")?,
        Reply::Signals(signal) => write!(answer, "{signal:?}")?,
    }
    Ok(())
}

/// Reads an operation, and writes what there is to say of it.
fn describe(alloc: Global, mut words: Words<'_>, answer: &mut String) -> Result<(), RowFault> {
    let name = words.word()?;
    let op = read_op(alloc, name, words)?;
    Ok(write_description(&op, answer)?)
}

/// Writes the operation's name and class, the form of its arguments, whether it gives a value, and whether its copy
/// equals it.
fn write_description(op: &Op, answer: &mut String) -> Result<(), AllocError> {
    let name = op.name();
    write!(
        answer,
        "{} {:?} {:?} {} {}",
        name.text(),
        Record::class(op),
        name.form(),
        name.gives_value(),
        equals_copy(op)?
    )
}

fn equals_copy(op: &Op) -> Result<bool, AllocError> {
    let copy = op.copy()?;
    Ok(copy == *op)
}
