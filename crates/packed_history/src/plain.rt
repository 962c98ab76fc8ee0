//! Operations with at most a word and a number.
ghost use Rattle.std.specs.Prelude.{◌≡◌, IfOk, IfSome, MatchOption, OnErr, Some, slice_get};
ghost use Rattle.atomic_types.specs.Operations.{arguments_of, form_of, name_of};
ghost use Rattle.packed_history.specs.Plain.{HasPlain, IsKeptPlain, no_plain, plain_arguments, plain_before, plain_operation};

use atomic_types::{Arguments, Form, OpName};
use run_model::{Identifier, ObjectId, Op, Value};
use std::alloc::{AllocError, Global};
use std::marker::Model;
use std::str;

/// An operation on an object, with at most a word and a number. The bytes of the word lie at a place.
#[derive(Clone, Copy)]
struct Plain {
    object: ObjectId,
    name: OpName,
    len: u8,
    start: u32,
    number: i64,
}

const _: () = prove!(size_of::<Plain>() == 24);

/// Operations with at most a word and a number, and the bytes of their words, the oldest first.
#[derive(Drop)]
pub(crate) struct PlainOps {
    words: Vec<u8>,
    plain: Vec<Plain>,
}

impl Model for PlainOps {
    ghost use Rattle.packed_history.specs.Plain.{Plains};

    ghost Value = { Plains };

    ghost view = { λ a. record { words = a.words.items; plain = a.plain.items } };
}

impl PlainOps {
    /// Nothing is kept. This takes no memory.
    pub(crate) fn new(alloc: Global) -> PlainOps
        ensures { result ≡ no_plain }
    {
        PlainOps {
            words: Vec::new(alloc),
            plain: Vec::new(alloc),
        }
    }

    /// Keeps the operation, if it is plain, and says at which place. Without memory nothing is changed.
    pub(crate) fn keep(
        &mut self,
        object: ObjectId,
        operation: &Op,
    ) -> Result<Option<u32>, AllocError>
        ensures ok { IfOk result (λ place. MatchOption place (self.new ≡ self.old)
            (λ n. IsKeptPlain self.old self.new n object operation.now)) }
        ensures err { OnErr result (self.new ≡ self.old) }
    {
        let Some((word, number)) = word_and_number(operation) else {
            return Ok(None);
        };
        let Ok(len) = u8::try_from(word.len()) else {
            return Ok(None);
        };
        let (Ok(place), Ok(start)) = (
            u32::try_from(self.plain.len()),
            u32::try_from(self.words.len()),
        ) else {
            return Ok(None);
        };
        self.plain.reserve(1)?;
        self.words.extend_from_slice(word)?;
        self.plain.push_reserved(Plain {
            object,
            name: operation.name(),
            len,
            start,
            number,
        });
        Ok(Some(place))
    }

    /// Forgets what was kept from this place on. This takes no memory.
    pub(crate) fn cut(&mut self, place: u32)
        ensures { self.new ≡ plain_before self.old place }
    {
        if let Some(plain) = self.plain.get(place as usize) {
            self.words.truncate(plain.start as usize);
            self.plain.truncate(place as usize);
        }
    }

    /// The operation at this place, and on which object.
    pub(crate) fn operation(&self, place: u32) -> Result<(ObjectId, Op), AllocError>
        requires { HasPlain self.now place }
        ensures { IfOk result
            (λ request. plain_operation self.now.words (slice_get self.now.plain place)
            ≡ Some request) }
    {
        let plain = self.plain[place as usize];
        let start = plain.start as usize;
        let word = &self.words[start..start + plain.len as usize];
        let alloc = *self.words.allocator();
        let arguments = arguments(alloc, plain.name.form(), word, plain.number)?;
        match Op::of(plain.name, arguments) {
            Some(operation) => Ok((plain.object, operation)),
            None => Err(AllocError),
        }
    }
}

// The word of an operation and its number, where it has no more than these.
fn word_and_number(operation: &Op) -> Option<(&[u8], i64)>
    ensures { IfSome result (λ p. plain_arguments (form_of (name_of operation.now)) p.0.now p.1
        ≡ arguments_of operation.now) }
{
    match operation {
        Op::Low | Op::High | Op::Size | Op::RemoveHigh | Op::RemoveLow | Op::Total => {
            Some((&[], 0))
        }
        Op::Get(word) | Op::Is(word) | Op::ValueOf(word) => Some((word.as_str().as_bytes(), 0)),
        Op::Set(word, Value::Int(number)) | Op::Change(word, Value::Int(number)) => {
            Some((word.as_str().as_bytes(), *number))
        }
        Op::Fetch(index) => Some((&[], *index)),
        Op::AddHigh(Value::Int(number)) | Op::AddLow(Value::Int(number)) => Some((&[], *number)),
        Op::Put(Value::Int(number)) | Op::Add(Value::Int(number)) => Some((&[], *number)),
        _ => None,
    }
}

// The arguments of this form that the word and the number are.
fn arguments(
    alloc: Global,
    form: Form,
    word: &[u8],
    number: i64,
) -> Result<Arguments<Identifier, i64, Value>, AllocError>
    ensures { IfOk result (λ arguments. arguments ≡ plain_arguments form word.now number) }
{
    Ok(match form {
        Form::Nothing => Arguments::Nothing,
        Form::Word => Arguments::Word(identifier(alloc, word)?),
        Form::WordValue => Arguments::WordValue(identifier(alloc, word)?, Value::Int(number)),
        Form::Index => Arguments::Index(number),
        Form::IndexValue => Arguments::IndexValue(number, Value::Int(number)),
        Form::Value => Arguments::Value(Value::Int(number)),
    })
}

// The identifier of these bytes, which are those of an identifier.
fn identifier(alloc: Global, bytes: &[u8]) -> Result<Identifier, AllocError>
    ensures { IfOk result (λ word. word ≡ bytes.now) }
{
    let text = str::from_utf8(bytes).map_err(|_| AllocError)?;
    Identifier::parse(alloc, text).map_err(|_| AllocError)
}
