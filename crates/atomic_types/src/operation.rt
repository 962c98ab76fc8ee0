ghost use Rattle.std.specs.Prelude.{◌≡◌, ◌==◌, Some, None, IfOk};
ghost use Rattle.atomic_types.specs.Operations.{Op, arguments_of, class_of, form_of, gives_value, name_class, name_of, word_of, named, operation_of, with_each};

use crate::op::Class;
use std::alloc::AllocError;
use values::{Identifier, Value};

/// An operation on an object, over what indices and values are: numbers and values in a step, expressions in a script.
#[derive(Debug, PartialEq, Eq, Drop)]
pub enum Operation<I, V> {
    /// A record's field.
    Get(Identifier),
    Set(Identifier, V),
    /// The least and the greatest index of an array, and how many items it has.
    Low,
    High,
    Size,
    Fetch(I),
    Store(I, V),
    AddHigh(V),
    AddLow(V),
    RemoveHigh,
    RemoveLow,
    /// Whether a variant has this tag.
    Is(Identifier),
    /// A variant's value under this tag.
    ValueOf(Identifier),
    Change(Identifier, V),
    /// A counter's number.
    Total,
    Put(V),
    Add(V),
}

/// An operation of a step.
pub type Op = Operation<i64, Value>;

/// The name of an operation.
#[derive(Clone, Copy, Debug, PartialEq, Eq)]
pub enum OpName {
    Get,
    Set,
    Low,
    High,
    Size,
    Fetch,
    Store,
    AddHigh,
    AddLow,
    RemoveHigh,
    RemoveLow,
    Is,
    ValueOf,
    Change,
    Total,
    Put,
    Add,
}

/// Which arguments an operation takes. A word is the name of a field or of a tag.
#[derive(Clone, Copy, Debug, PartialEq, Eq)]
pub enum Form {
    Nothing,
    Word,
    WordValue,
    Index,
    IndexValue,
    Value,
}

/// The arguments of an operation.
#[derive(Debug, PartialEq, Eq, Drop)]
pub enum Arguments<W, I, V> {
    Nothing,
    Word(W),
    WordValue(W, V),
    Index(I),
    IndexValue(I, V),
    Value(V),
}

const ALL: [OpName; 17] = [
    OpName::Get,
    OpName::Set,
    OpName::Low,
    OpName::High,
    OpName::Size,
    OpName::Fetch,
    OpName::Store,
    OpName::AddHigh,
    OpName::AddLow,
    OpName::RemoveHigh,
    OpName::RemoveLow,
    OpName::Is,
    OpName::ValueOf,
    OpName::Change,
    OpName::Total,
    OpName::Put,
    OpName::Add,
];

impl OpName {
    /// The name as steps and scripts have it.
    pub fn text(self) -> &'static str
        ensures { result.now ≡ word_of self }
    {
        match self {
            OpName::Get => "get",
            OpName::Set => "set",
            OpName::Low => "low",
            OpName::High => "high",
            OpName::Size => "size",
            OpName::Fetch => "fetch",
            OpName::Store => "store",
            OpName::AddHigh => "addh",
            OpName::AddLow => "addl",
            OpName::RemoveHigh => "remh",
            OpName::RemoveLow => "reml",
            OpName::Is => "is",
            OpName::ValueOf => "value",
            OpName::Change => "change",
            OpName::Total => "total",
            OpName::Put => "put",
            OpName::Add => "add",
        }
    }

    /// The name that the text is, if it is one.
    pub fn read(text: &str) -> Option<OpName>
        ensures { result ≡ named text.now }
    {
        ALL.iter().copied().find(|name| name.text() == text)
    }

    /// Which arguments the operation takes.
    pub fn form(self) -> Form
        ensures { result ≡ form_of self }
    {
        match self {
            OpName::Low | OpName::High | OpName::Size => Form::Nothing,
            OpName::RemoveHigh | OpName::RemoveLow | OpName::Total => Form::Nothing,
            OpName::Get | OpName::Is | OpName::ValueOf => Form::Word,
            OpName::Set | OpName::Change => Form::WordValue,
            OpName::Fetch => Form::Index,
            OpName::Store => Form::IndexValue,
            OpName::AddHigh | OpName::AddLow | OpName::Put | OpName::Add => Form::Value,
        }
    }

    /// Whether the operation reads, writes or adds, also where it signals.
    pub fn class(self) -> Class
        ensures { result ≡ name_class self }
    {
        match self {
            OpName::Get | OpName::Low | OpName::High | OpName::Size => Class::Read,
            OpName::Fetch | OpName::Is | OpName::ValueOf | OpName::Total => Class::Read,
            OpName::Set | OpName::Store | OpName::AddHigh | OpName::AddLow => Class::Write,
            OpName::RemoveHigh | OpName::RemoveLow => Class::Write,
            OpName::Change | OpName::Put => Class::Write,
            OpName::Add => Class::Add,
        }
    }

    /// Whether the reply to the operation is a value, where it does not signal.
    pub fn gives_value(self) -> bool
        ensures { result ≡ gives_value self }
    {
        match self {
            OpName::Set | OpName::Store | OpName::AddHigh | OpName::AddLow => false,
            OpName::Change | OpName::Put | OpName::Add => false,
            _ => true,
        }
    }
}

impl<I, V> Operation<I, V> {
    pub fn name(&self) -> OpName
        ensures { result ≡ name_of self.now }
    {
        match self {
            Operation::Get(_) => OpName::Get,
            Operation::Set(..) => OpName::Set,
            Operation::Low => OpName::Low,
            Operation::High => OpName::High,
            Operation::Size => OpName::Size,
            Operation::Fetch(_) => OpName::Fetch,
            Operation::Store(..) => OpName::Store,
            Operation::AddHigh(_) => OpName::AddHigh,
            Operation::AddLow(_) => OpName::AddLow,
            Operation::RemoveHigh => OpName::RemoveHigh,
            Operation::RemoveLow => OpName::RemoveLow,
            Operation::Is(_) => OpName::Is,
            Operation::ValueOf(_) => OpName::ValueOf,
            Operation::Change(..) => OpName::Change,
            Operation::Total => OpName::Total,
            Operation::Put(_) => OpName::Put,
            Operation::Add(_) => OpName::Add,
        }
    }

    /// Its arguments, lent.
    pub fn arguments(&self) -> Arguments<&Identifier, &I, &V>
        ensures { with_each (λ w. w.now) (λ i. i.now) (λ v. v.now) result ≡ arguments_of self.now }
    {
        match self {
            Operation::Low | Operation::High | Operation::Size => Arguments::Nothing,
            Operation::RemoveHigh | Operation::RemoveLow => Arguments::Nothing,
            Operation::Total => Arguments::Nothing,
            Operation::Get(word) | Operation::Is(word) => Arguments::Word(word),
            Operation::ValueOf(word) => Arguments::Word(word),
            Operation::Set(word, value) => Arguments::WordValue(word, value),
            Operation::Change(word, value) => Arguments::WordValue(word, value),
            Operation::Fetch(index) => Arguments::Index(index),
            Operation::Store(index, value) => Arguments::IndexValue(index, value),
            Operation::AddHigh(value) | Operation::AddLow(value) => Arguments::Value(value),
            Operation::Put(value) | Operation::Add(value) => Arguments::Value(value),
        }
    }

    /// Whether the operation reads, writes or adds. This goes by its name alone.
    pub fn class(&self) -> Class
        ensures { result ≡ class_of self.now }
    {
        self.name().class()
    }
}

impl<I: Drop, V: Drop> Operation<I, V> {
    /// The operation of this name with these arguments, if it takes such.
    pub fn of(name: OpName, arguments: Arguments<Identifier, I, V>) -> Option<Operation<I, V>>
        ensures { result ≡ operation_of name arguments }
    {
        match (name, arguments) {
            (OpName::Low, Arguments::Nothing) => Some(Operation::Low),
            (OpName::High, Arguments::Nothing) => Some(Operation::High),
            (OpName::Size, Arguments::Nothing) => Some(Operation::Size),
            (OpName::RemoveHigh, Arguments::Nothing) => Some(Operation::RemoveHigh),
            (OpName::RemoveLow, Arguments::Nothing) => Some(Operation::RemoveLow),
            (OpName::Total, Arguments::Nothing) => Some(Operation::Total),
            (OpName::Get, Arguments::Word(field)) => Some(Operation::Get(field)),
            (OpName::Is, Arguments::Word(tag)) => Some(Operation::Is(tag)),
            (OpName::ValueOf, Arguments::Word(tag)) => Some(Operation::ValueOf(tag)),
            (OpName::Set, Arguments::WordValue(field, value)) => Some(Operation::Set(field, value)),
            (OpName::Change, Arguments::WordValue(tag, value)) => Some(Operation::Change(
                tag, value,
            )),
            (OpName::Fetch, Arguments::Index(index)) => Some(Operation::Fetch(index)),
            (OpName::Store, Arguments::IndexValue(index, value)) => Some(Operation::Store(
                index, value,
            )),
            (OpName::AddHigh, Arguments::Value(value)) => Some(Operation::AddHigh(value)),
            (OpName::AddLow, Arguments::Value(value)) => Some(Operation::AddLow(value)),
            (OpName::Put, Arguments::Value(value)) => Some(Operation::Put(value)),
            (OpName::Add, Arguments::Value(value)) => Some(Operation::Add(value)),
            _ => None,
        }
    }
}

impl Op {
    /// An equal operation. Fails only if memory runs out.
    #[tactic(auto, using(crate::proofs::Table::put_together))]
    pub fn copy(&self) -> Result<Op, AllocError>
        ensures { IfOk result (λ copy. copy ≡ self.now) }
    {
        match Operation::of(self.name(), self.copied_arguments()?) {
            Some(copy) => Ok(copy),
            None => unreachable!(),
        }
    }

    fn copied_arguments(&self) -> Result<Arguments<Identifier, i64, Value>, AllocError>
        ensures { IfOk result (λ copies. copies ≡ arguments_of self.now) }
    {
        Ok(match self.arguments() {
            Arguments::Nothing => Arguments::Nothing,
            Arguments::Word(word) => Arguments::Word(word.copy()?),
            Arguments::WordValue(word, value) => Arguments::WordValue(word.copy()?, value.copy()?),
            Arguments::Index(index) => Arguments::Index(*index),
            Arguments::IndexValue(index, value) => Arguments::IndexValue(*index, value.copy()?),
            Arguments::Value(value) => Arguments::Value(value.copy()?),
        })
    }
}
