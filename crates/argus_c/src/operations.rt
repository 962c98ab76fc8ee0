//! Reading an operation of which a caller gives the name and the arguments.
ghost use Rattle.std.specs.Prelude.{◌≡◌, ◌++◌, ◌∷◌, IfSome};
ghost use Rattle.std.specs.Fmt.{signed_decimal};
ghost use Rattle.values.specs.Values.{IsValue, value_text};
ghost use Rattle.values.specs.Words.{IsIdentifier};
ghost use Rattle.run_model.specs.Texts.{arguments_text};
ghost use Rattle.run_model.specs.Reading.{AreOfForm, IsIndex};
ghost use Rattle.argus_c.specs.Sessions.{IsOpText};

use atomic_types::{Arguments, Form, OpName};
use run_model::{Identifier, Op, Value};
use std::alloc::Global;
use std::str;

/// The operation that the text spells. None also comes where memory runs out.
pub(crate) fn operation(alloc: Global, text: &[u8]) -> Option<Op>
    ensures { IfSome result (IsOpText text.now) }
{
    let Ok(text) = str::from_utf8(text) else {
        return None;
    };
    match cut(text) {
        Some((word, rest)) => with_arguments(alloc, word, rest),
        None => bare(text),
    }
}

/// The operation with this name and no argument.
fn bare(word: &str) -> Option<Op>
    ensures { IfSome result (IsOpText word.now) }
{
    Op::of(OpName::read(word)?, Arguments::Nothing)
}

/// The operation with this name and these arguments.
fn with_arguments(alloc: Global, word: &str, rest: &str) -> Option<Op>
    ensures { IfSome result (IsOpText (word.now ++ 32 ∷ rest.now)) }
{
    let name = OpName::read(word)?;
    let arguments = arguments(alloc, name.form(), rest)?;
    Op::of(name, arguments)
}

/// Arguments of this form, of which there is one at least.
fn arguments(alloc: Global, form: Form, text: &str) -> Option<Arguments<Identifier, i64, Value>>
    ensures { IfSome result (λ a. AreOfForm form a × (text.now ≡ arguments_text a)) }
{
    match form {
        Form::Nothing => None,
        Form::Word => Some(Arguments::Word(word(alloc, text)?)),
        Form::WordValue => {
            let (front, rest) = cut(text)?;
            Some(Arguments::WordValue(word(alloc, front)?, value(alloc, rest)?))
        }
        Form::Index => Some(Arguments::Index(index(alloc, text)?)),
        Form::IndexValue => {
            let (front, rest) = cut(text)?;
            Some(Arguments::IndexValue(index(alloc, front)?, value(alloc, rest)?))
        }
        Form::Value => Some(Arguments::Value(value(alloc, text)?)),
    }
}

fn word(alloc: Global, text: &str) -> Option<Identifier>
    ensures { IfSome result (λ w. IsIdentifier w × (text.now ≡ w)) }
{
    Identifier::parse(alloc, text).ok()
}

fn value(alloc: Global, text: &str) -> Option<Value>
    ensures { IfSome result (λ v. IsValue v × (text.now ≡ value_text v)) }
{
    Value::from_spelling(alloc, text).ok()
}

fn index(alloc: Global, text: &str) -> Option<i64>
    ensures { IfSome result (λ z. IsIndex z × (text.now ≡ signed_decimal z)) }
{
    match Value::from_spelling(alloc, text) {
        Ok(Value::Int(index)) => Some(index),
        _ => None,
    }
}

/// The text before the first space, and the text after it.
fn cut(text: &str) -> Option<(&str, &str)>
    ensures { IfSome result (λ x. text.now ≡ x.0.now ++ 32 ∷ x.1.now) }
{
    text.split_once(' ')
}
