//! The pieces of which the texts of steps, answers and explanations are made. Each call appends one; where memory
//! runs out, a part of it may stand at the end.
ghost use Rattle.std.specs.Prelude.{◌≡◌, [], ◌∷◌, ◌++◌, OnOk, OnErr, decimal, string_bytes};
ghost use Rattle.std.specs.Fmt.{signed_decimal};
ghost use Rattle.action_names.specs.Names.{name_text};
ghost use Rattle.values.specs.Values.{value_text};
ghost use Rattle.run_model.specs.Texts.{step_text, op_text, kinds_text, object_text, names_text, reply_text, signal_text, space};
ghost use Rattle.action_names.specs.Writing.{IsGrown};

use crate::step::{ArmKind, ObjectId, Step};
use action_names::Name;
use atomic_types::{Arguments, Op, Reply, Signal};
use itoa::Buffer;
use std::alloc::AllocError;
use values::{Identifier, Value};

/// Appends the line of a step, without its line feed.
#[tactic(auto, using(crate::proofs::Growing::grown_same, crate::proofs::Growing::grown_then))]
pub(crate) fn append_step(step: &Step, text: &mut String) -> Result<(), AllocError>
    ensures ok { OnOk result (string_bytes text.new ≡ string_bytes text.old ++ step_text step.now) }
    ensures err { OnErr result (IsGrown (string_bytes text.old) (string_bytes text.new)) }
{
    match step {
        Step::Top(guardian) => append_number("top ", *guardian, text),
        Step::NestedTop(action) => append_named("nest ", action, text),
        Step::Call(action, guardian) => {
            append_named("call ", action, text)?;
            append_number(" ", *guardian, text)
        }
        Step::Arms(action, kinds) => {
            append_named("arms ", action, text)?;
            append_kinds(kinds.as_slice(), text)
        }
        Step::Op(action, object, operation) => {
            append_named("op ", action, text)?;
            append_request(*object, operation, text)
        }
        Step::Commit(action) => append_named("commit ", action, text),
        Step::Close(top) => append_named("close ", top, text),
        Step::Prepare(guardian, top) => {
            append_number("prepare ", *guardian, text)?;
            append_named(" ", top, text)
        }
        Step::Decide(top) => append_named("decide ", top, text),
        Step::Abort(action) => append_named("abort ", action, text),
        Step::Tell(guardian, action) => {
            append_number("tell ", *guardian, text)?;
            append_named(" ", action, text)
        }
        Step::Crash(guardian) => append_number("crash ", *guardian, text),
        Step::Recover(guardian) => append_number("recover ", *guardian, text),
    }
}

/// Appends what an operation asks of an object: both, a space before each.
#[tactic(auto, using(crate::proofs::Growing::grown_same, crate::proofs::Growing::grown_then))]
pub fn append_request(object: ObjectId, operation: &Op, text: &mut String) -> Result<(), AllocError>
    ensures ok { OnOk result
        (string_bytes text.new
        ≡ string_bytes text.old ++ space ∷ object_text object ++ space ∷ op_text operation.now) }
    ensures err { OnErr result (IsGrown (string_bytes text.old) (string_bytes text.new)) }
{
    append_object(object, text)?;
    text.push(' ')?;
    append_op(operation, text)
}

/// Appends an operation: its name and its arguments.
#[tactic(auto, using(crate::proofs::Growing::grown_same, crate::proofs::Growing::grown_then))]
fn append_op(operation: &Op, text: &mut String) -> Result<(), AllocError>
    ensures ok { OnOk result
        (string_bytes text.new ≡ string_bytes text.old ++ op_text operation.now) }
    ensures err { OnErr result (IsGrown (string_bytes text.old) (string_bytes text.new)) }
{
    text.push_str(operation.name().text())?;
    match operation.arguments() {
        Arguments::Nothing => Ok(()),
        Arguments::Word(word) => append_words(" ", word.as_str(), text),
        Arguments::WordValue(word, value) => append_word_and_value(word, value, text),
        Arguments::Index(index) => append_index(" ", *index, text),
        Arguments::IndexValue(index, value) => append_index_and_value(*index, value, text),
        Arguments::Value(value) => append_value(value, text),
    }
}

#[tactic(auto, using(crate::proofs::Growing::grown_same, crate::proofs::Growing::grown_then))]
fn append_word_and_value(
    word: &Identifier,
    value: &Value,
    text: &mut String,
) -> Result<(), AllocError>
    ensures ok { OnOk result (string_bytes text.new
        ≡ string_bytes text.old ++ space ∷ word.now ++ space ∷ value_text value.now) }
    ensures err { OnErr result (IsGrown (string_bytes text.old) (string_bytes text.new)) }
{
    append_words(" ", word.as_str(), text)?;
    append_value(value, text)
}

#[tactic(auto, using(crate::proofs::Growing::grown_same, crate::proofs::Growing::grown_then))]
fn append_index_and_value(index: i64, value: &Value, text: &mut String) -> Result<(), AllocError>
    ensures ok { OnOk result (string_bytes text.new
        ≡ string_bytes text.old ++ space ∷ signed_decimal index ++ space ∷ value_text value.now) }
    ensures err { OnErr result (IsGrown (string_bytes text.old) (string_bytes text.new)) }
{
    append_index(" ", index, text)?;
    append_value(value, text)
}

/// Appends a space, and the object's guardian and its number there, as in `2/7`.
#[tactic(auto, using(crate::proofs::Growing::grown_same, crate::proofs::Growing::grown_then))]
fn append_object(object: ObjectId, text: &mut String) -> Result<(), AllocError>
    ensures ok { OnOk result
        (string_bytes text.new ≡ string_bytes text.old ++ space ∷ object_text object) }
    ensures err { OnErr result (IsGrown (string_bytes text.old) (string_bytes text.new)) }
{
    append_number(" ", object.guardian, text)?;
    append_number("/", object.number, text)
}

/// Appends the kinds of arms, a space before each.
#[tactic(auto, using(crate::proofs::Growing::grown_same, crate::proofs::Growing::grown_then))]
fn append_kinds(kinds: &[ArmKind], text: &mut String) -> Result<(), AllocError>
    ensures ok { OnOk result
        (string_bytes text.new ≡ string_bytes text.old ++ kinds_text kinds.now) }
    ensures err { OnErr result (IsGrown (string_bytes text.old) (string_bytes text.new)) }
{
    for kind in kinds {
        text.push_str(kind_words(kind))?;
    }
    Ok(())
}

/// Appends the names, a space before each.
#[tactic(auto, using(crate::proofs::Growing::grown_same, crate::proofs::Growing::grown_then))]
pub(crate) fn append_names(names: &[Name], text: &mut String) -> Result<(), AllocError>
    ensures ok { OnOk result
        (string_bytes text.new ≡ string_bytes text.old ++ names_text names.now) }
    ensures err { OnErr result (IsGrown (string_bytes text.old) (string_bytes text.new)) }
{
    for name in names {
        text.push(' ')?;
        name.write_to(text)?;
    }
    Ok(())
}

/// Appends a reply.
#[tactic(auto, using(crate::proofs::Growing::grown_same, crate::proofs::Growing::grown_then))]
pub fn append_reply(reply: &Reply, text: &mut String) -> Result<(), AllocError>
    ensures ok { OnOk result
        (string_bytes text.new ≡ string_bytes text.old ++ reply_text reply.now) }
    ensures err { OnErr result (IsGrown (string_bytes text.old) (string_bytes text.new)) }
{
    match reply {
        Reply::Gives(value) => value.write_to(text),
        Reply::Truth(true) => text.push_str("true"),
        Reply::Truth(false) => text.push_str("false"),
        Reply::Done => text.push_str("done"),
        Reply::Signals(signal) => {
            text.push_str("signals ")?;
            text.push_str(signal_word(*signal))
        }
    }
}

fn kind_words(kind: &ArmKind) -> &'static str
    ensures { result.now ≡ kinds_text (kind.now ∷ []) }
{
    match kind {
        ArmKind::Sub => " s",
        ArmKind::Top => " t",
    }
}

fn signal_word(signal: Signal) -> &'static str
    ensures { result.now ≡ signal_text signal }
{
    match signal {
        Signal::Bounds => "bounds",
        Signal::Limit => "limit",
        Signal::WrongTag => "wrong_tag",
    }
}

#[tactic(auto, using(crate::proofs::Growing::grown_same, crate::proofs::Growing::grown_then))]
fn append_words(words: &str, more: &str, text: &mut String) -> Result<(), AllocError>
    ensures ok { OnOk result
        (string_bytes text.new ≡ string_bytes text.old ++ words.now ++ more.now) }
    ensures err { OnErr result (IsGrown (string_bytes text.old) (string_bytes text.new)) }
{
    text.push_str(words)?;
    text.push_str(more)
}

#[tactic(auto, using(crate::proofs::Growing::grown_same, crate::proofs::Growing::grown_then))]
fn append_named(words: &str, action: &Name, text: &mut String) -> Result<(), AllocError>
    ensures ok { OnOk result
        (string_bytes text.new ≡ string_bytes text.old ++ words.now ++ name_text action.now) }
    ensures err { OnErr result (IsGrown (string_bytes text.old) (string_bytes text.new)) }
{
    text.push_str(words)?;
    action.write_to(text)
}

#[tactic(auto, using(crate::proofs::Growing::grown_same, crate::proofs::Growing::grown_then))]
fn append_number(words: &str, number: u32, text: &mut String) -> Result<(), AllocError>
    ensures ok { OnOk result
        (string_bytes text.new ≡ string_bytes text.old ++ words.now ++ decimal number) }
    ensures err { OnErr result (IsGrown (string_bytes text.old) (string_bytes text.new)) }
{
    text.push_str(words)?;
    text.push_str(Buffer::new().format(number))
}

#[tactic(auto, using(crate::proofs::Growing::grown_same, crate::proofs::Growing::grown_then))]
fn append_index(words: &str, index: i64, text: &mut String) -> Result<(), AllocError>
    ensures ok { OnOk result
        (string_bytes text.new ≡ string_bytes text.old ++ words.now ++ signed_decimal index) }
    ensures err { OnErr result (IsGrown (string_bytes text.old) (string_bytes text.new)) }
{
    text.push_str(words)?;
    text.push_str(Buffer::new().format(index))
}

/// Appends a space and the value.
#[tactic(auto, using(crate::proofs::Growing::grown_same, crate::proofs::Growing::grown_then))]
fn append_value(value: &Value, text: &mut String) -> Result<(), AllocError>
    ensures ok { OnOk result
        (string_bytes text.new ≡ string_bytes text.old ++ space ∷ value_text value.now) }
    ensures err { OnErr result (IsGrown (string_bytes text.old) (string_bytes text.new)) }
{
    text.push(' ')?;
    value.write_to(text)
}
