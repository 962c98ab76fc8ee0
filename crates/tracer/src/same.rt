//! Whether two events are the same: whether they have one text.
ghost use Rattle.std.specs.Prelude.{◌≡◌, ◌≢◌, false, IsTrue, IfOk};
ghost use Rattle.values.specs.Values.{value_text};
ghost use Rattle.run_model.specs.Gathering.{same_answer, same_event};
ghost use Rattle.run_model.specs.Texts.{names_text, reply_text};

use run_model::{Answer, Event, Name, Reply, Value};
use std::alloc::{AllocError, Global};

/// Whether the events have one text.
pub(crate) fn same_event(alloc: Global, one: &Event, other: &Event) -> Result<bool, AllocError>
    ensures { IfOk result (λ same. same ≡ same_event one.now other.now) }
{
    let text = one.step.text(alloc)?;
    let other_text = other.step.text(alloc)?;
    Ok(text.as_str() == other_text.as_str() && same_answer(&one.answer, &other.answer))
}

/// Whether the answers have one text. Then they are equal.
pub(crate) fn same_answer(one: &Answer, other: &Answer) -> bool
    ensures value { result ≡ same_answer one.now other.now }
    ensures equal { IsTrue result → one.now ≡ other.now }
{
    match (one, other) {
        (Answer::Began(names), Answer::Began(others)) => {
            same_names(names.as_slice(), others.as_slice())
        }
        (Answer::Waits(names), Answer::Waits(others)) => {
            same_names(names.as_slice(), others.as_slice())
        }
        (Answer::Granted(reply), Answer::Granted(other)) => same_reply(reply, other),
        (Answer::Done(count), Answer::Done(other)) => count == other,
        (Answer::Refused(why), Answer::Refused(other)) => why.number() == other.number(),
        (Answer::VoteYes, Answer::VoteYes) => true,
        (Answer::VoteNo, Answer::VoteNo) => true,
        _ => false,
    }
}

fn same_names(names: &[Name], others: &[Name]) -> bool
    ensures equal { IsTrue result → names.now ≡ others.now }
    ensures differ { result ≡ false → names_text names.now ≢ names_text others.now }
{
    for (at, name) in names.iter().enumerate() {
        let Some(other) = others.get(at) else {
            return false;
        };
        if name.components() != other.components() {
            return false;
        }
    }
    names.len() == others.len()
}

fn same_reply(reply: &Reply, other: &Reply) -> bool
    ensures equal { IsTrue result → reply.now ≡ other.now }
    ensures differ { result ≡ false → reply_text reply.now ≢ reply_text other.now }
{
    match (reply, other) {
        (Reply::Gives(value), Reply::Gives(other)) => same_value(value, other),
        (Reply::Truth(holds), Reply::Truth(other)) => holds == other,
        (Reply::Done, Reply::Done) => true,
        (Reply::Signals(signal), Reply::Signals(other)) => signal == other,
        _ => false,
    }
}

fn same_value(value: &Value, other: &Value) -> bool
    ensures equal { IsTrue result → value.now ≡ other.now }
    ensures differ { result ≡ false → value_text value.now ≢ value_text other.now }
{
    match (value, other) {
        (Value::Int(number), Value::Int(other)) => *number == *other,
        (Value::Text(text), Value::Text(other)) => text.as_str() == other.as_str(),
        _ => false,
    }
}
