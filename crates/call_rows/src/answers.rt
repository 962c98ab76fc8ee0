//! Answers, and their lines.
use crate::reading;
use rows::{RowFault, again};
use run_model::{Answer, Refusal, Reply, Signal};
use std::alloc::Global;

/// `answer ANSWER`: the line of a copy of the answer, and what comes of appending it to `1 `.
pub(crate) fn copy(alloc: Global, said: &str, answer: &mut String) -> Result<(), RowFault> {
    write_copy(alloc, &read(alloc, said)?, answer)
}

fn write_copy(alloc: Global, said: &Answer, answer: &mut String) -> Result<(), RowFault> {
    write_lines(alloc, &again!(said.copy())?, answer)
}

fn write_lines(alloc: Global, said: &Answer, answer: &mut String) -> Result<(), RowFault> {
    let appended = appended(alloc, said)?;
    let line = again!(said.text(alloc))?;
    write!(answer, "{}; {}", line.as_str(), appended.as_str())?;
    Ok(())
}

/// `answer_line LINE`: the line of the answer that the line spells, or `none`.
pub(crate) fn line(alloc: Global, line: &str, answer: &mut String) -> Result<(), RowFault> {
    let line = reading::bytes(alloc, line)?;
    match Answer::read(alloc, line.as_slice())? {
        Some(said) => said.write_to(answer)?,
        None => answer.push_str("none")?,
    }
    Ok(())
}

/// The text `1 ` with the answer's line behind it. If memory is refused, the text must be as it was, or the row is not
/// read. Then the line is appended once more.
fn appended(alloc: Global, said: &Answer) -> Result<String, RowFault> {
    let mut text = String::from_str(alloc, "1 ")?;
    if said.write_to(&mut text).is_err() {
        if text.as_str() != "1 " {
            return Err(RowFault::Unread);
        }
        said.write_to(&mut text)?;
    }
    Ok(text)
}

/// The answer that the text names.
pub(crate) fn read(alloc: Global, text: &str) -> Result<Answer, RowFault> {
    let (kind, rest) = text.split_once(' ').unwrap_or((text, ""));
    match kind {
        "began" => Ok(Answer::Began(reading::names(alloc, rest)?)),
        "waits" => Ok(Answer::Waits(reading::names(alloc, rest)?)),
        "granted" => Ok(Answer::Granted(reply(alloc, rest)?)),
        _ => read_plain(kind, rest),
    }
}

/// The answer of this kind, which has no names and no reply.
fn read_plain(kind: &str, rest: &str) -> Result<Answer, RowFault> {
    match kind {
        "yes" => Ok(Answer::VoteYes),
        "no" => Ok(Answer::VoteNo),
        "done" => Ok(Answer::Done(rest.parse().ok().ok_or(RowFault::Unread)?)),
        "refused" => Ok(Answer::Refused(refusal(rest)?)),
        _ => Err(RowFault::Unread),
    }
}

fn reply(alloc: Global, text: &str) -> Result<Reply, RowFault> {
    match text {
        "no" => Ok(Reply::Truth(false)),
        "well" => Ok(Reply::Done),
        "wrong_tag" => Ok(Reply::Signals(Signal::WrongTag)),
        spelling => Ok(Reply::Gives(reading::spelled_value(alloc, spelling)?)),
    }
}

fn refusal(word: &str) -> Result<Refusal, RowFault> {
    match word {
        "bad_op" => Ok(Refusal::BadOp),
        _ => Err(RowFault::Unread),
    }
}
