//! Reading a line as an answer: its first word says which, and a function for each kind of argument
//! reads the rest.

ghost use Rattle.std.specs.Prelude.{◌≡◌, ◌≢◌, List, ℕ, decimal, IfOk, IfSome, IsNone, MatchOption};
ghost use Rattle.atomic_types.specs.declared.op.Signal.{Signal};
ghost use Rattle.action_names.specs.Fronts.{BeginsWithName};
ghost use Rattle.run_model.specs.declared.answer.Answer.{Answer};
ghost use Rattle.run_model.specs.declared.answer.Refusal.{Refusal};
ghost use Rattle.run_model.specs.Texts.{AreNames, IsAnswer, IsCount, IsReply, SpellsAnswer, answer_text, names_text, refusal_number, reply_text, signal_text};
ghost use Rattle.run_model.specs.Reading.{Reads};

use crate::answer::{Answer, Refusal};
use crate::reading::{Argument, after, component, is};
use action_names::{Name, NameFault, Names};
use atomic_types::{Reply, Signal};
use std::alloc::{AllocError, Global};
use std::str;
use values::Value;

impl Answer {
    /// The answer that the line spells, without its line feed. `None` comes exactly if no answer is
    /// spelled so: each answer has one spelling. It fails only if memory runs out.
    pub fn read(alloc: Global, line: &[u8]) -> Result<Option<Answer>, AllocError>
        ensures found { IfOk result (λ r. IfSome r (λ a. SpellsAnswer line.now a)) }
        ensures none { IfOk result (λ r. IsNone r → (a : Answer) → SpellsAnswer line.now a → ⊥) }
    {
        answer(alloc, line)
    }
}

/// A line spells one answer at most.
pub fn one_answer()
    ensures { (line : List ℕ) (a b : Answer) → SpellsAnswer line a → SpellsAnswer line b → a ≡ b }
{}

/// The answer that the line spells. The first words are tried in turn, those that come most often
/// first.
fn answer(alloc: Global, line: &[u8]) -> Result<Option<Answer>, AllocError>
    ensures { IfOk result (Reads IsAnswer answer_text line.now) }
{
    if let Some(rest) = after(line, b"granted ") {
        return Ok(reply(alloc, rest)?.map(Answer::Granted));
    }
    if let Some(rest) = after(line, b"done ") {
        return Ok(count(rest).map(Answer::Done));
    }
    if let Some(rest) = after(line, b"began") {
        return Ok(names(alloc, rest)?.map(Answer::Began));
    }
    if let Some(rest) = after(line, b"waits") {
        return Ok(names(alloc, rest)?.map(Answer::Waits));
    }
    if let Some(rest) = after(line, b"refused ") {
        return Ok(refusal(rest).map(Answer::Refused));
    }
    Ok(vote(line))
}

fn vote(line: &[u8]) -> Option<Answer>
    ensures { MatchOption result
        ((line.now ≢ answer_text Answer.VoteYes) × (line.now ≢ answer_text Answer.VoteNo))
        (λ a. IsAnswer a × (line.now ≡ answer_text a)) }
{
    if is(line, b"vote yes") {
        Some(Answer::VoteYes)
    } else if is(line, b"vote no") {
        Some(Answer::VoteNo)
    } else {
        None
    }
}

fn reply(alloc: Global, text: &[u8]) -> Result<Option<Reply>, AllocError>
    ensures { IfOk result (Reads IsReply reply_text text.now) }
{
    if is(text, b"done") {
        return Ok(Some(Reply::Done));
    }
    if is(text, b"true") {
        return Ok(Some(Reply::Truth(true)));
    }
    if is(text, b"false") {
        return Ok(Some(Reply::Truth(false)));
    }
    if let Some(word) = after(text, b"signals ") {
        return Ok(signal(word).map(Reply::Signals));
    }
    Ok(Value::from_text(alloc, text)?.map(Reply::Gives))
}

fn signal(word: &[u8]) -> Option<Signal>
    ensures { MatchOption result
        ((s : Signal) → word.now ≢ signal_text s)
        (λ s. word.now ≡ signal_text s) }
{
    if is(word, b"bounds") {
        Some(Signal::Bounds)
    } else if is(word, b"limit") {
        Some(Signal::Limit)
    } else if is(word, b"wrong_tag") {
        Some(Signal::WrongTag)
    } else {
        None
    }
}

/// The number of unsigned 64 bits that the text spells, without leading zeros.
fn count(text: &[u8]) -> Option<u64>
    ensures { Reads IsCount decimal text.now result }
{
    let Ok(digits) = str::from_utf8(text) else {
        return None;
    };
    if is(text, b"0") {
        return Some(0);
    }
    match text {
        [b'1'..=b'9', ..] => digits.parse().ok(),
        _ => None,
    }
}

/// The names that the text spells, a space before each. There is one at least.
fn names(alloc: Global, text: &[u8]) -> Result<Option<Names>, AllocError>
    ensures { IfOk result (Reads AreNames names_text text.now) }
{
    let mut names = Names::new(alloc);
    let mut rest = text;
    while let [b' ', behind @ ..] = rest {
        let Some((name, left)) = name_at_front(alloc, behind)? else {
            return Ok(None);
        };
        names.push(name)?;
        rest = left;
    }
    if !rest.is_empty() || names.is_empty() {
        return Ok(None);
    }
    Ok(Some(names))
}

/// The name that the text begins with, and the text that follows it.
fn name_at_front(alloc: Global, text: &[u8]) -> Result<Option<(Name, &[u8])>, AllocError>
    ensures { IfOk result (λ r. MatchOption r
        ((a : List ℕ) (rest : List ℕ) → BeginsWithName text.now a rest → ⊥)
        (λ x. BeginsWithName text.now x.0 x.1.now)) }
{
    match Name::at_front(alloc, text) {
        Ok(found) => Ok(Some(found)),
        Err(NameFault::NotAName) => Ok(None),
        Err(NameFault::TooDeep) => Ok(None),
        Err(NameFault::Memory) => Err(AllocError),
    }
}

fn refusal(text: &[u8]) -> Option<Refusal>
    ensures { MatchOption result
        ((why : Refusal) → text.now ≢ decimal (refusal_number why))
        (λ why. text.now ≡ decimal (refusal_number why)) }
{
    Refusal::from_number(component(text)?)
}

impl Refusal {
    /// The refusal of this number in answers.
    fn from_number(number: u32) -> Option<Refusal>
        ensures { MatchOption result
            ((why : Refusal) → number ≢ refusal_number why)
            (λ why. number ≡ refusal_number why) }
    {
        let why = match number {
            1 => Refusal::NoGuardian,
            2 => Refusal::NoAction,
            3 => Refusal::NoObject,
            4 => Refusal::Ended,
            5 => Refusal::Busy,
            6 => Refusal::Gone,
            7 => Refusal::Down,
            8 => Refusal::Elsewhere,
            9 => Refusal::Orphan,
            10 => Refusal::NotSo,
            11 => Refusal::TooDeep,
            12 => Refusal::NotTop,
            13 => Refusal::NotSub,
            14 => Refusal::NotClosed,
            15 => Refusal::Already,
            16 => Refusal::Unready,
            17 => Refusal::IsUp,
            18 => Refusal::Limit,
            19 => Refusal::BadOp,
            _ => return None,
        };
        Some(why)
    }
}
