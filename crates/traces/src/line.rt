//! One line of a trace: how it is read, and how it is written.

ghost use Rattle.std.specs.Prelude.{◌≡◌, ◌≢◌, ℕ, List, [], ◌∷◌, ◌++◌, codes, decimal, IfOk, OnOk, OnErr, MatchOption, string_bytes};
ghost use Rattle.action_names.specs.Writing.{IsGrown};
ghost use Rattle.run_model.specs.declared.history.Event.{Event};
ghost use Rattle.run_model.specs.Reading.{Cuts, Lacks, Reads};
ghost use Rattle.run_model.specs.Texts.{IsOpeningSetup, IsOpeningText, answer_text, setup_text, space};
ghost use Rattle.run_model.specs.Transcripts.{line_feed};
ghost use Rattle.traces.specs.Traces.{IsEvent, IsLine, IsOwner, IsStamp, event_text, line_text, owner_text};
ghost use Rattle.traces.specs.Reading.{AreParts, IsAccepted, IsGuardian};

use crate::stamped::Stamped;
use action_names::number_at_front;
use itoa::Buffer;
use limits::MAX_GUARDIANS;
use memchr::memchr;
use run_model::{Answer, Event, Setup, Step};
use std::alloc::{AllocError, Global};
use std::str;

/// An event of a history, and whose history it is: 0 stands for the registry, another number for
/// the guardian of this number.
#[derive(Drop)]
pub struct Line {
    pub owner: usize,
    pub stamped: Stamped,
}

impl Line {
    /// The line that the text spells, without its line feed. `None` comes exactly if no line is
    /// spelled so. It fails only if memory runs out.
    pub fn read(alloc: Global, text: &[u8]) -> Result<Option<Line>, AllocError>
        ensures { IfOk result (Reads IsLine line_text text.now) }
    {
        let Some((front, rest)) = cut(text, b' ') else {
            return Ok(None);
        };
        let Some(owner) = owner(front) else {
            return Ok(None);
        };
        let Some((front, rest)) = cut(rest, b' ') else {
            return Ok(None);
        };
        let Some(stamp) = stamp(front) else {
            return Ok(None);
        };
        let Some(event) = event(alloc, rest)? else {
            return Ok(None);
        };
        let stamped = Stamped { stamp, event };
        Ok(Some(Line { owner, stamped }))
    }
}

/// The text before the first mark, and the text after it.
pub(crate) fn cut(text: &[u8], mark: u8) -> Option<(&[u8], &[u8])>
    ensures { MatchOption result
        ((a b : List ℕ) → Lacks mark a → text.now ≢ a ++ mark ∷ b)
        (λ x. Cuts mark text.now x.0.now x.1.now) }
{
    let at = memchr(mark, text)?;
    Some((&text[..at], &text[at + 1..]))
}

fn owner(text: &[u8]) -> Option<usize>
    ensures { Reads IsOwner owner_text text.now result }
{
    match text {
        b"r" => Some(0),
        _ => guardian(text),
    }
}

/// The number of a guardian that a setup may have.
fn guardian(text: &[u8]) -> Option<usize>
    ensures { Reads IsGuardian decimal text.now result }
{
    let (number, rest) = number_at_front(text)?;
    if !rest.is_empty() {
        return None;
    }
    let number = number as usize;
    (number <= MAX_GUARDIANS).then_some(number)
}

fn stamp(text: &[u8]) -> Option<u64>
    ensures { Reads IsStamp decimal text.now result }
{
    let Ok(digits) = str::from_utf8(text) else {
        return None;
    };
    match text {
        [b'1'..=b'9', ..] => digits.parse().ok(),
        _ => None,
    }
}

/// The step and the answer that the text spells, with an arrow between them. Texts within them may
/// have arrows too, so each arrow is tried, the first one first.
fn event(alloc: Global, text: &[u8]) -> Result<Option<Event>, AllocError>
    ensures { IfOk result (Reads IsEvent event_text text.now) }
{
    for at in 0..text.len() {
        let (step, rest) = text.split_at(at);
        let Some(answer) = after(rest, b" -> ") else {
            continue;
        };
        if let Some(event) = accepted(alloc, step, answer)? {
            return Ok(Some(event));
        }
    }
    Ok(None)
}

/// What comes after the front, if the text begins with it.
pub(crate) fn after<'a>(text: &'a [u8], front: &[u8]) -> Option<&'a [u8]>
    ensures { MatchOption result
        ((rest : List ℕ) → text.now ≢ front.now ++ rest)
        (λ x. text.now ≡ front.now ++ x.now) }
{
    text.strip_prefix(front)
}

/// The event of the step and the answer that the texts spell.
fn accepted(alloc: Global, step: &[u8], answer: &[u8]) -> Result<Option<Event>, AllocError>
    ensures { IfOk result (λ r. MatchOption r
        ((e : Event) → AreParts step.now answer.now e → ⊥)
        (AreParts step.now answer.now)) }
{
    match accepted_answer(alloc, answer)? {
        Some(answer) => Ok(Step::read(alloc, step)?.map(|step| Event { step, answer })),
        None => Ok(None),
    }
}

/// The answer that the text spells, if a step with it is accepted.
fn accepted_answer(alloc: Global, text: &[u8]) -> Result<Option<Answer>, AllocError>
    ensures { IfOk result (Reads IsAccepted answer_text text.now) }
{
    Ok(Answer::read(alloc, text)?.filter(|answer| answer.is_accepted()))
}

/// Appends the setup line. If memory runs out, a part of it may stand at the end.
#[tactic(auto, using(run_model::proofs::Growing::grown_same, run_model::proofs::Growing::grown_then))]
pub(crate) fn append_setup(setup: &Setup, text: &mut String) -> Result<(), AllocError>
    ensures ok { OnOk result (string_bytes text.new
        ≡ string_bytes text.old ++ (codes "setup " ++ (setup_text setup.now ++ line_feed ∷ []))) }
    ensures read_back { OnOk result (IsOpeningSetup setup.now
        → IsOpeningText (setup_text setup.now) setup.now) }
    ensures err { OnErr result (IsGrown (string_bytes text.old) (string_bytes text.new)) }
{
    let document = setup.text(*text.allocator())?;
    text.push_str("setup ")?;
    text.push_str(document.as_str())?;
    text.push('\n')
}

/// Appends the line of an event with its line feed. If memory runs out, the text stays as it was.
pub fn append_line(owner: usize, stamped: &Stamped, text: &mut String) -> Result<(), AllocError>
    ensures ok { OnOk result (string_bytes text.new ≡ string_bytes text.old
        ++ (line_text (record { owner = owner; stamped = stamped.now }) ++ line_feed ∷ [])) }
    ensures err { OnErr result (string_bytes text.new ≡ string_bytes text.old) }
{
    let len = text.as_str().len();
    let appended = append_parts(owner, stamped, text);
    if appended.is_err() {
        text.truncate(len);
    }
    appended
}

// If memory runs out, a part of the line may stand at the end.
#[tactic(auto, using(run_model::proofs::Growing::grown_same, run_model::proofs::Growing::grown_then))]
fn append_parts(owner: usize, stamped: &Stamped, text: &mut String) -> Result<(), AllocError>
    ensures ok { OnOk result (string_bytes text.new ≡ string_bytes text.old
        ++ (line_text (record { owner = owner; stamped = stamped.now }) ++ line_feed ∷ [])) }
    ensures err { OnErr result (IsGrown (string_bytes text.old) (string_bytes text.new)) }
{
    append_front(owner, stamped.stamp, text)?;
    append_event(&stamped.event, text)?;
    text.push('\n')
}

/// Appends whose history a line is of and the stamp, a space after each.
#[tactic(auto, using(run_model::proofs::Growing::grown_same, run_model::proofs::Growing::grown_then))]
fn append_front(owner: usize, stamp: u64, text: &mut String) -> Result<(), AllocError>
    ensures ok { OnOk result (string_bytes text.new ≡ string_bytes text.old
        ++ (owner_text owner ++ space ∷ (decimal stamp ++ space ∷ []))) }
    ensures err { OnErr result (IsGrown (string_bytes text.old) (string_bytes text.new)) }
{
    append_owner(owner, text)?;
    text.push(' ')?;
    text.push_str(Buffer::new().format(stamp))?;
    text.push(' ')
}

#[tactic(auto, using(run_model::proofs::Growing::grown_same, run_model::proofs::Growing::grown_then))]
fn append_owner(owner: usize, text: &mut String) -> Result<(), AllocError>
    ensures ok { OnOk result (string_bytes text.new ≡ string_bytes text.old ++ owner_text owner) }
    ensures err { OnErr result (IsGrown (string_bytes text.old) (string_bytes text.new)) }
{
    match owner {
        0 => text.push('r'),
        _ => text.push_str(Buffer::new().format(owner)),
    }
}

#[tactic(auto, using(run_model::proofs::Growing::grown_same, run_model::proofs::Growing::grown_then))]
fn append_event(event: &Event, text: &mut String) -> Result<(), AllocError>
    ensures ok { OnOk result
        (string_bytes text.new ≡ string_bytes text.old ++ event_text event.now) }
    ensures err { OnErr result (IsGrown (string_bytes text.old) (string_bytes text.new)) }
{
    let step = event.step.text(*text.allocator())?;
    text.push_str(step.as_str())?;
    text.push_str(" -> ")?;
    event.answer.write_to(text)
}
