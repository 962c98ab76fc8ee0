//! Answers, by what of them is kept.
ghost use Rattle.std.specs.Prelude.{◌≡◌, ℕ, List, [], ◌∷◌, IfOk, IfSome, MatchOption, OnErr, map};
ghost use Rattle.run_model.specs.declared.answer.Answer.TheVariants as answers;
ghost use Rattle.packed_history.specs.Answers.{Given, HasAnswer, IsKeptAnswer, answer_in, answers_before, begun_name, nothing_given};

use crate::names::Begun;
use run_model::{Answer, Name, Names, Reply, Signal, Value};
use std::alloc::{AllocError, Global};
use std::marker::Model;

/// An answer. What it began, where that is not one action, and a reply that is no small number are kept at a place.
#[derive(Clone, Copy)]
pub(crate) enum ShortAnswer {
    BeganTop(u32),
    BeganChild(u32),
    Began { count: u8, start: u32 },
    Performed,
    Number(i32),
    Truth(bool),
    Signals(Signal),
    Reply(u32),
    VoteYes,
    VoteNo,
    Done(u32),
}

/// What answers give: the actions that they began, and replies, the oldest first.
#[derive(Drop)]
pub(crate) struct Answers {
    begun: Vec<Begun>,
    replies: Vec<Reply>,
}

impl Model for Answers {
    ghost use Rattle.packed_history.specs.Answers.{Given};

    ghost Value = { Given };

    ghost view = { λ a. record { begun = a.begun.items; replies = a.replies.items } };
}

impl Answers {
    /// Nothing is kept. This takes no memory.
    pub(crate) fn new(alloc: Global) -> Answers
        ensures { result ≡ nothing_given }
    {
        Answers {
            begun: Vec::new(alloc),
            replies: Vec::new(alloc),
        }
    }

    /// Keeps the answer of a step of this action, if it has a short form. Without memory nothing is changed.
    pub(crate) fn keep(
        &mut self,
        action: &[u32],
        answer: &Answer,
    ) -> Result<Option<ShortAnswer>, AllocError>
        ensures ok { IfOk result (λ short. MatchOption short (self.new ≡ self.old)
            (λ s. IsKeptAnswer self.old self.new action.now s answer.now)) }
        ensures err { OnErr result (self.new ≡ self.old) }
    {
        match answer {
            Answer::Began(names) => self.keep_names(action, names.as_slice()),
            Answer::Granted(reply) => self.keep_reply(reply),
            Answer::VoteYes => Ok(Some(ShortAnswer::VoteYes)),
            Answer::VoteNo => Ok(Some(ShortAnswer::VoteNo)),
            Answer::Done(count) => Ok(u32::try_from(*count).ok().map(ShortAnswer::Done)),
            Answer::Waits(_) | Answer::Refused(_) => Ok(None),
        }
    }

    // Keeps which actions were begun, if each is a top action or a child of this one.
    fn keep_names(
        &mut self,
        action: &[u32],
        names: &[Name],
    ) -> Result<Option<ShortAnswer>, AllocError>
        ensures ok { IfOk result (λ short. MatchOption short (self.new ≡ self.old)
            (λ s. IsKeptAnswer self.old self.new action.now s (answers.Began names.now))) }
        ensures err { OnErr result (self.new ≡ self.old) }
    {
        match names {
            [name] => Ok(short_begun(action, name)),
            _ => self.keep_begun(action, names),
        }
    }

    fn keep_begun(
        &mut self,
        action: &[u32],
        names: &[Name],
    ) -> Result<Option<ShortAnswer>, AllocError>
        ensures ok { IfOk result (λ short. MatchOption short (self.new ≡ self.old)
            (λ s. IsKeptAnswer self.old self.new action.now s (answers.Began names.now))) }
        ensures err { OnErr result (self.new ≡ self.old) }
    {
        let len = self.begun.len();
        let (Ok(start), Ok(count)) = (u32::try_from(len), u8::try_from(names.len())) else {
            return Ok(None);
        };
        self.begun.reserve(names.len())?;
        for name in names {
            match Begun::of(name, action) {
                Some(begun) => self.begun.push_reserved(begun),
                None => {
                    self.begun.truncate(len);
                    return Ok(None);
                }
            }
        }
        Ok(Some(ShortAnswer::Began { count, start }))
    }

    // Keeps the reply, if a short form can tell where it lies.
    fn keep_reply(&mut self, reply: &Reply) -> Result<Option<ShortAnswer>, AllocError>
        ensures ok { IfOk result (λ short. MatchOption short (self.new ≡ self.old)
            (λ s. (a : List ℕ) → IsKeptAnswer self.old self.new a s (answers.Granted reply.now))) }
        ensures err { OnErr result (self.new ≡ self.old) }
    {
        if let Some(short) = short_reply(reply) {
            return Ok(Some(short));
        }
        let Ok(place) = u32::try_from(self.replies.len()) else {
            return Ok(None);
        };
        self.replies.push(reply.copy()?)?;
        Ok(Some(ShortAnswer::Reply(place)))
    }

    /// Forgets what was kept from this answer on. This takes no memory.
    pub(crate) fn cut(&mut self, short: ShortAnswer)
        ensures { self.new ≡ answers_before self.old short }
    {
        match short {
            ShortAnswer::Began { start, .. } => self.begun.truncate(start as usize),
            ShortAnswer::Reply(place) => self.replies.truncate(place as usize),
            _ => {}
        }
    }

    /// The answer of a step of this action.
    pub(crate) fn answer(&self, action: &[u32], short: ShortAnswer) -> Result<Answer, AllocError>
        requires { HasAnswer self.now short }
        ensures { IfOk result (λ answer. answer ≡ answer_in self.now action.now short) }
    {
        Ok(match short {
            ShortAnswer::BeganTop(number) => self.began(action, &[Begun::Top(number)])?,
            ShortAnswer::BeganChild(number) => self.began(action, &[Begun::Child(number)])?,
            ShortAnswer::Began { count, start } => {
                let start = start as usize;
                self.began(action, &self.begun[start..start + count as usize])?
            }
            ShortAnswer::Performed => Answer::Granted(Reply::Done),
            ShortAnswer::Number(number) => {
                let value = Value::Int(i64::from(number));
                Answer::Granted(Reply::Gives(value))
            }
            ShortAnswer::Truth(holds) => Answer::Granted(Reply::Truth(holds)),
            ShortAnswer::Signals(signal) => Answer::Granted(Reply::Signals(signal)),
            ShortAnswer::Reply(place) => Answer::Granted(self.replies[place as usize].copy()?),
            ShortAnswer::VoteYes => Answer::VoteYes,
            ShortAnswer::VoteNo => Answer::VoteNo,
            ShortAnswer::Done(count) => Answer::Done(u64::from(count)),
        })
    }

    // The answer of a step of this action that began these.
    fn began(&self, action: &[u32], all: &[Begun]) -> Result<Answer, AllocError>
        ensures { IfOk result
            (λ answer. answer ≡ answers.Began (map (begun_name action.now) all.now)) }
    {
        let alloc = *self.begun.allocator();
        let mut names = Vec::with_capacity(alloc, all.len())?;
        for begun in all {
            names.push(begun.name(alloc, action)?)?;
        }
        Ok(Answer::Began(Names::from_vec(names)))
    }
}

// The short form where this action alone was begun, if it has one.
fn short_begun(action: &[u32], name: &Name) -> Option<ShortAnswer>
    ensures { IfSome result
        (λ short. (g : Given) → IsKeptAnswer g g action.now short (answers.Began (name.now ∷ []))) }
{
    Some(match Begun::of(name, action)? {
        Begun::Top(number) => ShortAnswer::BeganTop(number),
        Begun::Child(number) => ShortAnswer::BeganChild(number),
    })
}

// The short form of a reply that owns no memory, but for great numbers.
fn short_reply(reply: &Reply) -> Option<ShortAnswer>
    ensures { IfSome result
        (λ short. (g : Given) (a : List ℕ) → IsKeptAnswer g g a short (answers.Granted reply.now)) }
{
    match reply {
        Reply::Gives(Value::Int(number)) => i32::try_from(*number).ok().map(ShortAnswer::Number),
        Reply::Gives(Value::Text(_)) => None,
        Reply::Truth(holds) => Some(ShortAnswer::Truth(*holds)),
        Reply::Done => Some(ShortAnswer::Performed),
        Reply::Signals(signal) => Some(ShortAnswer::Signals(*signal)),
    }
}
