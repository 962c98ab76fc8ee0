//! Steps at random, over five guardians with a counter and a record each.
ghost use Rattle.std.specs.Prelude.{◌<◌};

use action_names::Name;
use rows::RowFault;
use run_model::{Answer, Step};
use std::alloc::{AllocError, Global};

/// The setup's document.
pub(crate) const SETUP: &str = "{\"guardians\":[\
    {\"objects\":[{\"counter\":0},{\"record\":{\"a\":0}}]},\
    {\"objects\":[{\"counter\":0},{\"record\":{\"a\":0}}]},\
    {\"objects\":[{\"counter\":0},{\"record\":{\"a\":0}}]},\
    {\"objects\":[{\"counter\":0},{\"record\":{\"a\":0}}]},\
    {\"objects\":[{\"counter\":0},{\"record\":{\"a\":0}}]}]}";

/// How many of the actions that were begun last are spoken of.
const RECENT: usize = 6;

/// Sixty-five arms, one too many.
const TOO_MANY: &str = "s s s s s s s s s s s s s s s s s s s s s s s s s s s s s s s s s \
    s s s s s s s s s s s s s s s s s s s s s s s s s s s s s s s s";

/// A participant that crashed votes no.
const NO_VOTE: [&str; 9] = [
    "top 1",
    "call 1 2",
    "op 1.1 2/1 add 3",
    "commit 1.1",
    "tell 2 1.1",
    "close 1",
    "crash 2",
    "recover 2",
    "prepare 2 1",
];

/// How many calls a list begins with that climbs. An action has 32 ancestors at most.
const CALLS: u32 = 36;

/// An action, and the guardian of which the step that began it spoke.
#[derive(Drop)]
struct Begun {
    name: Name,
    guardian: u64,
}

/// Makes steps at random, about actions that it began.
#[derive(Drop)]
pub(crate) struct Walk {
    alloc: Global,
    state: u64,
    begun: Vec<Begun>,
    /// The guardian of which the last step spoke.
    guardian: u64,
    /// How many calls come first, each by the action that began last.
    calls: u32,
    /// How many of the steps to a vote of no were made.
    planned: usize,
}

impl Walk {
    pub(crate) fn new(alloc: Global, seed: u64) -> Walk {
        let calls = if seed % 8 == 0 { CALLS } else { 0 };
        let planned = if seed % 8 == 1 { 0 } else { NO_VOTE.len() };
        Walk {
            alloc,
            state: seed,
            begun: Vec::new(alloc),
            guardian: 1,
            calls,
            planned,
        }
    }

    /// Takes note of the actions that an answer began.
    pub(crate) fn note(&mut self, answer: &Answer) -> Result<(), AllocError> {
        if let Answer::Began(names) = answer {
            for name in names.as_slice() {
                self.begun.push(Begun {
                    name: name.copy()?,
                    guardian: self.guardian,
                })?;
            }
        }
        Ok(())
    }

    /// A number below the bound.
    fn below(&mut self, bound: u64) -> u64
        requires { 0 < bound }
        ensures { result < bound }
    {
        // Knuth's linear congruential generator
        self.state = self
            .state
            .wrapping_mul(6_364_136_223_846_793_005)
            .wrapping_add(1_442_695_040_888_963_407);
        (self.state >> 33) % bound
    }

    /// The next step.
    pub(crate) fn next_step(&mut self) -> Result<Step, RowFault> {
        let text = self.text()?;
        match Step::read(self.alloc, text.as_str().as_bytes())? {
            Some(step) => Ok(step),
            None => Err(RowFault::Unread),
        }
    }

    /// The text of a step.
    fn text(&mut self) -> Result<String, AllocError> {
        if let Some(text) = NO_VOTE.get(self.planned) {
            self.planned += 1;
            return String::from_str(self.alloc, text);
        }
        let guardian = self.below(5) + 1;
        self.guardian = guardian;
        if self.calls > 0 {
            return self.call(guardian);
        }
        let back = self.below(RECENT as u64) as usize;
        self.text_about(back, guardian)
    }

    /// A call by the action that was begun last.
    fn call(&mut self, guardian: u64) -> Result<String, AllocError> {
        let alloc = self.alloc;
        self.calls = self.calls.saturating_sub(1);
        match self.begun_before(0) {
            Some(begun) => {
                let name = text_of(alloc, &begun.name)?;
                let name = name.as_str();
                format!(in alloc; "call {name} {guardian}")
            }
            None => format!(in alloc; "top {guardian}"),
        }
    }

    /// The text of a step about the action that was begun so many before the last, and this guardian.
    fn text_about(&mut self, back: usize, guardian: u64) -> Result<String, AllocError> {
        let alloc = self.alloc;
        let Some(begun) = self.begun_before(back) else {
            return format!(in alloc; "top {guardian}");
        };
        let home = begun.guardian;
        let name = text_of(alloc, &begun.name)?;
        self.text_by(name.as_str(), home, guardian)
    }

    /// The text of a step of this action, or of any kind at this guardian.
    fn text_by(&mut self, name: &str, home: u64, guardian: u64) -> Result<String, AllocError> {
        let alloc = self.alloc;
        match self.below(32) {
            0 => format!(in alloc; "top {guardian}"),
            1 | 2 => format!(in alloc; "call {name} {guardian}"),
            3 => format!(in alloc; "nest {name}"),
            4 => format!(in alloc; "arms {name} s t"),
            5..=7 => format!(in alloc; "commit {name}"),
            8 | 9 => format!(in alloc; "close {name}"),
            10..=12 => format!(in alloc; "prepare {guardian} {name}"),
            13 => format!(in alloc; "decide {name}"),
            14 => format!(in alloc; "abort {name}"),
            15..=17 => format!(in alloc; "tell {guardian} {name}"),
            18 => self.crash(guardian),
            19 | 20 => format!(in alloc; "recover {guardian}"),
            21 => self.mistake(name, guardian),
            _ if self.below(4) == 0 => self.operation(name, guardian),
            _ => self.operation(name, home),
        }
    }

    /// An operation on one of the guardian's two objects.
    fn operation(&mut self, name: &str, guardian: u64) -> Result<String, AllocError> {
        let alloc = self.alloc;
        let value = self.below(9);
        match self.below(8) {
            0 => format!(in alloc; "op {name} {guardian}/1 total"),
            1 => format!(in alloc; "op {name} {guardian}/1 put {value}"),
            2 => format!(in alloc; "op {name} {guardian}/2 get a"),
            3 => format!(in alloc; "op {name} {guardian}/2 set a {value}"),
            _ => format!(in alloc; "op {name} {guardian}/1 add {value}"),
        }
    }

    /// A crash now and then, and else a recovery.
    fn crash(&mut self, guardian: u64) -> Result<String, AllocError> {
        let alloc = self.alloc;
        match self.below(4) {
            0 => format!(in alloc; "crash {guardian}"),
            _ => format!(in alloc; "recover {guardian}"),
        }
    }

    /// A step that is refused, whatever happened.
    fn mistake(&mut self, name: &str, guardian: u64) -> Result<String, AllocError> {
        let alloc = self.alloc;
        match self.below(5) {
            0 => format!(in alloc; "top 6"),
            1 => format!(in alloc; "close 4000000000"),
            2 => format!(in alloc; "op {name} {guardian}/3 get a"),
            3 => format!(in alloc; "op {name} {guardian}/1 get a"),
            _ => format!(in alloc; "arms {name} {TOO_MANY}"),
        }
    }

    /// The action that was begun so many before the last.
    fn begun_before(&self, back: usize) -> Option<&Begun> {
        let last = self.begun.len().checked_sub(back.saturating_add(1))?;
        self.begun.get(last)
    }
}

/// The text of a name.
fn text_of(alloc: Global, name: &Name) -> Result<String, AllocError> {
    let mut text = String::new(alloc);
    name.write_to(&mut text)?;
    Ok(text)
}
