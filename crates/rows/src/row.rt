//! One row, and the words of its arguments.
use std::alloc::AllocError;

/// What a line of a table asks for.
#[derive(Clone, Copy, Drop)]
pub struct Row<'a> {
    /// The first word: which call is made.
    pub call: &'a str,
    /// What follows it, up to ` => `.
    pub given: &'a str,
    /// What the call must answer.
    pub answer: &'a str,
}

/// Why a row has no answer.
#[derive(Clone, Copy, PartialEq, Eq, Debug, Drop)]
pub enum RowFault {
    /// Memory was refused, and nothing has changed; the call can be made again.
    Memory,
    /// No call has this name, or its arguments are none.
    Unread,
}

impl From<AllocError> for RowFault {
    fn from(_: AllocError) -> RowFault {
        RowFault::Memory
    }
}

/// The words that are left of a row's arguments.
#[derive(Clone, Copy, Drop)]
pub struct Words<'a> {
    rest: &'a str,
}

impl<'a> Row<'a> {
    /// The row of a line `CALL ARGUMENTS => ANSWER`; `None` where the line has no ` => `. Arguments and answer may be
    /// empty.
    pub fn read(line: &'a str) -> Option<Row<'a>> {
        let (asked, answer) = line.split_once(" =>")?;
        let answer = answer.strip_prefix(' ').unwrap_or(answer);
        let (call, given) = asked.split_once(' ').unwrap_or((asked, ""));
        Some(Row {
            call,
            given,
            answer,
        })
    }

    /// The words of the arguments, from the first.
    pub fn words(&self) -> Words<'a> {
        Words { rest: self.given }
    }
}

impl<'a> Words<'a> {
    /// The next word, up to a blank; `Unread` where none is left.
    pub fn word(&mut self) -> Result<&'a str, RowFault> {
        if self.rest.is_empty() {
            return Err(RowFault::Unread);
        }
        let (word, rest) = self.rest.split_once(' ').unwrap_or((self.rest, ""));
        self.rest = rest;
        Ok(word)
    }

    /// The next word as a number; `Unread` where it is none.
    pub fn number(&mut self) -> Result<u64, RowFault> {
        self.word()?.parse().map_err(|_| RowFault::Unread)
    }

    /// All that is left, with its blanks.
    pub fn rest(self) -> &'a str {
        self.rest
    }
}
