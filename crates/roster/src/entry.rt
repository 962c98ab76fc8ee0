//! What an event makes of actions at a guardian.
ghost use Rattle.std.specs.Prelude.{◌≡◌, ℕ, IfOk, IsTrue, None, Some};
ghost use Rattle.std.specs.Option.{option_map};

use run_model::{Deps, EventRef, Name, Step};
use std::alloc::{AllocError, Global};

/// What is kept of an action that began here. Others are named by the places of their rows.
#[derive(Drop)]
pub struct Row {
    pub(crate) home: u32,
    /// How often its home had crashed when it began, as far as the guardian knows.
    pub(crate) life: u64,
    /// Who made it, if that began here too.
    pub(crate) maker: Option<usize>,
    pub(crate) depends: Deps,
    pub(crate) ended: bool,
    pub(crate) closed: bool,
    /// How many of the things that it made have not ended.
    pub(crate) unended: u64,
}

/// What the rows of all that a step begins have in common.
#[derive(Clone, Copy)]
pub(crate) struct Birth {
    pub(crate) home: u32,
    pub(crate) life: u64,
    /// The place of the maker's row.
    pub(crate) maker: Option<usize>,
}

impl Birth {
    ghost use Rattle.roster.specs.Tables.{born_row};

    /// The row of an action that begins so, and depends on these.
    pub(crate) fn row(self, depends: Deps) -> Row
        ensures { result ≡ born_row self depends }
    {
        Row {
            home: self.home,
            life: self.life,
            maker: self.maker,
            depends,
            ended: false,
            closed: false,
            unended: 0,
        }
    }
}

/// The places of the rows of those of whom a step speaks, where they have rows.
#[derive(Clone, Copy)]
pub(crate) struct Concerned {
    /// Of the action that it ends.
    pub(crate) ended: Option<usize>,
    /// Of the action that it closes.
    pub(crate) closed: Option<usize>,
    /// Of who makes what it begins.
    pub(crate) maker: Option<usize>,
}

/// What an event makes of the guardian that keeps it.
#[derive(Clone, Copy, Debug, PartialEq, Eq)]
pub enum Turn {
    Stays,
    Crashes,
    Recovers,
}

/// What an event makes of a roster, in copies. Its room is used again for the next event.
#[derive(Drop)]
pub struct Entry {
    /// Whether it makes nothing of a roster. What else stands in it is then of an earlier event.
    pub(crate) idle: bool,
    /// The place of the action that it ends.
    pub(crate) ended: Option<usize>,
    /// The place of the action that it closes.
    pub(crate) closed: Option<usize>,
    /// The place of the parent of an action that commits, and on what the parent depends then.
    pub(crate) merged: Option<(usize, Deps)>,
    pub(crate) birth: Birth,
    /// What begins: the place of its name, and on what it depends.
    pub(crate) begun: Vec<(usize, Deps)>,
    pub(crate) turn: Turn,
}

impl Entry {
    ghost use Rattle.roster.specs.Tables.{made_by, nothing_made};

    /// What makes nothing of a roster. This takes no memory.
    pub fn new(alloc: Global) -> Entry
        ensures { made_by result ≡ nothing_made }
    {
        Entry {
            idle: true,
            ended: None,
            closed: None,
            merged: None,
            birth: Birth {
                home: 0,
                life: 0,
                maker: None,
            },
            begun: Vec::new(alloc),
            turn: Turn::Stays,
        }
    }

    /// Makes it one that makes this of the guardian and nothing of actions. It keeps its room.
    pub(crate) fn reset(&mut self, turn: Turn)
        ensures made { made_by self.new
            ≡ record nothing_made { birth = self.new.birth; turn = turn } }
        ensures maker { self.new.birth.maker ≡ None }
    {
        self.idle = false;
        self.ended = None;
        self.closed = None;
        self.merged = None;
        self.birth.maker = None;
        self.begun.clear();
        self.turn = turn;
    }
}

ghost use Rattle.roster.specs.Steps.{turn_in};
ghost use Rattle.roster.specs.Entries.{ConcernsNone};

/// Whether the event begins, ends and closes no action, and leaves the guardian as it stood, as far as its kind tells.
pub(crate) fn concerns_none(event: &EventRef<'_>) -> bool
    ensures { IsTrue result → ConcernsNone event.now }
{
    match event.step {
        Step::Op(..) | Step::Prepare(..) | Step::Tell(..) => event.answer.names_begun().is_empty(),
        _ => false,
    }
}

/// What becomes of the guardian that keeps the step. Of crashes and recoveries it keeps its own.
pub(crate) fn turn_in(step: &Step) -> Turn
    ensures { result ≡ turn_in step.now }
{
    match step {
        Step::Crash(_) => Turn::Crashes,
        Step::Recover(_) => Turn::Recovers,
        _ => Turn::Stays,
    }
}
