//! What messages bring of aborts and crashes, and copies of it.
ghost use Rattle.std.specs.Prelude.{◌≡◌, ◌↔◌, ◌++◌, ◌∷◌, [], None, IsTrue, OnOk};
ghost use Rattle.run_model.specs.LocalReadings.{aborted_in};
ghost use Rattle.orphans.specs.Logs.{names_of};
ghost use Rattle.orphans.specs.Indexes.{with_own};

use crate::log::Abort;
use run_model::{Name, Names};
use std::alloc::{AllocError, Global};

/// What the messages of an event bring of aborts and crashes: whose lists came and in which life of that guardian
/// (how often it had crashed), what of them it had not sent before, the newest first, and which actions ended, with
/// whether they committed.
#[derive(Clone, Copy)]
pub struct News<'a> {
    pub sender: Option<u32>,
    pub life: u64,
    pub aborts: &'a Names,
    pub counts: &'a [(u32, u64)],
    pub outcomes: &'a [(Name, bool)],
}

/// News, in copies. Of the aborts those come first that the message carried, and then those that were told; of the
/// counts the sender's own comes first. Its room is used again for the next news.
#[derive(Drop)]
pub struct Lesson {
    pub(crate) sender: Option<u32>,
    pub(crate) life: u64,
    pub(crate) aborts: Vec<Abort>,
    pub(crate) counts: Vec<(u32, u64)>,
    pub(crate) sent_aborts: usize,
    pub(crate) sent_counts: usize,
}

impl Lesson {
    ghost use Rattle.orphans.specs.Knowing.{IsEmpty, IsLesson};

    /// A lesson of nothing. This takes no memory.
    pub fn new(alloc: Global) -> Lesson
        ensures { IsLesson None 0 [] [] [] result }
    {
        Lesson {
            sender: None,
            life: 0,
            aborts: Vec::new(alloc),
            counts: Vec::new(alloc),
            sent_aborts: 0,
            sent_counts: 0,
        }
    }

    // Whether no lists came and no abort was told.
    pub(crate) fn is_empty(&self) -> bool
        ensures { IsTrue result ↔ IsEmpty self.now }
    {
        self.sender.is_none() && self.aborts.is_empty()
    }

    // Copies news, in place of what was to be learnt.
    pub(crate) fn fill(&mut self, alloc: Global, news: News<'_>) -> Result<(), AllocError>
        ensures { OnOk result (IsLesson news.entry.sender news.entry.life news.entry.aborts.now
            news.entry.counts.now news.entry.outcomes.now self.new) }
    {
        self.sender = news.sender;
        self.life = news.life;
        self.sent_aborts = news.aborts.len();
        self.sent_counts = news.counts.len();
        fill_aborts(
            &mut self.aborts,
            alloc,
            news.aborts.as_slice(),
            news.outcomes,
        )?;
        fill_counts(&mut self.counts, news.sender, news.life, news.counts)
    }
}

// The aborts that came, and after them those that were told, in copies, in place of those that were there.
fn fill_aborts(
    all: &mut Vec<Abort>,
    alloc: Global,
    aborts: &[Name],
    outcomes: &[(Name, bool)],
) -> Result<(), AllocError>
    ensures { OnOk result (names_of all.new.items ≡ aborts.now ++ aborted_in outcomes.now) }
{
    all.clear();
    for name in aborts {
        add_abort(all, alloc, name)?;
    }
    for (told, committed) in outcomes {
        if !*committed {
            add_abort(all, alloc, told)?;
        }
    }
    Ok(())
}

// Copies one abort more.
#[tactic(auto, using(crate::proofs::Told::names_more))]
fn add_abort(all: &mut Vec<Abort>, alloc: Global, name: &Name) -> Result<(), AllocError>
    ensures { OnOk result (names_of all.new.items ≡ names_of all.old.items ++ name.now ∷ []) }
{
    all.push(Abort::of(alloc, name)?)?;
    Ok(())
}

// A sender's own count, and after it those that it sent, in place of those that were there.
fn fill_counts(
    into: &mut Vec<(u32, u64)>,
    sender: Option<u32>,
    life: u64,
    counts: &[(u32, u64)],
) -> Result<(), AllocError>
    ensures { OnOk result (into.new.items ≡ with_own sender life counts.now) }
{
    into.clear();
    if let Some(sender) = sender {
        into.push((sender, life))?;
        into.extend_from_slice(counts)?;
    }
    Ok(())
}
