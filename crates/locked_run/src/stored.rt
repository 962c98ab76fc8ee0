//! The events that a lock keeps.
ghost use Rattle.std.specs.Prelude.{◌≡◌, ◌==◌, [], ◌∷◌, drop, length, reverse, slice_get, IfOk, OnErr, OnOk};
ghost use Rattle.locked_run.specs.Stored.{restamped, settled};

use layer_contracts::Fault;
use packed_history::PackedHistory;
use run_model::{Event, EventRef};
use std::alloc::{AllocError, Global};
use std::marker::Model;

/// The events that took a lock, with their stamps. Contracts see the newest first.
#[derive(Drop)]
pub struct StoredHistory {
    events: PackedHistory,
    /// The oldest first.
    stamps: Vec<u64>,
}

impl Model for StoredHistory {
    ghost use Rattle.std.specs.Prelude.{◌≡◌, List, length, reverse};
    ghost use Rattle.run_model.specs.LocalHistories.{Stamped};
    ghost use Rattle.locked_run.specs.Stored.{with_stamps};

    ghost Value = { List Stamped };

    ghost view = { λ h. with_stamps (reverse h.stamps.items) h.events };

    ghost invariant = { λ h. length h.stamps.items ≡ length h.events };
}

impl StoredHistory {
    /// A history in which nothing happened. This takes no memory.
    pub fn new(alloc: Global) -> StoredHistory
        ensures { result ≡ [] }
    {
        StoredHistory {
            events: PackedHistory::new(alloc),
            stamps: Vec::new(alloc),
        }
    }

    /// How many events there are.
    pub fn len(&self) -> usize
        ensures { result ≡ length self.now }
    {
        self.stamps.len()
    }

    /// Whether there is no event.
    pub fn is_empty(&self) -> bool
        ensures { result ≡ (length self.now == 0) }
    {
        self.stamps.is_empty()
    }

    /// The event at this place with its stamp, counted from the oldest, which stands at 0; none
    /// exactly past the newest. Fails only if memory runs out.
    pub fn event(&self, place: usize) -> Result<Option<(u64, Event)>, AllocError>
        ensures { IfOk result (λ event. event ≡ slice_get (reverse self.now) place) }
    {
        match self.events.event(place)? {
            Some(event) => Ok(Some((self.stamps[place], event))),
            None => Ok(None),
        }
    }

    /// Records an event with this stamp. Without memory the history stays as it was.
    pub(crate) fn push(&mut self, event: &EventRef<'_>, stamp: u64) -> Result<(), AllocError>
        ensures ok { OnOk result (self.new ≡ (stamp, event.now) ∷ self.old) }
        ensures err { OnErr result (self.new ≡ self.old) }
    {
        self.stamps.reserve(1)?;
        self.events.push(event)?;
        self.stamps.push_reserved(stamp);
        Ok(())
    }

    /// Gives the newest event this stamp. This takes no memory.
    pub(crate) fn restamp(&mut self, stamp: u64)
        ensures { self.new ≡ restamped stamp self.old }
    {
        if let Some(last) = self.stamps.last_mut() {
            *last = stamp;
        }
    }

    /// Takes the newest event back, if there is one. This takes no memory.
    pub(crate) fn pop(&mut self)
        ensures { self.new ≡ drop 1 self.old }
    {
        self.stamps.pop();
        self.events.pop();
    }

    /// Settles the newest event, which was recorded before it was kept. It gets the stamp that was
    /// drawn, or is taken back if it was not kept.
    pub(crate) fn settle(&mut self, kept: &Result<u64, Fault>)
        ensures { self.new ≡ settled kept.now self.old }
    {
        match kept {
            Ok(stamp) => self.restamp(*stamp),
            Err(_) => self.pop(),
        }
    }
}
