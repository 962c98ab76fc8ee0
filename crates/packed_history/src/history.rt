//! The history of a world, kept compactly.
ghost use Rattle.std.specs.Prelude.{◌≡◌, ◌==◌, [], ◌∷◌, drop, length, reverse, slice_get, suc, IfOk, OnErr, OnOk};

use crate::arenas::{Arenas, Row};
use run_model::{Event, EventRef, History};
use std::alloc::{AllocError, Global};
use std::marker::Model;

/// The accepted steps with their answers, in order: a `History` in rows. Contracts see the newest first.
#[derive(Drop)]
pub struct PackedHistory {
    /// The oldest first.
    rows: Vec<Row>,
    arenas: Arenas,
}

impl Model for PackedHistory {
    ghost use Rattle.std.specs.Prelude.{List, reverse};
    ghost use Rattle.run_model.specs.declared.history.Event.{Event};
    ghost use Rattle.packed_history.specs.Arenas.{AreLaid, events_in};

    ghost Value = { List Event };

    ghost view = { λ a. events_in a.arenas (reverse a.rows.items) };

    ghost invariant = { λ a. AreLaid a.arenas (reverse a.rows.items) };
}

impl PackedHistory {
    /// A history in which nothing happened. This takes no memory.
    pub fn new(alloc: Global) -> PackedHistory
        ensures { result ≡ [] }
    {
        PackedHistory {
            rows: Vec::new(alloc),
            arenas: Arenas::new(alloc),
        }
    }

    /// How many events there are.
    pub fn len(&self) -> usize
        ensures { result ≡ length self.now }
    {
        self.rows.len()
    }

    /// Whether there is no event.
    pub fn is_empty(&self) -> bool
        ensures { result ≡ (length self.now == 0) }
    {
        self.rows.is_empty()
    }

    /// The stamp of the event that comes next: its place in the history, from 1.
    pub fn next_stamp(&self) -> u64
        ensures { result ≡ suc (length self.now) }
    {
        self.rows.len() as u64 + 1
    }

    /// Records an event at the end. Where memory runs out, the history stays as it was.
    pub fn push(&mut self, event: &EventRef<'_>) -> Result<(), AllocError>
        ensures ok { OnOk result (self.new ≡ event.now ∷ self.old) }
        ensures err { OnErr result (self.new ≡ self.old) }
    {
        self.rows.reserve(1)?;
        let row = self.arenas.keep(event)?;
        self.rows.push_reserved(row);
        Ok(())
    }

    /// Takes the newest event back, if there is one. This takes no memory.
    pub fn pop(&mut self)
        ensures { self.new ≡ drop 1 self.old }
    {
        if let Some(row) = self.rows.pop() {
            self.arenas.cut(row);
        }
    }

    /// The event at this place, counted from the oldest, which stands at 0; none exactly past the newest. Fails only
    /// if memory runs out.
    pub fn event(&self, place: usize) -> Result<Option<Event>, AllocError>
        ensures { IfOk result (λ event. event ≡ slice_get (reverse self.now) place) }
    {
        match self.rows.get(place) {
            Some(row) => Ok(Some(self.arenas.event(*row)?)),
            None => Ok(None),
        }
    }

    /// The history of the same events, each lying open to be read. Fails only if memory runs out.
    pub fn unpacked(&self) -> Result<History, AllocError>
        ensures { IfOk result (λ history. history ≡ self.now) }
    {
        let mut events = Vec::with_capacity(*self.rows.allocator(), self.rows.len())?;
        for row in &self.rows {
            events.push(self.arenas.event(*row)?)?;
        }
        Ok(History::from_vec(events))
    }
}
