//! Rows by place.
ghost use Rattle.std.specs.Prelude.{◌≡◌, ◌<◌, ◌≤◌, [], ℕ, Some, length, max, OnOk, set};
ghost use Rattle.std.specs.Option.{option_copied};
ghost use Rattle.places.specs.Rows.{row_at};

use std::alloc::{AllocError, Global};
use std::marker::Model;

/// What is kept of some names, by the places of the names. Contracts see a list in which a place may be empty.
#[derive(Drop)]
pub struct Rows<V> {
    rows: Vec<Option<V>>,
}

impl<V> Model for Rows<V> {
    ghost use Rattle.std.specs.Prelude.{List, Option};

    ghost Value = { List (Option V) };

    ghost view = { λ a. a.rows.items };
}

impl<V: Drop> Rows<V> {
    /// No row, and room for none. This takes no memory.
    pub fn new(alloc: Global) -> Self
        ensures { result ≡ [] }
    {
        Rows {
            rows: Vec::new(alloc),
        }
    }

    /// The row at the place, if there is one. This takes no memory.
    pub fn get(&self, at: usize) -> Option<&V>
        ensures { option_copied result ≡ row_at self.now at }
    {
        self.rows.get(at)?.as_ref()
    }

    /// Puts the row at a place for which there is room, over the one that stood there. This takes no memory.
    pub fn put(&mut self, at: usize, row: V)
        requires { at < length self.old }
        ensures { self.new ≡ set self.old at (Some row) }
    {
        self.rows[at] = Some(row);
    }

    /// Makes room for rows at so many places. The rows stay, also if memory runs out.
    pub fn make_room(&mut self, places: usize) -> Result<(), AllocError>
        ensures same { (i : ℕ) → row_at self.new i ≡ row_at self.old i }
        ensures within { length self.new ≤ max (length self.old) places }
        ensures room { OnOk result (places ≤ length self.new) }
    {
        for _ in self.rows.len()..places {
            self.rows.push(None)?;
        }
        Ok(())
    }
}
