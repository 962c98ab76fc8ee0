//! Values by name for those who ask by name alone: found by a hash, in no order.
ghost use Rattle.std.specs.Prelude.{◌≡◌, [], IsTrue, IfOk, OnOk, OnErr};
ghost use Rattle.std.specs.Option.{option_copied};
ghost use Rattle.action_names.specs.Names.{has_name};
ghost use Rattle.holders.specs.Held.{value_at, with_value, HasMoreRoom};

use action_names::Name;
use std::alloc::{AllocError, Global};
use std::collections::HashMap;
use std::marker::Model;

/// A value for each of some names, and the names for which there is room. Contracts see it as `Holders`, in the order
/// of names.
#[derive(Drop)]
pub struct Index<V> {
    rows: HashMap<Name, Option<V>>,
}

impl<V> Model for Index<V> {
    ghost use Rattle.std.specs.Map.{keys_of};
    ghost use Rattle.holders.specs.Held.{Rows, held_in};
    ghost use Rattle.holders.specs.Indexed.{ordered};

    ghost Value = { Rows V };

    ghost view = { λ a.
        record { held = held_in (ordered a.rows.entries); room = keys_of (ordered a.rows.entries) } };
}

impl<V: Drop> Index<V> {
    /// No name has a value, and there is room for none. This takes no memory.
    pub fn new(alloc: Global) -> Self
        ensures { result ≡ record { held = []; room = [] } }
    {
        Index {
            rows: HashMap::new(alloc),
        }
    }

    /// The value of the name, if it has one. This takes no memory.
    pub fn get(&self, name: &Name) -> Option<&V>
        ensures { option_copied result ≡ value_at self.now.held name.now }
    {
        self.rows.get(name)?.as_ref()
    }

    /// Gives the value to a name for which there is room, in the place of what it had. This takes no memory.
    pub fn put(&mut self, name: &Name, value: V)
        requires { IsTrue (has_name self.old.room name.now) }
        ensures held { self.new.held ≡ with_value self.old.held name.now value }
        ensures room { self.new.room ≡ self.old.room }
    {
        if let Some(row) = self.rows.get_mut(name) {
            *row = Some(value);
        }
    }
}

impl<V: Copy> Index<V> {
    /// Makes room for a value of the name, and gives the value that it has, if any. What has a value keeps it; if
    /// memory runs out, nothing is changed.
    pub fn make_room(&mut self, name: &Name) -> Result<Option<V>, AllocError>
        ensures held { self.new.held ≡ self.old.held }
        ensures room { OnOk result (HasMoreRoom self.old.room self.new.room name.now) }
        ensures err { OnErr result (self.new ≡ self.old) }
        ensures value { IfOk result (λ value. value ≡ value_at self.old.held name.now) }
    {
        Ok(*self.rows.entry(name.copy()?)?.or_insert(None))
    }
}
