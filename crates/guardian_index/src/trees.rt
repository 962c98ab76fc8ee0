//! What holders hold in a tree, in the order of their names. What a step costs grows with the logarithm of their
//! number.
ghost use Rattle.std.specs.Prelude.{◌≡◌, ◌↔◌, ◌||◌, ◌&&◌, ◌==◌, ◌≤◌, ◌+◌, ℕ, not, false, length, IsTrue, IfOk, OnOk, OnErr, IfSome, if◌then◌else◌};
ghost use Rattle.std.specs.Option.{option_copied as name_of};
ghost use Rattle.action_names.specs.Names.{Name, same_name, is_ancestor, is_proper_ancestor};
ghost use Rattle.guardian_index.specs.Held.{IsRising, IsOrderly, has_number, has_object, objects_at, room_at, has_room, HoldsBelow};
ghost use Rattle.guardian_index.specs.Held.{HasRoomBelow, HasRoomFrom, IsHeld, count_below, is_in_row, is_name_of, rows_in};

use crate::holding::{Holding, retain_held};
use crate::rising;
use action_names::Name;
use std::alloc::{AllocError, Global};
use std::collections::BTreeMap;
use std::collections::btree_map::Values;
use std::marker::Model;

/// At which objects each holder holds something, and for how many more there is room.
#[derive(Drop)]
pub struct TreeRows {
    alloc: Global,
    rows: BTreeMap<Name, Vec<u32>>,
}

impl Model for TreeRows {
    ghost use Rattle.guardian_index.specs.Held.{Rows, rows_in, IsOrderly};

    ghost Value = { Rows };

    ghost view = { λ a. rows_in a.rows.entries };

    ghost invariant = { λ a. IsOrderly a.rows.entries };
}

impl TreeRows {
    // The rows of holders that are these.
    pub(crate) fn of(alloc: Global, rows: BTreeMap<Name, Vec<u32>>) -> Self
        requires { IsOrderly rows.entries }
        ensures { result ≡ rows_in rows.entries }
    {
        TreeRows { alloc, rows }
    }

    /// At which objects the holder holds something, rising; none where it holds nothing. This takes no memory.
    pub fn objects_of(&self, holder: &Name) -> &[u32]
        ensures objects { result.now ≡ objects_at self.now holder.now }
        ensures rising { IsRising result.now }
    {
        match self.rows.get(holder) {
            Some(objects) => objects,
            None => &[],
        }
    }

    /// At which objects the action and its descendants hold something, rising, each once. It looks at their rows and
    /// one more. Fails only if memory runs out.
    pub fn objects_below(&self, action: &Name) -> Result<Vec<u32>, AllocError>
        ensures objects { IfOk result (λ objects. (n : ℕ)
            → IsTrue (has_number objects.items n) ↔ HoldsBelow self.now action.now n) }
        ensures rising { IfOk result (λ objects. IsRising objects.items) }
    {
        let mut below = Vec::new(self.alloc);
        for (holder, objects) in self.rows.range(action..) {
            if !action.is_ancestor(holder) {
                break;
            }
            below.reserve(objects.len())?;
            rising::insert_all(&mut below, objects);
        }
        Ok(below)
    }

    /// The objects at which somebody holds something: a row for each holder, so that an object at which several do
    /// comes once for each. This takes no memory.
    pub fn rows(&self) -> Values<'_, Name, Vec<u32>>
        ensures { (n : ℕ) → IsTrue (is_in_row result n) ↔ IsHeld self.now n }
    {
        self.rows.values()
    }

    /// Makes room for so many more objects of the holder. What is held stays, and so does all room. If memory runs
    /// out, nothing is changed.
    pub fn reserve(&mut self, holder: &Name, additional: usize) -> Result<(), AllocError>
        ensures held { (b : Name) → objects_at self.new b ≡ objects_at self.old b }
        ensures room { OnOk result
            (length (objects_at self.old holder.now) + additional ≤ room_at self.new holder.now) }
        ensures others { (b : Name) → room_at self.old b ≤ room_at self.new b }
        ensures below { (b : Name) → count_below self.new b ≡ count_below self.old b }
        ensures err { OnErr result (self.new ≡ self.old) }
    {
        if let Some(objects) = self.rows.get_mut(holder) {
            return objects.reserve(additional);
        }
        let objects = rising::with_room(self.alloc, additional)?;
        self.rows.insert(holder.copy()?, objects)?;
        Ok(())
    }

    /// Notes that the holder holds something at the object, for which there is room, or where it was noted before.
    /// This takes no memory.
    pub fn insert(&mut self, holder: &Name, object: u32)
        requires { IsTrue (has_object self.old holder.now object || has_room self.old holder.now) }
        ensures held { (b : Name) (n : ℕ) → has_object self.new b n
            ≡ ((same_name holder.now b && (object == n)) || has_object self.old b n) }
        ensures room { (b : Name) → room_at self.new b ≡ room_at self.old b }
    {
        let Some(objects) = self.rows.get_mut(holder) else {
            return;
        };
        rising::insert(objects, object);
    }

    /// How many objects the action and its descendants have, each as often as one of them has it, if a number holds
    /// that.
    pub fn count_below(&self, action: &Name) -> Option<usize>
        ensures { IfSome result (λ count. count ≡ count_below self.now action.now) }
    {
        let mut count: usize = 0;
        for (holder, objects) in self.rows.range(action..) {
            if !action.is_ancestor(holder) {
                break;
            }
            count = count.checked_add(objects.len())?;
        }
        Some(count)
    }

    /// Hands on what the action has to a proper ancestor that has room for it, or gives it up where there is none.
    /// The action's room goes. This takes no memory.
    pub fn hand_on(&mut self, action: &Name, to: Option<&Name>)
        requires above { IfSome (name_of to) (λ h. IsTrue (is_proper_ancestor h action.now)) }
        requires room { IfSome (name_of to) (λ h. HasRoomFrom self.old h action.now) }
        ensures held { (b : Name) (n : ℕ) → has_object self.new b n
            ≡ (not (same_name action.now b) && (has_object self.old b n
            || (is_name_of (name_of to.entry) b && has_object self.old action.now n))) }
        ensures room { (b : Name) → same_name action.now b ≡ false → HasRoomBelow self.old b
            → HasRoomBelow self.new b }
    {
        let Some(objects) = self.rows.remove(action) else {
            return;
        };
        let Some(to) = to else {
            return;
        };
        self.insert_all(to, &objects);
    }

    /// Drops what the action and its descendants have, and their room. It looks at their rows and one more. This
    /// takes no memory.
    pub fn drop_below(&mut self, action: &Name)
        ensures held { (b : Name) (n : ℕ) → has_object self.new b n
            ≡ (not (is_ancestor action.now b) && has_object self.old b n) }
        ensures room { (b : Name) → HasRoomBelow self.old b → HasRoomBelow self.new b }
    {
        holders::remove_below(&mut self.rows, action);
    }

    /// Keeps of what is noted what is held still, and drops the room of those that hold nothing. It looks at all.
    /// This takes no memory.
    pub fn retain<H: Holding>(&mut self, holding: &H)
        ensures { (b : Name) (n : ℕ)
            → has_object self.new b n ≡ (has_object self.old b n && H.holds holding.now b n) }
    {
        self.rows
            .retain(|holder, objects| retain_held(holder, objects, holding));
    }
}

impl TreeRows {
    // Gives the holder these objects too, for which there is room.
    fn insert_all(&mut self, holder: &Name, objects: &[u32])
        requires { length (objects_at self.old holder.now) + length objects.now
            ≤ room_at self.old holder.now }
        ensures held { (b : Name) (n : ℕ) → has_object self.new b n
            ≡ ((same_name holder.now b && has_number objects.now n) || has_object self.old b n) }
        ensures room { (b : Name) → room_at self.new b ≡ room_at self.old b }
        ensures below { (b : Name) → count_below self.new b ≤ count_below self.old b
            + (if is_ancestor b holder.now then length objects.now else 0) }
    {
        let Some(row) = self.rows.get_mut(holder) else {
            return;
        };
        rising::insert_all(row, objects);
    }
}
