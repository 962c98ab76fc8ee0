//! What holders hold in a vector, in the order of their names: for some dozens of them that costs less than a tree.
ghost use Rattle.std.specs.Prelude.{◌≡◌, ◌↔◌, ◌||◌, ◌&&◌, ◌==◌, ◌≤◌, ◌+◌, ℕ, not, false, length, [], IsTrue, is_some, IfOk, OnOk, OnErr, IfSome};
ghost use Rattle.std.specs.Map.{keys_of, values_of};
ghost use Rattle.action_names.specs.Names.{Name, has_name, same_name, is_ancestor, is_proper_ancestor};
ghost use Rattle.guardian_index.specs.Held.{IsRising, has_number, has_object, objects_at, room_at, has_room, HoldsBelow};
ghost use Rattle.guardian_index.specs.Held.{HasRoomBelow, HasRoomFrom, IsHeld, count_below, is_in_row, is_name_of};

use crate::holding::{Holding, retain_held};
use crate::rising;
use crate::trees::TreeRows;
use action_names::Name;
use holders::by_name;
use std::alloc::{AllocError, Global};
use std::collections::BTreeMap;
use std::marker::Model;

/// At which objects each holder holds something, and for how many more there is room.
#[derive(Drop)]
pub struct FewRows {
    alloc: Global,
    rows: Vec<(Name, Vec<u32>)>,
}

impl Model for FewRows {
    ghost use Rattle.guardian_index.specs.Held.{Rows, rows_in, IsOrderly};

    ghost Value = { Rows };

    ghost view = { λ a. rows_in a.rows.items };

    ghost invariant = { λ a. IsOrderly a.rows.items };
}

impl FewRows {
    /// Nobody holds anything, and there is room for nobody. This takes no memory.
    pub fn new(alloc: Global) -> Self
        ensures { result ≡ [] }
    {
        FewRows {
            alloc,
            rows: Vec::new(alloc),
        }
    }

    /// At which objects the holder holds something, rising; none where it holds nothing. This takes no memory.
    pub fn objects_of(&self, holder: &Name) -> &[u32]
        ensures objects { result.now ≡ objects_at self.now holder.now }
        ensures rising { IsRising result.now }
    {
        match by_name::find(&self.rows, holder) {
            Some(objects) => objects,
            None => &[],
        }
    }

    /// At which objects the action and its descendants hold something, rising, each once. It looks at their rows and
    /// one more. Fails only if memory runs out.
    pub fn objects_below(&self, action: &Name) -> Result<Vec<u32>, AllocError>
        ensures objects { IfOk result (λ objects. (n : ℕ)
            → IsTrue (has_number objects.items n) ↔ HoldsBelow self.now action.now n) }
        ensures rising { IfOk result (λ objects. IsRising objects.items) }
    {
        let mut below = Vec::new(self.alloc);
        for (_, objects) in by_name::below(&self.rows, action) {
            below.reserve(objects.len())?;
            rising::insert_all(&mut below, objects);
        }
        Ok(below)
    }

    /// The objects at which somebody holds something: a row for each holder, so that an object at which several do
    /// comes once for each. This takes no memory.
    pub fn rows(&self) -> &[(Name, Vec<u32>)]
        ensures { (n : ℕ) → IsTrue (is_in_row (values_of result.now) n) ↔ IsHeld self.now n }
    {
        &self.rows
    }

    /// How many holders have a row. This takes no memory.
    pub fn len(&self) -> usize
        ensures { result ≡ length self.now }
    {
        self.rows.len()
    }

    /// Whether the holder has a row. This takes no memory.
    pub fn has_row(&self, holder: &Name) -> bool
        ensures { result ≡ has_name (keys_of self.now) holder.now }
    {
        by_name::find(&self.rows, holder).is_some()
    }

    /// Makes room for so many more objects of the holder. What is held stays, and so does all room. If memory runs
    /// out, nothing is changed.
    pub fn reserve(&mut self, holder: &Name, additional: usize) -> Result<(), AllocError>
        ensures held { (b : Name) → objects_at self.new b ≡ objects_at self.old b }
        ensures room { OnOk result
            (length (objects_at self.old holder.now) + additional ≤ room_at self.new holder.now) }
        ensures others { (b : Name) → room_at self.old b ≤ room_at self.new b }
        ensures below { (b : Name) → count_below self.new b ≡ count_below self.old b }
        ensures err { OnErr result (self.new ≡ self.old) }
    {
        match by_name::place(&self.rows, holder) {
            Ok(at) => self.rows[at].1.reserve(additional),
            Err(at) => {
                let objects = rising::with_room(self.alloc, additional)?;
                let own = holder.copy()?;
                Ok(self.rows.insert(at, (own, objects))?)
            }
        }
    }

    /// Makes room for so many more objects of the holder, if it has a row. What is held stays, and so does all room.
    /// If memory runs out, nothing is changed.
    pub fn widen(&mut self, holder: &Name, additional: usize) -> Result<(), AllocError>
        ensures held { (b : Name) → objects_at self.new b ≡ objects_at self.old b }
        ensures room { OnOk result (IsTrue (has_name (keys_of self.new) holder.now)
            → length (objects_at self.old holder.now) + additional ≤ room_at self.new holder.now) }
        ensures others { (b : Name) → room_at self.old b ≤ room_at self.new b }
        ensures below { (b : Name) → count_below self.new b ≡ count_below self.old b }
        ensures err { OnErr result (self.new ≡ self.old) }
    {
        match by_name::place(&self.rows, holder) {
            Ok(at) => self.rows[at].1.reserve(additional),
            Err(_) => Ok(()),
        }
    }

    /// Notes that the holder holds something at the object, for which there is room, or where it was noted before.
    /// This takes no memory.
    pub fn insert(&mut self, holder: &Name, object: u32)
        requires { IsTrue (has_object self.old holder.now object || has_room self.old holder.now) }
        ensures held { (b : Name) (n : ℕ) → has_object self.new b n
            ≡ ((same_name holder.now b && (object == n)) || has_object self.old b n) }
        ensures room { (b : Name) → room_at self.new b ≡ room_at self.old b }
    {
        if let Ok(at) = by_name::place(&self.rows, holder) {
            rising::insert(&mut self.rows[at].1, object);
        }
    }

    /// How many objects the action and its descendants have, each as often as one of them has it, if a number holds
    /// that.
    pub fn count_below(&self, action: &Name) -> Option<usize>
        ensures { IfSome result (λ count. count ≡ count_below self.now action.now) }
    {
        let mut count: usize = 0;
        for (_, objects) in by_name::below(&self.rows, action) {
            count = count.checked_add(objects.len())?;
        }
        Some(count)
    }

    /// Hands on what the action has to a proper ancestor, or gives it up where there is none. The ancestor has room for
    /// it, or has no row and gets the action's. The action's room goes. This takes no memory.
    pub fn hand_on(&mut self, action: &Name, to: Option<Name>)
        requires above { IfSome to (λ h. IsTrue (is_proper_ancestor h action.now)) }
        requires room { IfSome to (λ h. IsTrue (has_name (keys_of self.old) h)
            → HasRoomFrom self.old h action.now) }
        ensures held { (b : Name) (n : ℕ) → has_object self.new b n
            ≡ (not (same_name action.now b) && (has_object self.old b n
            || (is_name_of to b && has_object self.old action.now n))) }
        ensures room { (b : Name) → same_name action.now b ≡ false → HasRoomBelow self.old b
            → HasRoomBelow self.new b }
    {
        let Ok(at) = by_name::place(&self.rows, action) else {
            return;
        };
        let (_, objects) = self.rows.remove(at);
        let Some(to) = to else {
            return;
        };
        match by_name::place(&self.rows, &to) {
            Ok(above) => rising::insert_all(&mut self.rows[above].1, &objects),
            // The row that has just gone left room for it.
            Err(gap) => self.rows.insert(gap, (to, objects)).unwrap(),
        }
    }

    /// Drops what the action and its descendants have, and their room. It looks at their rows and one more. This
    /// takes no memory.
    pub fn drop_below(&mut self, action: &Name)
        ensures held { (b : Name) (n : ℕ) → has_object self.new b n
            ≡ (not (is_ancestor action.now b) && has_object self.old b n) }
        ensures room { (b : Name) → HasRoomBelow self.old b → HasRoomBelow self.new b }
    {
        by_name::drop_below(&mut self.rows, action);
    }

    /// Keeps of what is noted what is held still, and drops the room of those that hold nothing. It looks at all.
    /// This takes no memory.
    pub fn retain<H: Holding>(&mut self, holding: &H)
        ensures { (b : Name) (n : ℕ)
            → has_object self.new b n ≡ (has_object self.old b n && H.holds holding.now b n) }
    {
        self.rows
            .retain_mut(|row| retain_held(&row.0, &mut row.1, holding));
    }

    /// The same in a tree. Fails only if memory runs out.
    pub fn to_tree(&self) -> Result<TreeRows, AllocError>
        ensures { IfOk result (λ tree. tree ≡ self.now) }
    {
        let mut rows = BTreeMap::new(self.alloc);
        for (holder, objects) in &self.rows {
            let copy = rising::copy(self.alloc, objects)?;
            rows.insert(holder.copy()?, copy)?;
        }
        Ok(TreeRows::of(self.alloc, rows))
    }
}
