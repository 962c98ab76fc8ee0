//! At which objects each holder holds something: in a vector while there are few holders, as nearly always, and in a
//! tree from then on.
ghost use Rattle.std.specs.Prelude.{◌≡◌, ◌↔◌, ◌||◌, ◌&&◌, ◌==◌, ◌≤◌, ◌+◌, ℕ, not, false, [], length, IsTrue, IfOk, OnOk, OnErr, IfSome};
ghost use Rattle.action_names.specs.Names.{Name, same_name, is_ancestor, is_proper_ancestor};
ghost use Rattle.guardian_index.specs.Held.{IsRising, has_number, has_object, objects_at, room_at, has_room, HoldsBelow};
ghost use Rattle.guardian_index.specs.Held.{HasRoomBelow, IsHeld, MayBeHanded, count_below, is_name_of, needs_room};
ghost use Rattle.guardian_index.specs.Few.{is_in_rows};

use crate::few::FewRows;
use crate::holding::Holding;
use crate::trees::TreeRows;
use action_names::Name;
use std::alloc::{AllocError, Global};
use std::collections::btree_map::Values;
use std::marker::Model;

/// How many holders have a row in a vector at most.
const MOST: usize = 64;

/// A row for each holder, in the order of names: the objects at which it holds something.
#[derive(Drop)]
pub enum HeldRows<'a> {
    Few(&'a [(Name, Vec<u32>)]),
    Many(Values<'a, Name, Vec<u32>>),
}

/// At which objects each holder holds something, and for how many more there is room.
#[derive(Drop)]
pub struct HeldObjects {
    kept: Kept,
}

#[derive(Drop)]
enum Kept {
    Few(FewRows),
    Many(TreeRows),
}

impl Model for HeldObjects {
    ghost use Rattle.guardian_index.specs.Held.{Index};
    ghost use Rattle.guardian_index.specs.Few.{index_kept};

    ghost Value = { Index };

    ghost view = { λ a. index_kept a.kept };
}

impl HeldObjects {
    /// Nobody holds anything, and there is room for nobody. This takes no memory.
    pub fn new(alloc: Global) -> Self
        ensures { result.rows ≡ [] }
    {
        HeldObjects {
            kept: Kept::Few(FewRows::new(alloc)),
        }
    }

    /// At which objects the holder holds something, rising; none where it holds nothing. This takes no memory.
    pub fn objects_of(&self, holder: &Name) -> &[u32]
        ensures objects { result.now ≡ objects_at self.now.rows holder.now }
        ensures rising { IsRising result.now }
    {
        match &self.kept {
            Kept::Few(few) => few.objects_of(holder),
            Kept::Many(many) => many.objects_of(holder),
        }
    }

    /// At which objects the action and its descendants hold something, rising, each once. It looks at their rows and
    /// one more. Fails only if memory runs out.
    pub fn objects_below(&self, action: &Name) -> Result<Vec<u32>, AllocError>
        ensures objects { IfOk result (λ objects. (n : ℕ)
            → IsTrue (has_number objects.items n) ↔ HoldsBelow self.now.rows action.now n) }
        ensures rising { IfOk result (λ objects. IsRising objects.items) }
    {
        match &self.kept {
            Kept::Few(few) => few.objects_below(action),
            Kept::Many(many) => many.objects_below(action),
        }
    }

    /// The objects at which somebody holds something: a row for each holder, so that an object at which several do
    /// comes once for each. This takes no memory.
    pub fn rows(&self) -> HeldRows<'_>
        ensures { (n : ℕ) → IsTrue (is_in_rows result n) ↔ IsHeld self.now.rows n }
    {
        match &self.kept {
            Kept::Few(few) => HeldRows::Few(few.rows()),
            Kept::Many(many) => HeldRows::Many(many.rows()),
        }
    }

    /// Makes room for one more object of the holder. What is held stays, and so does all room. If memory runs out,
    /// all rows stay.
    pub fn make_room(&mut self, holder: &Name) -> Result<(), AllocError>
        ensures held { (b : Name) → objects_at self.new.rows b ≡ objects_at self.old.rows b }
        ensures room { OnOk result (IsTrue (has_room self.new.rows holder.now)) }
        ensures others { (b : Name) → room_at self.old.rows b ≤ room_at self.new.rows b }
        ensures below { (b : Name) → HasRoomBelow self.old.rows b → HasRoomBelow self.new.rows b }
        ensures err { OnErr result (self.new.rows ≡ self.old.rows) }
    {
        self.reserve(holder, 1)
    }

    /// Makes room for so many more objects that the holder is to be handed, if it needs room for them. What is held
    /// stays, and so does all room. If memory runs out, all rows stay.
    pub fn make_room_for(&mut self, holder: &Name, count: usize) -> Result<(), AllocError>
        ensures held { (b : Name) → objects_at self.new.rows b ≡ objects_at self.old.rows b }
        ensures room { OnOk result (IsTrue (needs_room self.new holder.now)
            → length (objects_at self.old.rows holder.now) + count
            ≤ room_at self.new.rows holder.now) }
        ensures others { (b : Name) → room_at self.old.rows b ≤ room_at self.new.rows b }
        ensures below { (b : Name) → HasRoomBelow self.old.rows b → HasRoomBelow self.new.rows b }
        ensures err { OnErr result (self.new.rows ≡ self.old.rows) }
    {
        match &mut self.kept {
            Kept::Few(few) => few.widen(holder, count),
            Kept::Many(many) => many.reserve(holder, count),
        }
    }

    /// Notes that the holder holds something at the object, for which there is room, or where it was noted before.
    /// This takes no memory.
    pub fn insert(&mut self, holder: &Name, object: u32)
        requires { IsTrue (has_object self.old.rows holder.now object
            || has_room self.old.rows holder.now) }
        ensures held { (b : Name) (n : ℕ) → has_object self.new.rows b n
            ≡ ((same_name holder.now b && (object == n)) || has_object self.old.rows b n) }
        ensures room { (b : Name) → room_at self.new.rows b ≡ room_at self.old.rows b }
    {
        match &mut self.kept {
            Kept::Few(few) => few.insert(holder, object),
            Kept::Many(many) => many.insert(holder, object),
        }
    }

    /// Makes room for all that the holder and its descendants have. What is held stays, and so does all room. It
    /// looks at their rows and one more. If memory runs out, all rows stay.
    pub fn make_room_below(&mut self, holder: &Name) -> Result<(), AllocError>
        ensures held { (b : Name) → objects_at self.new.rows b ≡ objects_at self.old.rows b }
        ensures room { OnOk result (HasRoomBelow self.new.rows holder.now) }
        ensures others { (b : Name) → room_at self.old.rows b ≤ room_at self.new.rows b }
        ensures below { (b : Name) → HasRoomBelow self.old.rows b → HasRoomBelow self.new.rows b }
        ensures err { OnErr result (self.new.rows ≡ self.old.rows) }
    {
        let Some(below) = self.count_below(holder) else {
            return Err(AllocError);
        };
        let own = self.objects_of(holder).len();
        self.reserve(holder, below.saturating_sub(own))
    }

    /// Hands on what the action has to a proper ancestor that may be handed it, or gives it up where there is none.
    /// The action's room goes. This takes no memory.
    pub fn hand_on(&mut self, action: &Name, to: Option<Name>)
        requires above { IfSome to (λ h. IsTrue (is_proper_ancestor h action.now)) }
        requires room { IfSome to (λ h. MayBeHanded self.old h action.now) }
        ensures held { (b : Name) (n : ℕ) → has_object self.new.rows b n
            ≡ (not (same_name action.now b) && (has_object self.old.rows b n
            || (is_name_of to b && has_object self.old.rows action.now n))) }
        ensures room { (b : Name) → same_name action.now b ≡ false → HasRoomBelow self.old.rows b
            → HasRoomBelow self.new.rows b }
    {
        match &mut self.kept {
            Kept::Few(few) => few.hand_on(action, to),
            Kept::Many(many) => many.hand_on(action, to.as_ref()),
        }
    }

    /// Drops what the action and its descendants have, and their room. It looks at their rows and one more. This
    /// takes no memory.
    pub fn drop_below(&mut self, action: &Name)
        ensures held { (b : Name) (n : ℕ) → has_object self.new.rows b n
            ≡ (not (is_ancestor action.now b) && has_object self.old.rows b n) }
        ensures room { (b : Name) → HasRoomBelow self.old.rows b → HasRoomBelow self.new.rows b }
    {
        match &mut self.kept {
            Kept::Few(few) => few.drop_below(action),
            Kept::Many(many) => many.drop_below(action),
        }
    }

    /// Keeps of what is noted what is held still, and drops the room of those that hold nothing. It looks at all.
    /// This takes no memory.
    pub fn retain<H: Holding>(&mut self, holding: &H)
        ensures { (b : Name) (n : ℕ)
            → has_object self.new.rows b n
            ≡ (has_object self.old.rows b n && H.holds holding.now b n) }
    {
        match &mut self.kept {
            Kept::Few(few) => few.retain(holding),
            Kept::Many(many) => many.retain(holding),
        }
    }
}

impl HeldObjects {
    // Makes room for so many more objects of the holder.
    fn reserve(&mut self, holder: &Name, additional: usize) -> Result<(), AllocError>
        ensures held { (b : Name) → objects_at self.new.rows b ≡ objects_at self.old.rows b }
        ensures room { OnOk result
            (length (objects_at self.old.rows holder.now) + additional
            ≤ room_at self.new.rows holder.now) }
        ensures others { (b : Name) → room_at self.old.rows b ≤ room_at self.new.rows b }
        ensures below { (b : Name) → count_below self.new.rows b ≡ count_below self.old.rows b }
        ensures err { OnErr result (self.new.rows ≡ self.old.rows) }
    {
        self.make_tree(holder)?;
        match &mut self.kept {
            Kept::Few(few) => few.reserve(holder, additional),
            Kept::Many(many) => many.reserve(holder, additional),
        }
    }

    // How many objects the action and its descendants have, each as often as one of them has it, if a number holds
    // that.
    fn count_below(&self, action: &Name) -> Option<usize>
        ensures { IfSome result (λ count. count ≡ count_below self.now.rows action.now) }
    {
        match &self.kept {
            Kept::Few(few) => few.count_below(action),
            Kept::Many(many) => many.count_below(action),
        }
    }

    // Goes over to a tree where the vector has as many rows as it is to have, and none of the holder. Fails only if
    // memory runs out.
    fn make_tree(&mut self, holder: &Name) -> Result<(), AllocError>
        ensures { self.new.rows ≡ self.old.rows }
    {
        let Kept::Few(few) = &self.kept else {
            return Ok(());
        };
        if few.len() < MOST || few.has_row(holder) {
            return Ok(());
        }
        let many = few.to_tree()?;
        self.kept = Kept::Many(many);
        Ok(())
    }
}
