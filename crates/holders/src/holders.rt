//! Holders in the order of their names, so that an action and its descendants stand next to each other: in a vector
//! while they are few, as nearly always, and in a tree from then on.
ghost use Rattle.std.specs.Prelude.{◌≡◌, ◌↔◌, ◌||◌, ◌&&◌, not, [], IsTrue, IfOk, OnOk, OnErr, filter, length};
ghost use Rattle.std.specs.List.{list_any};
ghost use Rattle.std.specs.List.Sorted.{IsStrictlySortedBy};
ghost use Rattle.std.specs.Option.{option_copied};
ghost use Rattle.action_names.specs.Names.{Name, has_name, name_cmp, is_ancestor};
ghost use Rattle.holders.specs.Held.{value_at, names_of, with_value, without, without_below, HasMoreRoom, HasLessRoom};
ghost use Rattle.holders.specs.Few.{AreRows};

use crate::few::FewHolders;
use crate::survivors::Survivors;
use crate::trees::TreeHolders;
use action_names::Name;
use std::alloc::{AllocError, Global};
use std::collections::BTreeSet;
use std::collections::btree_map::Iter;
use std::marker::Model;

/// How many names a vector has room for at most.
const MOST: usize = 16;

/// Rows in the order of names: what each name holds, if anything.
#[derive(Drop)]
pub enum HolderRows<'a, V> {
    Few(&'a [(Name, Option<V>)]),
    Many(Iter<'a, Name, Option<V>>),
}

/// What each holder holds, and the names for which there is room.
#[derive(Drop)]
pub struct Holders<V> {
    kept: Kept<V>,
}

#[derive(Drop)]
enum Kept<V> {
    Few(FewHolders<V>),
    Many(TreeHolders<V>),
}

impl<V> Model for Holders<V> {
    ghost use Rattle.holders.specs.Held.{Rows};
    ghost use Rattle.holders.specs.Few.{rows_kept};

    ghost Value = { Rows V };

    ghost view = { λ a. rows_kept a.kept };
}

impl<V: Drop> Holders<V> {
    /// Nobody holds anything, and there is room for nobody. This takes no memory.
    pub fn new(alloc: Global) -> Self
        ensures { result ≡ record { held = []; room = [] } }
    {
        Holders {
            kept: Kept::Few(FewHolders::new(alloc)),
        }
    }

    /// What the holder holds, if anything. This takes no memory.
    pub fn get(&self, holder: &Name) -> Option<&V>
        ensures { option_copied result ≡ value_at self.now.held holder.now }
    {
        match &self.kept {
            Kept::Few(few) => few.get(holder),
            Kept::Many(many) => many.get(holder),
        }
    }

    /// Whether the holder holds anything. This takes no memory.
    pub fn holds(&self, holder: &Name) -> bool
        ensures { result ≡ has_name (names_of self.now.held) holder.now }
    {
        self.get(holder).is_some()
    }

    /// Gives the value to a holder for which there is room, in the place of what it held. This takes no memory.
    pub fn put(&mut self, holder: &Name, value: V)
        requires { IsTrue (has_name self.old.room holder.now) }
        ensures held { self.new.held ≡ with_value self.old.held holder.now value }
        ensures room { self.new.room ≡ self.old.room }
        ensures rose { IsStrictlySortedBy name_cmp (names_of self.old.held) }
        ensures rising { IsStrictlySortedBy name_cmp (names_of self.new.held) }
    {
        match &mut self.kept {
            Kept::Few(few) => few.put(holder, value),
            Kept::Many(many) => many.put(holder, value),
        }
    }

    /// Takes what a holder holds from it, and keeps its room. This takes no memory.
    pub fn empty(&mut self, holder: &Name)
        requires { IsTrue (has_name self.old.room holder.now) }
        ensures held { self.new.held ≡ without self.old.held holder.now }
        ensures room { self.new.room ≡ self.old.room }
        ensures rising { IsStrictlySortedBy name_cmp (names_of self.new.held) }
    {
        match &mut self.kept {
            Kept::Few(few) => few.empty(holder),
            Kept::Many(many) => many.empty(holder),
        }
    }

    /// Takes what the holder holds from it, and drops its room. This takes no memory.
    pub fn take(&mut self, holder: &Name) -> Option<V>
        ensures taken { result ≡ value_at self.old.held holder.now }
        ensures held { self.new.held ≡ without self.old.held holder.now }
        ensures room { HasLessRoom self.old.room self.new.room holder.now }
        ensures rose { IsStrictlySortedBy name_cmp (names_of self.old.held) }
        ensures rising { IsStrictlySortedBy name_cmp (names_of self.new.held) }
    {
        match &mut self.kept {
            Kept::Few(few) => few.take(holder),
            Kept::Many(many) => many.take(holder),
        }
    }

    /// Drops what the action and its descendants hold, and their room. It looks at these and one more, and at a few
    /// others. This takes no memory.
    pub fn drop_below(&mut self, action: &Name)
        ensures held { self.new.held ≡ without_below self.old.held action.now }
        ensures room { self.new.room ≡ filter (λ b. not (is_ancestor action.now b)) self.old.room }
        ensures rising { IsStrictlySortedBy name_cmp (names_of self.new.held) }
    {
        match &mut self.kept {
            Kept::Few(few) => few.drop_below(action),
            Kept::Many(many) => many.drop_below(action),
        }
    }

    /// Drops what all but the survivors hold, and their room. This takes no memory.
    pub fn keep<S: Survivors>(&mut self, survivors: &S)
        ensures held { self.new.held ≡ filter (λ h. S.stays survivors.now h.0) self.old.held }
        ensures room { self.new.room ≡ filter (S.stays survivors.now) self.old.room }
        ensures rising { IsStrictlySortedBy name_cmp (names_of self.new.held) }
    {
        match &mut self.kept {
            Kept::Few(few) => few.keep(survivors),
            Kept::Many(many) => many.keep(survivors),
        }
    }

    /// Whether one that holds is no ancestor of the action. In the order of names those that stand before the first
    /// such one are ancestors of the action. So it looks at no more holders than the action has ancestors, and one,
    /// and at names that have room alone.
    pub fn has_foreign(&self, action: &Name) -> bool
        ensures { result ≡ list_any (λ b. not (is_ancestor b action.now)) (names_of self.now.held) }
    {
        match &self.kept {
            Kept::Few(few) => few.has_foreign(action),
            Kept::Many(many) => many.has_foreign(action),
        }
    }

    /// Whether the action or a descendant holds anything. It looks at these and one more. This takes no memory.
    pub fn has_below(&self, action: &Name) -> bool
        ensures { result ≡ list_any (λ b. is_ancestor action.now b) (names_of self.now.held) }
    {
        match &self.kept {
            Kept::Few(few) => few.has_below(action),
            Kept::Many(many) => many.has_below(action),
        }
    }

    /// Whether there is room for nobody. Then nobody holds anything. This takes no memory.
    pub fn is_clear(&self) -> bool
        ensures room { IsTrue result ↔ (length self.now.room ≡ 0) }
        ensures held { IsTrue result → self.now.held ≡ [] }
    {
        match &self.kept {
            Kept::Few(few) => few.is_clear(),
            Kept::Many(many) => many.is_clear(),
        }
    }

    /// Adds those that hold and are no ancestors of the action to the names. Fails only if memory runs out.
    pub fn add_foreign(&self, names: &mut BTreeSet<Name>, action: &Name) -> Result<(), AllocError>
        ensures { OnOk result ((b : Name) → has_name names.new.keys b
            ≡ (has_name names.old.keys b
            || (not (is_ancestor b action.now) && has_name (names_of self.now.held) b))) }
    {
        match &self.kept {
            Kept::Few(few) => few.add_foreign(names, action),
            Kept::Many(many) => many.add_foreign(names, action),
        }
    }

    /// The rows, in the order of names; those that hold nothing are room. This takes no memory.
    pub fn rows(&self) -> HolderRows<'_, V>
        ensures held { AreRows self.now.held result }
        ensures rising { IsStrictlySortedBy name_cmp (names_of self.now.held) }
    {
        match &self.kept {
            Kept::Few(few) => HolderRows::Few(few.rows()),
            Kept::Many(many) => HolderRows::Many(many.rows()),
        }
    }
}

impl<V: Copy> Holders<V> {
    /// Makes room for what the holder is to hold. What is held stays; if memory runs out, nothing is changed.
    pub fn make_room(&mut self, holder: &Name) -> Result<(), AllocError>
        ensures held { self.new.held ≡ self.old.held }
        ensures room { OnOk result (HasMoreRoom self.old.room self.new.room holder.now) }
        ensures err { OnErr result (self.new ≡ self.old) }
    {
        self.make_tree()?;
        match &mut self.kept {
            Kept::Few(few) => few.make_room(holder),
            Kept::Many(many) => many.make_room(holder),
        }
    }

    /// Gives the value to the holder, in the place of what it held, which is handed back, and makes room where there is
    /// none. If memory runs out, nothing is changed.
    pub fn give(&mut self, holder: &Name, value: V) -> Result<Option<V>, AllocError>
        ensures before { IfOk result (λ before. before ≡ value_at self.old.held holder.now) }
        ensures held { OnOk result (self.new.held ≡ with_value self.old.held holder.now value) }
        ensures room { OnOk result (HasMoreRoom self.old.room self.new.room holder.now) }
        ensures rose { OnOk result (IsStrictlySortedBy name_cmp (names_of self.old.held)) }
        ensures err { OnErr result (self.new ≡ self.old) }
    {
        self.make_tree()?;
        match &mut self.kept {
            Kept::Few(few) => few.give(holder, value),
            Kept::Many(many) => many.give(holder, value),
        }
    }

    // Goes over to a tree where the vector has as many names as it is to have. Fails only if memory runs out.
    fn make_tree(&mut self) -> Result<(), AllocError>
        ensures { self.new ≡ self.old }
    {
        let Kept::Few(few) = &self.kept else {
            return Ok(());
        };
        if few.len() < MOST {
            return Ok(());
        }
        let many = few.to_tree()?;
        self.kept = Kept::Many(many);
        Ok(())
    }
}
