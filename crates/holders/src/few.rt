//! Holders in a vector, in the order of their names: for a few of them that costs less than a tree.
ghost use Rattle.std.specs.Prelude.{◌≡◌, ◌↔◌, ◌||◌, ◌&&◌, not, [], IsTrue, IfOk, OnOk, OnErr, filter, length};
ghost use Rattle.std.specs.List.{list_any};
ghost use Rattle.std.specs.List.Sorted.{IsStrictlySortedBy};
ghost use Rattle.std.specs.Option.{option_copied};
ghost use Rattle.action_names.specs.Names.{Name, has_name, name_cmp, is_ancestor};
ghost use Rattle.holders.specs.Held.{value_at, names_of, with_value, without, without_below, held_in, HasMoreRoom, HasLessRoom};

use crate::by_name;
use crate::survivors::Survivors;
use crate::trees::TreeHolders;
use action_names::Name;
use std::alloc::{AllocError, Global};
use std::collections::{BTreeMap, BTreeSet};
use std::marker::Model;

/// What each holder holds, and the names for which there is room.
#[derive(Drop)]
pub struct FewHolders<V> {
    rows: Vec<(Name, Option<V>)>,
}

impl<V> Model for FewHolders<V> {
    ghost use Rattle.std.specs.List.Sorted.{IsStrictlySortedBy};
    ghost use Rattle.std.specs.Map.{keys_of};
    ghost use Rattle.action_names.specs.Names.{name_cmp};
    ghost use Rattle.holders.specs.Held.{Rows, held_in};

    ghost Value = { Rows V };

    ghost view = { λ a. record { held = held_in a.rows.items; room = keys_of a.rows.items } };

    ghost invariant = { λ a. IsStrictlySortedBy name_cmp (keys_of a.rows.items) };
}

impl<V: Drop> FewHolders<V> {
    /// Nobody holds anything, and there is room for nobody. This takes no memory.
    pub fn new(alloc: Global) -> Self
        ensures { result ≡ record { held = []; room = [] } }
    {
        FewHolders {
            rows: Vec::new(alloc),
        }
    }

    /// What the holder holds, if anything. This takes no memory.
    pub fn get(&self, holder: &Name) -> Option<&V>
        ensures { option_copied result ≡ value_at self.now.held holder.now }
    {
        by_name::find(&self.rows, holder)?.as_ref()
    }

    /// Makes room for what the holder is to hold. What is held stays; if memory runs out, nothing is changed.
    pub fn make_room(&mut self, holder: &Name) -> Result<(), AllocError>
        ensures held { self.new.held ≡ self.old.held }
        ensures room { OnOk result (HasMoreRoom self.old.room self.new.room holder.now) }
        ensures err { OnErr result (self.new ≡ self.old) }
    {
        by_name::add(&mut self.rows, holder, None)
    }

    /// Gives the value to a holder for which there is room, in the place of what it held. This takes no memory.
    pub fn put(&mut self, holder: &Name, value: V)
        requires { IsTrue (has_name self.old.room holder.now) }
        ensures held { self.new.held ≡ with_value self.old.held holder.now value }
        ensures room { self.new.room ≡ self.old.room }
        ensures rose { IsStrictlySortedBy name_cmp (names_of self.old.held) }
        ensures rising { IsStrictlySortedBy name_cmp (names_of self.new.held) }
    {
        by_name::write(&mut self.rows, holder, Some(value));
    }

    /// Gives the value to the holder, in the place of what it held, which is handed back, and makes room where there is
    /// none. If memory runs out, nothing is changed.
    pub fn give(&mut self, holder: &Name, value: V) -> Result<Option<V>, AllocError>
        ensures before { IfOk result (λ before. before ≡ value_at self.old.held holder.now) }
        ensures held { OnOk result (self.new.held ≡ with_value self.old.held holder.now value) }
        ensures room { OnOk result (HasMoreRoom self.old.room self.new.room holder.now) }
        ensures rose { OnOk result (IsStrictlySortedBy name_cmp (names_of self.old.held)) }
        ensures err { OnErr result (self.new ≡ self.old) }
    {
        let before = by_name::put(&mut self.rows, holder, Some(value))?;
        Ok(before.flatten())
    }

    /// Takes what a holder holds from it, and keeps its room. This takes no memory.
    pub fn empty(&mut self, holder: &Name)
        requires { IsTrue (has_name self.old.room holder.now) }
        ensures held { self.new.held ≡ without self.old.held holder.now }
        ensures room { self.new.room ≡ self.old.room }
        ensures rising { IsStrictlySortedBy name_cmp (names_of self.new.held) }
    {
        by_name::write(&mut self.rows, holder, None);
    }

    /// Takes what the holder holds from it, and drops its room. This takes no memory.
    pub fn take(&mut self, holder: &Name) -> Option<V>
        ensures taken { result ≡ value_at self.old.held holder.now }
        ensures held { self.new.held ≡ without self.old.held holder.now }
        ensures room { HasLessRoom self.old.room self.new.room holder.now }
        ensures rose { IsStrictlySortedBy name_cmp (names_of self.old.held) }
        ensures rising { IsStrictlySortedBy name_cmp (names_of self.new.held) }
    {
        by_name::remove(&mut self.rows, holder)?
    }

    /// Drops what the action and its descendants hold, and their room. It looks at these and one more, and moves
    /// those behind them. This takes no memory.
    pub fn drop_below(&mut self, action: &Name)
        ensures held { self.new.held ≡ without_below self.old.held action.now }
        ensures room { self.new.room ≡ filter (λ b. not (is_ancestor action.now b)) self.old.room }
        ensures rising { IsStrictlySortedBy name_cmp (names_of self.new.held) }
    {
        by_name::drop_below(&mut self.rows, action);
    }

    /// Drops what all but the survivors hold, and their room. This takes no memory.
    pub fn keep<S: Survivors>(&mut self, survivors: &S)
        ensures held { self.new.held ≡ filter (λ h. S.stays survivors.now h.0) self.old.held }
        ensures room { self.new.room ≡ filter (S.stays survivors.now) self.old.room }
        ensures rising { IsStrictlySortedBy name_cmp (names_of self.new.held) }
    {
        self.rows.retain(|(holder, _)| survivors.stays(holder));
    }

    /// Whether one that holds is no ancestor of the action. In the order of names those that stand before the first
    /// such one are ancestors of the action. So it looks at no more holders than the action has ancestors, and one,
    /// and at names that have room alone.
    pub fn has_foreign(&self, action: &Name) -> bool
        ensures { result ≡ list_any (λ b. not (is_ancestor b action.now)) (names_of self.now.held) }
    {
        by_name::any_foreign(&self.rows, action)
    }

    /// Whether the action or a descendant holds anything. It looks at these and one more. This takes no memory.
    pub fn has_below(&self, action: &Name) -> bool
        ensures { result ≡ list_any (λ b. is_ancestor action.now b) (names_of self.now.held) }
    {
        by_name::any_below(&self.rows, action)
    }

    /// Adds those that hold and are no ancestors of the action to the names. Fails only if memory runs out.
    pub fn add_foreign(&self, names: &mut BTreeSet<Name>, action: &Name) -> Result<(), AllocError>
        ensures { OnOk result ((b : Name) → has_name names.new.keys b
            ≡ (has_name names.old.keys b
            || (not (is_ancestor b action.now) && has_name (names_of self.now.held) b))) }
    {
        for (holder, row) in &self.rows {
            if by_name::is_foreign(holder, row, action) {
                names.insert(holder.copy()?)?;
            }
        }
        Ok(())
    }

    /// The rows, in the order of names; those that hold nothing are room. This takes no memory.
    pub fn rows(&self) -> &[(Name, Option<V>)]
        ensures held { held_in result.now ≡ self.now.held }
        ensures rising { IsStrictlySortedBy name_cmp (names_of self.now.held) }
    {
        &self.rows
    }

    /// Whether there is room for nobody. Then nobody holds anything. This takes no memory.
    #[tactic(auto, using(crate::proofs::Rows::none_held))]
    pub fn is_clear(&self) -> bool
        ensures room { IsTrue result ↔ (length self.now.room ≡ 0) }
        ensures held { IsTrue result → self.now.held ≡ [] }
    {
        self.rows.is_empty()
    }

    /// For how many names there is room. This takes no memory.
    pub fn len(&self) -> usize
        ensures { result ≡ length self.now.room }
    {
        self.rows.len()
    }
}

impl<V: Copy> FewHolders<V> {
    /// The same in a tree. Fails only if memory runs out.
    pub fn to_tree(&self) -> Result<TreeHolders<V>, AllocError>
        ensures { IfOk result (λ tree. tree ≡ self.now) }
    {
        let mut rows = BTreeMap::new(*self.rows.allocator());
        for (holder, row) in &self.rows {
            rows.insert(holder.copy()?, *row)?;
        }
        Ok(TreeHolders::of(rows))
    }
}
