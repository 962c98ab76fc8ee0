ghost use Rattle.std.specs.Prelude.{◌≡◌, ◌↔◌, [], length, None, pos, unwrap_or, IsTrue, OnOk, OnErr, filter, not, if◌then◌else◌};
ghost use Rattle.std.specs.List.Sorted.{IsStrictlySortedBy};
ghost use Rattle.std.specs.Option.{option_copied as name_of};
ghost use Rattle.action_names.specs.Names.{Name, has_name, name_cmp, is_ancestor};
ghost use Rattle.holders.specs.Held.{names_of, held_in, HasMoreRoom, HasLessRoom};
ghost use Rattle.object_model.specs.Deltas.{delta_at, more_at, HasDelta, HasNoneBelow};
ghost use Rattle.object_model.specs.Objects.{is_beside};
ghost use Rattle.atomic_types.specs.Counters.{sum_of};
ghost use Rattle.version_stack.specs.Beside.{sum_beside, sum_if_any, with_beside, with_left};

use action_names::Name;
use holders::{HolderRows, Holders, Survivors};
use std::alloc::{AllocError, Global};
use std::collections::btree_map::Iter;
use std::marker::Model;

/// How much actions add to a counter that own no version of it. Its holders need not be ancestors of one another.
#[derive(Drop)]
pub struct Deltas {
    amounts: Holders<i64>,
}

impl Model for Deltas {
    ghost use Rattle.std.specs.Prelude.{ℤ};
    ghost use Rattle.holders.specs.Held.{Rows};

    ghost Value = { Rows ℤ };

    ghost view = { λ a. a.amounts };
}

impl Deltas {
    /// Nobody adds anything, and there is room for nobody. This takes no memory.
    pub fn new(alloc: Global) -> Self
        ensures { result ≡ record { held = []; room = [] } }
    {
        Deltas {
            amounts: Holders::new(alloc),
        }
    }

    /// Whether there is room for nobody. Then nobody adds anything. This takes no memory.
    pub fn is_clear(&self) -> bool
        ensures room { IsTrue result ↔ (length self.now.room ≡ 0) }
        ensures held { IsTrue result → self.now.held ≡ [] }
    {
        self.amounts.is_clear()
    }

    /// How much the holder adds, if anything. This takes no memory.
    #[tactic(auto, using(crate::proofs::Amounts::delta_held))]
    pub fn of(&self, holder: &Name) -> Option<i64>
        ensures { result ≡ delta_at self.now.held holder.now }
    {
        self.amounts.get(holder).copied()
    }

    /// How much those holders add that are no ancestors of the owner, all of them where there is none, modulo 2 to
    /// the 64. This takes no memory.
    pub fn sum_beside(&self, owner: Option<&Name>) -> i64
        ensures sum { result ≡ sum_beside self.now.held (name_of owner.entry) }
        ensures rising { IsStrictlySortedBy name_cmp (names_of self.now.held) }
    {
        match self.amounts.rows() {
            HolderRows::Few(rows) => few_beside(rows, owner),
            HolderRows::Many(rows) => many_beside(rows, owner),
        }
    }

    /// How much those holders add that stay, modulo 2 to the 64, if there are any that add. This takes no memory.
    pub fn sum_left<S: Survivors>(&self, survivors: &S) -> Option<i64>
        ensures sum { result ≡ sum_if_any (filter (λ d. S.stays survivors.now d.0) self.now.held) }
        ensures rising { IsStrictlySortedBy name_cmp (names_of self.now.held) }
    {
        match self.amounts.rows() {
            HolderRows::Few(rows) => few_left(rows, survivors),
            HolderRows::Many(rows) => many_left(rows, survivors),
        }
    }

    /// Adds to what the holder adds. If memory runs out, nothing is changed.
    #[tactic(auto, using(action_names::proofs::Ancestry::same_refl))]
    pub fn add(&mut self, holder: &Name, by: i64) -> Result<(), AllocError>
        ensures ok { OnOk result (HasDelta self.old.held self.new.held holder.now
            (more_at self.old.held holder.now by)) }
        ensures room { OnOk result (HasMoreRoom self.old.room self.new.room holder.now) }
        ensures rising { OnOk result (IsStrictlySortedBy name_cmp (names_of self.new.held)) }
        ensures err { OnErr result (self.new ≡ self.old) }
    {
        self.make_room(holder)?;
        self.put_more(holder, by);
        Ok(())
    }

    /// Makes room for what the holder is to add. The deltas stay; if memory runs out, nothing is changed.
    pub fn make_room(&mut self, holder: &Name) -> Result<(), AllocError>
        ensures held { self.new.held ≡ self.old.held }
        ensures room { OnOk result (HasMoreRoom self.old.room self.new.room holder.now) }
        ensures err { OnErr result (self.new ≡ self.old) }
    {
        self.amounts.make_room(holder)
    }

    /// Adds to what a holder adds for which there is room. This takes no memory.
    #[tactic(auto, using(crate::proofs::Amounts::delta_put, std::proofs::lemmas::Int::wraps))]
    pub fn put_more(&mut self, holder: &Name, by: i64)
        requires { IsTrue (has_name self.old.room holder.now) }
        ensures held { HasDelta self.old.held self.new.held holder.now
            (more_at self.old.held holder.now by) }
        ensures room { self.new.room ≡ self.old.room }
        ensures rising { IsStrictlySortedBy name_cmp (names_of self.new.held) }
    {
        let amount = self.of(holder).unwrap_or(0).wrapping_add(by);
        self.amounts.put(holder, amount);
    }

    /// Forgets what a holder adds for which there is room, and keeps its room. This takes no memory.
    #[tactic(auto, using(crate::proofs::Amounts::delta_out))]
    pub fn forget(&mut self, holder: &Name)
        requires { IsTrue (has_name self.old.room holder.now) }
        ensures left { HasDelta self.old.held self.new.held holder.now None }
        ensures room { self.new.room ≡ self.old.room }
        ensures rising { IsStrictlySortedBy name_cmp (names_of self.new.held) }
    {
        self.amounts.empty(holder);
    }

    /// Forgets what the holder adds, drops its room, and says how much it was. This takes no memory.
    #[tactic(auto, using(crate::proofs::Amounts::delta_held, crate::proofs::Amounts::delta_out))]
    pub fn take(&mut self, holder: &Name) -> Option<i64>
        ensures amount { result ≡ delta_at self.old.held holder.now }
        ensures left { HasDelta self.old.held self.new.held holder.now None }
        ensures room { HasLessRoom self.old.room self.new.room holder.now }
        ensures rising { IsStrictlySortedBy name_cmp (names_of self.new.held) }
    {
        self.amounts.take(holder)
    }

    /// Forgets what the action and its descendants add, and drops their room. It cannot fail, and takes no memory.
    #[tactic(auto, using(crate::proofs::Amounts::delta_below))]
    pub fn drop_below(&mut self, action: &Name)
        ensures left { HasNoneBelow self.old.held self.new.held action.now }
        ensures room { self.new.room ≡ filter (λ b. not (is_ancestor action.now b)) self.old.room }
        ensures rising { IsStrictlySortedBy name_cmp (names_of self.new.held) }
    {
        self.amounts.drop_below(action);
    }

    /// A crash: what all but the survivors add is forgotten, and their room. This takes no memory.
    pub fn keep<S: Survivors>(&mut self, survivors: &S)
        ensures left { (b : Name) → delta_at self.new.held b
            ≡ (if S.stays survivors.now b then delta_at self.old.held b else None) }
        ensures room { self.new.room ≡ filter (S.stays survivors.now) self.old.room }
        ensures rising { IsStrictlySortedBy name_cmp (names_of self.new.held) }
    {
        self.amounts.keep(survivors);
    }
}

// How much those rows add whose holders are no ancestors of the owner.
fn few_beside(rows: &[(Name, Option<i64>)], owner: Option<&Name>) -> i64
    ensures { result ≡ sum_beside (held_in rows.now) (name_of owner.entry) }
{
    let mut sum: i64 = 0;
    for (holder, row) in rows {
        sum = with_beside(sum, holder, *row, owner);
    }
    sum
}

fn many_beside(rows: Iter<'_, Name, Option<i64>>, owner: Option<&Name>) -> i64
    ensures { result ≡ sum_beside (held_in rows.entry) (name_of owner.entry) }
{
    let mut sum: i64 = 0;
    for (holder, row) in rows {
        sum = with_beside(sum, holder, *row, owner);
    }
    sum
}

// How much those rows add whose holders stay, if there are any.
fn few_left<S: Survivors>(rows: &[(Name, Option<i64>)], survivors: &S) -> Option<i64>
    ensures { result ≡ sum_if_any (filter (λ d. S.stays survivors.now d.0) (held_in rows.now)) }
{
    let mut sum = None;
    for (holder, row) in rows {
        sum = with_left(sum, *row, survivors.stays(holder));
    }
    sum
}

fn many_left<S: Survivors>(rows: Iter<'_, Name, Option<i64>>, survivors: &S) -> Option<i64>
    ensures { result ≡ sum_if_any (filter (λ d. S.stays survivors.now d.0) (held_in rows.entry)) }
{
    let mut sum = None;
    for (holder, row) in rows {
        sum = with_left(sum, *row, survivors.stays(holder));
    }
    sum
}

// The sum with what the holder adds, if it adds anything and is no ancestor of the owner.
#[tactic(auto, using(std::proofs::lemmas::Int::wraps))]
fn with_beside(sum: i64, holder: &Name, row: Option<i64>, owner: Option<&Name>) -> i64
    ensures { result ≡ with_beside sum (name_of owner.entry) holder.now row }
{
    match row {
        Some(amount) => {
            if is_beside(holder, owner) {
                sum.wrapping_add(amount)
            } else {
                sum
            }
        }
        None => sum,
    }
}

// The sum, if there is one, with what a holder adds, if it adds anything and stays.
fn with_left(sum: Option<i64>, row: Option<i64>, stays: bool) -> Option<i64>
    ensures { result ≡ with_left sum row stays }
{
    match row {
        Some(amount) => {
            if stays {
                Some(with_more(sum, amount))
            } else {
                sum
            }
        }
        None => sum,
    }
}

// The sum, if there is one, with so much more.
#[tactic(auto, using(std::proofs::lemmas::Int::wraps))]
fn with_more(sum: Option<i64>, amount: i64) -> i64
    ensures { result ≡ sum_of (unwrap_or sum (pos 0)) amount }
{
    sum.unwrap_or(0).wrapping_add(amount)
}

// Whether the holder is no ancestor of the owner, if there is one.
fn is_beside(holder: &Name, owner: Option<&Name>) -> bool
    ensures { result ≡ is_beside (name_of owner.entry) holder.now }
{
    match owner {
        Some(action) => !holder.is_ancestor(action),
        None => true,
    }
}
