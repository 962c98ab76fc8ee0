ghost use Rattle.std.specs.Prelude.{◌≡◌, true, false, is_some, ◌+ℤ◌, pos, ℤ, Some, None, IsTrue, IsSome, IfOk, OnOk, OnErr, option_copied, if◌then◌else◌};
ghost use Rattle.std.specs.Ordering.{int_cmp};
ghost use Rattle.std.specs.BTreeMap.{IsOrdered};
ghost use Rattle.std.specs.List.Sorted.{IsStrictlySortedBy};
ghost use Rattle.std.specs.Map.{keys_of};
ghost use Rattle.values.specs.Items.{ArrayContent, item_at};
ghost use Rattle.values.specs.Values.{kind_of};
ghost use Rattle.atomic_types.specs.declared.operation.Operation.TheVariants.{Fetch, Store, AddHigh, AddLow, RemoveHigh, RemoveLow};
ghost use Rattle.atomic_types.specs.Arrays.{array_knows, array_reply, gives_or_bounds};
ghost use Rattle.atomic_types.specs.Operations.{is_read};
ghost use Rattle.overlays.specs.RecordOverlays.{or_below};
ghost use Rattle.overlays.specs.Overlays.{laid_all, AllFit, shown};
ghost use Rattle.overlays.specs.ArrayOverlays.{laid_array, ArrayFits, AreLimited, AreLimitedWhere, IsNoted, IsAnswered, IsEnd, is_item_write, bounds_of, bounds_over, changed_at, lies_in, put_over, is_fetch, array_overlays_know, array_fits_stay, array_adds_sum, array_writes_cover, array_always_done};

use crate::array_items::{drop_outside, put_all};
use crate::bounds::Bounds;
use crate::layered::Layered;
use crate::seen::Seen;
use atomic_types::{Op, Reply, Signal};
use std::alloc::{AllocError, Global};
use std::collections::BTreeMap;
use std::marker::Model;
use values::{Array, Value};

/// The items of an array that an action put, and the array's bounds, if it changed them. An item that it removed is
/// in neither.
#[derive(Drop)]
pub struct ArrayOverlay {
    alloc: Global,
    bounds: Option<Bounds>,
    items: BTreeMap<i64, Value>,
}

impl Model for ArrayOverlay {
    ghost use Rattle.overlays.specs.ArrayOverlays.{ArrayChange, AreLimitedWhere};

    ghost Value = { ArrayChange };

    ghost view = { λ a. record { bounds = a.bounds; items = a.items.entries } };

    ghost invariant = { λ a. AreLimitedWhere a.bounds };
}

impl Layered for Array {
    type Overlay = ArrayOverlay;

    ghost laid = { laid_array };

    ghost fits = { ArrayFits };

    fn read(&self, op: &Op) -> Result<Reply, AllocError> {
        match op {
            Op::Low => Ok(Reply::Gives(Value::Int(self.low()))),
            Op::High => Ok(Reply::Gives(Value::Int(self.high()))),
            Op::Size => Ok(Reply::Gives(Value::Int(self.size() as i64))),
            Op::Fetch(index) => match self.fetch(*index) {
                Some(item) => Ok(Reply::Gives(item.copy()?)),
                None => Ok(Reply::Signals(Signal::Bounds)),
            },
            _ => unreachable!(),
        }
    }

    fn nothing(alloc: Global) -> ArrayOverlay {
        ArrayOverlay {
            alloc,
            bounds: None,
            items: BTreeMap::new(alloc),
        }
    }

    fn copy_overlay(overlay: &ArrayOverlay) -> Result<ArrayOverlay, AllocError> {
        Ok(ArrayOverlay {
            alloc: overlay.alloc,
            bounds: overlay.bounds,
            items: copy_items(overlay.alloc, &overlay.items)?,
        })
    }

    fn peek(overlay: &ArrayOverlay, op: &Op) -> Result<Seen, AllocError> {
        match op {
            Op::Fetch(index) => overlay.peek_item(*index),
            _ => Ok(overlay.peek_bounds(op)),
        }
    }

    fn note(
        base: &Array,
        below: &[ArrayOverlay],
        overlay: &mut ArrayOverlay,
        op: &Op,
    ) -> Result<Reply, AllocError> {
        let bounds = match overlay.bounds {
            Some(bounds) => bounds,
            None => bounds_under(base, below),
        };
        let end = match bounds.end_removed_by(op) {
            Some(index) => item_under(base, below, index),
            None => None,
        };
        overlay.note(bounds, end, op)
    }

    fn add_in(_overlay: &mut ArrayOverlay, _by: i64) {}

    // It copies the upper items, looks up as many and goes over what falls out of the bounds: over no other item.
    fn join(lower: &mut ArrayOverlay, upper: &ArrayOverlay) -> Result<(), AllocError> {
        put_all(lower.alloc, &mut lower.items, listed_items(upper)?)?;
        if let Some(bounds) = upper.bounds {
            drop_outside(&mut lower.items, bounds);
            lower.bounds = upper.bounds;
        }
        Ok(())
    }

    // It copies the items that were put, and changes the array once.
    fn lay(&mut self, overlay: &ArrayOverlay) -> Result<(), AllocError> {
        let bounds = bounds_over(self, overlay);
        self.change(bounds.low, bounds.size, listed_items(overlay)?)
    }

    fn add(&mut self, _by: i64) {}

    ghost overlays_know = { array_overlays_know };

    ghost fits_stay = { array_fits_stay };

    ghost adds_sum = { array_adds_sum };

    ghost writes_cover = { array_writes_cover };

    ghost always_done = { array_always_done };
}

impl ArrayOverlay {
    /// The bounds that it gives the array, if it changes them.
    pub(crate) fn bounds(&self) -> Option<Bounds>
        ensures value { result ≡ self.now.bounds }
        ensures limited { AreLimitedWhere self.now.bounds }
    {
        self.bounds
    }

    /// The item that was put at the index.
    pub(crate) fn item(&self, index: i64) -> Option<&Value>
        ensures { option_copied result ≡ changed_at self.now.items index }
    {
        self.items.get(&index)
    }

    /// Notes an operation that writes. The bounds are those of the array under the overlay, and the end is what the
    /// array below it has where the operation removes an item. If memory runs out, the overlay is as it was.
    pub(crate) fn note(
        &mut self,
        bounds: Bounds,
        end: Option<&Value>,
        op: &Op,
    ) -> Result<Reply, AllocError>
        requires limited { AreLimited bounds }
        requires writes { IsTrue (is_item_write op.now) }
        ensures ok { IfOk result
            (λ r. (a : ArrayContent) → ArrayFits a self.old → bounds ≡ bounds_over a self.old.bounds
            → IsEnd a bounds op.now (option_copied end.entry) → IsTrue (array_knows a op.now)
            → IsAnswered a self.old self.new op.now r) }
        ensures err { OnErr result (self.new ≡ self.old) }
    {
        match op {
            Op::Store(index, item) => self.store(bounds, *index, item),
            Op::AddHigh(item) => self.add_high(bounds, item),
            Op::AddLow(item) => self.add_low(bounds, item),
            Op::RemoveHigh => self.remove_high(bounds, end),
            Op::RemoveLow => self.remove_low(bounds, end),
            _ => unreachable!(),
        }
    }

    // Puts an item at the index, if it lies in the bounds, which are those of the array under the overlay.
    fn store(&mut self, bounds: Bounds, index: i64, item: &Value) -> Result<Reply, AllocError>
        ensures ok { IfOk result
            (λ r. (a : ArrayContent) → ArrayFits a self.old → bounds ≡ bounds_over a self.old.bounds
            → kind_of item.now ≡ a.kind → IsAnswered a self.old self.new (Store index item.now) r) }
        ensures err { OnErr result (self.new ≡ self.old) }
    {
        if !bounds.contains(index) {
            return Ok(Reply::Signals(Signal::Bounds));
        }
        self.put(index, item)?;
        Ok(Reply::Done)
    }

    // Adds an item above the last, if there is room.
    fn add_high(&mut self, bounds: Bounds, item: &Value) -> Result<Reply, AllocError>
        requires { AreLimited bounds }
        ensures ok { IfOk result
            (λ r. (a : ArrayContent) → ArrayFits a self.old → bounds ≡ bounds_over a self.old.bounds
            → kind_of item.now ≡ a.kind → IsAnswered a self.old self.new (AddHigh item.now) r) }
        ensures err { OnErr result (self.new ≡ self.old) }
    {
        if !bounds.has_room_above() {
            return Ok(Reply::Signals(Signal::Limit));
        }
        let higher = Bounds {
            low: bounds.low,
            size: bounds.size + 1,
        };
        self.put_in(higher, bounds.low + bounds.size as i64, item)?;
        Ok(Reply::Done)
    }

    // Adds an item below the first, if there is room.
    fn add_low(&mut self, bounds: Bounds, item: &Value) -> Result<Reply, AllocError>
        requires { AreLimited bounds }
        ensures ok { IfOk result
            (λ r. (a : ArrayContent) → ArrayFits a self.old → bounds ≡ bounds_over a self.old.bounds
            → kind_of item.now ≡ a.kind → IsAnswered a self.old self.new (AddLow item.now) r) }
        ensures err { OnErr result (self.new ≡ self.old) }
    {
        if !bounds.has_room_below() {
            return Ok(Reply::Signals(Signal::Limit));
        }
        let lower = Bounds {
            low: bounds.low - 1,
            size: bounds.size + 1,
        };
        self.put_in(lower, bounds.low - 1, item)?;
        Ok(Reply::Done)
    }

    // Removes the last item, if there is one.
    fn remove_high(&mut self, bounds: Bounds, end: Option<&Value>) -> Result<Reply, AllocError>
        requires { AreLimited bounds }
        ensures ok { IfOk result
            (λ r. (a : ArrayContent) → ArrayFits a self.old → bounds ≡ bounds_over a self.old.bounds
            → IsEnd a bounds RemoveHigh (option_copied end.entry)
            → IsAnswered a self.old self.new RemoveHigh r) }
        ensures err { OnErr result (self.new ≡ self.old) }
    {
        if bounds.size == 0 {
            return Ok(Reply::Signals(Signal::Bounds));
        }
        let left = Bounds {
            low: bounds.low,
            size: bounds.size - 1,
        };
        let index = bounds.low + left.size as i64;
        let reply = self.end_item(index, end)?;
        self.take(left, index);
        Ok(reply)
    }

    // Removes the first item, if there is one.
    fn remove_low(&mut self, bounds: Bounds, end: Option<&Value>) -> Result<Reply, AllocError>
        requires { AreLimited bounds }
        ensures ok { IfOk result
            (λ r. (a : ArrayContent) → ArrayFits a self.old → bounds ≡ bounds_over a self.old.bounds
            → IsEnd a bounds RemoveLow (option_copied end.entry)
            → IsAnswered a self.old self.new RemoveLow r) }
        ensures err { OnErr result (self.new ≡ self.old) }
    {
        if bounds.size == 0 {
            return Ok(Reply::Signals(Signal::Bounds));
        }
        let left = Bounds {
            low: bounds.low + 1,
            size: bounds.size - 1,
        };
        let reply = self.end_item(bounds.low, end)?;
        self.take(left, bounds.low);
        Ok(reply)
    }

    // The item that was put at the index, else the one below.
    fn end_item(&self, index: i64, below: Option<&Value>) -> Result<Reply, AllocError>
        ensures { IfOk result (λ r. r ≡ gives_or_bounds
            (or_below (changed_at self.now.items index) (option_copied below.entry))) }
    {
        match self.item(index).or(below) {
            Some(item) => Ok(Reply::Gives(item.copy()?)),
            None => Ok(Reply::Signals(Signal::Bounds)),
        }
    }

    // Forgets the item at the index, and gives the array these bounds. This takes no memory.
    fn take(&mut self, bounds: Bounds, index: i64)
        requires { AreLimited bounds }
        ensures { IsNoted self.old self.new index None (Some bounds) }
    {
        self.items.remove(&index);
        self.bounds = Some(bounds);
    }

    // Puts an item at the index. If memory runs out, the overlay is as it was.
    fn put(&mut self, index: i64, item: &Value) -> Result<(), AllocError>
        ensures ok { OnOk result (IsNoted self.old self.new index (Some item.now) self.old.bounds) }
        ensures err { OnErr result (self.new ≡ self.old) }
    {
        let item = item.copy()?;
        self.items.insert(index, item)?;
        Ok(())
    }

    // Gives the array these bounds, and the index this item. If memory runs out, the overlay is as it was.
    fn put_in(&mut self, bounds: Bounds, index: i64, item: &Value) -> Result<(), AllocError>
        requires { AreLimited bounds }
        ensures ok { OnOk result (IsNoted self.old self.new index (Some item.now) (Some bounds)) }
        ensures err { OnErr result (self.new ≡ self.old) }
    {
        self.put(index, item)?;
        self.bounds = Some(bounds);
        Ok(())
    }

    // What it alone shows of the item at the index.
    fn peek_item(&self, index: i64) -> Result<Seen, AllocError>
        ensures { IfOk result (λ seen. (a : ArrayContent) → ArrayFits a self.now
            → array_reply (laid_array a self.now) (Fetch index)
            ≡ shown seen (array_reply a (Fetch index))) }
    {
        if !lies_in(self.bounds(), index) {
            return Ok(Seen::Reply(Reply::Signals(Signal::Bounds)));
        }
        match self.item(index) {
            Some(item) => Ok(Seen::Reply(Reply::Gives(item.copy()?))),
            None => Ok(Seen::Below),
        }
    }

    // What it alone shows of the reply to an operation that asks for the bounds.
    fn peek_bounds(&self, op: &Op) -> Seen
        requires reads { IsTrue (is_read op.now) }
        requires bounds { is_fetch op.now ≡ false }
        ensures { (a : ArrayContent)
            → array_reply (laid_array a self.now) op.now ≡ shown result (array_reply a op.now) }
    {
        let Some(bounds) = self.bounds else {
            return Seen::Below;
        };
        let size = bounds.size as i64;
        match op {
            Op::Low => Seen::Reply(Reply::Gives(Value::Int(bounds.low))),
            Op::High => Seen::Reply(Reply::Gives(Value::Int(bounds.low + size - 1))),
            Op::Size => Seen::Reply(Reply::Gives(Value::Int(size))),
            _ => Seen::Below,
        }
    }
}

// The bounds of the array under these overlays.
fn bounds_under(base: &Array, below: &[ArrayOverlay]) -> Bounds
    requires { AllFit laid_array ArrayFits base.now below.now }
    ensures bounds { result ≡ bounds_of (laid_all laid_array base.now below.now) }
    ensures limited { AreLimited result }
{
    let mut left = below;
    while let Some((top, lower)) = left.split_last() {
        if let Some(bounds) = top.bounds {
            return bounds;
        }
        left = lower;
    }
    array_bounds(base)
}

/// The array's own bounds.
pub(crate) fn array_bounds(array: &Array) -> Bounds
    ensures bounds { result ≡ bounds_of array.now }
    ensures limited { AreLimited result }
{
    Bounds {
        low: array.low(),
        size: array.size(),
    }
}

// The bounds of the array under this overlay.
fn bounds_over(array: &Array, overlay: &ArrayOverlay) -> Bounds
    ensures bounds { result ≡ bounds_over array.now overlay.now.bounds }
    ensures limited { AreLimited result }
{
    match overlay.bounds {
        Some(bounds) => bounds,
        None => array_bounds(array),
    }
}

// What the array under these overlays has at the index, if it has an item there.
fn item_under<'a>(base: &'a Array, below: &'a [ArrayOverlay], index: i64) -> Option<&'a Value>
    requires { AllFit laid_array ArrayFits base.now below.now }
    ensures { is_some (item_at (laid_all laid_array base.entry.now below.entry.now) index) ≡ true
        → option_copied result
        ≡ item_at (laid_all laid_array base.entry.now below.entry.now) index }
{
    let mut left = below;
    while let Some((top, lower)) = left.split_last() {
        if let Some(item) = top.item(index) {
            return Some(item);
        }
        left = lower;
    }
    base.fetch(index)
}

// Puts copies of all items, as far as their indices lie in the bounds, over those that are there.
fn put_items(
    items: &mut BTreeMap<i64, Value>,
    from: &BTreeMap<i64, Value>,
    within: Option<Bounds>,
) -> Result<(), AllocError>
    ensures put { OnOk result ((i : ℤ)
        → changed_at items.new.entries i ≡ put_over within from.now.entries items.old.entries i) }
    ensures ordered { OnOk result (IsOrdered int_cmp items.old → IsOrdered int_cmp items.new) }
    ensures from_ordered { OnOk result (IsOrdered int_cmp from.now) }
{
    for (index, item) in from.iter() {
        if lies_in(within, *index) {
            items.insert(*index, item.copy()?)?;
        }
    }
    Ok(())
}

// Whether the index lies in the bounds, if there are any.
fn lies_in(within: Option<Bounds>, index: i64) -> bool
    ensures { result ≡ lies_in within index }
{
    match within {
        Some(bounds) => bounds.contains(index),
        None => true,
    }
}

fn copy_items(
    alloc: Global,
    items: &BTreeMap<i64, Value>,
) -> Result<BTreeMap<i64, Value>, AllocError>
    ensures { IfOk result (λ copy. copy.entries ≡ items.now.entries) }
{
    let mut copy = BTreeMap::new(alloc);
    put_items(&mut copy, items, None)?;
    Ok(copy)
}

// Copies of the items that were put, with their indices.
fn listed_items(overlay: &ArrayOverlay) -> Result<Vec<(i64, Value)>, AllocError>
    ensures items { IfOk result (λ items. items.items ≡ overlay.now.items) }
    ensures ordered { OnOk result (IsStrictlySortedBy int_cmp (keys_of overlay.now.items)) }
{
    let mut items = Vec::with_capacity(overlay.alloc, overlay.items.len())?;
    for (index, item) in overlay.items.iter() {
        items.push((*index, item.copy()?))?;
    }
    Ok(items)
}
