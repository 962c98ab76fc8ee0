//! In which row of its lane each bar stands. A child at its parent's home stands within the rows of
//! its parent. Bars that are not there at the same time share rows.

use crate::bar::Bar;
use run_model::Name;
use std::alloc::{AllocError, Global};
use std::collections::{BTreeMap, BTreeSet};

/// The first row of a bar in its lane, and how many rows it has with the bars in it.
#[derive(Clone, Copy)]
pub(crate) struct Place {
    pub(crate) row: u64,
    pub(crate) height: u64,
}

/// The places of bars, and how many rows lanes have.
#[derive(Drop)]
pub(crate) struct Rows {
    pub(crate) places: BTreeMap<Name, Place>,
    shelves: BTreeMap<Owner, Shelf>,
}

/// In what a bar stands.
#[derive(Debug, PartialEq, Eq, PartialOrd, Ord, Drop)]
enum Owner {
    Lane(u32),
    Bar(Name),
}

/// The bars in one owner, side by side in slots.
#[derive(Drop)]
struct Shelf {
    free: BTreeSet<u64>,
    heights: BTreeMap<u64, u64>,
    /// In which row each slot begins.
    tops: BTreeMap<u64, u64>,
    height: u64,
}

/// A bar begins or has ended.
#[derive(Clone, Copy)]
struct Change<'a> {
    number: u64,
    begins: bool,
    bar: &'a Bar,
}

impl Rows {
    /// The rows of these bars, of which parents come before their children.
    pub(crate) fn of(alloc: Global, bars: &[Bar]) -> Result<Rows, AllocError> {
        let mut rows = Rows {
            places: BTreeMap::new(alloc),
            shelves: BTreeMap::new(alloc),
        };
        let homes = homes(alloc, bars)?;
        rows.make_shelves(alloc, bars, &homes)?;
        let slots = rows.take_slots(alloc, bars, &homes)?;
        rows.stack(bars, &homes, &slots)?;
        for (_, shelf) in rows.shelves.iter_mut() {
            shelf.settle()?;
        }
        rows.place(bars, &homes, &slots)?;
        Ok(rows)
    }

    /// How many rows the guardian's lane has.
    pub(crate) fn height(&self, guardian: u32) -> u64 {
        match self.shelves.get(&Owner::Lane(guardian)) {
            Some(shelf) => shelf.height.max(1),
            None => 1,
        }
    }

    /// Makes an empty shelf for each owner of a bar.
    fn make_shelves(
        &mut self,
        alloc: Global,
        bars: &[Bar],
        homes: &BTreeMap<Name, u32>,
    ) -> Result<(), AllocError> {
        for bar in bars {
            let owner = owner_of(bar, homes)?;
            self.shelves.insert(owner, Shelf::new(alloc))?;
        }
        Ok(())
    }

    /// Gives each bar a slot of its owner that is free while the bar lasts.
    fn take_slots(
        &mut self,
        alloc: Global,
        bars: &[Bar],
        homes: &BTreeMap<Name, u32>,
    ) -> Result<BTreeMap<Name, u64>, AllocError> {
        let lasts = lasts(alloc, bars, homes)?;
        let changes = changes(alloc, bars, &lasts)?;
        let mut slots = BTreeMap::new(alloc);
        for change in &changes {
            let owner = owner_of(change.bar, homes)?;
            if let Some(shelf) = self.shelves.get_mut(&owner) {
                turn(shelf, &mut slots, change)?;
            }
        }
        Ok(slots)
    }

    /// Finds the heights of bars and slots, from children to parents.
    fn stack(
        &mut self,
        bars: &[Bar],
        homes: &BTreeMap<Name, u32>,
        slots: &BTreeMap<Name, u64>,
    ) -> Result<(), AllocError> {
        for bar in bars.iter().rev() {
            let inner = match self.shelves.get(&Owner::Bar(bar.name.copy()?)) {
                Some(shelf) => shelf.height,
                None => 0,
            };
            let height = inner.saturating_add(1);
            self.places
                .insert(bar.name.copy()?, Place { row: 0, height })?;
            let owner = owner_of(bar, homes)?;
            if let (Some(shelf), Some(slot)) = (
                self.shelves.get_mut(&owner),
                slots.get(&bar.name),
            ) {
                shelf.raise(*slot, height)?;
            }
        }
        Ok(())
    }

    /// Finds the rows of bars, from parents to children.
    fn place(
        &mut self,
        bars: &[Bar],
        homes: &BTreeMap<Name, u32>,
        slots: &BTreeMap<Name, u64>,
    ) -> Result<(), AllocError> {
        for bar in bars {
            let owner = owner_of(bar, homes)?;
            let within = match &owner {
                Owner::Lane(_) => 0,
                Owner::Bar(parent) => self.row(parent).saturating_add(1),
            };
            let top = match (self.shelves.get(&owner), slots.get(&bar.name)) {
                (Some(shelf), Some(slot)) => shelf.top(*slot),
                _ => 0,
            };
            if let Some(place) = self.places.get_mut(&bar.name) {
                place.row = within.saturating_add(top);
            }
        }
        Ok(())
    }

    fn row(&self, action: &Name) -> u64 {
        match self.places.get(action) {
            Some(place) => place.row,
            None => 0,
        }
    }
}

impl Shelf {
    fn new(alloc: Global) -> Shelf {
        Shelf {
            free: BTreeSet::new(alloc),
            heights: BTreeMap::new(alloc),
            tops: BTreeMap::new(alloc),
            height: 0,
        }
    }

    /// The first free slot, or else a new one.
    fn take(&mut self) -> Result<u64, AllocError> {
        if let Some(slot) = self.free.pop_first() {
            return Ok(slot);
        }
        let slot = self.heights.len() as u64;
        self.heights.insert(slot, 0)?;
        Ok(slot)
    }

    /// Makes the slot so high at least.
    fn raise(&mut self, slot: u64, height: u64) -> Result<(), AllocError> {
        let old = match self.heights.get(&slot) {
            Some(old) => *old,
            None => 0,
        };
        if height > old {
            self.heights.insert(slot, height)?;
            self.height = self.height.saturating_add(height - old);
        }
        Ok(())
    }

    /// Puts the slots below one another.
    fn settle(&mut self) -> Result<(), AllocError> {
        let mut top = 0u64;
        for (slot, height) in self.heights.iter() {
            self.tops.insert(*slot, top)?;
            top = top.saturating_add(*height);
        }
        Ok(())
    }

    fn top(&self, slot: u64) -> u64 {
        match self.tops.get(&slot) {
            Some(top) => *top,
            None => 0,
        }
    }
}

/// Gives the bar a slot if it begins, and else gives the slot back.
fn turn(
    shelf: &mut Shelf,
    slots: &mut BTreeMap<Name, u64>,
    change: &Change<'_>,
) -> Result<(), AllocError> {
    let name = &change.bar.name;
    if change.begins {
        let slot = shelf.take()?;
        slots.insert(name.copy()?, slot)?;
    } else if let Some(slot) = slots.get(name) {
        shelf.free.insert(*slot)?;
    }
    Ok(())
}

/// The homes of the bars' actions.
fn homes(alloc: Global, bars: &[Bar]) -> Result<BTreeMap<Name, u32>, AllocError> {
    let mut homes = BTreeMap::new(alloc);
    for bar in bars {
        homes.insert(bar.name.copy()?, bar.begun.home)?;
    }
    Ok(homes)
}

/// The parent's bar, if there is one in the same lane, or else the lane.
fn owner_of(bar: &Bar, homes: &BTreeMap<Name, u32>) -> Result<Owner, AllocError> {
    let home = bar.begun.home;
    if let Some(parent) = bar.name.parent()? {
        if homes.get(&parent).copied() == Some(home) {
            return Ok(Owner::Bar(parent));
        }
    }
    Ok(Owner::Lane(home))
}

/// The last event at which each bar, or a bar within it, is drawn. Of what is drawn up to the margin it
/// is the greatest number.
fn lasts(
    alloc: Global,
    bars: &[Bar],
    homes: &BTreeMap<Name, u32>,
) -> Result<BTreeMap<Name, u64>, AllocError> {
    let mut lasts = BTreeMap::new(alloc);
    for bar in bars.iter().rev() {
        let own = bar.last().unwrap_or(u64::MAX);
        let last = number_of(&lasts, &bar.name).max(own);
        lasts.insert(bar.name.copy()?, last)?;
        if let Owner::Bar(parent) = owner_of(bar, homes)? {
            let other = number_of(&lasts, &parent);
            lasts.insert(parent, last.max(other))?;
        }
    }
    Ok(lasts)
}

fn number_of(numbers: &BTreeMap<Name, u64>, action: &Name) -> u64 {
    match numbers.get(action) {
        Some(number) => *number,
        None => 0,
    }
}

/// The beginnings and ends of bars, by number. Of one number, the ends come first.
fn changes<'a>(
    alloc: Global,
    bars: &'a [Bar],
    lasts: &BTreeMap<Name, u64>,
) -> Result<Vec<Change<'a>>, AllocError> {
    let mut changes = Vec::new(alloc);
    for bar in bars {
        changes.push(Change {
            number: number_of(lasts, &bar.name).saturating_add(1),
            begins: false,
            bar,
        })?;
    }
    for bar in bars {
        changes.push(Change {
            number: bar.begun.number,
            begins: true,
            bar,
        })?;
    }
    changes.sort_by_key(|change| change.number)?;
    Ok(changes)
}
