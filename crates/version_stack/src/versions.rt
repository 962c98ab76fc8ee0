ghost use Rattle.std.specs.Prelude.{◌≡◌, [], ◌∷◌, take, Some, IsTrue, IsFalse, IfOk, OnOk, OnErr, slice_get};
ghost use Rattle.action_names.specs.Names.{Name};
ghost use Rattle.atomic_types.specs.Operations.{is_read, is_add};
ghost use Rattle.object_model.specs.Stacks.{Stack, top_of, last_owner, version_at, owners_of, is_on_top, written, added, inherited, dropped_below, AreAbove, HasNoneBetween, RisesByAncestry, IsNextHolder};
ghost use Rattle.overlays.specs.Overlays.{Covers};
ghost use Rattle.std.specs.Option.{option_copied as name_of};
ghost use Rattle.version_stack.specs.Layers.{kept_lowest};

use crate::view::View;
use crate::{layers, rows};
use action_names::Name;
use atomic_types::{Op, Reply};
use overlays::Layered;
use std::alloc::{AllocError, Global};
use std::marker::Model;

/// A base content, and above it what each owner made of it.
#[derive(Drop)]
pub struct Versions<T: Layered> {
    /// What lies under all overlays.
    content: T,
    /// How many overlays, the lowest, belong to the base.
    settled: usize,
    /// Rising by ancestry.
    owners: Vec<Name>,
    /// How many overlays there are up to the last one of each owner.
    ends: Vec<usize>,
    overlays: Vec<T::Overlay>,
}

impl<T: Layered> Model for Versions<T> {
    ghost use Rattle.object_model.specs.Stacks.{Stack};
    ghost use Rattle.version_stack.specs.Layers.{stack_of, AreLayers};

    ghost Value = { Stack T };

    ghost view = { λ a.
        stack_of T.laid a.content a.settled a.owners.items a.ends.items a.overlays.items };

    ghost invariant = { λ a. AreLayers T.laid T.after T.fits a.content a.settled a.owners.items
        a.ends.items a.overlays.items };
}

impl<T: Layered> Versions<T> {
    /// The base alone. This takes no memory.
    pub fn new(alloc: Global, base: T) -> Self
        ensures { result ≡ record { base = base; versions = [] } }
    {
        Versions {
            content: base,
            settled: 0,
            owners: Vec::new(alloc),
            ends: Vec::new(alloc),
            overlays: Vec::new(alloc),
        }
    }

    /// The content on top. This takes no memory.
    pub fn top(&self) -> View<'_, T>
        ensures top { result ≡ top_of self.now }
        ensures rising { RisesByAncestry self.now.versions }
    {
        View::new(&self.content, &self.overlays, *self.overlays.allocator())
    }

    /// The base. This takes no memory.
    pub fn base(&self) -> View<'_, T>
        ensures { result ≡ self.now.base }
    {
        View::new(
            &self.content,
            &self.overlays[..self.settled],
            *self.overlays.allocator(),
        )
    }

    /// The version of this owner. This takes no memory.
    pub fn only(&self, owner: &Name) -> Option<View<'_, T>>
        ensures { result ≡ version_at self.now.versions owner.now }
    {
        let end = rows::end_of(&self.owners, &self.ends, owner)?;
        Some(View::new(
            &self.content,
            &self.overlays[..end],
            *self.overlays.allocator(),
        ))
    }

    /// The owners, each an ancestor of the next. This takes no memory.
    pub fn owners(&self) -> &[Name]
        ensures { result.now ≡ owners_of self.now.versions }
    {
        &self.owners
    }

    /// The owner of the lowest version, of which all others are descendants. This takes no memory.
    pub fn lowest(&self) -> Option<&Name>
        ensures lowest { name_of result ≡ slice_get (owners_of self.now.versions) 0 }
        ensures rising { RisesByAncestry self.now.versions }
    {
        self.owners.first()
    }

    /// The owner of the version on top, if that is not the base. This takes no memory.
    pub fn top_owner(&self) -> Option<&Name>
        ensures { name_of result ≡ last_owner self.now.versions }
    {
        self.owners.last()
    }

    /// Gives the owner, where there is no version, this overlay as its version, as a store gave it back. If memory
    /// runs out, nothing is changed.
    pub fn restore(&mut self, owner: &Name, overlay: T::Overlay) -> Result<(), AllocError>
        requires alone { self.old.versions ≡ [] }
        requires fits { T.fits self.old.base overlay }
        requires covers { Covers T.after T.laid overlay }
        ensures ok { OnOk result (self.new
            ≡ record { base = self.old.base; versions = (owner.now, T.laid self.old.base overlay) ∷ [] }) }
        ensures err { OnErr result (self.new ≡ self.old) }
    {
        layers::put_above::<T>(
            &mut self.owners,
            &mut self.ends,
            &mut self.overlays,
            owner,
            overlay,
        )
    }

    /// Performs an operation that writes on the content on top, for an owner that all owners so far are ancestors of;
    /// or one that adds, for the owner of the content on top. If memory runs out, nothing is changed.
    pub fn write(&mut self, owner: &Name, op: &Op) -> Result<Reply, AllocError>
        requires above { AreAbove self.old.versions owner.now }
        requires known { IsTrue (T.knows (top_of self.old) op.now) }
        requires changes { IsFalse (is_read op.now) }
        requires owned { IsTrue (is_add op.now)
            → IsTrue (is_on_top (owners_of self.old.versions) owner.now) }
        ensures rising { RisesByAncestry self.old.versions }
        ensures replies { IfOk result (λ r. r ≡ T.reply (top_of self.old) op.now) }
        ensures ok { OnOk result
            (self.new ≡ written self.old owner.now (T.after (top_of self.old) op.now)) }
        ensures err { OnErr result (self.new ≡ self.old) }
    {
        // Here memory may be wanting anyway, and so no owner has more than one overlay when one more is put above.
        self.tidy()?;
        self.note(owner, op)
    }

    // Performs the operation in the owner's overlay on top, or in one more.
    fn note(&mut self, owner: &Name, op: &Op) -> Result<Reply, AllocError>
        requires above { AreAbove self.old.versions owner.now }
        requires known { IsTrue (T.knows (top_of self.old) op.now) }
        requires changes { IsFalse (is_read op.now) }
        requires owned { IsTrue (is_add op.now)
            → IsTrue (is_on_top (owners_of self.old.versions) owner.now) }
        ensures rising { RisesByAncestry self.old.versions }
        ensures replies { IfOk result (λ r. r ≡ T.reply (top_of self.old) op.now) }
        ensures ok { OnOk result
            (self.new ≡ written self.old owner.now (T.after (top_of self.old) op.now)) }
        ensures err { OnErr result (self.new ≡ self.old) }
    {
        if rows::is_on_top(&self.owners, owner) {
            return layers::note_on_top(&self.content, &mut self.overlays, op);
        }
        layers::note_above(
            &self.content,
            &mut self.owners,
            &mut self.ends,
            &mut self.overlays,
            owner,
            op,
        )
    }

    /// Adds the number to the owner's version, if it has one; without an owner to the base. Every other version stays
    /// as it is, since what was added below it does not show in it. This takes no memory.
    pub fn add(&mut self, owner: Option<&Name>, by: i64)
        ensures { self.new ≡ added T.after self.old (name_of owner.entry) by }
    {
        match owner {
            Some(owner) => self.add_to_version(owner, by),
            None => layers::add_to_base(&mut self.content, &mut self.overlays, self.settled, by),
        }
    }

    // Adds the number to the owner's version, if it has one.
    fn add_to_version(&mut self, owner: &Name, by: i64)
        ensures { self.new ≡ added T.after self.old (Some owner.now) by }
    {
        let Some(end) = rows::end_of(&self.owners, &self.ends, owner) else {
            return;
        };
        layers::add_under::<T>(&mut self.overlays, end, by);
    }

    /// Gives the owner's version to the next holder, the nearest ancestor that has not committed as far as is known;
    /// without one to the base. No overlay is copied or changed: only whose they are changes. This takes no memory.
    pub fn inherit(&mut self, owner: &Name, to: Option<Name>)
        requires next { IsNextHolder owner.now to }
        requires between { HasNoneBetween self.old.versions owner.now to }
        ensures rising { RisesByAncestry self.old.versions }
        ensures inherited { self.new ≡ inherited self.old owner.now to }
    {
        match to {
            Some(next) => rows::pass(&mut self.owners, &mut self.ends, owner, next),
            None => rows::settle(&mut self.settled, &mut self.owners, &mut self.ends, owner),
        }
    }

    /// Drops the versions of the action and its descendants. This takes no memory.
    pub fn drop_below(&mut self, action: &Name)
        ensures { self.new ≡ dropped_below self.old action.now }
    {
        let count = rows::count_above(&self.owners, action);
        self.keep_first(count);
    }

    /// Drops all versions, but the lowest owner's where it is to be kept. This takes no memory.
    pub fn keep_lowest(&mut self, keeps: bool)
        ensures { self.new ≡ kept_lowest self.old keeps }
    {
        self.keep_first(usize::from(keeps));
    }

    // Drops all versions but so many, the lowest.
    fn keep_first(&mut self, count: usize)
        ensures rising { RisesByAncestry self.old.versions }
        ensures kept { self.new
            ≡ record { base = self.old.base; versions = take count self.old.versions } }
    {
        self.owners.truncate(count);
        self.ends.truncate(count);
        let end = rows::last_end(self.settled, &self.ends);
        self.overlays.truncate(end);
    }

    // Joins the overlays of each owner into one, and lays the base's on the content, as far as memory goes. What
    // contracts see of the stack stays the same, also where it fails, which it does only if memory runs out.
    fn tidy(&mut self) -> Result<(), AllocError>
        ensures rising { RisesByAncestry self.old.versions }
        ensures same { self.new ≡ self.old }
    {
        if self.overlays.len() == self.ends.len() {
            // Each owner has one overlay, and the base has none, as mostly.
            return Ok(());
        }
        let mut place = self.overlays.len();
        while place > 0 {
            place -= 1;
            self.merge(place)?;
        }
        Ok(())
    }

    // Makes one of the overlay at this place and of what stands right below it, if nobody's overlays end there.
    fn merge(&mut self, place: usize) -> Result<(), AllocError>
        ensures { self.new ≡ self.old }
    {
        if place >= self.overlays.len() {
            return Ok(());
        }
        if rows::is_end(self.settled, &self.ends, place) {
            return Ok(());
        }
        layers::merge(&mut self.content, &mut self.overlays, place)?;
        self.settled = rows::lowered(self.settled, place);
        rows::lower_all(&mut self.ends, place);
        Ok(())
    }
}
