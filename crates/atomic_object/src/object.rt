ghost use Rattle.std.specs.Prelude.{◌≡◌, ◌||◌, [], Bool, IsTrue, IsFalse, IfOk, Some, OnOk, OnErr};
ghost use Rattle.action_names.specs.Names.{Name, is_top, same_name};
ghost use Rattle.values.specs.declared.content.Content.{Content};
ghost use Rattle.run_model.specs.Answers.{is_concerned_by};
ghost use Rattle.run_model.specs.Keeping.{Standing};
ghost use Rattle.run_model.specs.Versions.{base_by, part_held};
ghost use Rattle.holders.specs.Held.{may_be_handed};
ghost use Rattle.object_model.specs.Objects.{owns, untouched};
ghost use Rattle.object_laws.specs.Shown.{Shows};
ghost use Rattle.object_laws.specs.Changes.{given};
ghost use Rattle.object_laws.specs.Laws.{is_concerned};
ghost use Rattle.object_laws.specs.OnceTold.{AreOutcomesBelow, HoldsItsTree, part_over, part_to_hold, told_of};
ghost use Rattle.atomic_object.specs.Kept.{seen, has_room, KeepsRoom};
ghost use Rattle.atomic_object.specs.Staying.{OutcomesRise};

use crate::staying::{Staying, last_staying};
use action_names::Name;
use atomic_types::{Class, Part};
use moss_locks::LockTable;
use overlays::Layered;
use std::alloc::{AllocError, Global};
use std::marker::Model;
use values::Content;
use version_stack::{Deltas, Versions, View};

/// One atomic object.
#[derive(Drop)]
pub struct Object {
    pub(crate) versions: Versions<Content>,
    pub(crate) deltas: Deltas,
    pub(crate) locks: LockTable,
}

impl Model for Object {
    ghost use Rattle.atomic_object.specs.Kept.{Kept};

    ghost Value = { Kept };

    ghost view = { λ a. record { stack = a.versions; deltas = a.deltas; locks = a.locks } };
}

impl Object {
    /// An object of this content, of which nobody holds anything. This takes no memory.
    pub fn new(alloc: Global, content: Content) -> Self
        ensures untouched { seen result ≡ untouched content }
        ensures shows { (told : Name → Bool) → Shows content (given told []) (seen result) }
    {
        Object {
            versions: Versions::new(alloc, content),
            deltas: Deltas::new(alloc),
            locks: LockTable::new(alloc),
        }
    }

    /// What belongs to the base. This takes no memory.
    pub fn base(&self) -> View<'_, Content>
        ensures { (c : Content) (s : Standing) → Shows c s (seen self.now) → result ≡ base_by c s }
    {
        self.versions.base()
    }

    /// What the top action will hold, to be prepared, once the outcomes of its descendants are told, which rise by
    /// name: nothing is changed. That is the version of the last owner that stays of its tree, with what is added
    /// below it; where no owner stays, what is added in its tree. Fails only if memory runs out.
    pub fn part_once_told(
        &self,
        top: &Name,
        outcomes: &[(Name, bool)],
    ) -> Result<Option<Part>, AllocError>
        requires { OutcomesRise outcomes.now }
        ensures { IfOk result (λ part. (c : Content) (s : Standing) → Shows c s (seen self.now)
            → IsTrue (is_top top.now) → IsFalse (s.told top.now)
            → AreOutcomesBelow s top.now outcomes.now
            → HoldsItsTree (told_of outcomes.now s) top.now
            → part ≡ part_held c (told_of outcomes.now s) top.now) }
    {
        self.part_to_hold(top, outcomes)
    }

    // The part, by the versions and the deltas.
    fn part_to_hold(
        &self,
        top: &Name,
        outcomes: &[(Name, bool)],
    ) -> Result<Option<Part>, AllocError>
        requires { OutcomesRise outcomes.now }
        ensures { IfOk result (λ part. part ≡ part_to_hold outcomes.now top.now (seen self.now)) }
    {
        let staying = Staying {
            from: top,
            outcomes,
        };
        match last_staying(self.versions.owners(), &staying) {
            Some(owner) => self.version_left(owner, outcomes),
            None => Ok(self.deltas.sum_left(&staying).map(Part::Delta)),
        }
    }

    // The version of an owner, with what stays of the deltas below it.
    fn version_left(
        &self,
        owner: &Name,
        outcomes: &[(Name, bool)],
    ) -> Result<Option<Part>, AllocError>
        requires { OutcomesRise outcomes.now }
        ensures { IfOk result (λ part. (top : Name)
            → part ≡ part_over outcomes.now top (seen self.now) (Some owner.now)) }
    {
        let Some(version) = self.versions.only(owner) else {
            return Ok(None);
        };
        let mut content = version.content()?;
        let staying = Staying {
            from: owner,
            outcomes,
        };
        if let Some(sum) = self.deltas.sum_left(&staying) {
            content.add(sum);
        }
        Ok(Some(Part::Value(content)))
    }

    /// Makes room for this holder, so that it can be handed what a descendant holds now: none is made where nobody
    /// holds anything, so that an operation that is granted later may ask for room anew. What is held of the object
    /// stays, with memory and without.
    pub fn make_room(&mut self, holder: &Name) -> Result<(), AllocError>
        ensures same { seen self.new ≡ seen self.old }
        ensures room { OnOk result
            ((b : Name) → has_room self.new b ≡ (same_name holder.now b || has_room self.old b)) }
        ensures err { OnErr result (KeepsRoom self.old self.new) }
    {
        self.make_delta_room(holder)?;
        self.locks.make_room(holder)
    }

    // Makes room for what this holder is to add, unless nobody adds anything.
    fn make_delta_room(&mut self, holder: &Name) -> Result<(), AllocError>
        ensures held { self.new.deltas.held ≡ self.old.deltas.held }
        ensures room { OnOk result
            ((b : Name) → may_be_handed self.new.deltas.held self.new.deltas.room b
            ≡ (same_name holder.now b
            || may_be_handed self.old.deltas.held self.old.deltas.room b)) }
        ensures stack { self.new.stack ≡ self.old.stack }
        ensures locks { self.new.locks ≡ self.old.locks }
        ensures err { OnErr result (self.new ≡ self.old) }
    {
        if self.deltas.is_clear() {
            return Ok(());
        }
        self.deltas.make_room(holder)
    }

    /// Whether a telling of the outcome changes the object: that the action committed, where it holds anything; that
    /// it aborted, where it or a descendant does. This takes no memory.
    pub fn is_concerned(&self, action: &Name, committed: bool) -> bool
        ensures shown { (c : Content) (s : Standing) → Shows c s (seen self.now)
            → IsFalse (s.told action.now) → result ≡ is_concerned_by committed s action.now }
        ensures held { result ≡ is_concerned committed (seen self.now).locks action.now }
    {
        self.is_held(action, committed)
    }

    // Whether the action, or where it aborted a descendant, has a lock.
    fn is_held(&self, action: &Name, committed: bool) -> bool
        ensures { result ≡ is_concerned committed (seen self.now).locks action.now }
    {
        if !committed {
            return self.locks.is_held_below(action);
        }
        self.locks.is_held_by(action, Class::Read)
            || self.locks.is_held_by(action, Class::Write)
            || self.locks.is_held_by(action, Class::Add)
    }

    // Whether the action has a version of its own.
    pub(crate) fn owns(&self, action: &Name) -> bool
        ensures { result ≡ owns (seen self.now) action.now }
    {
        self.versions.only(action).is_some()
    }
}
