//! What the ends of actions and crashes make of an object. Nothing here fails.
ghost use Rattle.std.specs.Prelude.{◌≡◌, ◌&&◌, not, None, IsTrue, if◌then◌else◌};
ghost use Rattle.action_names.specs.Names.{Name, is_ancestor, is_top};
ghost use Rattle.atomic_types.specs.Objects.{content_after};
ghost use Rattle.holders.specs.Held.{HasLessRoom, may_be_handed};
ghost use Rattle.object_model.specs.Stacks.{HasNoneBetween, IsNextHolder, RisesByAncestry, added, inherited};
ghost use Rattle.object_model.specs.Deltas.{delta_at, more_at, HasDelta};
ghost use Rattle.object_model.specs.Objects.{IsCrashed, IsPassed, IsUndone, NamesRise, is_next, owns, passed_delta, passed_stack};
ghost use Rattle.atomic_object.specs.Kept.{seen, AddsNothing, HasDeltaRoom, HasRoomFor, KeepsOthersRoom, KeepsRoomBeside, MayBeHandedDeltas, lowest_stays};
ghost use Rattle.atomic_object.specs.Ways.{HandsOn, HandsTo, Survives, Undoes};

use crate::object::Object;
use action_names::Name;
use holders::Survivors;

impl Object {
    /// The guardian is told that the action committed: what it held goes to the next holder, the nearest ancestor
    /// that was not told so, for which there is room; without one to the base (Moss 1981).
    pub fn told_commit(&mut self, action: &Name, to: Option<Name>)
        requires named { IsTrue (is_ancestor action.now action.now) }
        requires shown { HandsTo (seen self.old) action.now to }
        requires room { HasRoomFor self.old to }
        ensures shows { HandsOn action.now to (seen self.old) (seen self.new) }
        ensures room { KeepsOthersRoom self.old self.new action.now }
    {
        self.pass(action, to);
    }

    /// The guardian is told that the action aborted: what it and its descendants held is dropped.
    pub fn told_abort(&mut self, action: &Name)
        requires named { IsTrue (is_ancestor action.now action.now) }
        ensures shows { Undoes action.now (seen self.old) (seen self.new) }
        ensures room { KeepsRoomBeside self.old self.new action.now }
    {
        self.drop_below(action);
    }

    /// The guardian crashes: what belongs to the base is left, and what top actions wrote and added that survive.
    pub fn crash<S: Survivors>(&mut self, survivors: &S)
        requires tops { (a : Name) → IsTrue (S.stays survivors.now a) → IsTrue (is_top a) }
        ensures shows { Survives (S.stays survivors.now) (seen self.old) (seen self.new) }
    {
        self.keep(survivors);
    }

    // Gives the next holder what the action held.
    fn pass(&mut self, action: &Name, to: Option<Name>)
        requires next { IsNextHolder action.now to }
        requires between { HasNoneBetween (seen self.old).stack.versions action.now to }
        requires beside { AddsNothing (seen self.old) to }
        requires room { HasRoomFor self.old to }
        ensures passed { IsPassed action.now to (seen self.old) (seen self.new) }
        ensures room { KeepsOthersRoom self.old self.new action.now }
    {
        self.locks.inherit(action, to.as_ref());
        self.pass_parts(action, to);
    }

    // Gives the next holder the action's version, or else what it added.
    fn pass_parts(&mut self, action: &Name, to: Option<Name>)
        requires next { IsNextHolder action.now to }
        requires between { HasNoneBetween (seen self.old).stack.versions action.now to }
        requires beside { AddsNothing (seen self.old) to }
        requires room { MayBeHandedDeltas self.old to }
        ensures stack { self.new.stack ≡ passed_stack (seen self.old) action.now to }
        ensures deltas { (b : Name)
            → delta_at self.new.deltas.held b ≡ passed_delta (seen self.old) action.now to b }
        ensures rising { NamesRise self.new.deltas.held }
        ensures room { HasLessRoom self.old.deltas.room self.new.deltas.room action.now }
        ensures locks { self.new.locks ≡ self.old.locks }
    {
        let amount = self.deltas.take(action);
        if self.owns(action) {
            self.pass_version(action, to);
        } else if let Some(amount) = amount {
            self.pass_delta(to, amount);
        }
    }

    // Gives the next holder the action's version, which covers what the holder added.
    fn pass_version(&mut self, action: &Name, to: Option<Name>)
        requires next { IsNextHolder action.now to }
        requires between { HasNoneBetween (seen self.old).stack.versions action.now to }
        requires room { MayBeHandedDeltas self.old to }
        requires rising { NamesRise self.old.deltas.held }
        ensures stack { self.new.stack ≡ inherited self.old.stack action.now to }
        ensures deltas { (b : Name) → delta_at self.new.deltas.held b
            ≡ (if is_next to b then None else delta_at self.old.deltas.held b) }
        ensures rising { NamesRise self.new.deltas.held }
        ensures room { self.new.deltas.room ≡ self.old.deltas.room }
        ensures locks { self.new.locks ≡ self.old.locks }
    {
        if let Some(next) = &to {
            self.forget_delta(next);
        }
        self.versions.inherit(action, to);
    }

    // Forgets what the next holder adds, if it adds anything.
    fn forget_delta(&mut self, next: &Name)
        requires room { IsTrue (may_be_handed self.old.deltas.held self.old.deltas.room next.now) }
        requires rising { NamesRise self.old.deltas.held }
        ensures left { HasDelta self.old.deltas.held self.new.deltas.held next.now None }
        ensures rising { NamesRise self.new.deltas.held }
        ensures room { self.new.deltas.room ≡ self.old.deltas.room }
        ensures stack { self.new.stack ≡ self.old.stack }
        ensures locks { self.new.locks ≡ self.old.locks }
    {
        if self.deltas.of(next).is_some() {
            self.deltas.forget(next);
        }
    }

    // Adds the amount to the next holder's version, if it has one, or else to its delta; without a holder to the base.
    fn pass_delta(&mut self, to: Option<Name>, amount: i64)
        requires room { HasDeltaRoom self.old to }
        requires rising { NamesRise self.old.deltas.held }
        ensures stack { self.new.stack ≡ added content_after self.old.stack to amount }
        ensures deltas { (b : Name)
            → delta_at self.new.deltas.held b ≡ (if is_next to b && not (owns (seen self.old) b)
            then more_at self.old.deltas.held b amount else delta_at self.old.deltas.held b) }
        ensures rising { NamesRise self.new.deltas.held }
        ensures room { self.new.deltas.room ≡ self.old.deltas.room }
        ensures locks { self.new.locks ≡ self.old.locks }
    {
        match &to {
            Some(next) if !self.owns(next) => self.deltas.put_more(next, amount),
            Some(next) => self.versions.add(Some(next), amount),
            None => self.versions.add(None, amount),
        }
    }

    // Drops what the action and its descendants hold.
    fn drop_below(&mut self, action: &Name)
        ensures undone { IsUndone action.now (seen self.old) (seen self.new) }
        ensures room { KeepsRoomBeside self.old self.new action.now }
    {
        self.versions.drop_below(action);
        self.deltas.drop_below(action);
        self.locks.drop_below(action);
    }

    // Drops what all but the survivors hold, and every lock to read.
    fn keep<S: Survivors>(&mut self, survivors: &S)
        requires tops { (a : Name) → IsTrue (S.stays survivors.now a) → IsTrue (is_top a) }
        ensures { IsCrashed (S.stays survivors.now) (seen self.old) (seen self.new) }
    {
        let keeps = self.keeps_lowest(survivors);
        self.versions.keep_lowest(keeps);
        self.deltas.keep(survivors);
        self.locks.crash(survivors);
    }

    // Whether the owner of the lowest version survives.
    fn keeps_lowest<S: Survivors>(&self, survivors: &S) -> bool
        ensures stays { result
            ≡ lowest_stays (S.stays survivors.now) (seen self.now).stack.versions }
        ensures rising { RisesByAncestry (seen self.now).stack.versions }
    {
        match self.versions.lowest() {
            Some(owner) => survivors.stays(owner),
            None => false,
        }
    }
}
