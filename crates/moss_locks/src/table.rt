ghost use Rattle.std.specs.Prelude.{◌≡◌, ◌||◌, ◌&&◌, not, ◌↔◌, [], filter, IsTrue, IsFalse, IfOk, OnOk, OnErr, if◌then◌else◌};
ghost use Rattle.std.specs.List.Sorted.{IsStrictlySortedBy};
ghost use Rattle.std.specs.Option.{option_copied as name_of};
ghost use Rattle.action_names.specs.Names.{Name, same_name, has_name, name_cmp};
ghost use Rattle.moss_locks.specs.Table.{has_room, HasRoomFor, KeepsRoom, KeepsOthersRoom, KeepsOthersRows, KeepsRoomBeside, KeepsRows};
ghost use Rattle.object_model.specs.Locks.{must_wait, is_in_the_way, holders_of, has_below, granted, revoked, inherited, dropped_below};

use crate::of_class;
use action_names::Name;
use atomic_types::Class;
use holders::{Holders, Survivors};
use std::alloc::{AllocError, Global};
use std::collections::BTreeSet;
use std::marker::Model;

/// Who holds operations of which class on an object.
#[derive(Drop)]
pub struct LockTable {
    alloc: Global,
    readers: Holders<()>,
    writers: Holders<()>,
    adders: Holders<()>,
}

impl Model for LockTable {
    ghost use Rattle.holders.specs.Held.{names_of};
    ghost use Rattle.moss_locks.specs.Table.{Table};

    ghost Value = { Table };

    ghost view = { λ a. record {
      locks = record { readers = names_of a.readers.held; writers = names_of a.writers.held; adders = names_of a.adders.held };
      room = record { readers = a.readers.room; writers = a.writers.room; adders = a.adders.room };
    } };
}

impl LockTable {
    /// No locks, and room for nobody. This takes no memory.
    pub fn new(alloc: Global) -> Self
        ensures locks { result.locks ≡ record { readers = []; writers = []; adders = [] } }
        ensures room { result.room ≡ record { readers = []; writers = []; adders = [] } }
    {
        LockTable {
            alloc,
            readers: Holders::new(alloc),
            writers: Holders::new(alloc),
            adders: Holders::new(alloc),
        }
    }

    /// Whether an operation of this class by the action has to wait for somebody. This takes no memory, and looks in
    /// each class at no more holders than the action has ancestors, and one.
    pub fn must_wait(&self, action: &Name, class: Class) -> bool
        ensures { result ≡ must_wait self.now.locks action.now class }
    {
        of_class::are_in_the_way(&self.readers, Class::Read, class, action)
            || of_class::are_in_the_way(&self.writers, Class::Write, class, action)
            || of_class::are_in_the_way(&self.adders, Class::Add, class, action)
    }

    /// For whom an operation of this class by the action has to wait, each once, in the order of names; none exactly
    /// where it need not wait. Fails only if memory runs out.
    pub fn blockers(&self, action: &Name, class: Class) -> Result<Vec<Name>, AllocError>
        ensures names { IfOk result (λ names. (b : Name)
            → has_name names.items b ≡ is_in_the_way self.now.locks action.now class b) }
        ensures rising { IfOk result (λ names. IsStrictlySortedBy name_cmp names.items) }
        ensures none { IfOk result
            (λ names. (names.items ≡ []) ↔ IsFalse (must_wait self.now.locks action.now class)) }
    {
        let mut names = BTreeSet::new(self.alloc);
        of_class::add_in_the_way(&mut names, &self.readers, Class::Read, class, action)?;
        of_class::add_in_the_way(&mut names, &self.writers, Class::Write, class, action)?;
        of_class::add_in_the_way(&mut names, &self.adders, Class::Add, class, action)?;
        of_class::list(self.alloc, &names)
    }

    /// Whether the action holds an operation of this class. This takes no memory.
    pub fn is_held_by(&self, action: &Name, class: Class) -> bool
        ensures { result ≡ has_name (holders_of self.now.locks class) action.now }
    {
        match class {
            Class::Read => self.readers.holds(action),
            Class::Write => self.writers.holds(action),
            Class::Add => self.adders.holds(action),
        }
    }

    /// Whether the action or a descendant holds anything. This takes no memory.
    pub fn is_held_below(&self, action: &Name) -> bool
        ensures { result ≡ (has_below self.now.locks.readers action.now
            || has_below self.now.locks.writers action.now
            || has_below self.now.locks.adders action.now) }
    {
        self.readers.has_below(action)
            || self.writers.has_below(action)
            || self.adders.has_below(action)
    }

    /// Notes that the action holds an operation of this class, and says if that is new. If memory runs out, nothing
    /// is changed.
    pub fn grant(&mut self, action: &Name, class: Class) -> Result<bool, AllocError>
        ensures ok { OnOk result (self.new.locks ≡ granted self.old.locks action.now class) }
        ensures undone { IfOk result
            (λ is_new. (if is_new then revoked self.new.locks action.now class else self.new.locks)
            ≡ self.old.locks) }
        ensures rows { KeepsRows self.old self.new }
        ensures err { OnErr result (self.new ≡ self.old) }
    {
        match class {
            Class::Read => of_class::insert(&mut self.readers, action),
            Class::Write => of_class::insert(&mut self.writers, action),
            Class::Add => of_class::insert(&mut self.adders, action),
        }
    }

    /// Forgets that the action holds operations of this class, and drops its room for them. This takes no memory.
    pub fn revoke(&mut self, action: &Name, class: Class)
        ensures locks { self.new.locks ≡ revoked self.old.locks action.now class }
        ensures room { KeepsOthersRoom self.old self.new action.now }
        ensures rows { KeepsOthersRows self.old self.new action.now }
    {
        match class {
            Class::Read => of_class::drop_one(&mut self.readers, action),
            Class::Write => of_class::drop_one(&mut self.writers, action),
            Class::Add => of_class::drop_one(&mut self.adders, action),
        }
    }

    /// Makes room for this holder, so that `inherit` may give it locks that others hold now: none is made in a class
    /// in which nobody holds one, so that a lock that is granted later may ask for room anew. The locks stay. If
    /// memory runs out, there may be room for it in some classes.
    pub fn make_room(&mut self, holder: &Name) -> Result<(), AllocError>
        ensures locks { self.new.locks ≡ self.old.locks }
        ensures room { OnOk result
            ((b : Name) → has_room self.new b ≡ (same_name holder.now b || has_room self.old b)) }
        ensures err { OnErr result (KeepsRoom self.old self.new) }
    {
        of_class::make_room(&mut self.readers, holder)?;
        of_class::make_room(&mut self.writers, holder)?;
        of_class::make_room(&mut self.adders, holder)
    }

    /// Gives the next holder, for which there is room, the locks of the action; without one nobody has them. The
    /// action's room goes, and that of all others stays. This takes no memory.
    pub fn inherit(&mut self, action: &Name, to: Option<&Name>)
        requires { HasRoomFor self.old (name_of to) }
        ensures locks { self.new.locks ≡ inherited self.old.locks action.now (name_of to.entry) }
        ensures room { KeepsOthersRoom self.old self.new action.now }
    {
        of_class::pass(&mut self.readers, action, to);
        of_class::pass(&mut self.writers, action, to);
        of_class::pass(&mut self.adders, action, to);
    }

    /// Drops the locks of the action and its descendants, and their room. It cannot fail, and takes no memory.
    pub fn drop_below(&mut self, action: &Name)
        ensures locks { self.new.locks ≡ dropped_below self.old.locks action.now }
        ensures room { KeepsRoomBeside self.old self.new action.now }
    {
        self.readers.drop_below(action);
        self.writers.drop_below(action);
        self.adders.drop_below(action);
    }

    /// A crash: the survivors keep what they wrote and added; all other locks are lost, and so is every lock to read.
    /// This takes no memory.
    pub fn crash<S: Survivors>(&mut self, survivors: &S)
        ensures { self.new.locks
            ≡ record { readers = []; writers = filter (S.stays survivors.now) self.old.locks.writers; adders = filter (S.stays survivors.now) self.old.locks.adders } }
    {
        self.readers = Holders::new(self.alloc);
        self.writers.keep(survivors);
        self.adders.keep(survivors);
    }
}
