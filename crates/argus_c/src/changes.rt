//! Which stores the caller has to keep.
ghost use Rattle.std.specs.Prelude.{◌≡◌, ◌==◌, ◌&&◌, ℕ, true, false, length, not, IfOk, IfSome, IfNone, OnOk};
ghost use Rattle.argus_c.specs.Keeping.{AllMarked, CallsNone, IsLastMarked, StayMarked, is_marked};

use crate::called::{called, is_home};
use crate::homes::Homes;
use run_model::{Answer, Setup, Step};
use stable_store::PlainStable;
use std::alloc::{AllocError, Global};
use std::collections::BTreeSet;
use world::World;

/// The stores that may hold something else than what the caller keeps.
#[derive(Drop)]
pub(crate) struct Changes {
    /// Their guardians.
    changed: BTreeSet<u32>,
    /// The homes of top actions, so that a decision need not look for them.
    homes: Homes,
}

impl Changes {
    /// The stores of all guardians of the setup.
    pub(crate) fn all(alloc: Global, setup: &Setup) -> Result<Changes, AllocError>
        ensures { IfOk result (λ changes. AllMarked changes (length setup.now)) }
    {
        let mut changed = BTreeSet::new(alloc);
        for index in 0..setup.guardians() {
            changed.insert(index as u32 + 1)?;
        }
        Ok(Changes {
            changed,
            homes: Homes::new(alloc),
        })
    }

    /// Marks the guardian whose store the step calls, if it calls one, before it does.
    pub(crate) fn mark(&mut self, world: &World<PlainStable>, step: &Step) -> Result<(), AllocError>
        ensures marked { StayMarked self.old self.new }
        ensures others { OnOk result
            (CallsNone world.now step.now (λ g. is_marked self.new g ≡ false)) }
    {
        self.remember(world, step)?;
        match called(world, &self.homes, step) {
            Some(guardian) => {
                self.changed.insert(guardian)?;
                Ok(())
            }
            None => Ok(()),
        }
    }

    /// Remembers the home of a top action that is to vote there, if it is not known.
    fn remember(&mut self, world: &World<PlainStable>, step: &Step) -> Result<(), AllocError>
        ensures { self.new.changed ≡ self.old.changed }
    {
        if let Step::Prepare(guardian, top) = step
            && self.homes.get(top.last()).is_none()
            && is_home(world, *guardian, top)
        {
            self.homes.put(top.last(), *guardian)?;
        }
        Ok(())
    }

    /// Learns the home of a top action that the step has begun. Where memory is wanting, its vote tells it.
    pub(crate) fn learn(&mut self, step: &Step, answer: &Answer)
        ensures { self.new.changed ≡ self.old.changed }
    {
        if let Step::Top(home) = step
            && let [top] = answer.names_begun()
        {
            let _ = self.homes.put(top.last(), *home);
        }
    }

    /// Forgets the home of a top action that the step has ended.
    pub(crate) fn forget(&mut self, step: &Step, answer: &Answer)
        ensures { self.new.changed ≡ self.old.changed }
    {
        if let Step::Decide(action) | Step::Abort(action) = step
            && action.is_top()
            && answer.is_accepted()
        {
            self.homes.remove(action.last());
        }
    }

    /// The last of them. A caller that keeps the first guardian's store last knows by it that all were kept once.
    pub(crate) fn last(&self) -> Option<u32>
        ensures last { IfSome result (IsLastMarked self.now) }
        ensures none { IfNone result ((g : ℕ) → is_marked self.now g ≡ false) }
    {
        self.changed.last().copied()
    }

    /// The caller keeps this guardian's store.
    pub(crate) fn keep(&mut self, guardian: u32)
        ensures { (g : ℕ) → is_marked self.new g ≡ is_marked self.old g && not (g == guardian) }
    {
        self.changed.remove(&guardian);
    }
}
