//! A step is recorded in the history of each lock that it names: first the event, so that there is
//! room, and its stamp once it was kept.
ghost use Rattle.std.specs.Prelude.{◌≡◌, ◌∷◌, OnErr, OnOk};
ghost use Rattle.locked_run.specs.Stored.{settled, settled_there, with_taken};

use crate::stored::StoredHistory;
use layer_contracts::Fault;
use run_model::{EventRef, Step};
use std::alloc::AllocError;
use world_steps::takes_registry;

/// The histories of a guardian and the registry, in which a step is recorded.
#[derive(Drop)]
pub(crate) struct RecordsOfOne<'a> {
    pub(crate) guardian: &'a mut StoredHistory,
    pub(crate) registry: &'a mut StoredHistory,
}

impl RecordsOfOne<'_> {
    /// Records a step, with the stamp 0, in each history that keeps it. Without memory all stay as
    /// they were.
    pub(crate) fn push(&mut self, event: &EventRef<'_>) -> Result<(), AllocError>
        ensures lent { (self.new.guardian.ghost_name ≡ self.old.guardian.ghost_name)
            × (self.new.registry.ghost_name ≡ self.old.registry.ghost_name) }
        ensures ok { OnOk result (
            (self.new.guardian.now ≡ (0, event.now) ∷ self.old.guardian.now)
            × (self.new.registry.now
            ≡ with_taken event.now.step (0, event.now) self.old.registry.now)) }
        ensures err { OnErr result ((self.new.guardian.now ≡ self.old.guardian.now)
            × (self.new.registry.now ≡ self.old.registry.now)) }
    {
        push_both(self.guardian, self.registry, event)
    }

    /// Settles the step that was recorded, once it was kept or was not.
    pub(crate) fn settle(&mut self, step: &Step, kept: &Result<u64, Fault>)
        ensures lent { (self.new.guardian.ghost_name ≡ self.old.guardian.ghost_name)
            × (self.new.registry.ghost_name ≡ self.old.registry.ghost_name) }
        ensures guardian { self.new.guardian.now ≡ settled kept.now self.old.guardian.now }
        ensures registry { self.new.registry.now
            ≡ settled_there step.now kept.now self.old.registry.now }
    {
        self.guardian.settle(kept);
        settle_taken(self.registry, step, kept);
    }
}

/// The histories of two guardians and the registry, in which a step is recorded.
#[derive(Drop)]
pub(crate) struct RecordsOfTwo<'a> {
    pub(crate) one: &'a mut StoredHistory,
    pub(crate) other: &'a mut StoredHistory,
    pub(crate) registry: &'a mut StoredHistory,
}

impl RecordsOfTwo<'_> {
    /// Records a step, as `RecordsOfOne::push`.
    pub(crate) fn push(&mut self, event: &EventRef<'_>) -> Result<(), AllocError>
        ensures lent { (self.new.one.ghost_name ≡ self.old.one.ghost_name)
            × (self.new.other.ghost_name ≡ self.old.other.ghost_name)
            × (self.new.registry.ghost_name ≡ self.old.registry.ghost_name) }
        ensures ok { OnOk result (
            (self.new.one.now ≡ (0, event.now) ∷ self.old.one.now)
            × (self.new.other.now ≡ (0, event.now) ∷ self.old.other.now)
            × (self.new.registry.now
            ≡ with_taken event.now.step (0, event.now) self.old.registry.now)) }
        ensures err { OnErr result ((self.new.one.now ≡ self.old.one.now)
            × (self.new.other.now ≡ self.old.other.now)
            × (self.new.registry.now ≡ self.old.registry.now)) }
    {
        self.one.push(event, 0)?;
        let done = push_both(self.other, self.registry, event);
        if done.is_err() {
            self.one.pop();
        }
        done
    }

    /// Settles the step that was recorded, once it was kept or was not.
    pub(crate) fn settle(&mut self, step: &Step, kept: &Result<u64, Fault>)
        ensures lent { (self.new.one.ghost_name ≡ self.old.one.ghost_name)
            × (self.new.other.ghost_name ≡ self.old.other.ghost_name)
            × (self.new.registry.ghost_name ≡ self.old.registry.ghost_name) }
        ensures one { self.new.one.now ≡ settled kept.now self.old.one.now }
        ensures other { self.new.other.now ≡ settled kept.now self.old.other.now }
        ensures registry { self.new.registry.now
            ≡ settled_there step.now kept.now self.old.registry.now }
    {
        self.one.settle(kept);
        self.other.settle(kept);
        settle_taken(self.registry, step, kept);
    }
}

/// Records a step in the history of a guardian, and in the registry's if the step takes it.
fn push_both(
    guardian: &mut StoredHistory,
    registry: &mut StoredHistory,
    event: &EventRef<'_>,
) -> Result<(), AllocError>
    ensures ok { OnOk result ((guardian.new ≡ (0, event.now) ∷ guardian.old)
        × (registry.new ≡ with_taken event.now.step (0, event.now) registry.old)) }
    ensures err { OnErr result ((guardian.new ≡ guardian.old) × (registry.new ≡ registry.old)) }
{
    guardian.push(event, 0)?;
    if !takes_registry(event.step) {
        return Ok(());
    }
    let done = registry.push(event, 0);
    if done.is_err() {
        guardian.pop();
    }
    done
}

/// Settles a step in the registry's history, if the step takes it.
fn settle_taken(registry: &mut StoredHistory, step: &Step, kept: &Result<u64, Fault>)
    ensures { registry.new ≡ settled_there step.now kept.now registry.old }
{
    if takes_registry(step) {
        registry.settle(kept);
    }
}
