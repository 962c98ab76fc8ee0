//! How the actions of a history ended, found by name.
ghost use Rattle.std.specs.Prelude.{◌≡◌, ◌∷◌, ◌||◌, if◌then◌else◌, suc, length, List, IfOk, OnOk, option_map};
ghost use Rattle.std.specs.BTreeMap.{get};
ghost use Rattle.std.specs.BTreeSet.{contains};
ghost use Rattle.action_names.specs.Names.{Name, name_cmp};
ghost use Rattle.run_model.specs.declared.history.Event.{Event};
ghost use Rattle.run_model.specs.Actions.{is_exactly, step_closes, step_commits};
ghost use Rattle.run_model.specs.Visibility.{is_visible};
ghost use Rattle.tracer.specs.Endings.{AreEndings, place_at};
ghost use Rattle.tracer.specs.Places.{place_numbers, step_number};

use crate::actions::ancestors;
use crate::place::{ClosingStep, Place};
use run_model::{Event, History, Name, Step};
use std::alloc::{AllocError, Global};
use std::collections::{BTreeMap, BTreeSet};

/// Which actions have committed, and the numbers of the closing steps that came.
#[derive(Drop)]
pub(crate) struct Endings {
    committed: BTreeSet<Name>,
    closing: BTreeMap<Name, u64>,
}

impl Endings {
    /// The endings of a history.
    pub(crate) fn of(alloc: Global, history: &History) -> Result<Endings, AllocError>
        ensures { IfOk result (λ endings. AreEndings endings history.now) }
    {
        let mut endings = Endings {
            committed: BTreeSet::new(alloc),
            closing: BTreeMap::new(alloc),
        };
        for (before, event) in history.events().iter().enumerate() {
            endings.add(before as u64 + 1, event)?;
        }
        Ok(endings)
    }

    /// Adds what the event of this number ends.
    fn add(&mut self, number: u64, event: &Event) -> Result<(), AllocError>
        ensures { (past : List Event) → AreEndings self.old past → number ≡ suc (length past)
            → OnOk result (AreEndings self.new (event.now ∷ past)) }
    {
        add_committed(&mut self.committed, &event.step)?;
        add_closed(&mut self.closing, number, &event.step)
    }

    /// Whether the action is visible to the other: whether each of its ancestors that is none of the other's has
    /// committed.
    pub(crate) fn is_visible(
        &self,
        alloc: Global,
        action: &Name,
        to: &Name,
    ) -> Result<bool, AllocError>
        ensures { (past : List Event) → AreEndings self.now past
            → IfOk result (λ seen. seen ≡ is_visible action.now to.now past) }
    {
        let names = ancestors(alloc, action)?;
        let seen = names.as_slice().iter().all(|name| name.is_ancestor(to)
            || self.committed.contains(name));
        Ok(seen)
    }

    /// The place of the operation that the action was granted by the event of this number.
    pub(crate) fn place_of(
        &self,
        alloc: Global,
        number: u64,
        action: &Name,
    ) -> Result<Place, AllocError>
        ensures { (past : List Event) → AreEndings self.now past
            → IfOk result (λ place. place_numbers place ≡ place_at number action.now past) }
    {
        let names = ancestors(alloc, action)?;
        let mut steps = Vec::new(alloc);
        for name in names.as_slice() {
            steps.push(self.closing_of(name))?;
        }
        steps.push(ClosingStep::Came(number))?;
        Ok(Place::new(steps))
    }

    /// The closing step of the action.
    fn closing_of(&self, action: &Name) -> ClosingStep
        ensures { step_number result ≡ get name_cmp self.now.closing action.now }
    {
        match self.closing.get(action) {
            Some(number) => ClosingStep::Came(*number),
            None => ClosingStep::NotCome,
        }
    }
}

/// Adds the action that the step commits, if it does.
fn add_committed(committed: &mut BTreeSet<Name>, step: &Step) -> Result<(), AllocError>
    ensures { OnOk result ((q : Name) →
        contains name_cmp committed.new q
        ≡ (step_commits step.now q || contains name_cmp committed.old q)) }
{
    if let Some(name) = committed_by(step) {
        committed.insert(name.copy()?)?;
    }
    Ok(())
}

/// Adds the action whose closing step this is, if it is one.
fn add_closed(closing: &mut BTreeMap<Name, u64>, number: u64, step: &Step) -> Result<(), AllocError>
    ensures { OnOk result ((q : Name) →
        get name_cmp closing.new q
        ≡ (if step_closes step.now q then Some number else get name_cmp closing.old q)) }
{
    if let Some(name) = closed_by(step) {
        closing.insert(name.copy()?, number)?;
    }
    Ok(())
}

fn committed_by(step: &Step) -> Option<&Name>
    ensures { (q : Name) → step_commits step.now q ≡ is_exactly (option_map (λ b. b.now) result) q }
{
    match step {
        Step::Commit(name) | Step::Decide(name) => Some(name),
        _ => None,
    }
}

fn closed_by(step: &Step) -> Option<&Name>
    ensures { (q : Name) → step_closes step.now q ≡ is_exactly (option_map (λ b. b.now) result) q }
{
    match step {
        Step::Close(name) | Step::Commit(name) => Some(name),
        _ => None,
    }
}
