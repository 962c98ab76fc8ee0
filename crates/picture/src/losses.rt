//! Actions that crashes have lost, and to which actions these are visible.
ghost use Rattle.std.specs.Prelude.{◌≡◌, ◌==◌, [], ◌∷◌, ◌++◌, ◌&&◌, ◌||◌, ℕ, if◌then◌else◌, not, is_some, None, List, IfOk, OnOk};
ghost use Rattle.std.specs.BTreeMap.{get};
ghost use Rattle.std.specs.BTreeSet.{contains};
ghost use Rattle.std.specs.Ordering.{nat_cmp};
ghost use Rattle.action_names.specs.Names.{Name, has_name, name_cmp, same_name};
ghost use Rattle.run_model.specs.declared.history.Event.{Event};
ghost use Rattle.run_model.specs.Actions.{step_crashes};
ghost use Rattle.run_model.specs.Visibility.{votes_yes};
ghost use Rattle.picture.specs.Layouts.{AreBars};
ghost use Rattle.picture.specs.Losses.{AreLosses, AreStranded, exposed_in, falls, is_taken, pair_cmp, settled};

use crate::bars::Bars;
use run_model::{Answer, Event, Name, Step};
use std::alloc::{AllocError, Global};
use std::collections::{BTreeMap, BTreeSet};

/// Which actions crashes have lost, and which actions a crash would lose.
#[derive(Drop)]
pub(crate) struct Losses {
    /// By guardian, the actions that have begun there since its last crash.
    exposed: BTreeMap<u32, Vec<Name>>,
    /// The guardians, each with the number of a top action on which it voted yes.
    prepared: BTreeSet<(u32, u32)>,
    lost: BTreeSet<Name>,
}

impl Losses {
    /// Nothing was begun.
    pub(crate) fn new(alloc: Global) -> Losses
        ensures { AreLosses result [] }
    {
        Losses {
            exposed: BTreeMap::new(alloc),
            prepared: BTreeSet::new(alloc),
            lost: BTreeSet::new(alloc),
        }
    }

    /// Adds an event. The bars are those of the events before it.
    pub(crate) fn add(
        &mut self,
        alloc: Global,
        event: &Event,
        bars: &Bars,
    ) -> Result<(), AllocError>
        ensures { (past : List Event) → AreBars bars.now past → AreLosses self.old past
            → OnOk result (AreLosses self.new (event.now ∷ past)) }
    {
        self.lose(&event.step, bars)?;
        let home = bars.home_in(&event.step);
        add_exposed(&mut self.exposed, alloc, home, event.answer.names_begun())?;
        add_prepared(&mut self.prepared, event)
    }

    /// For each lost action the action to whose descendants it is visible.
    pub(crate) fn stranded(&self, alloc: Global, bars: &Bars) -> Result<BTreeSet<Name>, AllocError>
        ensures { (past : List Event) → AreBars bars.now past → AreLosses self.now past
            → IfOk result (λ stranded. AreStranded stranded past) }
    {
        let mut stranded = BTreeSet::new(alloc);
        for name in self.lost.iter() {
            stranded.insert(settled(name, bars)?)?;
        }
        Ok(stranded)
    }

    /// If the step is a crash, the actions that began at its guardian are lost, unless it prepared
    /// their top action.
    fn lose(&mut self, step: &Step, bars: &Bars) -> Result<(), AllocError>
        ensures prepared { self.new.prepared ≡ self.old.prepared }
        ensures exposed { (g : ℕ) → get nat_cmp self.new.exposed g
            ≡ (if step_crashes step.now g then None else get nat_cmp self.old.exposed g) }
        ensures lost { OnOk result ((q : Name) → contains name_cmp self.new.lost q
            ≡ (contains name_cmp self.old.lost q || is_taken self.old bars.now step.now q)) }
    {
        let Step::Crash(guardian) = step else {
            return Ok(());
        };
        let Some(exposed) = self.exposed.remove(guardian) else {
            return Ok(());
        };
        add_lost(
            &mut self.lost,
            exposed.as_slice(),
            *guardian,
            &self.prepared,
            bars,
        )
    }
}

/// Adds those of the exposed actions that a crash of the guardian loses.
fn add_lost(
    lost: &mut BTreeSet<Name>,
    exposed: &[Name],
    guardian: u32,
    prepared: &BTreeSet<(u32, u32)>,
    bars: &Bars,
) -> Result<(), AllocError>
    ensures { OnOk result ((q : Name) → contains name_cmp lost.new q ≡ (contains name_cmp lost.old q
        || (has_name exposed.now q && falls prepared.now bars.now guardian q))) }
{
    for name in exposed {
        add_if_lost(lost, name, guardian, prepared, bars)?;
    }
    Ok(())
}

fn add_if_lost(
    lost: &mut BTreeSet<Name>,
    name: &Name,
    guardian: u32,
    prepared: &BTreeSet<(u32, u32)>,
    bars: &Bars,
) -> Result<(), AllocError>
    ensures { OnOk result ((q : Name) → contains name_cmp lost.new q ≡ (contains name_cmp lost.old q
        || (same_name name.now q && falls prepared.now bars.now guardian q))) }
{
    if falls(name, guardian, prepared, bars) {
        lost.insert(name.copy()?)?;
    }
    Ok(())
}

/// Whether a crash of the guardian loses the action: it began there, and the guardian has not
/// prepared its top action.
fn falls(name: &Name, guardian: u32, prepared: &BTreeSet<(u32, u32)>, bars: &Bars) -> bool
    ensures { result ≡ falls prepared.now bars.now guardian name.now }
{
    let top = name.components()[0];
    bars.home(name) == guardian && !prepared.contains(&(guardian, top))
}

/// Adds that these actions have begun at this home.
fn add_exposed(
    exposed: &mut BTreeMap<u32, Vec<Name>>,
    alloc: Global,
    home: u32,
    names: &[Name],
) -> Result<(), AllocError>
    ensures { OnOk result ((g : ℕ) → exposed_in (get nat_cmp exposed.new g)
        ≡ (if home == g then exposed_in (get nat_cmp exposed.old g) ++ names.now
        else exposed_in (get nat_cmp exposed.old g))) }
{
    if names.is_empty() {
        return Ok(());
    }
    let mut all = taken(exposed, alloc, home);
    add_names(&mut all, names)?;
    exposed.insert(home, all)?;
    Ok(())
}

/// The exposed actions of this home, which are taken out.
fn taken(exposed: &mut BTreeMap<u32, Vec<Name>>, alloc: Global, home: u32) -> Vec<Name>
    ensures taken { result.items ≡ exposed_in (get nat_cmp exposed.old home) }
    ensures left { (g : ℕ) → get nat_cmp exposed.new g
        ≡ (if home == g then None else get nat_cmp exposed.old g) }
{
    match exposed.remove(&home) {
        Some(all) => all,
        None => Vec::new(alloc),
    }
}

fn add_names(list: &mut Vec<Name>, names: &[Name]) -> Result<(), AllocError>
    ensures { OnOk result (list.new.items ≡ list.old.items ++ names.now) }
{
    for name in names {
        list.push(name.copy()?)?;
    }
    Ok(())
}

/// Adds the vote that the event is, if it is a yes on a top action.
fn add_prepared(prepared: &mut BTreeSet<(u32, u32)>, event: &Event) -> Result<(), AllocError>
    ensures { OnOk result ((g n : ℕ) → contains pair_cmp prepared.new (g, n)
        ≡ (votes_yes event.now.step event.now.answer g (n ∷ [])
        || contains pair_cmp prepared.old (g, n))) }
{
    if let (Step::Prepare(guardian, top), Answer::VoteYes) = (&event.step, &event.answer) {
        if top.is_top() {
            prepared.insert((*guardian, top.last()))?;
        }
    }
    Ok(())
}

/// The nearest ancestor of the action that has not committed, or else its top action.
fn settled(action: &Name, bars: &Bars) -> Result<Name, AllocError>
    ensures { IfOk result (λ name. name
        ≡ settled (λ c. is_some (get name_cmp bars.now.committed c)) action.now) }
{
    let mut name = action.copy()?;
    while bars.committed.contains_key(&name) {
        let Some(parent) = name.parent()? else {
            return Ok(name);
        };
        name = parent;
    }
    Ok(name)
}
