//! The actions of a history: where and when each began, closed and ended.
ghost use Rattle.std.specs.Prelude.{◌≡◌, [], ◌∷◌, if◌then◌else◌, suc, length, List, IfOk, OnOk, Some, option_map};
ghost use Rattle.std.specs.BTreeMap.{get};
ghost use Rattle.action_names.specs.Names.{Name, has_name, name_cmp};
ghost use Rattle.run_model.specs.declared.history.Event.{Event};
ghost use Rattle.run_model.specs.Actions.{home_in, home_of, is_exactly, step_aborts, step_closes, step_commits};
ghost use Rattle.picture.specs.Layouts.{AreBars};
ghost use Rattle.picture.specs.Losses.{kept_home};

use run_model::{Event, Name, Step};
use std::alloc::{AllocError, Global};
use std::collections::BTreeMap;

/// Where an action began, and the number of the event that began it.
#[derive(Clone, Copy, Debug, PartialEq, Eq)]
pub struct Begun {
    pub home: u32,
    pub number: u64,
}

/// The actions that were begun, and the numbers of the events that closed, committed and aborted
/// actions.
#[derive(Drop)]
pub struct Bars {
    pub begun: BTreeMap<Name, Begun>,
    pub closed: BTreeMap<Name, u64>,
    pub committed: BTreeMap<Name, u64>,
    pub aborted: BTreeMap<Name, u64>,
}

impl Bars {
    /// Nothing was begun.
    pub(crate) fn new(alloc: Global) -> Bars
        ensures { AreBars result [] }
    {
        Bars {
            begun: BTreeMap::new(alloc),
            closed: BTreeMap::new(alloc),
            committed: BTreeMap::new(alloc),
            aborted: BTreeMap::new(alloc),
        }
    }

    /// Adds what the event of this number begins, closes and ends.
    pub(crate) fn add(&mut self, number: u64, event: &Event) -> Result<(), AllocError>
        ensures { (past : List Event) → AreBars self.old past → number ≡ suc (length past)
            → OnOk result (AreBars self.new (event.now ∷ past)) }
    {
        let home = self.home_in(&event.step);
        let begun = Begun { home, number };
        add_begun(&mut self.begun, event.answer.names_begun(), begun)?;
        add_number(&mut self.closed, closed_by(&event.step), number)?;
        add_number(&mut self.committed, committed_by(&event.step), number)?;
        add_number(&mut self.aborted, aborted_by(&event.step), number)
    }

    /// The home of the action, or 0 if it was not begun.
    pub(crate) fn home(&self, action: &Name) -> u32
        ensures kept { result ≡ kept_home (get name_cmp self.now.begun action.now) }
        ensures home { (past : List Event) → AreBars self.now past
            → result ≡ home_of action.now past }
    {
        match self.begun.get(action) {
            Some(begun) => begun.home,
            None => 0,
        }
    }

    /// The home that the step gives what it begins.
    pub(crate) fn home_in(&self, step: &Step) -> u32
        ensures { (past : List Event) → AreBars self.now past
            → result ≡ home_in step.now (λ b. home_of b past) }
    {
        match step {
            Step::Top(guardian) | Step::Call(_, guardian) => *guardian,
            Step::NestedTop(action) | Step::Arms(action, _) => self.home(action),
            _ => 0,
        }
    }
}

/// Adds that these actions have begun so.
fn add_begun(
    actions: &mut BTreeMap<Name, Begun>,
    names: &[Name],
    begun: Begun,
) -> Result<(), AllocError>
    ensures { OnOk result ((q : Name) → get name_cmp actions.new q
        ≡ (if has_name names.now q then Some begun else get name_cmp actions.old q)) }
{
    for name in names {
        actions.insert(name.copy()?, begun)?;
    }
    Ok(())
}

/// Adds the number of the event for the action, if there is one.
fn add_number(
    numbers: &mut BTreeMap<Name, u64>,
    action: Option<&Name>,
    number: u64,
) -> Result<(), AllocError>
    ensures { OnOk result ((q : Name) → get name_cmp numbers.new q
        ≡ (if is_exactly (option_map (λ a. a.now) action.entry) q then Some number
        else get name_cmp numbers.old q)) }
{
    if let Some(name) = action {
        numbers.insert(name.copy()?, number)?;
    }
    Ok(())
}

/// The action whose closing step this is.
fn closed_by(step: &Step) -> Option<&Name>
    ensures { (q : Name) → step_closes step.now q ≡ is_exactly (option_map (λ a. a.now) result) q }
{
    match step {
        Step::Close(name) | Step::Commit(name) => Some(name),
        _ => None,
    }
}

fn committed_by(step: &Step) -> Option<&Name>
    ensures { (q : Name) → step_commits step.now q ≡ is_exactly (option_map (λ a. a.now) result) q }
{
    match step {
        Step::Commit(name) | Step::Decide(name) => Some(name),
        _ => None,
    }
}

fn aborted_by(step: &Step) -> Option<&Name>
    ensures { (q : Name) → step_aborts step.now q ≡ is_exactly (option_map (λ a. a.now) result) q }
{
    match step {
        Step::Abort(name) => Some(name),
        _ => None,
    }
}
