//! The homes and makers of the actions begun so far, found by name.
ghost use Rattle.std.specs.Prelude.{◌≡◌, [], ◌∷◌, ◌||◌, ◌==◌, List, ℕ, IfOk, OnOk, option_map, unwrap_or};
ghost use Rattle.action_names.specs.Names.{parent_of};
ghost use Rattle.run_model.specs.declared.history.Event.{Event};
ghost use Rattle.run_model.specs.Actions.{home_in, home_of, maker_in, maker_of};
ghost use Rattle.run_model.specs.LocalHistories.{names_guardian};
ghost use Rattle.tracer.specs.Homes.{AreHomes};

use run_model::{Answer, Name, Step};
use std::alloc::{AllocError, Global};
use std::collections::BTreeMap;

/// Where an action runs, and who made it.
#[derive(Drop)]
pub(crate) struct Begun {
    home: u32,
    maker: Option<Name>,
}

#[derive(Drop)]
pub(crate) struct Homes {
    begun: BTreeMap<Name, Begun>,
}

impl Homes {
    /// Nothing was begun.
    pub(crate) fn new(alloc: Global) -> Homes
        ensures { AreHomes result [] }
    {
        Homes {
            begun: BTreeMap::new(alloc),
        }
    }

    /// Adds what a step with this answer began.
    pub(crate) fn add(&mut self, step: &Step, answer: &Answer) -> Result<(), AllocError>
        ensures { (past : List Event) → AreHomes self.old past
            → OnOk result
            (AreHomes self.new (record { step = step.now; answer = answer.now } ∷ past)) }
    {
        let home = self.home_in(step);
        for name in answer.names_begun() {
            let maker = maker_in(step)?;
            self.begun.insert(name.copy()?, Begun { home, maker })?;
        }
        Ok(())
    }

    /// The guardians that the step names: these two, which may be one. 0 is no guardian.
    pub(crate) fn named(&self, step: &Step) -> Result<(u32, u32), AllocError>
        ensures { (past : List Event) → AreHomes self.now past → IfOk result (λ r.
            (g : ℕ) → names_guardian step.now past g ≡ ((r.0 == g) || (r.1 == g))) }
    {
        Ok(match step {
            Step::Top(guardian)
            | Step::Tell(guardian, _)
            | Step::Crash(guardian)
            | Step::Recover(guardian) => (*guardian, *guardian),
            Step::Call(action, guardian) | Step::Prepare(guardian, action) => {
                (self.home(action), *guardian)
            }
            Step::Commit(action) => (self.home(action), self.home_of_parent(action)?),
            Step::Abort(action) => (self.home(action), self.home_of_maker(action)),
            Step::NestedTop(action)
            | Step::Arms(action, _)
            | Step::Op(action, _, _)
            | Step::Close(action)
            | Step::Decide(action) => (self.home(action), self.home(action)),
        })
    }

    /// The home of the action, or 0 if it was not begun.
    fn home(&self, action: &Name) -> u32
        ensures { (past : List Event) → AreHomes self.now past → result ≡ home_of action.now past }
    {
        match self.begun.get(action) {
            Some(begun) => begun.home,
            None => 0,
        }
    }

    fn home_of_parent(&self, action: &Name) -> Result<u32, AllocError>
        ensures { (past : List Event) → AreHomes self.now past
            → IfOk result (λ r. r ≡ home_of (parent_of action.now) past) }
    {
        Ok(match action.parent()? {
            Some(parent) => self.home(&parent),
            None => 0,
        })
    }

    /// The home of the action's maker, or if it has none, its own home.
    fn home_of_maker(&self, action: &Name) -> u32
        ensures { (past : List Event) → AreHomes self.now past
            → result ≡ home_of (unwrap_or (maker_of action.now past) action.now) past }
    {
        match self.maker(action) {
            Some(maker) => self.home(maker),
            None => self.home(action),
        }
    }

    fn maker(&self, action: &Name) -> Option<&Name>
        ensures { (past : List Event) → AreHomes self.now past
            → option_map (λ b. b.now) result ≡ maker_of action.now past }
    {
        self.begun.get(action)?.maker.as_ref()
    }

    /// The home that the step gives what it begins.
    fn home_in(&self, step: &Step) -> u32
        ensures { (past : List Event) → AreHomes self.now past
            → result ≡ home_in step.now (λ b. home_of b past) }
    {
        match step {
            Step::Top(guardian) | Step::Call(_, guardian) => *guardian,
            Step::NestedTop(action) | Step::Arms(action, _) => self.home(action),
            _ => 0,
        }
    }
}

/// Who makes what the step begins.
fn maker_in(step: &Step) -> Result<Option<Name>, AllocError>
    ensures { IfOk result (λ r. r ≡ maker_in step.now) }
{
    Ok(match step {
        Step::NestedTop(action) | Step::Call(action, _) | Step::Arms(action, _) => {
            Some(action.copy()?)
        }
        _ => None,
    })
}
