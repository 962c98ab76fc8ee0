//! The registry.
ghost use Rattle.std.specs.Prelude.{[]};
ghost use Rattle.std.specs.Arc.{arc_value};
ghost use Rattle.run_model.specs.Openings.{opening_in};

use crate::actions::Actions;
use crate::change::Change;
use crate::hearing::Told;
use layer_contracts::{EventRef, Forest, Guardian, Lineage};
use run_model::{Deps, Name, Opening};
use std::alloc::{AllocError, Global};
use std::marker::Model;
use std::sync::Arc;
use step_answers::Actor;

/// The actions of a world and the votes on its top actions: what the registry's history says of them, which it does
/// not keep.
#[derive(Drop)]
pub struct Registry {
    opening: Arc<Opening, Global>,
    actions: Actions,
    /// Of the event that was planned last, in place.
    change: Change,
}

impl Model for Registry {
    ghost use Rattle.std.specs.Arc.{arc_value};
    ghost use Rattle.std.specs.Coded.{codes};
    ghost use Rattle.run_model.specs.Openings.{opening_in};
    ghost use Rattle.registry.specs.contracts.actions.Actions as of_actions;
    ghost use Rattle.registry.specs.contracts.change.Change as of_change;
    ghost use Rattle.registry.specs.Following.{AreOfSome};
    ghost use Rattle.registry.specs.Registries.{InRegistry};

    ghost Value = { InRegistry };

    ghost coded = { Prim.hlevel (codes, of_actions.the_row.coded, of_change.the_row.coded) };

    ghost view = { λ a.
        record { opening = arc_value a.opening; actions = a.actions; change = a.change } };

    ghost invariant = { λ a. AreOfSome (opening_in (arc_value a.opening)) a.actions };
}

impl Registry {
    ghost use Rattle.registry.specs.Registries.{StandsIn};

    /// The registry of a world in which nothing happened. This takes no memory.
    pub fn new(alloc: Global, opening: Arc<Opening, Global>) -> Registry
        ensures { StandsIn result
            (record { opening = opening_in (arc_value opening); registry = [] }) }
    {
        let actions = Actions::new(alloc, &opening);
        Registry {
            opening,
            actions,
            change: Change::new(alloc),
        }
    }
}

impl Lineage for Registry {
    ghost use Rattle.registry.specs.Registries.{StandsIn};

    ghost is_of = { StandsIn };

    fn depends(&self, action: &Name) -> Option<&Deps> {
        self.actions.forest.depends(action.components())
    }

    fn new_dependencies(&self, action: &Name, home: u32, life: u64) -> Result<Deps, AllocError> {
        self.actions.forest.new_dependencies(action, home, life)
    }
}

impl Forest for Registry {
    ghost use Rattle.registry.specs.Registries.{FitsRegistry, IsChangeOf, StandsIn};

    ghost stands = { StandsIn };

    ghost is_one = { λ forest f stands. stands };

    ghost is_planned = { IsChangeOf };

    ghost fits = { FitsRegistry };

    fn opening(&self) -> &Opening {
        &self.opening
    }

    fn actor(&self, action: &Name) -> Option<Actor> {
        self.actions.forest.actor(action.components())
    }

    fn is_committed(&self, action: &Name) -> bool {
        self.actions.forest.is_committed(action.components())
    }

    fn home(&self, path: &[u32]) -> u32 {
        self.actions.forest.home(path)
    }

    fn maker(&self, action: &Name) -> Option<&Name> {
        self.actions.forest.maker(action.components())
    }

    fn next(&self, path: &[u32]) -> u64 {
        self.actions.forest.next(path)
    }

    fn has_voted(&self, guardian: u32, top: &Name) -> bool {
        self.actions.ballots.has_voted(guardian, top)
    }

    fn is_ready(&self, top: &Name) -> bool {
        self.actions.is_ready(&self.opening, top)
    }

    fn dependency(&self, action: &Name, guardian: u32) -> Option<u64> {
        self.actions
            .forest
            .dependency(action.components(), guardian)
    }

    fn outcomes_below<G: Guardian>(
        &self,
        top: &Name,
        at: &G,
    ) -> Result<Vec<(Name, bool)>, AllocError> {
        let told = Told { guardian: at };
        self.actions.forest.outcomes_below(top.components(), &told)
    }

    fn plan(&mut self, event: &EventRef<'_>, life: u64) -> Result<(), AllocError> {
        self.actions.plan(event, life, &mut self.change)?;
        Ok(())
    }

    fn install(&mut self, event: &EventRef<'_>, _stamp: u64) {
        self.actions.apply(&mut self.change, event.step);
    }
}
