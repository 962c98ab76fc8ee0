ghost use Rattle.std.specs.Prelude.{◌≡◌, ◌≤◌, ◌-◌, ◌⊎◌, ◌<◌, [], length, map, Some, slice_get, IfErr, IfOk, IsErrOf, MatchOption, OnOk, OnErr};
ghost use Rattle.run_model.specs.Answers.{answer_of};
ghost use Rattle.run_model.specs.Openings.{fresh, objects_at, opening_in};
ghost use Rattle.run_model.specs.Runs.{new_world, world_after};
ghost use Rattle.run_model.specs.Versions.{base_of};
ghost use Rattle.run_laws.specs.Laws.{OrphanWhereRefused};
ghost use Rattle.run_laws.specs.Serving.{IsServed};
ghost use Rattle.layer_contracts.specs.Stores.{IsStoreOf, fault_in};
ghost use Rattle.layer_contracts.specs.declared.guardian.Fault.TheVariants.{Stable};
ghost use Rattle.guardian.specs.Guardians.{IsWhole};
ghost use Rattle.world_steps.specs.Standings.{HasFailed, IsOut, IsWorld, StoresLeft, standing};
ghost use Rattle.registry.specs.Registries.{StandsIn};
ghost use Rattle.std.specs.Arc.{arc_value};
ghost use Rattle.recovery_laws.specs.Runs.{AreOfRun};
ghost use Rattle.world.specs.Running.{Ran, RanBefore};
ghost use Rattle.world.specs.Stops.{IsKeptBetweenSteps, IsKeptThroughStops, StayUp, contents_of};
ghost use Rattle.world.specs.Worlds.{AreOpened, LeavesStores, seen_of, store_in};

use crate::beginning::{Beginning, empty_stores, guardians};
use guardian::Guardian;
use layer_contracts::Fault;
use packed_history::PackedHistory;
use registry::Registry;
use run_model::{Answer, Content, ObjectId, Opening, Setup, Step};
use stable_store::{PlainStable, Stable};
use std::alloc::{AllocError, Global};
use std::marker::Model;
use std::sync::Arc;
use stepping::MakesSteps;
use world_steps::Messages;

/// Guardians over stable stores, their objects and the actions on them.
#[derive(Drop)]
pub struct World<S: Stable> {
    alloc: Global,
    opening: Arc<Opening, Global>,
    history: PackedHistory,
    registry: Registry,
    guardians: Vec<Guardian<S>>,
    /// Those of the last step, whose room is used again.
    messages: Messages,
}

impl<S: Stable> Model for World<S> {
    ghost use Rattle.std.specs.Arc.{arc_value};
    ghost use Rattle.std.specs.Coded.{codes};
    ghost use Rattle.tellings.specs.contracts.tellings.Tellings as of_tellings;
    ghost use Rattle.orphans.specs.contracts.lists.Lists as of_lists;
    ghost use Rattle.roster.specs.contracts.roster.Roster as of_roster;
    ghost use Rattle.volatile_state.specs.contracts.plan.Plan as of_plan;
    ghost use Rattle.registry.specs.contracts.actions.Actions as of_actions;
    ghost use Rattle.registry.specs.contracts.change.Change as of_change;
    ghost use Rattle.world.specs.Worlds.{InWorld, IsStanding};

    ghost Value = { InWorld S };

    ghost coded = { Prim.hlevel (
      codes,
      of_tellings.the_row.coded,
      of_lists.the_row.coded,
      of_roster.the_row.coded,
      of_plan.the_row.coded,
      of_actions.the_row.coded,
      of_change.the_row.coded,
    ) };

    ghost view = { λ a. record {
      run = record { lists = arc_value a.opening; past = a.history };
      registry = a.registry;
      guardians = a.guardians.items;
    } };

    ghost invariant = { λ a. IsStanding S.seen (record {
      run = record { lists = arc_value a.opening; past = a.history };
      registry = a.registry;
      guardians = a.guardians.items;
    }) };
}

impl World<PlainStable> {
    /// New guardians of the setup, to whom nothing has happened, whose stores are in memory alone and end with the
    /// world. Fails only if memory runs out.
    pub fn in_memory(alloc: Global, setup: Setup) -> Result<World<PlainStable>, AllocError>
        ensures new { IfOk result (λ world. world.run ≡ new_world setup) }
        ensures fresh { IfOk result (λ world. opening_in world.run.lists ≡ fresh setup) }
    {
        let stores = empty_stores(alloc, setup.guardians())?;
        match World::new(alloc, setup, stores) {
            Ok(world) => Ok(world),
            Err((refused, _)) => Err(refused),
        }
    }
}

impl<S: Stable> World<S> {
    /// New guardians of the setup, to whom nothing has happened, each over its store, in order. The stores are empty.
    /// Fails only if memory runs out, and then gives the stores back.
    pub fn new(
        alloc: Global,
        setup: Setup,
        stores: Vec<S>,
    ) -> Result<World<S>, (AllocError, Vec<S>)>
        requires count { length stores.items ≡ length setup }
        requires opened { AreOpened S.seen (fresh setup) stores.items }
        ensures new { IfOk result (λ world. world.run ≡ new_world setup) }
        ensures fresh { IfOk result (λ world. opening_in world.run.lists ≡ fresh setup) }
        ensures stores { IfOk result (λ world. map store_in world.guardians ≡ stores.items) }
        ensures back { IfErr result (λ refused. refused.1 ≡ stores) }
    {
        World::over(alloc, Opening::fresh(alloc, setup), stores)
    }

    /// The guardians of the opening, to whom nothing has happened since, each over its store, in order. The stores
    /// hold what the opening says that they held, and nothing is prepared there. Fails only if memory runs out, and
    /// then gives the stores back.
    pub fn over(
        alloc: Global,
        opening: Opening,
        stores: Vec<S>,
    ) -> Result<World<S>, (AllocError, Vec<S>)>
        requires count { length stores.items ≡ length opening.setup }
        requires opened { AreOpened S.seen (opening_in opening) stores.items }
        ensures over { IfOk result (λ world. world.run ≡ record { lists = opening; past = [] }) }
        ensures stores { IfOk result (λ world. map store_in world.guardians ≡ stores.items) }
        ensures back { IfErr result (λ refused. refused.1 ≡ stores) }
    {
        let beginning = match Beginning::of(alloc, opening) {
            Ok(beginning) => beginning,
            Err(refused) => return Err((refused, stores)),
        };
        let Beginning {
            opening,
            registry,
            memories,
            room,
        } = beginning;
        let guardians = guardians(alloc, &opening, memories, stores, room);
        Ok(World {
            alloc,
            opening,
            history: PackedHistory::new(alloc),
            registry,
            guardians,
            messages: Messages::empty(alloc),
        })
    }

    /// Makes one step and gives its answer. An accepted step is in the history from then on, with its answer; one
    /// that is refused or waits changes nothing. After an error the world is as it was. At most one store is called
    /// in a step: `Stable` comes where it failed, and then it has counted one failure more.
    pub fn step(&mut self, step: &Step) -> Result<Answer, Fault>
        ensures answer { IfOk result (λ answer. answer
            ≡ answer_of (opening_in self.old.run.lists) step.now self.old.run.past) }
        ensures after { IfOk result
            (λ answer. self.new.run ≡ world_after self.old.run step.now answer) }
        ensures orphans { IfOk result
            (λ answer. OrphanWhereRefused step.now answer self.old.run.past) }
        ensures served { IsServed (opening_in self.new.run.lists) self.new.run.past }
        ensures err { OnErr result (self.new.run ≡ self.old.run) }
        ensures stores { StoresLeft (λ g. seen_of S.seen g) (opening_in self.old.run.lists)
            self.old.run.past step.now self.old.guardians self.new.guardians (fault_in result) }
        ensures cause { IsErrOf result Stable
            → HasFailed (λ g. seen_of S.seen g) self.old.guardians self.new.guardians }
        ensures stop { IsKeptThroughStops (λ g. seen_of S.seen g) (opening_in self.old.run.lists)
            self.old.run.past step.now self.old.guardians self.new.guardians }
        ensures up { OnOk result
            (StayUp (λ g. seen_of S.seen g) self.old.guardians self.new.guardians) }
    {
        world_steps::step(
            self.alloc,
            &mut self.messages,
            &mut self.registry,
            &mut self.guardians,
            &mut self.history,
            step,
        )
    }

    /// Makes the steps one after another, each as `step` makes it, and appends their answers. `Memory` comes if
    /// memory for an answer or a step is refused, and `Stable` if a store failed. After an error the steps before are
    /// made, and their answers stand.
    pub fn run(&mut self, steps: &[Step], answers: &mut Vec<Answer>) -> Result<(), Fault>
        ensures ok { OnOk result
            (Ran S.seen self.old self.new steps.now answers.old.items answers.new.items) }
        ensures served { IsServed (opening_in self.new.run.lists) self.new.run.past }
        ensures err { IfErr result (λ fault.
            RanBefore S.seen self.old self.new steps.now fault answers.old.items
            answers.new.items) }
    {
        // so that what happened before is known to be a run
        let _ = &self.history;
        for step in steps {
            answers.reserve(1)?;
            let answer = self.step(step)?;
            answers.push_reserved(answer);
        }
        Ok(())
    }

    /// What has happened: the accepted steps with their answers, kept compactly. The stores are those of this run,
    /// and a stop now leaves them so. This takes no memory; `unpacked` gives them as a `History`.
    pub fn history(&self) -> &PackedHistory
        ensures past { result.now ≡ self.now.run.past }
        ensures served { IsServed (opening_in self.now.run.lists) self.now.run.past }
        ensures stores { AreOfRun (opening_in self.now.run.lists) self.now.run.past
            (contents_of (λ g. seen_of S.seen g) self.now.guardians) }
        ensures stop { IsKeptBetweenSteps (λ g. seen_of S.seen g) (opening_in self.now.run.lists)
            self.now.run.past self.now.guardians }
    {
        &self.history
    }

    /// The guardian of this number, which stands where what has happened leads it, with its store; none where there
    /// is none. This takes no memory.
    pub fn guardian(&self, number: u32) -> Option<&Guardian<S>>
        ensures found { MatchOption result (IsOut (length self.now.run.lists.setup) number)
            (λ guardian. slice_get self.now.guardians (number - 1) ≡ Some guardian.now) }
        ensures stands { MatchOption result (Unit {0})
            (λ guardian. IsWhole S.seen guardian.now
            (standing (opening_in self.now.run.lists) self.now.run.past number)) }
        ensures whole { MatchOption result (Unit {0})
            (λ guardian. IsStoreOf
            (standing (opening_in self.now.run.lists) self.now.run.past number)
            (seen_of S.seen guardian.now)) }
    {
        if number == 0 {
            return None;
        }
        self.guardians.get(number as usize - 1)
    }

    /// The base of an object: its content without what an action holds of it.
    pub fn base(&self, object: ObjectId) -> Result<Content, AllocError>
        requires guardian { 1 ≤ object.guardian }
        requires number { 1 ≤ object.number }
        requires there { object.number
            ≤ length (objects_at self.now.run.lists.setup object.guardian) }
        ensures { IfOk result (λ content. content
            ≡ base_of (opening_in self.now.run.lists) object self.now.run.past) }
    {
        let guardian = &self.guardians[object.guardian as usize - 1];
        match guardian.base(object.number) {
            Some(base) => base.content(),
            None => unreachable!(),
        }
    }

    /// The setup of its opening: the guardians, and what their objects held where their stores held nothing.
    pub fn setup(&self) -> &Setup
        ensures { result.now ≡ self.now.run.lists.setup }
    {
        self.opening.setup()
    }

    /// The opening from which it began.
    pub fn opening(&self) -> &Opening
        ensures { result.now ≡ self.now.run.lists }
    {
        &self.opening
    }

    /// Takes the world apart: the opening, the registry and the guardians, which stand where what has
    /// happened leads them. So they can be given to threads. This takes no memory.
    pub fn into_parts(self) -> (Arc<Opening, Global>, Registry, Vec<Guardian<S>>)
        ensures opening { arc_value result.0 ≡ self.run.lists }
        ensures guardians { result.2.items ≡ self.guardians }
        ensures standing { IsWorld (λ g s. IsWhole S.seen g s) (λ g. seen_of S.seen g)
            (StandsIn result.1) (opening_in self.run.lists) self.run.past result.2.items }
    {
        let World {
            opening,
            registry,
            guardians,
            ..
        } = self;
        (opening, registry, guardians)
    }
}

impl<S: Stable> MakesSteps for World<S> {
    ghost run = { λ w. w.run };

    ghost leaves = { λ step fault old new. LeavesStores S.seen step fault old new };

    fn step(&mut self, step: &Step) -> Result<Answer, Fault> {
        World::step(self, step)
    }

    fn opening(&self) -> &Opening {
        // so that what happened is known to be a run
        let _ = self.history();
        World::opening(self)
    }
}
