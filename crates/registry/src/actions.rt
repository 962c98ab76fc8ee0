//! The actions and the votes on them.
ghost use Rattle.std.specs.Prelude.{◌≡◌, ◌∷◌, [], ℕ, List, OnOk, IsFalse};
ghost use Rattle.std.specs.List.{list_all};
ghost use Rattle.std.specs.Option.{option_map};
ghost use Rattle.run_model.specs.declared.history.Event.{Event};
ghost use Rattle.run_model.specs.Actions.{maker_in};
ghost use Rattle.run_model.specs.Lists.{guardians_of};
ghost use Rattle.run_model.specs.LocalHistories.{RegistryEvent, home_lent};
ghost use Rattle.run_model.specs.Openings.{opening_in};
ghost use Rattle.action_forest.specs.Events.{done};
ghost use Rattle.action_forest.specs.Forests.{AtEach, IsForest};
ghost use Rattle.action_forest.specs.Rooms.{FitsBegun};
ghost use Rattle.action_forest.specs.Trees.{trees};
ghost use Rattle.registry.specs.Following.{event_after};

use crate::ballots::Ballots;
use crate::change::{Change, Kind};
use action_forest::{Begun, Forest};
use layer_contracts::EventRef;
use run_model::{Answer, Name, Names, Opening, Step};
use std::alloc::{AllocError, Global};

/// The actions of a world and the votes on its top actions.
#[derive(Drop)]
pub struct Actions {
    pub(crate) forest: Forest,
    pub(crate) ballots: Ballots,
}

impl Actions {
    ghost use Rattle.registry.specs.Following.{AreActions, AreBegun, AtEachOf, FitsChange, HasRoomFor, IsEntered, MayEnd, is_ending, is_ready_there};

    /// No action was begun. This takes no memory.
    pub(crate) fn new(alloc: Global, opening: &Opening) -> Actions
        ensures { AreActions (opening_in opening.now) [] result }
    {
        Actions {
            forest: Forest::new(alloc, opening),
            ballots: Ballots::new(alloc),
        }
    }

    /// Whether all participants of the top action voted yes.
    pub(crate) fn is_ready(&self, opening: &Opening, top: &Name) -> bool
        ensures { (registry : List RegistryEvent)
            → AreActions (opening_in opening.now) registry self.now → result
            ≡ list_all (is_ready_there top.now registry) (guardians_of (opening_in opening.now)) }
    {
        match self.forest.depends(top.components()) {
            Some(participants) => self.ballots.may_commit(opening, participants, top),
            None => true,
        }
    }

    /// Makes room for an event, and writes what it changes over another change. What it begins begins in this life of
    /// its home. With memory and without, the actions and votes stay what they were.
    pub(crate) fn plan(
        &mut self,
        event: &EventRef<'_>,
        life: u64,
        change: &mut Change,
    ) -> Result<(), AllocError>
        ensures same { AtEachOf self.old
            (λ opening registry. AreActions opening registry self.new) }
        ensures room { OnOk result (HasRoomFor self.new change.new) }
        ensures fits { AtEachOf self.old (λ opening registry.
            OnOk result (FitsChange opening registry event.now life self.new change.new)) }
    {
        if let Answer::Began(names) = event.answer {
            self.plan_begin(event.step, names, life, &mut change.begun)?;
            change.kind = Kind::Begin;
            return Ok(());
        }
        match event.step {
            Step::Commit(action) => {
                self.forest.plan_commit(action, &mut change.commitment)?;
                change.kind = Kind::Commit;
                Ok(())
            }
            Step::Prepare(guardian, top) => {
                let yes = event.answer.is_yes();
                let vote = self.ballots.plan_vote(*guardian, top, yes)?;
                change.kind = Kind::Vote(vote);
                Ok(())
            }
            _ => {
                change.kind = Kind::Other;
                Ok(())
            }
        }
    }

    // Makes room for what the step begins.
    fn plan_begin(
        &mut self,
        step: &Step,
        names: &Names,
        life: u64,
        begun: &mut Begun,
    ) -> Result<(), AllocError>
        ensures same { AtEachOf self.old
            (λ opening registry. AreActions opening registry self.new) }
        ensures room { OnOk result (FitsBegun self.new.forest begun.new) }
        ensures fits { AtEachOf self.old (λ opening registry.
            OnOk result (AreBegun opening registry step.now names.now life self.new begun.new)) }
    {
        let home = self.home_by(step);
        self.forest
            .plan_begin(names, maker_in(step), home, life, begun)
    }

    // The home of what the step begins.
    fn home_by(&self, step: &Step) -> u32
        ensures { AtEach (trees self.now.forest)
            (λ opening registry. result ≡ home_lent step.now registry) }
    {
        match step {
            Step::Top(guardian) | Step::Call(_, guardian) => *guardian,
            Step::NestedTop(maker) | Step::Arms(maker, _) => self.forest.home(maker.components()),
            _ => 0,
        }
    }

    /// Carries out what an event of this step changes, for which there is room. This cannot fail. Nothing is said of
    /// what is left in the change.
    pub(crate) fn apply(&mut self, change: &mut Change, step: &Step)
        requires { HasRoomFor self.old change.old }
        ensures { AtEachOf self.old (λ opening registry. (stamp : ℕ) (e : Event) (life : ℕ)
            → IsEntered opening registry e
            → FitsChange opening registry e life self.old change.old → step.now ≡ e.step
            → AreActions opening
            (event_after opening registry stamp e life ∷ registry) self.new) }
    {
        match change.kind {
            Kind::Begin => self.forest.begin(&mut change.begun),
            Kind::Commit => self.forest.commit(&mut change.commitment),
            Kind::Vote(vote) => self.ballots.note(vote),
            Kind::Other => self.end(step),
        }
    }

    // Closes or ends the action that the step closes or ends, if that takes no room.
    fn end(&mut self, step: &Step)
        ensures ballots { self.new.ballots ≡ self.old.ballots }
        ensures other { IsFalse (is_ending step.now)
            → trees self.new.forest ≡ trees self.old.forest }
        ensures ended { AtEach (trees self.old.forest) (λ opening registry. (stamp : ℕ)
            → MayEnd registry step.now
            → IsForest opening (done stamp step.now ∷ registry) (trees self.new.forest)) }
    {
        match step {
            Step::Close(top) => self.forest.close(top),
            Step::Decide(top) => self.forest.decide(top),
            Step::Abort(action) => self.forest.abort(action),
            _ => {}
        }
    }
}

// Who makes what the step begins.
fn maker_in(step: &Step) -> Option<&Name>
    ensures { option_map (λ name. name.now) result ≡ maker_in step.now }
{
    match step {
        Step::NestedTop(maker) | Step::Call(maker, _) | Step::Arms(maker, _) => Some(maker),
        _ => None,
    }
}
