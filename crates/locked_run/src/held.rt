//! What stands under locks: a guardian with its part of the run, and the registry with its own.
ghost use Rattle.std.specs.Prelude.{◌≡◌, ◌==◌, ◌≤◌, ◌++◌, ◌∷◌, [], ℕ, suc, length};
ghost use Rattle.run_model.specs.Runs.{IsRun};
ghost use Rattle.world_steps.specs.Naming.{first_named, second_named};
ghost use Rattle.world_steps.specs.Standings.{forest_of, standing};
ghost use Rattle.locked_run.specs.Parts.{IsHeld, IsHeldThere, guardian_part, number_of, registry_part};
ghost use Rattle.locked_run.specs.Stored.{guardian_events, registry_events};
ghost use Rattle.locked_run.specs.Behind.{IsBehind};
ghost use Rattle.one_run.specs.Pieces.{GoesOn, seen_of};
ghost use Rattle.shared_run.specs.Places.{touches};

use crate::gathering::look_behind;
use crate::shared::{OfRun, Seen, Shared};
use crate::stored::StoredHistory;
use layer_contracts::{Forest, Guardian};
use one_run::Part;
use run_model::{Event, Step};
use std::marker::{Model, PhantomData};
use world_steps::{NamedGuardians, named};

/// A guardian under its lock, which stands where the run leads it. Contracts see the guardian, its
/// number, the run as it was when the guardian was named last, and how many stamps it may draw.
#[derive(Drop)]
pub struct Held<K: OfRun, G: Guardian> {
    pub(crate) guardian: G,
    pub(crate) part: Part<Event>,
    pub(crate) left: u64,
    pub(crate) history: StoredHistory,
    pub(crate) of: PhantomData<K>,
}

impl<K: OfRun, G: Guardian> Model for Held<K, G> {
    ghost use Rattle.one_run.specs.Pieces.{seen_of};
    ghost use Rattle.locked_run.specs.Parts.{InHeld, IsHeld, number_of};

    ghost Value = { InHeld G };

    ghost view = { λ h. record {
      guardian = h.guardian;
      number = number_of h.part.token.me.0;
      seen = seen_of h.part.token.me.0;
      left = h.left;
    } };

    ghost invariant = { λ h.
        IsHeld K.opening K.table (G.stands h.guardian) h.part h.left h.history };
}

/// The registry under its lock, which stands where the run leads it. Contracts see the run as it was
/// when a step took the registry last.
#[derive(Drop)]
pub struct HeldRegistry<K: OfRun, R: Forest> {
    pub(crate) registry: R,
    pub(crate) part: Part<Event>,
    pub(crate) history: StoredHistory,
    pub(crate) of: PhantomData<K>,
}

impl<K: OfRun, R: Forest> Model for HeldRegistry<K, R> {
    ghost use Rattle.std.specs.Prelude.{List};
    ghost use Rattle.run_model.specs.declared.history.Event.{Event};
    ghost use Rattle.one_run.specs.Pieces.{seen_of};
    ghost use Rattle.locked_run.specs.Parts.{IsHeldThere};

    ghost Value = { List Event };

    ghost view = { λ h. seen_of h.part.token.me.0 };

    ghost invariant = { λ h. IsHeldThere K.opening K.table (R.stands h.registry) h.part h.history };
}

impl<K: OfRun, R: Forest> HeldRegistry<K, R> {
    /// The registry, with its part and the events that it has kept.
    pub fn new(registry: R, part: Part<Event>, history: StoredHistory) -> HeldRegistry<K, R>
        requires { IsHeldThere K.opening K.table (R.stands registry) part history }
        ensures { result ≡ seen_of part.token.me.0 }
    {
        HeldRegistry {
            registry,
            part,
            history,
            of: PhantomData,
        }
    }

    /// The guardians that the step names, by what the registry knew when a step took it last.
    pub fn named(&self, step: &Step) -> NamedGuardians
        ensures first { result.first ≡ first_named step.now self.now }
        ensures second { result.second ≡ second_named step.now self.now }
    {
        named(&self.registry, step)
    }

    /// Looks at the run together with what was seen of it, so that what it knows goes on from there.
    pub fn learn(&mut self, shared: &Shared<K>, earlier: &mut Seen<K>)
        ensures behind { IsBehind earlier.old self.new }
        ensures since { GoesOn touches (Some 0) self.old self.new }
        ensures same { earlier.new ≡ earlier.old }
    {
        look_behind(shared, &mut self.part, earlier);
    }

    /// The run as it was when a step took the registry last.
    pub fn seen(&mut self, shared: &Shared<K>) -> Seen<K>
        ensures seen { result ≡ self.old }
        ensures same { self.new ≡ self.old }
    {
        shared.seen_by(&mut self.part)
    }

    /// Gives up the part of the registry, the registry, and the events that it has kept.
    pub fn settle(self) -> (Part<Event>, R, StoredHistory)
        ensures table { result.0.token.table_id ≡ K.table }
        ensures known { (left : ℕ) × (result.0.token.me.0 ≡ registry_part left self ∷ []) }
        ensures run { IsRun K.opening self }
        ensures stands { R.stands result.1 (forest_of K.opening self) }
        ensures history { result.2 ≡ registry_events K.opening self }
    {
        let HeldRegistry {
            registry,
            part,
            history,
            of: _,
        } = self;
        (part, registry, history)
    }
}

impl<K: OfRun, G: Guardian> Held<K, G> {
    /// A guardian, with its part and the events that it has kept.
    pub fn new(guardian: G, part: Part<Event>, left: u64, history: StoredHistory) -> Held<K, G>
        requires { IsHeld K.opening K.table (G.stands guardian) part left history }
        ensures { result ≡ record {
          guardian = guardian;
          number = number_of part.token.me.0;
          seen = seen_of part.token.me.0;
          left = left;
        } }
    {
        Held {
            guardian,
            part,
            left,
            history,
            of: PhantomData,
        }
    }

    /// Whether the guardian has drawn all its stamps.
    pub fn is_used_up(&self) -> bool
        ensures { result ≡ (self.now.left == 0) }
    {
        self.left == 0
    }

    /// The number of the guardian.
    pub fn number(&self) -> u32
        ensures { result ≡ self.now.number }
    {
        self.guardian.number()
    }

    /// Looks at the run together with what was seen of it, so that what it knows goes on from there.
    pub fn learn(&mut self, shared: &Shared<K>, earlier: &mut Seen<K>)
        ensures behind { IsBehind earlier.old self.new.seen }
        ensures since { GoesOn touches (Some (suc self.old.number)) self.old.seen self.new.seen }
        ensures kept { self.new ≡ record self.old { seen = self.new.seen } }
        ensures same { earlier.new ≡ earlier.old }
    {
        look_behind(shared, &mut self.part, earlier);
    }

    /// The run as it was when the guardian was named last.
    pub fn seen(&mut self, shared: &Shared<K>) -> Seen<K>
        ensures seen { result ≡ self.old.seen }
        ensures same { self.new ≡ self.old }
    {
        shared.seen_by(&mut self.part)
    }

    /// Gives up what it knows of the run to another part, and the guardian with the events that it
    /// has kept.
    pub fn settle(self, shared: &Shared<K>, all: &mut Part<Event>) -> (G, StoredHistory)
        requires { all.old.token.table_id ≡ K.table }
        ensures table { all.new.token.table_id ≡ K.table }
        ensures known { (left : ℕ)
            × (all.new.token.me.0
            ≡ all.old.token.me.0 ++ guardian_part self.number left self.seen ∷ []) }
        ensures run { IsRun K.opening self.seen }
        ensures first { 1 ≤ self.number }
        ensures last { self.number ≤ length K.opening.setup }
        ensures guardian { result.0 ≡ self.guardian }
        ensures stands { G.stands result.0 (standing K.opening self.seen self.number) }
        ensures history { result.1 ≡ guardian_events K.opening self.seen self.number }
    {
        let Held {
            guardian,
            part,
            left: _,
            history,
            of: _,
        } = self;
        shared.run.join(all, part);
        (guardian, history)
    }
}
