ghost use Rattle.std.specs.Prelude.{◌≡◌, ◌≤◌, not, length, IfOk};
ghost use Rattle.std.specs.Option.{option_map};
ghost use Rattle.atomic_types.specs.Objects.{knows};
ghost use Rattle.run_model.specs.Openings.{first_content, fresh, fresh_lists, objects_at, opening_in, part_at, set_up};
ghost use Rattle.run_model.specs.Refusals.{no_object};

use crate::setup::Setup;
use crate::step::ObjectId;
use atomic_types::{AtomicType, Op, Part};
use std::alloc::{AllocError, Global};
use std::marker::Model;
use values::Content;

/// What the store of one guardian held before a history.
#[derive(Drop)]
pub struct Held {
    base: Vec<(u32, Part)>,
    decided: Vec<u32>,
    count: u64,
    next_top: u64,
}

impl Model for Held {
    ghost use Rattle.run_model.specs.Openings.{StoreLists};

    ghost Value = { StoreLists };

    ghost view = { λ a.
        record { base = a.base.items; decided = a.decided.items; count = a.count; next_top = a.next_top } };
}

impl Held {
    /// What a store held: parts of objects by their numbers, of which the first under a number counts; the numbers of
    /// decided top actions; how many recoveries were counted; and the number after the greatest top action on which
    /// the guardian voted yes, 1 where it never did.
    pub fn new(base: Vec<(u32, Part)>, decided: Vec<u32>, count: u64, next_top: u64) -> Held
        ensures { result
            ≡ record { base = base.items; decided = decided.items; count = count; next_top = next_top } }
    {
        Held {
            base,
            decided,
            count,
            next_top,
        }
    }

    /// What was held of the object of this number, if anything.
    fn part(&self, number: u32) -> Option<&Part>
        ensures { option_map (λ part. part.now) result ≡ part_at self.now.base number }
    {
        let (_, part) = self.base.iter().find(|(held, _)| *held == number)?;
        Some(part)
    }
}

/// What stands before a history: the guardians with their objects, what their stores held, and the first number of a
/// top action. In the stores nothing was prepared.
#[derive(Drop)]
pub struct Opening {
    setup: Setup,
    stores: Vec<Held>,
    first_top: u64,
}

impl Model for Opening {
    ghost use Rattle.run_model.specs.Openings.{OpeningLists};

    ghost Value = { OpeningLists };

    ghost view = { λ a.
        record { setup = a.setup; stores = a.stores.items; first_top = a.first_top } };
}

impl Opening {
    /// The opening of new guardians: their stores are empty, and the first top action has the number 1.
    pub fn fresh(alloc: Global, setup: Setup) -> Opening
        ensures lists { result ≡ fresh_lists setup }
        ensures fresh { opening_in result ≡ fresh setup }
    {
        Opening {
            setup,
            stores: Vec::new(alloc),
            first_top: 1,
        }
    }

    /// The opening of guardians whose stores held this, guardian by guardian from the first; who has no entry has an
    /// empty store. The first top action has this number, or 1 where it is 0.
    pub fn new(setup: Setup, stores: Vec<Held>, first_top: u64) -> Opening
        ensures { result ≡ record { setup = setup; stores = stores.items; first_top = first_top } }
    {
        Opening {
            setup,
            stores,
            first_top,
        }
    }

    /// The guardians and what their objects held at the setup.
    pub fn setup(&self) -> &Setup
        ensures { result.now ≡ self.now.setup }
    {
        &self.setup
    }

    /// The number that the first top action gets.
    pub fn first_top(&self) -> u64
        ensures { result ≡ self.now.first_top }
    {
        self.first_top
    }

    /// Whether the setup has such an object.
    pub fn has_object(&self, object: ObjectId) -> bool
        requires { 1 ≤ object.guardian }
        ensures { result ≡ not (no_object (opening_in self.now) object).1 }
    {
        object.number > 0 && object.number as usize <= self.setup.objects(object.guardian).len()
    }

    /// Whether an operation belongs to the object.
    #[tactic(auto, using(crate::proofs::Openings::known_under))]
    pub fn knows(&self, object: ObjectId, operation: &Op) -> bool
        requires guardian { 1 ≤ object.guardian }
        requires number { 1 ≤ object.number }
        requires there { object.number ≤ length (objects_at self.now.setup object.guardian) }
        ensures { result ≡ knows (first_content (opening_in self.now) object) operation.now }
    {
        match self.part(object) {
            Some(Part::Value(content)) => content.knows(operation),
            _ => self.set_up(object).knows(operation),
        }
    }

    /// What the object held before the history: the setup's content, under what the store held. Fails only if memory
    /// runs out.
    pub fn first_content(&self, object: ObjectId) -> Result<Content, AllocError>
        requires guardian { 1 ≤ object.guardian }
        requires number { 1 ≤ object.number }
        requires there { object.number ≤ length (objects_at self.now.setup object.guardian) }
        ensures { IfOk result (λ content. content ≡ first_content (opening_in self.now) object) }
    {
        let content = self.set_up(object);
        match self.part(object) {
            Some(part) => part.laid_on(content),
            None => content.copy(),
        }
    }

    /// What the object held at the setup.
    fn set_up(&self, object: ObjectId) -> &Content
        requires guardian { 1 ≤ object.guardian }
        requires number { 1 ≤ object.number }
        requires there { object.number ≤ length (objects_at self.now.setup object.guardian) }
        ensures { result.now ≡ set_up self.now.setup object }
    {
        &self.setup.objects(object.guardian)[object.number as usize - 1]
    }

    /// What the store held of the object, if anything.
    fn part(&self, object: ObjectId) -> Option<&Part>
        requires { 1 ≤ object.guardian }
        ensures { option_map (λ part. part.now) result
            ≡ ((opening_in self.now).stores object.guardian).base object.number }
    {
        self.stores
            .get(object.guardian as usize - 1)?
            .part(object.number)
    }
}
