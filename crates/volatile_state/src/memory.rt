//! The memory of a guardian.
ghost use Rattle.std.specs.Prelude.{◌≤◌, [], IfOk};
ghost use Rattle.std.specs.Arc.{arc_value};
ghost use Rattle.run_model.specs.Openings.{opening_in};
ghost use Rattle.volatile_state.specs.Memories.{IsSound};

use guardian_objects::Objects;
use orphans::Lists;
use places::Places;
use roster::Roster;
use run_model::Opening;
use std::alloc::{AllocError, Global};
use std::marker::Model;
use std::sync::Arc;
use tellings::Tellings;

/// What one guardian keeps in memory: all its parts are those of one history, which it does not keep.
#[derive(Drop)]
pub struct Memory {
    pub(crate) alloc: Global,
    pub(crate) opening: Arc<Opening, Global>,
    pub(crate) number: u32,
    /// The names that it knows, by place.
    pub(crate) places: Places,
    /// Of which outcomes it was told.
    pub(crate) told: Tellings,
    /// Which aborts and crashes it knows of.
    pub(crate) lists: Lists,
    /// The actions that began here.
    pub(crate) roster: Roster,
    pub(crate) objects: Objects,
}

impl Model for Memory {
    ghost use Rattle.std.specs.Arc.{arc_value};
    ghost use Rattle.std.specs.Coded.{codes};
    ghost use Rattle.tellings.specs.contracts.tellings.Tellings as of_tellings;
    ghost use Rattle.orphans.specs.contracts.lists.Lists as of_lists;
    ghost use Rattle.roster.specs.contracts.roster.Roster as of_roster;
    ghost use Rattle.volatile_state.specs.Memories.{InMemory, IsOfSome};

    ghost Value = { InMemory };

    ghost coded = { Prim.hlevel
        (codes, of_tellings.the_row.coded, of_lists.the_row.coded, of_roster.the_row.coded) };

    ghost view = { λ a. record {
      opening = arc_value a.opening;
      number = a.number;
      places = a.places;
      told = a.told;
      lists = a.lists;
      roster = a.roster;
      objects = a.objects;
    } };

    ghost invariant = { λ a. IsOfSome (record {
      opening = arc_value a.opening;
      number = a.number;
      places = a.places;
      told = a.told;
      lists = a.lists;
      roster = a.roster;
      objects = a.objects;
    }) };
}

impl Memory {
    /// The memory of a guardian to which nothing has happened. Fails only if memory runs out.
    pub fn new(
        alloc: Global,
        opening: Arc<Opening, Global>,
        number: u32,
    ) -> Result<Memory, AllocError>
        requires { 1 ≤ number }
        ensures { IfOk result (λ memory. IsSound memory
            (record { opening = opening_in (arc_value opening); number = number; past = [] })) }
    {
        let objects = Objects::new(alloc, &opening, number)?;
        Ok(Memory {
            alloc,
            opening,
            number,
            places: Places::new(alloc),
            told: Tellings::new(alloc),
            lists: Lists::new(alloc, number),
            roster: Roster::new(alloc, number),
            objects,
        })
    }
}
