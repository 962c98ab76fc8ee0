//! The beginning of a run: the registry and the guardians of a system to which nothing has happened are
//! put under locks.
ghost use Rattle.std.specs.Prelude.{◌≡◌, ◌≤◌, ◌+◌, [], IfErr, IfOk, length, vec_capacity};
ghost use Rattle.one_run.specs.Pieces.{places_from};
ghost use Rattle.run_model.specs.Openings.{opening_in};
ghost use Rattle.world_steps.specs.Standings.{IsWorld};
ghost use Rattle.locked_run.specs.Beginning.{AreBegun, AreFirst, held_from};

use crate::held::{Held, HeldRegistry};
use crate::shared::{OfRun, Shared};
use crate::stored::StoredHistory;
use layer_contracts::{Forest, Guardian};
use one_run::Part;
use run_model::{Event, Opening};
use shared_run::SharedRun;
use std::alloc::{AllocError, Global};

/// A run to which nothing has happened, and all its parts, before anything is under a lock.
#[derive(Drop)]
pub struct Start {
    pub run: SharedRun,
    pub parts: Part<Event>,
    pub ghost of: { parts.token.table_id ≡ run.table.shared.table_id },
    pub ghost all: { parts.token.me.0 ≡ places_from 0 (length run.table.shared.key.setup + 2) },
}

impl Start {
    /// A run of the opening. Fails only when out of memory.
    pub fn new(alloc: Global, opening: &Opening) -> Result<Start, AllocError>
        ensures { IfOk result (λ start. start.run.table.shared.key ≡ opening.now) }
    {
        // so that there are no more than 1,024 guardians
        let _count = opening.setup().guardians();
        let (run, parts) = SharedRun::begin(alloc, opening)?;
        Ok(Start { run, parts })
    }
}

/// Puts the registry and the guardians under locks, in the run of this name. A caller picks the name by
/// calling a generic function of its own with `Brand`. Fails only when out of memory, and then the registry
/// and the guardians come back.
pub fn begin<K: OfRun, R: Forest, G: Guardian>(
    alloc: Global,
    start: Start,
    registry: R,
    guardians: Vec<G>,
) -> Result<(Shared<K>, HeldRegistry<K, R>, Vec<Held<K, G>>), (AllocError, R, Vec<G>)>
    requires table { start.run.table.shared.table_id ≡ K.table }
    requires opening { opening_in start.run.table.shared.key ≡ K.opening }
    requires world { IsWorld G.stands G.stored (R.stands registry) K.opening [] guardians.items }
    ensures begun { IfOk result (λ begun. AreBegun K.opening begun.1 begun.2.items) }
    ensures guardians { IfOk result (λ begun. begun.2.items ≡ held_from 1 guardians.items) }
    ensures back { IfErr result (λ refused. (refused.1 ≡ registry) × (refused.2 ≡ guardians)) }
{
    let Start { run, parts } = start;
    let room = match Vec::with_capacity(alloc, guardians.len()) {
        Ok(room) => room,
        Err(refused) => return Err((refused, registry, guardians)),
    };
    let shared = Shared::<K>::new(run);
    let mut first = parts;
    let mut rest = shared.run.split(&mut first);
    let history = StoredHistory::new(alloc);
    let registry = HeldRegistry::new(registry, first, history);
    // no guardian has the number 0
    let others = shared.run.split(&mut rest);
    let guardians = hold(alloc, &shared, others, guardians, room);
    Ok((shared, registry, guardians))
}

/// Puts the guardians under locks, each with the part of its number.
fn hold<K: OfRun, G: Guardian>(
    alloc: Global,
    shared: &Shared<K>,
    parts: Part<Event>,
    guardians: Vec<G>,
    room: Vec<Held<K, G>>,
) -> Vec<Held<K, G>>
    requires parts { parts.token.table_id ≡ K.table }
    requires places { parts.token.me.0 ≡ places_from 2 (length guardians.items) }
    requires count { length guardians.items ≡ length K.opening.setup }
    requires each { AreFirst K.opening G.stands guardians.items }
    requires empty { room.items ≡ [] }
    requires room { length guardians.items ≤ vec_capacity room }
    ensures { result.items ≡ held_from 1 guardians.items }
{
    let mut rest = parts;
    let mut held = room;
    for guardian in guardians {
        let others = shared.run.split(&mut rest);
        let history = StoredHistory::new(alloc);
        held.push_reserved(Held::new(guardian, rest, STAMPS, history));
        rest = others;
    }
    held
}

/// How many stamps a guardian may draw.
const STAMPS: u64 = 4_294_967_296;
