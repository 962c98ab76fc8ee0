//! What a world takes memory for before its first step.
ghost use Rattle.std.specs.Prelude.{◌≡◌, ◌≤◌, [], length, map, IfOk, vec_capacity};
ghost use Rattle.std.specs.Arc.{arc_value};
ghost use Rattle.run_model.specs.Openings.{opening_in};
ghost use Rattle.registry.specs.Registries.{StandsIn};
ghost use Rattle.world.specs.Worlds.{AreEmpty, AreFirst, AreMemories, AreOpened, store_in};

use guardian::Guardian;
use registry::Registry;
use run_model::Opening;
use stable_store::{PlainStable, Stable};
use std::alloc::{AllocError, Global};
use std::sync::Arc;
use volatile_state::Memory;

/// The registry and the guardians' memories of an opening since which nothing has happened, and room for the guardians.
#[derive(Drop)]
pub(crate) struct Beginning<S: Stable> {
    pub(crate) opening: Arc<Opening, Global>,
    pub(crate) registry: Registry,
    pub(crate) memories: Vec<Memory>,
    pub(crate) room: Vec<Guardian<S>>,
}

impl<S: Stable> Beginning<S> {
    /// Fails only if memory runs out.
    pub(crate) fn of(alloc: Global, opening: Opening) -> Result<Beginning<S>, AllocError>
        ensures opening { IfOk result (λ beginning. arc_value beginning.opening ≡ opening) }
        ensures registry { IfOk result (λ beginning.
            StandsIn beginning.registry (record { opening = opening_in opening; registry = [] })) }
        ensures memories { IfOk result
            (λ beginning. AreMemories (opening_in opening) beginning.memories.items) }
        ensures empty { IfOk result (λ beginning. beginning.room.items ≡ []) }
        ensures room { IfOk result
            (λ beginning. length beginning.memories.items ≤ vec_capacity beginning.room) }
    {
        let opening = Arc::new(alloc, opening)?;
        let registry = Registry::new(alloc, opening.clone()?);
        let memories = memories(alloc, &opening)?;
        let room = Vec::with_capacity(alloc, memories.len())?;
        Ok(Beginning {
            opening,
            registry,
            memories,
            room,
        })
    }
}

/// The memories of the opening's guardians, in order.
fn memories(alloc: Global, opening: &Arc<Opening, Global>) -> Result<Vec<Memory>, AllocError>
    ensures { IfOk result
        (λ memories. AreMemories (opening_in (arc_value opening.now)) memories.items) }
{
    let count = opening.setup().guardians();
    let mut memories = Vec::with_capacity(alloc, count)?;
    for index in 0..count {
        memories.push(Memory::new(alloc, opening.clone()?, index as u32 + 1)?)?;
    }
    Ok(memories)
}

/// The guardians with these memories and stores, in order, where there is room for them. This takes no memory.
pub(crate) fn guardians<S: Stable>(
    alloc: Global,
    opening: &Opening,
    memories: Vec<Memory>,
    stores: Vec<S>,
    room: Vec<Guardian<S>>,
) -> Vec<Guardian<S>>
    requires memories { AreMemories (opening_in opening.now) memories.items }
    requires count { length stores.items ≡ length memories.items }
    requires opened { AreOpened S.seen (opening_in opening.now) stores.items }
    requires empty { room.items ≡ [] }
    requires room { length memories.items ≤ vec_capacity room }
    ensures first { AreFirst S.seen (opening_in opening.now) result.items }
    ensures stores { map store_in result.items ≡ stores.items }
{
    let mut guardians = room;
    for (memory, store) in memories.into_iter().zip(stores) {
        guardians.push_reserved(Guardian::over(alloc, memory, store));
    }
    guardians
}

/// So many empty stores in memory.
pub(crate) fn empty_stores(alloc: Global, count: usize) -> Result<Vec<PlainStable>, AllocError>
    ensures count { IfOk result (λ stores. length stores.items ≡ count) }
    ensures empty { IfOk result (λ stores. AreEmpty stores.items) }
{
    let mut stores = Vec::with_capacity(alloc, count)?;
    for _ in 0..count {
        stores.push(PlainStable::new(alloc))?;
    }
    Ok(stores)
}
