ghost use Rattle.std.specs.Prelude.{◌≡◌, ◌≤◌, IfOk, map};
ghost use Rattle.script_runs.specs.SerialRuns.{all_bases, bases_at};

use activities::run_serial;
use argus_engine::Fault;
use run_model::{ObjectId, Setup};
use script::Checked;
use script_engine::{Outcome, RunsClients, Traced};
use stable_store::{PlainStable, Stable};
use std::alloc::{AllocError, Global};
use std::collections::BTreeMap;
use tracer::trace_of;
use traces::Trace;
use values::Content;
use world::World;

/// A world in memory in which clients ran.
#[derive(Drop)]
pub struct SerialWorld {
    world: World<PlainStable>,
}

impl Traced for SerialWorld {
    ghost run = { λ a. a.world.run };

    fn trace(&self, alloc: Global) -> Result<Trace, AllocError> {
        let history = self.world.history().unpacked()?;
        trace_of(alloc, self.world.opening(), &history)
    }
}

/// Runs clients one after another, in a new world whose stores are in memory. A fault is out of memory.
#[derive(Clone, Copy, Debug, Default)]
pub struct Serially;

impl RunsClients for Serially {
    ghost use Rattle.std.specs.Prelude.{◌≡◌};
    ghost use Rattle.argus_engine.specs.declared.engine.Fault.TheVariants.{Memory};
    ghost use Rattle.script_runs.specs.SerialRuns.{ComesSerially};

    type System = SerialWorld;

    ghost comes = { ComesSerially };

    ghost faults = { λ fault. fault ≡ Memory };

    ghost ready = { Unit {0} };

    fn run_clients(
        &mut self,
        alloc: Global,
        setup: Setup,
        script: &Checked,
    ) -> Result<Outcome<SerialWorld>, Fault> {
        let mut world = World::in_memory(alloc, setup)?;
        let Ok(ends) = run_serial(alloc, &mut world, script) else {
            // a store in memory fails no call that a guardian makes of it
            return Err(Fault::Memory);
        };
        let bases = bases(alloc, &world)?;
        let system = SerialWorld { world };
        Ok(Outcome {
            ends,
            bases,
            system,
        })
    }
}

/// The bases of all objects, of each guardian in order.
fn bases<S: Stable>(
    alloc: Global,
    world: &World<S>,
) -> Result<Vec<BTreeMap<u32, Content>>, AllocError>
    ensures { IfOk result (λ found. map (λ base. base.entries) found.items
        ≡ all_bases world.now.run) }
{
    let mut found = Vec::new(alloc);
    for index in 0..world.setup().guardians() {
        found.push(bases_at(alloc, world, index as u32 + 1)?)?;
    }
    Ok(found)
}

/// The bases of a guardian's objects, by number.
fn bases_at<S: Stable>(
    alloc: Global,
    world: &World<S>,
    guardian: u32,
) -> Result<BTreeMap<u32, Content>, AllocError>
    requires { 1 ≤ guardian }
    ensures { IfOk result (λ found. found.entries ≡ bases_at world.now.run guardian) }
{
    let mut found = BTreeMap::new(alloc);
    for index in 0..world.setup().objects(guardian).len() {
        let number = index as u32 + 1;
        let base = world.base(ObjectId { guardian, number })?;
        drop(found.insert(number, base)?);
    }
    Ok(found)
}
