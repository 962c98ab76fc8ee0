//! How the clients of a script are run.

ghost use Rattle.std.specs.Prelude.{◌≡◌, IfErr, IfOk, List, length, map};
ghost use Rattle.script_model.specs.declared.checked.Checked.{Checked};
ghost use Rattle.script_model.specs.Resolved.{IsResolved};
ghost use Rattle.run_model.specs.declared.history.Event.{Event};
ghost use Rattle.run_model.specs.Openings.{Setup, fresh, fresh_lists, opening_in};
ghost use Rattle.run_model.specs.Runs.{IsRun, World};
ghost use Rattle.traces.specs.Traces.{histories_in};
ghost use Rattle.tracer.specs.Leaving.{histories_of};
ghost use Rattle.activities.specs.declared.client.ClientEnd.{ClientEnd};
ghost use Rattle.argus_engine.specs.declared.engine.Fault.{Fault};
ghost use Rattle.script_engine.specs.Running.{Bases};

use activities::ClientEnd;
use argus_engine::Fault;
use run_model::Setup;
use script::Checked;
use std::alloc::{AllocError, Global};
use std::collections::BTreeMap;
use traces::Trace;
use values::Content;

/// How the clients of a script ended, the bases that they left, of each guardian in order, by the number of the
/// object, and the system in which they ran.
#[derive(Drop)]
pub struct Outcome<S> {
    pub ends: Vec<ClientEnd>,
    pub bases: Vec<BTreeMap<u32, Content>>,
    pub system: S,
}

/// A system in which clients ran.
pub trait Traced: Drop {
    /// Its opening, and what has happened there.
    ghost run: { Self → World };

    /// The histories of what has happened.
    fn trace(&self, alloc: Global) -> Result<Trace, AllocError>
        ensures setup { IfOk result (λ trace. trace.setup ≡ (run self.now).lists.setup) }
        ensures histories { IfOk result (λ trace.
            histories_in trace.registry.items trace.guardians.items
            ≡ histories_of (opening_in (run self.now).lists) (run self.now).past) };
}

/// Runs the clients of a script in a new system.
pub trait RunsClients {
    /// The system in which they run.
    type System: Traced;

    /// How the clients may end in a new system of the setup, which bases they may then leave, and what may then have
    /// happened.
    ghost comes: { Checked → Setup → List ClientEnd → Bases → List Event → Type 0 };

    /// Which faults may come.
    ghost faults: { Fault → Type 0 };

    /// What it needs of its types. Who makes threads needs a handle that threads may share.
    ghost ready: { Type 0 };

    /// Runs the clients in a new system of the setup, each to its end.
    fn run_clients(
        &mut self,
        alloc: Global,
        setup: Setup,
        script: &Checked,
    ) -> Result<Outcome<Self::System>, Fault>
        requires script { IsResolved script.now }
        requires ready { ready }
        ensures came { IfOk result (λ it. comes script.now setup it.ends.items
            (map (λ base. base.entries) it.bases.items) (Self.System.run it.system).past) }
        ensures count { IfOk result (λ it. length it.bases.items ≡ length setup) }
        ensures begun { IfOk result (λ it. (Self.System.run it.system).lists ≡ fresh_lists setup) }
        ensures is_run { IfOk result (λ it. IsRun (fresh setup) (Self.System.run it.system).past) }
        ensures fault { IfErr result faults };
}
