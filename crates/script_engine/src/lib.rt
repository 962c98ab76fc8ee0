//! The engine of scripts: it runs a checked script in a new system of its objects, or of what stores hold of them, and
//! writes how its clients ended and which bases they left, and before that the trace of the run where one is wanted.
//! `RunsClients` is how the clients are run.
#![tactic(auto)]

mod clients;
mod files;
mod laws;
mod running;
mod storing;
mod tracing;

pub use clients::{Outcome, RunsClients, Traced};
pub use files::run_file;
pub use laws::{one_file, one_script, one_stored_run, traces_are_gathered};
pub use running::{run_script, setup_of};
pub use storing::{can_open, run_stored};
