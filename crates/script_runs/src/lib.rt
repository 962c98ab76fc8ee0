//! Runs the clients of scripts for `script_engine`, one after another in a world in memory.
#![tactic(auto)]

mod laws;
mod serially;

pub use laws::{one_outcome, one_serial_file, one_serial_stored_run, serial_text};
pub use serially::{SerialWorld, Serially};
