//! Runs the clients of scripts for `script_engine`, each in a thread of its own.
#![tactic(auto)]

mod beside;
mod ended;
mod in_threads;
mod watching;

pub use in_threads::{EndedThreads, InThreads};
pub use watching::Watching;
