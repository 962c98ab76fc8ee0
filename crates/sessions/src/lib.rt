//! The steps of one thread over a runtime, beside which other threads make steps.
#![tactic(auto)]

mod arms;
mod session;

pub use session::Session;
