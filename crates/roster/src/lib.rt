//! The roster of a guardian: which actions are at home there, and what the guardian's own history says of them.
//!
//! An event comes in two calls: `plan` copies what it brings and makes room, and may lack memory; `enter` cannot
//! fail. The guardian above uses that after each event that agrees with its history the roster is that of the history
//! with the event in front (`IsRoster`), and that each answer is the definition of `run_model` at every history whose
//! roster it is.
#![tactic(auto)]

mod brought;
mod entry;
mod roster;

pub use entry::{Entry, Row, Turn};
pub use roster::Roster;
