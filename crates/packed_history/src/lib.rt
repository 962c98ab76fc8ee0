//! The history of a world: the accepted steps with their answers.
//!
//! An event is kept as a row of 24 bytes. The numbers of names, the kinds of arms, the requests of operations, what
//! was begun and the replies lie in a few vectors, one behind another, and a row says where its own parts lie there.
//! Contracts see the events alone.
#![tactic(auto)]

mod answers;
mod arenas;
mod history;
mod names;
mod plain;
mod steps;

pub use history::PackedHistory;
