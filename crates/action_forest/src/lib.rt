//! The forest of actions: of each action that was begun, where it is at home, who made it, on which guardians it
//! depends, how it stands, and how many of the things that it made have not ended.
//!
//! An action is found by the numbers of its name, from its top action down. What happened comes in two calls where it
//! needs room: a plan, which makes all that the change needs and may lack memory, and the change, which cannot fail.
//! The room above relies on one fact, `IsForest` of specs/Forests.antt: a forest says what a registry's history says
//! of actions. Each change leads from it, at the history so far, to it at the history with one more event, and each
//! reading is the definition's function at every history of which it holds.
#![tactic(auto)]

mod forest;
mod walk;

pub use forest::{Begun, Commitment, Forest};
pub use walk::Hearer;
