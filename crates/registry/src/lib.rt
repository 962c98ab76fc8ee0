//! The registry of a world: its actions and the votes on its top actions, as the registry's history says of them.
//!
//! `Registry` keeps to the trait `Forest` of `layer_contracts`: its readings are those of the events that begin,
//! close or end actions, and of the votes. It keeps none of these. An event comes in two calls: `plan` makes all room
//! and copies and may lack memory, `install` then carries the plan out beside the event and cannot fail.
#![tactic(auto)]

mod actions;
mod ballots;
mod change;
mod hearing;
mod registry;

pub use registry::Registry;
