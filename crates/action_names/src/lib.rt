//! Names of actions, and the dependencies of actions on guardians.
//!
//! A name is its list of numbers, and nothing else is known of it above: contracts of the other crates speak of
//! that list, and of ancestors as prefixes.
#![tactic(auto)]

mod deps;
mod name;
mod names;
mod numbers;

pub use deps::Deps;
pub use name::{MAX_DEPTH, Name, NameFault, number_at_front};
pub use names::Names;
