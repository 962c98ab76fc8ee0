//! The parts of which the bodies of scripts are made, read from their JSON: contents of objects,
//! expressions, operations.
//!
//! Each call reads one part at its place, and answers what the definitions of `script_model` say:
//! the part, or its first fault.
#![tactic(auto)]

pub mod contents;
pub mod expressions;
pub mod names;
pub mod operations;
mod place;
mod scope;
pub mod shapes;

pub use place::Place;
pub use scope::{Scope, Variable};
