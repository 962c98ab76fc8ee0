//! The variables of a running script, and what its expressions, conditions and operations come to by them.
//!
//! `Frames` holds the variables: contracts see a `Bound`, and each call gives just what the definitions in `specs/`
//! say of it. How many variables are bound afterwards follows from those definitions (`proofs/Counting.antt`), which
//! the crate above cites.
#![tactic(auto)]

mod evaluating;
mod frames;
mod operating;

pub use frames::{Frames, Sizes};
