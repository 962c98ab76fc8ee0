//! The objects of one guardian, with an index of who holds something at which.
//!
//! Contracts speak of every history of the guardian's own whose objects these are (`AreObjects`): after a call they
//! are those of the history with the event in front. So an end of an action goes to the objects that it concerns, and
//! to no other.
#![tactic(auto)]

mod crashing;
mod objects;
mod outcomes;
mod preparing;
mod restoring;

pub use objects::Objects;
pub use outcomes::Planned;
