//! The locks on one object: who holds operations of which class, and who has to wait for whom.
//!
//! Holders are found by their names, so that an action and its descendants stand next to each other.
#![tactic(auto)]

mod of_class;
mod table;

pub use table::LockTable;
