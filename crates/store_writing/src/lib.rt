//! What the calls of a store write to its tables in a SQL database.
//!
//! Each call of `statements` is one transaction. It leaves the content that `stable_store` says,
//! or, at an error, the one that it found.
#![tactic(auto)]

pub mod faults;
mod installing;
pub mod parameters;
mod preparing;
pub mod statements;
mod steps;
mod waiting;
