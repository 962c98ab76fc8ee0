//! How a top action commits by two phases, whoever makes the steps.
#![tactic(auto)]

mod two_phases;

pub use two_phases::{CommitSteps, commit_by_two_phases};
