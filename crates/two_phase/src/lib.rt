//! The ballot of a top action: which guardians voted on it, and whether all on which it depends voted yes.
#![tactic(auto)]

mod ballot;

pub use ballot::{Ballot, VotePlan};
