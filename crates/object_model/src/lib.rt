//! What contracts say of one object: the stack of its versions, the deltas beside it, its locks, and what a call
//! makes of each.
//!
//! The crates that keep these parts stand on it, and the laws that tie them to the definitions of histories.
#![tactic(auto)]
