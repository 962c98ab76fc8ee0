//! The limits that setups, scripts and steps have in common, so that a script that is checked can be run.
#![tactic(auto)]

/// How many guardians there are at most.
pub const MAX_GUARDIANS: usize = 1024;

/// How many objects a guardian has at most.
pub const MAX_OBJECTS: usize = 1024;

/// How many arms are begun at once at most.
pub const MAX_ARMS: usize = 64;
