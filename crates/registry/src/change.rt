//! What an event is to change.

use crate::ballots::Vote;
use action_forest::{Begun, Commitment};
use std::alloc::Global;

/// What an event changes among the actions and the votes, where that takes room. The registry has room for it. Its own
/// room is used again for the next event.
#[derive(Drop)]
pub(crate) struct Change {
    pub(crate) kind: Kind,
    /// The actions that begin.
    pub(crate) begun: Begun,
    /// The commit of a subaction to its parent.
    pub(crate) commitment: Commitment,
}

/// Which of them it is.
#[derive(Clone, Copy)]
pub(crate) enum Kind {
    /// Actions begin.
    Begin,
    /// A subaction commits.
    Commit,
    /// A guardian votes.
    Vote(Vote),
    /// Nothing, or what takes no room.
    Other,
}

impl Change {
    /// That nothing changes. This takes no memory.
    pub(crate) fn new(alloc: Global) -> Change {
        Change {
            kind: Kind::Other,
            begun: Begun::new(alloc),
            commitment: Commitment::new(alloc),
        }
    }
}
