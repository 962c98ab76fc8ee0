//! What refusals ask of an action that was begun.
ghost use Rattle.std.specs.Prelude.{◌≡◌};
ghost use Rattle.step_answers.specs.Actors.{has_ended, is_closed, worker_of};

/// How an action stands that was begun. A top action that is closed stands so until it ends.
#[derive(Clone, Copy, Debug, PartialEq, Eq)]
pub enum Status {
    Active,
    Closed,
    Committed,
    Aborted,
}

/// How an action stands that was begun, as far as steps ask. One look-up finds all of it.
#[derive(Clone, Copy, Debug, PartialEq, Eq)]
pub struct Actor {
    pub home: u32,
    pub status: Status,
    /// Whether something that it made has not ended.
    pub busy: bool,
}

/// The same, as far as what the action does by itself asks.
#[derive(Clone, Copy, Debug, PartialEq, Eq)]
pub struct Worker {
    pub home: u32,
    /// Whether it has ended or is closed.
    pub done: bool,
    /// Whether something that it made has not ended.
    pub busy: bool,
}

impl Status {
    /// Whether the action has committed or aborted.
    pub fn has_ended(self) -> bool
        ensures { result ≡ has_ended self }
    {
        matches!(self, Status::Committed | Status::Aborted)
    }

    /// Whether the action is closed and has not ended.
    pub fn is_closed(self) -> bool
        ensures { result ≡ is_closed self }
    {
        matches!(self, Status::Closed)
    }
}

impl Actor {
    /// What is asked of it where it does something by itself.
    pub fn worker(self) -> Worker
        ensures { result ≡ worker_of self }
    {
        Worker {
            home: self.home,
            done: self.status.has_ended() || self.status.is_closed(),
            busy: self.busy,
        }
    }
}
