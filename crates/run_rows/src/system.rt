//! What the rows of a section work on: guardians over stores that may fail at one call. What is done with them is
//! proved for every type that has these calls, so that nothing of runs is looked at there.
use rows::RowFault;
use run_model::{Answer, Content, ObjectId, Setup, Step};
use stable_store::Kept;
use std::alloc::{AllocError, Global};
use world::Fault;

/// Guardians over their stores.
pub(crate) trait System: Drop {
    /// Opens the guardians of the setup over stores that hold this. If that is refused, it says why, and opens the
    /// stores that came back once more.
    fn open(
        alloc: Global,
        setup: &Setup,
        left: &[Kept],
        failing: Failing,
        said: &mut String,
    ) -> Result<Self, Unopened>;

    /// Makes one step.
    fn make(&mut self, step: &Step) -> Result<Answer, Fault>;

    /// How many steps were accepted.
    fn events(&self) -> usize;

    /// The base of an object; `Unread` if there is none.
    fn content(&self, object: ObjectId) -> Result<Content, RowFault>;

    /// What the guardian's store holds.
    fn kept(&self, guardian: u32) -> Option<&Kept>;

    /// How many failures the guardian's store has counted.
    fn failures(&self, guardian: u32) -> Option<u64>;
}

/// Why no guardians were opened.
#[derive(Drop)]
pub(crate) enum Unopened {
    /// The row has no answer.
    Row(RowFault),
    /// It was refused twice; what the stores hold that came back.
    Stores(Vec<Kept>),
}

impl From<RowFault> for Unopened {
    fn from(fault: RowFault) -> Unopened {
        Unopened::Row(fault)
    }
}

impl From<AllocError> for Unopened {
    fn from(refused: AllocError) -> Unopened {
        Unopened::Row(RowFault::from(refused))
    }
}

/// The call of a guardian's store that fails. Calls are counted from 1; with 0 none fails.
#[derive(Clone, Copy, Drop)]
pub(crate) struct Failing {
    pub(crate) guardian: u32,
    pub(crate) call: u64,
}

impl Failing {
    /// No call fails.
    pub(crate) fn never() -> Failing {
        Failing {
            guardian: 0,
            call: 0,
        }
    }

    /// The call that fails of the store at this place, from 0.
    pub(crate) fn call_at(self, place: usize) -> u64 {
        match (self.guardian as usize).checked_sub(1) {
            Some(failing) if failing == place => self.call,
            _ => 0,
        }
    }
}
