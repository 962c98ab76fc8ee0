//! One atomic object of a guardian: its versions, what is added beside them, and its locks.
//!
//! Contracts say of every way in which the object may stand (`Shows`, in `object_laws`) how it stands after a call,
//! and that what it answers is what the definitions answer.
#![tactic(auto)]

mod object;
mod operating;
mod restoring;
mod staying;
mod telling;

pub use object::Object;
