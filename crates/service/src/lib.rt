//! Steps as a service calls them: each by a method that gives what the step is for.
//!
//! A step that is refused, or whose operation waits, is an error here, and so is a fault.
#![tactic(auto)]

ghost use Rattle.service.specs.Transacting.{GoesByItself};

mod answered;
mod arms;
mod fault;
mod nested;
mod operations;
mod outcome;
mod place;
mod retrying;
mod service;
mod subactions;
mod together;
mod top;
mod transacting;
mod transacting_together;
mod transaction;
mod two_phases;

pub use arms::{Arm, RunsArms};
pub use fault::CallFault;
pub use operations::{change, get, is, set, value_of};
pub use outcome::{Cause, Outcome, Transacted};
pub use retrying::{MayPass, Obstacle, Retries};
pub use service::Service;
pub use transaction::{Begun, Transaction, Work};

/// The steps of a caller that is alone make its events a history.
pub fn goes_by_itself()
    ensures { GoesByItself }
{}
