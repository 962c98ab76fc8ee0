//! Steps of guardians and the registry under locks of their own: all threads make one run.
//!
//! Each locked value keeps its part of that run, which has no bytes. So a step is answered as the
//! definitions answer it at a run, and what every thread does is one list of steps.
#![tactic(auto)]

mod acting;
mod beginning;
mod closing;
mod gathering;
mod held;
mod keeping;
mod laws;
mod naming;
mod own;
mod receipts;
mod recording;
mod shared;
mod stepping;
mod stored;

pub use acting::{act_guardian, act_one, act_registry, act_two};
pub use beginning::{Start, begin};
pub use closing::{CloseFault, Ended, Ends, close_all};
pub use held::{Held, HeldRegistry};
pub use laws::stamps_rise;
pub use receipts::{Known, Receipts};
pub use shared::{Answered, Deed, Drawing, OfRun, Receipt, Seen, Shared};
pub use stored::StoredHistory;
