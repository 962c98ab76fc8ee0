//! Guardians under locks of their own: a service calls one `Runtime` from all its threads.
//!
//! A step locks the guardians that it names, in rising number, and the registry last. Each answer is that of the
//! definitions at a run, and all threads make one run (`locked_run`). `op_wait` waits until an operation is granted.
#![tactic(auto)]

mod answered;
mod behind;
mod fault;
mod gate;
mod patience;
mod place;
mod runtime;
mod waiting;

pub use answered::Answered;
pub use fault::StepFault;
pub use gate::{Gate, OpenGate};
pub use locked_run::{
    CloseFault, Ended, Ends, Known, OfRun, Receipt, Receipts, Seen, Start, StoredHistory,
};
pub use patience::{Endless, Patience};
pub use runtime::Runtime;
