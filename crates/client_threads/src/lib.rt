//! Runs the clients of a checked script, and the arms of their `coenter`s, each in a thread of its own, over a runtime.
//!
//! A thread makes steps by a `Caller`, which keeps the receipts of its events. Arms go to a thread that starts one for
//! each.
#![tactic(auto)]

mod caller;
mod calls;
mod clients;
mod coenter;
mod handed;
mod laws;
mod starting;
mod watch;

pub use clients::run_clients;
pub use laws::ends_are_so;
pub use watch::Watch;
