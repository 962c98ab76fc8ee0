//! What opens the stores of one system, new ones or those that a stop left.
//!
//! A record that is left is installed where the store of its home has decided, and else discarded. Of one store alone
//! it says whether its content may be that of a guardian of the setup (`belongs`).
#![tactic(auto)]

mod beginning;
mod calls;
mod checking;
mod opening;
mod refused;
mod settling;
mod types;

pub use beginning::begin_stores;
pub use checking::belongs;
pub use opening::{held_by, open_stores};
pub use refused::Refused;
pub use settling::settle;
