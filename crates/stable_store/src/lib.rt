//! Stable stores: what a guardian keeps through a crash.
//!
//! `Stable` says what each call makes of a store's content, what it counts, and what a stop in its midst may leave.
//! `PlainStable` keeps the content in memory; `FailOnce` makes one call of another store fail.
#![tactic(auto)]

mod fail_once;
mod fault;
mod kept;
pub mod laid;
pub mod numbers;
mod plain;
mod stable;

pub use fail_once::FailOnce;
pub use fault::StoreFault;
pub use kept::{Kept, Prepared};
pub use plain::PlainStable;
pub use stable::{GREATEST_COUNT, Stable};
