//! A guardian: what it keeps in memory, and its stable store. Both are of one history.
//!
//! What an event asks the store to keep is written there first, by one call that makes its whole change or none. Then
//! the event gets its stamp, and the memory takes it over, which cannot fail. The steps above use that a guardian
//! keeps to `layer_contracts::Guardian`, and the system that is opened again what a stop within a call leaves of the
//! store.
#![tactic(auto)]

mod carrying;
mod guardian;
mod records;
mod writes;

pub use guardian::Guardian;
