//! Which outcomes a guardian was told, and who holds what an action did.
//!
//! The guardian above keeps one `Tellings`, and uses that after each event they are those of its history with that
//! event in front (`AreTold`), and that each answer is the definition of `run_model` at every history whose tellings
//! they are.
#![tactic(auto)]

mod tellings;

pub use tellings::{Heard, Tellings};
