//! The world of guardians over stable stores: it is given steps, one after another, and answers each as the
//! definitions say.
//!
//! Its guardians know their own histories alone, and reach their stores by the trait `Stable`; what a step leaves of
//! each store is said with its answer. `world_steps` makes a step of them.
#![tactic(auto)]

mod beginning;
mod reopening;
mod world;

pub use guardian::Guardian;
pub use layer_contracts::Fault;
pub use packed_history::PackedHistory;
pub use registry::Registry;
pub use run_model::{Answer, Event, Held, History, Opening, Part, Setup, Step};
pub use stable_store::{PlainStable, Stable};
pub use store_recovery::Refused;
pub use world::World;
