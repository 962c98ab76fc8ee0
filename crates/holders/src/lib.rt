//! Holders by name: what each holds, and room for more of them.
//!
//! A name may have room and hold nothing. So memory for a holder is taken before something is given to it, and the
//! giving cannot fail.
#![tactic(auto)]

pub mod by_name;
mod few;
mod holders;
mod index;
mod survivors;
mod trees;

pub use holders::{HolderRows, Holders};
pub use index::Index;
pub use survivors::Survivors;
pub use trees::remove_below;
