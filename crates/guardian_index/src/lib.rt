//! At which objects holders hold something, by the names of the holders.
//!
//! A guardian keeps this beside its objects, and so reaches at an action's end just the objects that the end
//! concerns, and at a crash just those at which somebody holds something. Who holds what at an object is the object's
//! own to say; here stands only where to look.
#![tactic(auto)]

mod few;
mod holding;
mod objects;
mod rising;
mod trees;

pub use holding::Holding;
pub use objects::{HeldObjects, HeldRows};
