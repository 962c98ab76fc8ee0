//! What a guardian knows of aborts and crashes, and how much of that it had from whom.
//!
//! The guardians above keep one `Lists` each, and use that after each call the lists are those of the guardian's
//! history with that event in front (`AreLists`), and that each answer is the definition of `run_model` at every
//! history whose lists they are.
#![tactic(auto)]

mod counts;
mod lesson;
mod lists;
mod log;
mod sent;

pub use lesson::{Lesson, News};
pub use lists::Lists;
