//! What an action sees of a run: the granted operations that are visible to it, each at its place in the serial
//! order. And whether a run is gathered from histories.
//!
//! `explain` goes over a history once for its endings, and once for its operations, which an ordered map puts into
//! their places. To find whether the action is an orphan, it goes over the history once more for each ancestor, and
//! for each action of its tree that it sees. `gather` makes the events of histories as steps, by stamp.
#![tactic(auto)]

mod actions;
mod copies;
mod endings;
mod explained;
mod gathering;
mod homes;
mod laws;
mod leaving;
mod orphans;
mod place;
mod same;
mod steps;
mod text;

pub use explained::{Explained, Performed, explain};
pub use gathering::{Gathered, gather};
pub use laws::{gathered_runs_are_served, runs_are_gathered};
pub use leaving::trace_of;
pub use place::{ClosingStep, Place};
