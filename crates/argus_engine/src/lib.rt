//! The engine of the program: it reads steps, a line each, makes them in a world, and writes the line of each answer;
//! and it says of a script whether it is one. Runs of scripts stand in `script_engine`, which writes by `finish` and
//! ends as is said here.
//!
//! What it writes is the answer text that belongs to what it reads. Of steps it keeps one line and one buffer of
//! answers at a time, beside the world.
#![tactic(auto)]

mod checking;
mod engine;
mod explaining;
mod reading;
mod tracing;
mod writing;

pub use checking::{check_script, read_script};
pub use engine::{Ended, Fault, steps};
pub use explaining::explain_text;
pub use tracing::{one_verdict, trace_file};
pub use writing::finish;
