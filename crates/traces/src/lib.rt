//! The trace file: a setup line, and a line for each event of the registry's history and of each
//! guardian's. It is read line by line, and written.
#![tactic(auto)]

mod laws;
mod line;
mod reader;
mod stamped;
mod trace;

pub use laws::{no_fault_in_a_trace, one_fault, one_trace};
pub use line::{Line, append_line};
pub use reader::TraceReader;
pub use stamped::Stamped;
pub use trace::{Trace, TraceFault, trace_text};
