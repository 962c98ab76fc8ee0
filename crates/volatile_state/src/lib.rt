//! What one guardian keeps in memory: whatever a step reads off its own history, in parts, without the history.
//!
//! An event comes in two calls. `plan` makes room, and may lack memory. `keep`, `crash` or `operate` then makes all
//! parts those of the history with the event in front; of these `operate` alone can fail, and has changed nothing
//! then. The guardian above uses that what it reads here is what the definitions of `run_model` say of each history
//! of which all parts are.
#![tactic(auto)]

mod keeping;
mod memory;
mod objects;
mod plan;
mod planning;
mod preparing;
mod reading;

pub use memory::Memory;
pub use plan::Plan;
