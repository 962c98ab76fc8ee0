//! Scripts, read from their JSON and checked.
//!
//! One walk goes over the document in its order and builds the checked script on its way; it ends at the first fault.
#![tactic(auto)]

mod documents;
mod endings;
mod reader;
mod recursion;
mod signatures;
mod statements;

pub use reader::{Script, check, read};
pub use script_model::{Checked, FaultKind, Pointer, ScriptFault};
