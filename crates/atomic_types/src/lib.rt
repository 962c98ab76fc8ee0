//! Atomic types: what operations do to objects, and which of them conflict.
//!
//! A type brings its operations and the laws of `AtomicType`; all that is proved of runs rests on these laws and on
//! nothing else about a type.
#![tactic(auto)]

mod array;
mod atomic;
mod counter;
mod laws;
mod object;
mod op;
mod operation;
mod part;
mod record;
mod variant;

pub use atomic::AtomicType;
pub use laws::object_laws;
pub use op::{Class, Reply, Signal};
pub use operation::{Arguments, Form, Op, OpName, Operation};
pub use part::Part;
