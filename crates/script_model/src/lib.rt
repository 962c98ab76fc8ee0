//! What a script is once it was checked, and the definitions of how a document is read as one.
//!
//! In a checked script no name is left: handlers, objects and variables are numbers, and what an expression gives is
//! known from its type. The definitions stand in `specs/`.
#![tactic(auto)]

mod checked;
mod copying;
mod expression;
mod fault;
mod laws;
mod names;
mod statement;

pub use atomic_types::{Arguments, Form, OpName};
pub use checked::{Checked, Client, Handler};
pub use copying::body_copy;
pub use expression::{Condition, Expr, IntExpr, TextExpr};
pub use fault::{FaultKind, Pointer, ScriptFault};
pub use laws::{reading_keeps_limits, reading_resolves};
pub use names::{Gives, Sort};
pub use statement::{Arm, Binding, HandlerCall, ObjectCall, Operation, Statement};
