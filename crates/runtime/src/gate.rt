//! What each step passes inside the lock of the first guardian that it names.

use run_model::{Name, Step};

/// What a step passes inside the lock of the first guardian that it names, before it is answered. A service counts or
/// holds steps there. A gate must not make steps of the same runtime.
pub trait Gate: Drop {
    /// A step that this action makes, if it has a maker, has locked the guardian of this number.
    fn pass(&self, guardian: u32, action: Option<&Name>);
}

/// A gate that holds nothing up.
#[derive(Drop)]
pub struct OpenGate;

impl Gate for OpenGate {
    fn pass(&self, _guardian: u32, _action: Option<&Name>) {}
}

/// The action that makes the step, or of which it tells.
pub(crate) fn action_of(step: &Step) -> Option<&Name> {
    match step {
        Step::Top(_) | Step::Crash(_) | Step::Recover(_) => None,
        Step::NestedTop(action)
        | Step::Call(action, _)
        | Step::Arms(action, _)
        | Step::Op(action, _, _)
        | Step::Commit(action)
        | Step::Close(action)
        | Step::Prepare(_, action)
        | Step::Decide(action)
        | Step::Abort(action)
        | Step::Tell(_, action) => Some(action),
    }
}
