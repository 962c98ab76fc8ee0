//! What one event does.
ghost use Rattle.std.specs.Prelude.{◌≡◌};
ghost use Rattle.action_names.specs.Names.{same_name, has_name};
ghost use Rattle.run_model.specs.Actions.{names_begun, step_aborts, step_crashes};
ghost use Rattle.run_model.specs.LocalHistories.{takes_registry};

use run_model::{Answer, Name, Step};

/// Whether the name is this path.
pub fn is_path(name: &Name, path: &[u32]) -> bool
    ensures { result ≡ same_name name.now path.now }
{
    name.components() == path
}

/// Whether the answer begins the action with this path.
pub(crate) fn begins(answer: &Answer, path: &[u32]) -> bool
    ensures { result ≡ has_name (names_begun answer.now) path.now }
{
    answer.names_begun().iter().any(|name| is_path(name, path))
}

/// Whether the step aborts the action.
pub(crate) fn aborts(step: &Step, action: &Name) -> bool
    ensures { result ≡ step_aborts step.now action.now }
{
    match step {
        Step::Abort(name) => name == action,
        _ => false,
    }
}

/// Whether the step is a crash of the guardian.
pub fn crashes(step: &Step, guardian: u32) -> bool
    ensures { result ≡ step_crashes step.now guardian }
{
    match step {
        Step::Crash(at) => *at == guardian,
        _ => false,
    }
}

/// Whether the step reads or changes the forest of actions.
pub(crate) fn takes_registry(step: &Step) -> bool
    ensures { result ≡ takes_registry step.now }
{
    !matches!(step, Step::Op(..) | Step::Crash(_) | Step::Recover(_))
}
