//! What a history says of actions.
ghost use Rattle.std.specs.Prelude.{◌≡◌, IfOk};
ghost use Rattle.action_names.specs.Names.{ancestors};
ghost use Rattle.run_model.specs.Actions.{begins, is_begun, is_aborted};

use crate::steps;
use run_model::{Event, History, Name, Names};
use std::alloc::{AllocError, Global};

/// Whether the event begins the action.
pub fn begins(event: &Event, action: &Name) -> bool
    ensures { result ≡ begins event.now action.now }
{
    steps::begins(&event.answer, action.components())
}

/// Whether the action was begun.
pub fn is_begun(history: &History, action: &Name) -> bool
    ensures { result ≡ is_begun action.now history.now }
{
    history
        .events()
        .iter()
        .rev()
        .any(|event| begins(event, action))
}

/// Whether the action has aborted.
pub fn is_aborted(history: &History, action: &Name) -> bool
    ensures { result ≡ is_aborted action.now history.now }
{
    history
        .events()
        .iter()
        .rev()
        .any(|event| steps::aborts(&event.step, action))
}

/// All ancestors of the action, outermost first.
pub fn ancestors(alloc: Global, action: &Name) -> Result<Names, AllocError>
    ensures { IfOk result (λ names. names ≡ ancestors action.now) }
{
    let mut names = Vec::new(alloc);
    let mut next = Some(action.copy()?);
    while let Some(name) = next {
        next = name.parent()?;
        names.push(name)?;
    }
    names.reverse();
    Ok(Names::from_vec(names))
}
