//! On what actions depend of which an event tells that.
ghost use Rattle.std.specs.Prelude.{◌≡◌, ℕ, false};
ghost use Rattle.std.specs.FinMap as map;
ghost use Rattle.std.specs.Option.{option_and_then};
ghost use Rattle.run_model.specs.declared.history.Event.{Event};
ghost use Rattle.run_model.specs.declared.step.Step.TheVariants.{Commit};
ghost use Rattle.run_model.specs.Actions.{begins};
ghost use Rattle.run_model.specs.LocalReadings.{least_of};
ghost use Rattle.layer_contracts.specs.Forests.{ForestState};
ghost use Rattle.layer_contracts.specs.Messages.{known_sent, sent_by};
ghost use Rattle.roster.specs.Steps.{tells_of};

use layer_contracts::{Lineage, Sending};
use run_model::{Deps, Name, Step};

/// What comes of an action that commits.
pub(crate) fn came_of<'l, L: Lineage>(
    lineage: &'l L,
    sending: Sending,
    action: &Name,
) -> Option<&'l Deps>
    ensures { (f : ForestState) (e : Event) → L.is_of lineage.now f
        → e.step ≡ Commit action.now → begins e action.now ≡ false
        → (h : ℕ) → option_and_then (λ depends. map.get depends.now h) result
        ≡ least_of (sent_by f e sending) action.now h }
{
    match sending {
        Sending::OfKnown => lineage.depends(action),
        Sending::Nothing | Sending::OfNew { .. } => None,
    }
}

/// What comes of the action, where the step commits it or prepares it.
pub(crate) fn known_of<'l, L: Lineage>(
    lineage: &'l L,
    step: &Step,
    action: &Name,
) -> Option<&'l Deps>
    ensures { (f : ForestState) → L.is_of lineage.now f
        → (h : ℕ) → option_and_then (λ depends. map.get depends.now h) result
        ≡ least_of (known_sent f step.now) action.now h }
{
    if tells_of(step, action) {
        lineage.depends(action)
    } else {
        None
    }
}

/// Whether the step commits the action or prepares it.
fn tells_of(step: &Step, action: &Name) -> bool
    ensures { result ≡ tells_of step.now action.now }
{
    match step {
        Step::Commit(known) | Step::Prepare(_, known) => known == action,
        _ => false,
    }
}
