//! What a step is answered by what it is lent.
ghost use Rattle.std.specs.Prelude.{◌≡◌, IfOk};
ghost use Rattle.run_model.specs.LocalHistories.{answer_lent};
ghost use Rattle.layer_contracts.specs.Forests.{ForestState};
ghost use Rattle.layer_contracts.specs.Guardians.{GuardianState, lent_two};
ghost use Rattle.world_steps.specs.Lending.{AreLent, IsTellable, nobody};

use crate::alone::Alone;
use crate::lent::Lent;
use layer_contracts::{Forest, Guardian};
use run_model::{Answer, Step};
use std::alloc::{AllocError, Global};
use step_answers::answer_of;

/// The answer of a step that is lent the forest and these guardians, which may be one twice, all in one opening. A
/// guardian that is not lent reads as one to which nothing has happened. So it is by whatever states these stand in,
/// where that of the forest bears out what the step tells.
pub fn answer_two<R: Forest, G: Guardian>(
    alloc: Global,
    forest: &R,
    first: &G,
    second: &G,
    step: &Step,
) -> Result<Answer, AllocError>
    requires { (f : ForestState) × (a : GuardianState) × (b : GuardianState)
        × AreLent (R.stands forest.now) (G.stands first.now) (G.stands second.now) f a b }
    ensures { (f : ForestState) (a b : GuardianState)
        → AreLent (R.stands forest.now) (G.stands first.now) (G.stands second.now) f a b
        → IsTellable f a b step.now → IfOk result
        (λ answer. answer ≡ answer_lent f.opening f.registry (lent_two a b) step.now) }
{
    let lent = Lent {
        alloc,
        forest,
        first,
        second,
    };
    answer_of(&lent, step)
}

/// The answer of a step that is lent the forest alone.
pub fn answer_alone<R: Forest>(alloc: Global, forest: &R, step: &Step) -> Result<Answer, AllocError>
    ensures { (f : ForestState) → R.stands forest.now f
        → IfOk result (λ answer. answer ≡ answer_lent f.opening f.registry nobody step.now) }
{
    // It stands in some state.
    forest.opening();
    let alone = Alone { alloc, forest };
    answer_of(&alone, step)
}
