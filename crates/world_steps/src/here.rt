//! An operation, which one guardian answers by itself.
ghost use Rattle.std.specs.Prelude.{◌≡◌, IfOk};
ghost use Rattle.run_model.specs.LocalReadings.{operation_here};
ghost use Rattle.layer_contracts.specs.Guardians.{GuardianState};
ghost use Rattle.world_steps.specs.Lending.{IsSaidHere};

use action_names::Name;
use layer_contracts::Guardian;
use run_model::{Answer, ObjectId, Op, Opening};
use std::alloc::AllocError;
use step_answers::{ReadsAction, Worker, operation_of};

/// What an operation reads of one guardian: the actions on its roster, and its objects.
#[derive(Drop)]
pub struct Here<'a, G> {
    pub guardian: &'a G,
}

impl<'a, G: Guardian> ReadsAction for Here<'a, G> {
    ghost says = { λ x. IsSaidHere (G.stands x.guardian.now) };

    fn opening(&self) -> &Opening {
        self.guardian.opening()
    }

    fn worker(&self, action: &Name) -> Option<Worker> {
        if !self.guardian.is_there(action) {
            return None;
        }
        Some(Worker {
            home: self.guardian.number(),
            done: self.guardian.is_done(action),
            busy: self.guardian.is_busy(action),
        })
    }

    fn is_gone(&self, action: &Name, _home: u32) -> bool {
        self.guardian.is_gone(action)
    }

    fn is_orphan(&self, action: &Name, _home: u32) -> Result<bool, AllocError> {
        self.guardian.is_orphan(action)
    }

    fn operated(
        &self,
        action: &Name,
        object: ObjectId,
        operation: &Op,
    ) -> Result<Answer, AllocError> {
        self.guardian.operated(action, object, operation)
    }
}

/// The answer of an operation of an action on the guardian's roster, by the guardian alone. An action that is not on
/// the roster is no action here: whether there is one elsewhere the forest knows.
pub fn answer_here<G: Guardian>(
    guardian: &G,
    action: &Name,
    object: ObjectId,
    operation: &Op,
) -> Result<Answer, AllocError>
    ensures { (x : GuardianState) → G.stands guardian.now x
        → IfOk result (λ answer. answer
        ≡ operation_here x.opening x.number action.now object operation.now x.past) }
{
    // It stands in some state.
    guardian.opening();
    let here = Here { guardian };
    operation_of(&here, action, object, operation)
}
