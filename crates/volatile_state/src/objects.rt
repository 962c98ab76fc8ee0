//! What is asked of the guardian's objects.
ghost use Rattle.std.specs.Prelude.{◌≡◌, ◌≤◌, IfOk, IfSome, IsNone, length};
ghost use Rattle.run_model.specs.Answers.{operated_by};
ghost use Rattle.run_model.specs.Openings.{first_content, objects_at};
ghost use Rattle.run_model.specs.LocalReadings.{standing_here};
ghost use Rattle.run_model.specs.Versions.{base_by};
ghost use Rattle.layer_contracts.specs.Guardians.{GuardianState, MayAsk, count_told};
ghost use Rattle.volatile_state.specs.Memories.{IsSound, own_object};

use crate::memory::Memory;
use run_model::{Answer, Content, Name, ObjectId, Op};
use std::alloc::AllocError;
use version_stack::View;

impl Memory {
    /// How many of the objects a telling of this outcome changes. It looks at those alone. Fails only if memory runs
    /// out.
    pub fn told_count(&self, action: &Name, committed: bool) -> Result<u64, AllocError>
        ensures { (s : GuardianState) → IsSound self.now s
            → IfOk result (λ count. count ≡ count_told s action.now committed) }
    {
        if self.told.is_committed(&self.places, action) {
            // What was told committed holds nothing.
            return Ok(0);
        }
        self.objects.told_count(action, committed)
    }

    /// What an operation that nothing refuses is answered: the reply, or for whom it waits. Nothing is changed. Fails
    /// only if memory runs out.
    pub fn operated(
        &self,
        action: &Name,
        object: ObjectId,
        operation: &Op,
    ) -> Result<Answer, AllocError>
        requires asked { (s : GuardianState) × IsSound self.now s × MayAsk s object operation.now }
        ensures { (s : GuardianState) → IsSound self.now s → IfOk result (λ answer. answer
            ≡ operated_by (first_content s.opening object) (standing_here s.past object)
            action.now operation.now) }
    {
        self.objects.answer(action, object.number, operation)
    }

    /// What belongs to the base of the object of this number; none where there is no such object. This takes no memory.
    pub fn base(&self, number: u32) -> Option<View<'_, Content>>
        ensures base { (s : GuardianState) → IsSound self.now s → IfSome result (λ base. base
            ≡ base_by (first_content s.opening (own_object s number))
            (standing_here s.past (own_object s number))) }
        ensures none { (s : GuardianState) → IsSound self.now s → IsNone result → (1 ≤ number)
            → (number ≤ length (objects_at s.opening.setup s.number)) → ⊥ }
    {
        self.objects.base(number)
    }
}
