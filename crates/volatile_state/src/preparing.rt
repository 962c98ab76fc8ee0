//! What a yes vote writes to the stable store.
ghost use Rattle.std.specs.Prelude.{◌≡◌, ◌∷◌, IfOk, IsTrue};
ghost use Rattle.run_model.specs.LocalReadings.{standing_here};
ghost use Rattle.run_model.specs.StableContent.{parts_by};
ghost use Rattle.run_model.specs.Visibility.{votes_yes};
ghost use Rattle.layer_contracts.specs.Guardians.{GuardianState, News, stamped};
ghost use Rattle.volatile_state.specs.Memories.{IsSound};
ghost use Rattle.volatile_state.specs.Plans.{IsPlanOf};

use crate::memory::Memory;
use crate::plan::Plan;
use atomic_types::Part;
use run_model::Name;
use std::alloc::AllocError;
use std::collections::BTreeMap;

impl Memory {
    /// What the top action will hold once the guardian has kept its yes vote on it, by the number of the object. It
    /// is read before anything changes. Fails only if memory runs out.
    pub fn parts(&self, top: &Name, plan: &Plan) -> Result<BTreeMap<u32, Part>, AllocError>
        requires { (s : GuardianState) × (news : News) × IsSound self.now s
            × IsPlanOf plan.now self.now s news }
        ensures { (s : GuardianState) (news : News) → IsSound self.now s
            → IsPlanOf plan.now self.now s news
            → IsTrue (votes_yes news.event.step news.event.answer s.number top.now)
            → IfOk result (λ parts. parts.entries ≡ parts_by s.opening s.number
            (λ x. standing_here (stamped 0 news ∷ s.past) x) top.now) }
    {
        if self.told.is_committed(&self.places, top) {
            // What was told committed holds nothing.
            return Ok(BTreeMap::new(self.alloc));
        }
        self.objects.parts_once_told(top, plan.outcomes())
    }
}
