//! The guardian, and what is asked of it beside what steps ask.
ghost use Rattle.std.specs.Prelude.{◌≡◌, ◌≤◌, [], true, IfOk, IfErr, IfSome, IsNone, length};
ghost use Rattle.std.specs.Arc.{arc_value};
ghost use Rattle.run_model.specs.Openings.{first_content, objects_at, opening_in};
ghost use Rattle.run_model.specs.LocalReadings.{standing_here};
ghost use Rattle.run_model.specs.Versions.{base_by};
ghost use Rattle.stable_store.specs.Calls.{Rests};
ghost use Rattle.layer_contracts.specs.Guardians.{GuardianState};
ghost use Rattle.volatile_state.specs.Memories.{IsSound, own_object};
ghost use Rattle.guardian.specs.Guardians.{IsSettled, IsWhole};

use run_model::{Content, Opening};
use stable_store::Stable;
use std::alloc::{AllocError, Global};
use std::marker::Model;
use std::sync::Arc;
use version_stack::View;
use volatile_state::{Memory, Plan};

/// A guardian over a stable store.
#[derive(Drop)]
pub struct Guardian<S: Stable> {
    pub(crate) alloc: Global,
    pub(crate) memory: Memory,
    /// Of the event that was planned last, in place, so that its room is used again.
    pub(crate) plan: Plan,
    pub(crate) store: S,
}

impl<S: Stable> Model for Guardian<S> {
    ghost use Rattle.std.specs.Coded.{codes};
    ghost use Rattle.tellings.specs.contracts.tellings.Tellings as of_tellings;
    ghost use Rattle.orphans.specs.contracts.lists.Lists as of_lists;
    ghost use Rattle.roster.specs.contracts.roster.Roster as of_roster;
    ghost use Rattle.volatile_state.specs.contracts.plan.Plan as of_plan;
    ghost use Rattle.guardian.specs.Guardians.{InParts, IsWholeOfSome};

    ghost Value = { InParts S };

    ghost coded = { Prim.hlevel
        (codes, of_tellings.the_row.coded, of_lists.the_row.coded, of_roster.the_row.coded, of_plan.the_row.coded) };

    ghost view = { λ a. record { memory = a.memory; plan = a.plan; store = a.store } };

    ghost invariant = { λ a.
        IsWholeOfSome S.seen (record { memory = a.memory; plan = a.plan; store = a.store }) };
}

impl<S: Stable> Guardian<S> {
    /// The guardian of this number, to which nothing has happened since the opening. Its store holds what the opening
    /// says that it held, and nothing is prepared there. Fails only if memory runs out, and then gives the store
    /// back.
    pub fn new(
        alloc: Global,
        opening: Arc<Opening, Global>,
        number: u32,
        store: S,
    ) -> Result<Guardian<S>, (AllocError, S)>
        requires number { 1 ≤ number }
        requires found { (S.seen store).holds_content ≡ true }
        requires rests { Rests (S.seen store) }
        requires settled { IsSettled (opening_in (arc_value opening)) number
            (S.seen store).content }
        ensures state { IfOk result (λ guardian. IsWhole S.seen guardian
            (record { opening = opening_in (arc_value opening); number = number; past = [] })) }
        ensures store { IfOk result (λ guardian. guardian.store ≡ store) }
        ensures back { IfErr result (λ refused. refused.1 ≡ store) }
    {
        match Memory::new(alloc, opening, number) {
            Ok(memory) => Ok(Guardian::over(alloc, memory, store)),
            Err(refused) => Err((refused, store)),
        }
    }

    /// The same, where the memory of the guardian is there. This takes no memory.
    pub fn over(alloc: Global, memory: Memory, store: S) -> Guardian<S>
        requires first { (s : GuardianState) × IsSound memory s × (s.past ≡ [])
            × IsSettled s.opening s.number (S.seen store).content }
        requires found { (S.seen store).holds_content ≡ true }
        requires rests { Rests (S.seen store) }
        ensures state { (s : GuardianState) → IsSound memory s → s.past ≡ []
            → IsSettled s.opening s.number (S.seen store).content → IsWhole S.seen result s }
        ensures store { result.store ≡ store }
    {
        Guardian {
            alloc,
            memory,
            plan: Plan::new(alloc),
            store,
        }
    }

    /// The store.
    pub fn store(&self) -> &S
        ensures { result.now ≡ self.now.store }
    {
        &self.store
    }

    /// What belongs to the base of the object of this number; none where there is no such object. This takes no memory.
    pub fn base(&self, number: u32) -> Option<View<'_, Content>>
        ensures base { (s : GuardianState) → IsWhole S.seen self.now s → IfSome result (λ base. base
            ≡ base_by (first_content s.opening (own_object s number))
            (standing_here s.past (own_object s number))) }
        ensures none { (s : GuardianState) → IsWhole S.seen self.now s → IsNone result
            → (1 ≤ number) → (number ≤ length (objects_at s.opening.setup s.number)) → ⊥ }
    {
        self.memory.base(number)
    }
}
