//! What is asked of the memory.
ghost use Rattle.std.specs.Prelude.{◌≡◌, IfOk, IsTrue};
ghost use Rattle.run_model.specs.Actions.{crashes, is_busy, is_done, is_down, is_gone};
ghost use Rattle.run_model.specs.Openings.{opening_in};
ghost use Rattle.run_model.specs.LocalReadings.{events_here, is_at_home, is_orphan_here, told_here, unsent_aborts, unsent_counts};
ghost use Rattle.layer_contracts.specs.Guardians.{GuardianState};
ghost use Rattle.volatile_state.specs.Memories.{IsSound};

use crate::memory::Memory;
use run_model::{Deps, Name, Names, Opening};
use std::alloc::AllocError;

impl Memory {
    pub fn opening(&self) -> &Opening
        ensures opening { (s : GuardianState) → IsSound self.now s
            → opening_in result.now ≡ s.opening }
        ensures some { (s : GuardianState) × IsSound self.now s }
    {
        &self.opening
    }

    pub fn number(&self) -> u32
        ensures { result ≡ self.now.number }
    {
        self.number
    }

    /// Whether the action is on the roster: it was begun, and is at home here. This takes no memory, and so do the
    /// readings below but for those that give a `Result`.
    pub fn is_there(&self, action: &Name) -> bool
        ensures { (s : GuardianState) → IsSound self.now s
            → result ≡ is_at_home s.number action.now s.past }
    {
        self.roster.is_there(&self.places, action)
    }

    /// Whether an action on the roster has ended, or was closed.
    pub fn is_done(&self, action: &Name) -> bool
        ensures { (s : GuardianState) → IsSound self.now s
            → IsTrue (is_at_home s.number action.now s.past)
            → result ≡ is_done action.now (events_here s.past) }
    {
        self.roster.is_done(&self.places, action)
    }

    /// Whether something that an action on the roster made has not ended.
    pub fn is_busy(&self, action: &Name) -> bool
        ensures { (s : GuardianState) → IsSound self.now s
            → IsTrue (is_at_home s.number action.now s.past)
            → result ≡ is_busy action.now (events_here s.past) }
    {
        self.roster.is_busy(&self.places, action)
    }

    /// Whether the guardian has crashed and not recovered since.
    pub fn is_down(&self) -> bool
        ensures { (s : GuardianState) → IsSound self.now s
            → result ≡ is_down s.number (events_here s.past) }
    {
        self.roster.is_down()
    }

    /// How often the guardian has crashed.
    pub fn crashes(&self) -> u64
        ensures { (s : GuardianState) → IsSound self.now s
            → result ≡ crashes s.number (events_here s.past) }
    {
        self.roster.crashes()
    }

    /// Whether the guardian has crashed since the action began here. An action that is not on the roster is not gone.
    pub fn is_gone(&self, action: &Name) -> bool
        ensures { (s : GuardianState) → IsSound self.now s
            → result ≡ is_gone action.now (events_here s.past) }
    {
        self.roster.is_gone(&self.places, action)
    }

    /// Whether the action is known as an orphan, by the lists and by what messages said of the action's dependencies,
    /// whether the action is on the roster or not.
    pub fn is_orphan(&self, action: &Name) -> Result<bool, AllocError>
        ensures { (s : GuardianState) → IsSound self.now s
            → IfOk result (λ orphan. orphan ≡ is_orphan_here s.opening s.number s.past action.now) }
    {
        match self.roster.dependencies(&self.places, action) {
            Some(depends) => Ok(self.lists.is_known_orphan(self.opening(), action, depends)),
            None => {
                let none = Deps::new(self.alloc);
                Ok(self.lists.is_known_orphan(self.opening(), action, &none))
            }
        }
    }

    /// Whether the guardian was told of the action since its last crash.
    pub fn was_told(&self, action: &Name) -> bool
        ensures { (s : GuardianState) → IsSound self.now s
            → result ≡ told_here s.number action.now s.past }
    {
        self.told.was_told(&self.places, action)
    }

    /// The aborts that the guardian has not sent to the other guardian yet, the newest first.
    pub fn unsent_aborts(&self, to: &Memory) -> Result<Names, AllocError>
        ensures { (s t : GuardianState) → IsSound self.now s → IsSound to.now t
            → IfOk result (λ names. names ≡ unsent_aborts s.number t.number s.past t.past) }
    {
        self.lists.unsent_aborts(&to.lists)
    }

    /// And the counts of crashes.
    pub fn unsent_counts(&self, to: &Memory) -> Result<Vec<(u32, u64)>, AllocError>
        ensures { (s t : GuardianState) → IsSound self.now s → IsSound to.now t
            → IfOk result (λ counts. counts.items ≡ unsent_counts s.number t.number s.past t.past) }
    {
        self.lists.unsent_counts(&to.lists)
    }
}
