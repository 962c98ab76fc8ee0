//! On what actions depend, as a guardian reads it where the registry keeps it.
ghost use Rattle.std.specs.Prelude.{◌≡◌, [], IfOk, MatchOption};
ghost use Rattle.std.specs.FinMap as map;
ghost use Rattle.run_model.specs.LocalHistories.{dependency_there, entries_of};
ghost use Rattle.layer_contracts.specs.Forests.{ForestState, new_entries};

use run_model::{Deps, Name};
use std::alloc::AllocError;

/// On what actions depend, by the registry's history. What it says is said of each state in which that registry is.
pub trait Lineage: Drop {
    /// That the registry is in this state.
    ghost is_of: { Self → ForestState → Type 0 };

    /// On which guardians the action depends, with the least incarnation of each, if it was begun.
    fn depends(&self, action: &Name) -> Option<&Deps>
        ensures { (f : ForestState) → is_of self.now f → MatchOption result
            (entries_of f.opening (λ h. dependency_there action.now h f.registry) ≡ [])
            (λ depends. map.entries depends.now
            ≡ entries_of f.opening (λ h. dependency_there action.now h f.registry)) };

    /// On which guardians an action depends that begins at this home in this life of it.
    fn new_dependencies(&self, action: &Name, home: u32, life: u64) -> Result<Deps, AllocError>
        ensures { (f : ForestState) → is_of self.now f
            → IfOk result (λ depends. map.entries depends ≡ new_entries f home life action.now) };
}
