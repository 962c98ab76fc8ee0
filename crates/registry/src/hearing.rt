//! Of what a guardian was told.
ghost use Rattle.std.specs.Prelude.{◌≡◌, ℕ, List};
ghost use Rattle.run_model.specs.LocalReadings.{told_here};
ghost use Rattle.layer_contracts.specs.Guardians.{GuardianState};

use action_forest::Hearer;
use layer_contracts::Guardian;
use run_model::Name;

/// A guardian, of which the forest asks what it was told.
#[derive(Drop)]
pub(crate) struct Told<'a, G> {
    pub(crate) guardian: &'a G,
}

impl<'a, G: Guardian> Hearer for Told<'a, G> {
    ghost hears = { λ x told. (s : GuardianState) × G.stands x.guardian.now s
        × ((a : List ℕ) → told a ≡ told_here s.number a s.past) };

    fn was_told(&self, action: &Name) -> bool {
        self.guardian.was_told(action)
    }
}
