ghost use Rattle.std.specs.Prelude.{◌≡◌, ℕ, Bool, List};

use action_names::Name;

/// Whose holdings outlive a crash.
pub trait Survivors {
    ghost stays: { Self → List ℕ → Bool };

    /// Whether what the holder holds stays.
    fn stays(&self, holder: &Name) -> bool
        ensures { result ≡ stays self.now holder.now };
}
