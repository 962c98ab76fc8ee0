//! Who holds something still, after a crash.
ghost use Rattle.std.specs.Prelude.{◌≡◌, ℕ, Bool, List, [], false, filter};

use action_names::Name;

/// Who holds something at which object.
pub trait Holding {
    ghost holds: { Self → List ℕ → ℕ → Bool };

    /// Whether the holder holds something at the object.
    fn holds(&self, holder: &Name, object: u32) -> bool
        ensures { result ≡ holds self.now holder.now object };
}

/// Keeps the objects at which the holder holds something still, and says if there are any.
pub(crate) fn retain_held<H: Holding>(holder: &Name, objects: &mut Vec<u32>, holding: &H) -> bool
    ensures objects { objects.new.items
        ≡ filter (H.holds holding.now holder.now) objects.old.items }
    ensures any { result ≡ false → objects.new.items ≡ [] }
{
    objects.retain(|object| holding.holds(holder, *object));
    !objects.is_empty()
}
