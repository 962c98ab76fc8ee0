//! What a store gives back of the objects, when the guardian is opened again by itself.
ghost use Rattle.std.specs.Prelude.{◌≡◌, ◌&&◌, ◌||◌, ◌==◌, ◌∷◌, [], ℕ, List, length, OnOk};
ghost use Rattle.action_names.specs.Names.{Name, same_name};
ghost use Rattle.run_model.specs.Openings.{Opening};
ghost use Rattle.run_model.specs.StableContent.{Prepared};
ghost use Rattle.guardian_index.specs.Held.{has_object};
ghost use Rattle.guardian_objects.specs.Restored.{AreGivenBack, AreRestorable, IsGivenBack, MayGiveBack, MayTakeAt, with_record};
ghost use Rattle.guardian_objects.specs.Turns.{AreChanged};

use crate::objects::Objects;
use action_names::Name;
use atomic_types::Part;
use std::alloc::AllocError;

impl Objects {
    /// Gives a prepared top action back what the store holds for it, by the numbers of the objects: values under
    /// write locks, deltas under locks to add. It is the newest of those that are given something back. If memory
    /// runs out, the objects are not to be used any more.
    pub fn give_back(&mut self, holder: &Name, parts: &[(u32, Part)]) -> Result<(), AllocError>
        requires { MayGiveBack self.old holder.now parts.now }
        ensures given { OnOk result
            ((opening : Opening) (records : List (Name × Prepared)) (home : ℕ)
            → AreGivenBack opening records self.old
            → AreRestorable opening self.old.guardian
            (with_record holder.now home parts.now records)
            → AreGivenBack opening (with_record holder.now home parts.now records) self.new) }
        ensures guardian { self.new.guardian ≡ self.old.guardian }
    {
        for (number, part) in parts {
            self.give_back_at(holder, *number, part.copy()?)?;
        }
        Ok(())
    }

    // Gives it back the part of the object of this number, and notes that it holds something there.
    fn give_back_at(&mut self, holder: &Name, number: u32, part: Part) -> Result<(), AllocError>
        requires { MayTakeAt self.old.objects number holder.now part }
        ensures objects { OnOk result (AreChanged (IsGivenBack holder.now part) (number ∷ [])
            self.old.objects self.new.objects) }
        ensures held { OnOk result ((b : Name) (n : ℕ) → has_object self.new.held b n
            ≡ ((same_name holder.now b && (number == n)) || has_object self.old.held b n)) }
        ensures guardian { self.new.guardian ≡ self.old.guardian }
    {
        // The action has numbers, as the depth of its name says.
        let _depth = holder.depth();
        self.held.make_room(holder)?;
        self.objects[number as usize - 1].give_back(holder, part)?;
        self.held.insert(holder, number);
        Ok(())
    }
}
