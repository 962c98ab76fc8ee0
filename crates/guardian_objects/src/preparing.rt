//! What a top action will hold, to be prepared.
ghost use Rattle.std.specs.Prelude.{◌≡◌, ◌∷◌, List, IsTrue, IsFalse, IsSome, IfOk, OnOk};
ghost use Rattle.std.specs.List.{AllByRecursion};
ghost use Rattle.action_names.specs.Names.{Name, is_proper_ancestor, is_top};
ghost use Rattle.run_model.specs.declared.step.ObjectId.{ObjectId};
ghost use Rattle.run_model.specs.LocalReadings.{LocalEvent, standing_here, told_committed_here};
ghost use Rattle.run_model.specs.Openings.{Opening, first_content};
ghost use Rattle.run_model.specs.StableContent.{parts_by};
ghost use Rattle.run_model.specs.Versions.{part_held};
ghost use Rattle.object_laws.specs.OnceTold.{HoldsItsTree};
ghost use Rattle.atomic_object.specs.Staying.{OutcomesRise};
ghost use Rattle.guardian_objects.specs.Objects.{AreObjects, object_at, object_of};
ghost use Rattle.guardian_objects.specs.Outcomes.{OnlyTells};
ghost use Rattle.guardian_objects.specs.Parts.{with_part};

use crate::objects::Objects;
use action_names::Name;
use atomic_types::Part;
use std::alloc::AllocError;
use std::collections::BTreeMap;

impl Objects {
    /// What the top action will hold of each object once the outcomes of its descendants are told, which rise by
    /// name, by the number of the object: nothing is changed. It looks at the objects alone at which the top action
    /// or a descendant holds something. Fails only if memory runs out.
    pub fn parts_once_told(
        &self,
        top: &Name,
        outcomes: &[(Name, bool)],
    ) -> Result<BTreeMap<u32, Part>, AllocError>
        requires { OutcomesRise outcomes.now }
        ensures { IfOk result
            (λ parts. (opening : Opening) (here : List LocalEvent) (c : LocalEvent)
            → AreObjects opening here self.now
            → IsTrue (is_top top.now) → IsFalse (told_committed_here top.now here)
            → c.carried.outcomes ≡ outcomes.now → OnlyTells c here
            → AllByRecursion (λ x. IsTrue (is_proper_ancestor top.now x.0)) outcomes.now
            → ((x : ObjectId) → x.guardian ≡ self.now.guardian
            → HoldsItsTree (standing_here (c ∷ here) x) top.now)
            → parts.entries
            ≡ parts_by opening self.now.guardian (λ x. standing_here (c ∷ here) x) top.now) }
    {
        let mut numbers = self.held.objects_below(top)?;
        let mut parts = BTreeMap::new(self.alloc);
        while let Some(number) = numbers.pop() {
            put(
                &mut parts,
                number,
                self.part_once_told_at(number, top, outcomes)?,
            )?;
        }
        Ok(parts)
    }

    // What the top action will hold of the object of this number.
    fn part_once_told_at(
        &self,
        number: u32,
        top: &Name,
        outcomes: &[(Name, bool)],
    ) -> Result<Option<Part>, AllocError>
        requires { OutcomesRise outcomes.now }
        ensures { IfOk result (λ part. (opening : Opening) (here : List LocalEvent) (c : LocalEvent)
            → AreObjects opening here self.now
            → IsTrue (is_top top.now) → IsFalse (told_committed_here top.now here)
            → c.carried.outcomes ≡ outcomes.now → OnlyTells c here
            → AllByRecursion (λ x. IsTrue (is_proper_ancestor top.now x.0)) outcomes.now
            → HoldsItsTree (standing_here (c ∷ here) (object_of self.now number)) top.now
            → IsSome (object_at self.now.objects number)
            → part ≡ part_held (first_content opening (object_of self.now number))
            (standing_here (c ∷ here) (object_of self.now number)) top.now) }
    {
        match self.object(number) {
            Some(object) => object.part_once_told(top, outcomes),
            None => Ok(None),
        }
    }
}

// Puts in the part under the number, if there is one.
fn put(parts: &mut BTreeMap<u32, Part>, number: u32, part: Option<Part>) -> Result<(), AllocError>
    ensures { OnOk result (parts.new.entries ≡ with_part number part parts.old.entries) }
{
    let Some(part) = part else {
        return Ok(());
    };
    parts.insert(number, part)?;
    Ok(())
}
