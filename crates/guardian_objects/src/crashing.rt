//! A crash of the guardian.
ghost use Rattle.std.specs.Prelude.{◌≡◌, ◌∷◌, [], ℕ, List, length, IsTrue, is_some};
ghost use Rattle.action_names.specs.Names.{Name, is_top};
ghost use Rattle.run_model.specs.declared.step.ObjectId.{ObjectId};
ghost use Rattle.run_model.specs.declared.step.Step.TheVariants as steps;
ghost use Rattle.run_model.specs.LocalReadings.{LocalEvent, prepared_here};
ghost use Rattle.run_model.specs.Openings.{Opening};
ghost use Rattle.guardian_laws.specs.Crashes.{LeavesSafe};
ghost use Rattle.guardian_objects.specs.Objects.{AreObjects};
ghost use Rattle.guardian_objects.specs.Crashes.{HasCrashed, HaveCrashed};
ghost use Rattle.guardian_objects.specs.Turns.{AreChanged};

use crate::objects::Objects;
use action_names::Name;
use atomic_object::Object;
use guardian_index::{HeldObjects, HeldRows, Holding};
use holders::Survivors;

/// Who still holds something at these objects.
#[derive(Clone, Copy)]
struct Still<'a> {
    objects: &'a [Object],
}

impl<'a> Holding for Still<'a> {
    ghost use Rattle.guardian_objects.specs.Objects.{holds_at};

    ghost holds = { λ s a n. holds_at s.objects.now a n };

    fn holds(&self, holder: &Name, number: u32) -> bool {
        let Some(place) = (number as usize).checked_sub(1) else {
            return false;
        };
        match self.objects.get(place) {
            Some(object) => object.is_concerned(holder, true),
            None => false,
        }
    }
}

impl Objects {
    /// The guardian crashes: of each object what belongs to the base is left, and what the survivors wrote and added,
    /// which are the top actions of which the store has a record. It looks at all that is held. This cannot fail.
    pub fn crash<S: Survivors>(&mut self, survivors: &S)
        requires tops { (a : Name) → IsTrue (S.stays survivors.now a) → IsTrue (is_top a) }
        ensures crashed { (opening : Opening) (here : List LocalEvent) (c : LocalEvent)
            → AreObjects opening here self.old
            → ((x : ObjectId) → x.guardian ≡ self.old.guardian → LeavesSafe opening here x)
            → ((a : Name)
            → S.stays survivors.now a ≡ is_some (prepared_here opening self.old.guardian a here))
            → c.event.step ≡ steps.Crash self.old.guardian → c.carried.outcomes ≡ []
            → c.carried.restored ≡ [] → AreObjects opening (c ∷ here) self.new }
        ensures guardian { self.new.guardian ≡ self.old.guardian }
        ensures count { length self.new.objects ≡ length self.old.objects }
    {
        crash_held(&mut self.objects, &self.held, survivors);
        self.held.retain(&Still {
            objects: &self.objects,
        });
    }
}

// Each object at which somebody holds something crashes, once for each holder: a crash right after a crash changes
// nothing.
fn crash_held<S: Survivors>(objects: &mut [Object], held: &HeldObjects, survivors: &S)
    requires tops { (a : Name) → IsTrue (S.stays survivors.now a) → IsTrue (is_top a) }
    ensures { HaveCrashed (S.stays survivors.now) held.now.rows objects.old objects.new }
{
    match held.rows() {
        HeldRows::Few(few) => {
            for (_, numbers) in few {
                crash_row(objects, numbers, survivors);
            }
        }
        HeldRows::Many(many) => {
            for row in many {
                crash_row(objects, row, survivors);
            }
        }
    }
}

// The objects of these numbers crash.
fn crash_row<S: Survivors>(objects: &mut [Object], numbers: &[u32], survivors: &S)
    requires tops { (a : Name) → IsTrue (S.stays survivors.now a) → IsTrue (is_top a) }
    ensures { AreChanged (HasCrashed (S.stays survivors.now)) numbers.now objects.old objects.new }
{
    for &number in numbers {
        crash_at(objects, number, survivors);
    }
}

// The object of this number crashes, if there is one.
fn crash_at<S: Survivors>(objects: &mut [Object], number: u32, survivors: &S)
    requires tops { (a : Name) → IsTrue (S.stays survivors.now a) → IsTrue (is_top a) }
    ensures { AreChanged (HasCrashed (S.stays survivors.now)) (number ∷ [])
        objects.old objects.new }
{
    let Some(place) = (number as usize).checked_sub(1) else {
        return;
    };
    if place < objects.len() {
        objects[place].crash(survivors);
    }
}
