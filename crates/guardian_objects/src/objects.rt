//! The objects, and what is asked of them.
ghost use Rattle.std.specs.Prelude.{◌≡◌, ◌≤◌, ◌∷◌, [], ℕ, List, length, Some, IsTrue, IsFalse, IfOk, IfSome, IsNone, OnErr, OnOk};
ghost use Rattle.std.specs.Option.{option_copied};
ghost use Rattle.action_names.specs.Names.{Name, is_ancestor};
ghost use Rattle.atomic_types.specs.declared.op.Reply.{Reply};
ghost use Rattle.values.specs.declared.content.Content.{Content};
ghost use Rattle.run_model.specs.Keeping.{Standing};
ghost use Rattle.run_model.specs.Answers.{operated_by};
ghost use Rattle.run_model.specs.LocalReadings.{LocalEvent, count_here, standing_here, told_committed_here};
ghost use Rattle.run_model.specs.Openings.{Opening, first_content, opening_in};
ghost use Rattle.run_model.specs.Versions.{base_by};
ghost use Rattle.object_laws.specs.Shown.{Shows};
ghost use Rattle.atomic_object.specs.Kept.{Kept, seen};
ghost use Rattle.guardian_objects.specs.Objects.{AreObjects, IsAsked, IsGranted, Keeps, Operates, object_at, object_of};
ghost use Rattle.guardian_objects.specs.Operations.{IsFreeAt, IsGrantedBy, StaysHeld};
ghost use Rattle.guardian_objects.specs.Restored.{AreGivenBack};
ghost use Rattle.guardian_objects.specs.Turns.{AreChanged};

use action_names::Name;
use atomic_object::Object;
use atomic_types::Op;
use guardian_index::HeldObjects;
use run_model::{Answer, ObjectId};
use std::alloc::{AllocError, Global};
use std::marker::Model;
use values::Content;
use version_stack::View;

/// The objects of one guardian, numbered from 1.
#[derive(Drop)]
pub struct Objects {
    pub(crate) alloc: Global,
    pub(crate) guardian: u32,
    pub(crate) objects: Vec<Object>,
    pub(crate) held: HeldObjects,
}

impl Model for Objects {
    ghost use Rattle.guardian_objects.specs.Objects.{Indexed};

    ghost Value = { Indexed };

    ghost view = { λ a. record {
      guardian = a.guardian;
      objects = a.objects.items;
      held = a.held.rows;
      renames = a.held.renames;
    } };
}

impl Objects {
    /// The guardian's objects with their first contents, of which nobody holds anything. Fails only if memory runs out.
    pub fn new(
        alloc: Global,
        opening: &run_model::Opening,
        guardian: u32,
    ) -> Result<Objects, AllocError>
        requires { 1 ≤ guardian }
        ensures guardian { IfOk result (λ objects. objects.guardian ≡ guardian) }
        ensures objects { IfOk result (λ objects. AreObjects (opening_in opening.now) [] objects) }
        ensures given { IfOk result (λ objects. AreGivenBack (opening_in opening.now) [] objects) }
    {
        let count = opening.setup().objects(guardian).len();
        let held = HeldObjects::new(alloc);
        let mut objects = Vec::with_capacity(alloc, count)?;
        for place in 0..count {
            let number = place as u32 + 1;
            let content = opening.first_content(ObjectId { guardian, number })?;
            let object = Object::new(alloc, content);
            objects.push(object)?;
        }
        Ok(Objects {
            alloc,
            guardian,
            objects,
            held,
        })
    }

    /// What belongs to the base of the object of this number; none where there is no such object. This takes no memory.
    pub fn base(&self, number: u32) -> Option<View<'_, Content>>
        ensures base { IfSome result
            (λ base. (opening : Opening) (here : List LocalEvent) → AreObjects opening here self.now
            → base ≡ base_by (first_content opening (object_of self.now number))
            (standing_here here (object_of self.now number))) }
        ensures none { IsNone result → (1 ≤ number) → (number ≤ length self.now.objects) → ⊥ }
    {
        Some(self.object(number)?.base())
    }

    // The object of this number, if there is one.
    pub(crate) fn object(&self, number: u32) -> Option<&Object>
        ensures { option_copied result ≡ object_at self.now.objects number }
    {
        let place = (number as usize).checked_sub(1)?;
        self.objects.get(place)
    }

    /// How many objects a telling of the outcome changes, of an action that was not told committed. It looks at those
    /// alone. Fails only for want of memory.
    pub fn told_count(&self, action: &Name, committed: bool) -> Result<u64, AllocError>
        ensures { IfOk result (λ count. (opening : Opening) (here : List LocalEvent)
            → AreObjects opening here self.now
            → IsFalse (told_committed_here action.now here)
            → count ≡ count_here opening self.now.guardian action.now committed here) }
    {
        if committed {
            let own = self.held.objects_of(action).len();
            return Ok(own as u64);
        }
        let numbers = self.held.objects_below(action)?;
        let below = numbers.len();
        Ok(below as u64)
    }

    /// What an operation on the object of this number would be answered, with nothing changed. Fails only if memory
    /// runs out.
    pub fn answer(&self, action: &Name, number: u32, op: &Op) -> Result<Answer, AllocError>
        requires { IsAsked self.now number op.now }
        ensures { IfOk result (λ answer. (opening : Opening) (here : List LocalEvent)
            → AreObjects opening here self.now
            → answer ≡ operated_by (first_content opening (object_of self.now number))
            (standing_here here (object_of self.now number)) action.now op.now) }
    {
        // The action has numbers, as the depth of its name says.
        let _depth = action.depth();
        self.objects[number as usize - 1].answer(action, op)
    }

    /// Keeps an operation on the object of this number that is granted; what it is answered, `answer` says. If memory
    /// runs out, the objects are those of the same history.
    pub fn grant(&mut self, action: &Name, number: u32, op: &Op) -> Result<(), AllocError>
        requires { IsGranted self.old number action.now op.now }
        ensures operates { OnOk result
            ((r : Reply) → Operates action.now number op.now r self.old self.new) }
        ensures guardian { self.new.guardian ≡ self.old.guardian }
        ensures count { length self.new.objects ≡ length self.old.objects }
        ensures err { OnErr result (Keeps self.old self.new) }
    {
        self.held.make_room(action)?;
        self.grant_at(action, number, op)?;
        self.held.insert(action, number);
        Ok(())
    }

    // Keeps the operation at the object of this number, with nothing noted.
    fn grant_at(&mut self, action: &Name, number: u32, op: &Op) -> Result<(), AllocError>
        requires { IsFreeAt self.old.objects number action.now op.now }
        ensures named { IsTrue (is_ancestor action.now action.now) }
        ensures granted { OnOk result ((r : Reply) → AreChanged (IsGrantedBy action.now op.now r)
            (number ∷ []) self.old.objects self.new.objects) }
        ensures guardian { self.new.guardian ≡ self.old.guardian }
        ensures held { self.new.held ≡ self.old.held }
        ensures err { OnErr result
            (AreChanged StaysHeld (number ∷ []) self.old.objects self.new.objects) }
    {
        // The action has numbers, as the depth of its name says.
        let _depth = action.depth();
        self.objects[number as usize - 1].grant(action, op)
    }
}
