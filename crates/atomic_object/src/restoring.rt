//! What a store gives back of an object.
ghost use Rattle.std.specs.Prelude.{◌∷◌, List, IsTrue, OnOk};
ghost use Rattle.action_names.specs.Names.{Name, is_ancestor};
ghost use Rattle.values.specs.declared.content.Content.{Content};
ghost use Rattle.atomic_types.specs.declared.part.Part.{Part};
ghost use Rattle.object_model.specs.Objects.{IsRestored};
ghost use Rattle.atomic_object.specs.Kept.{seen};
ghost use Rattle.atomic_object.specs.Restored.{MayStandToo, MayTake};

use crate::object::Object;
use action_names::Name;
use atomic_types::{Class, Part};
use overlays::ContentOverlay;
use std::alloc::AllocError;

impl Object {
    /// Gives a top action back what a store held of the object for it: a value, where nobody else is given anything,
    /// or a delta. If memory runs out, the object is not to be used any more.
    pub fn give_back(&mut self, holder: &Name, part: Part) -> Result<(), AllocError>
        requires named { IsTrue (is_ancestor holder.now holder.now) }
        requires fits { MayTake (seen self.old) holder.now part }
        ensures { OnOk result ((c : Content) (parts : List (Name × Part))
            → IsRestored c parts (seen self.old) → MayStandToo parts holder.now part
            → IsRestored c ((holder.now, part) ∷ parts) (seen self.new)) }
    {
        match part {
            Part::Value(content) => {
                self.locks.grant(holder, Class::Write)?;
                self.versions
                    .restore(holder, ContentOverlay::Replaced(content))
            }
            Part::Delta(by) => {
                self.locks.grant(holder, Class::Add)?;
                self.deltas.add(holder, by)
            }
        }
    }
}
