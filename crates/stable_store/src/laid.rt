//! Parts that are laid over those of a map, all of them or none.
ghost use Rattle.std.specs.Prelude.{◌≡◌, Option, IsSome, IsTrue, IfOk, OnOk, OnErr, option_copied};
ghost use Rattle.std.specs.FinMap as map;
ghost use Rattle.atomic_types.specs.declared.part.Part.{Part};
ghost use Rattle.atomic_types.specs.Parts.{over};
ghost use Rattle.stable_store.specs.Stored.{laid, put_over, values_of};
ghost use Rattle.stable_store.specs.Held.{parts_in};
ghost use Rattle.stable_store.specs.Moved.{CanMove, is_value};
ghost use Rattle.stable_store.specs.Undone.{restored, undone, CanUndo};

use atomic_types::Part;
use std::alloc::{AllocError, Global};
use std::collections::BTreeMap;
use values::Content;

/// What the objects of a base had that were given other parts, by the order in which they were.
pub type Replaced = Vec<(u32, Option<Part>)>;

/// Installs the parts over the base, and gives what the objects had. Where memory runs out the base is as it was.
pub fn lay(
    alloc: Global,
    base: &mut BTreeMap<u32, Part>,
    parts: &BTreeMap<u32, Part>,
) -> Result<Replaced, AllocError>
    ensures ok { OnOk result (parts_in base.new ≡ laid parts.now.entries (parts_in base.old)) }
    ensures back { IfOk result (λ replaced. CanUndo replaced.items (parts_in base.new)
        × (undone replaced.items (parts_in base.new) ≡ parts_in base.old)) }
    ensures err { OnErr result (parts_in base.new ≡ parts_in base.old) }
{
    let mut replaced = Vec::with_capacity(alloc, parts.len())?;
    for (&object, part) in parts {
        match lay_one(base, object, part) {
            Ok(before) => replaced.push_reserved((object, before)),
            Err(refused) => {
                undo(base, replaced);
                return Err(refused);
            }
        }
    }
    Ok(replaced)
}

/// Whether each part is a value, and the base has its object.
pub fn can_move(base: &BTreeMap<u32, Part>, parts: &BTreeMap<u32, Part>) -> bool
    ensures yes { IsTrue result → CanMove parts.now.entries (parts_in base.now) }
    ensures no { CanMove parts.now.entries (parts_in base.now) → IsTrue result }
{
    for (object, part) in parts {
        if !is_value(part) || !base.contains_key(object) {
            return false;
        }
    }
    true
}

fn is_value(part: &Part) -> bool
    ensures { result ≡ is_value part.now }
{
    matches!(part, Part::Value(_))
}

/// Installs the parts over the base, which are values of objects that it has, and copies none. This takes no memory.
pub fn move_over(base: &mut BTreeMap<u32, Part>, parts: BTreeMap<u32, Part>)
    requires { CanMove parts.entries (parts_in base.old) }
    ensures { parts_in base.new ≡ laid parts.entries (parts_in base.old) }
{
    for (object, part) in parts {
        restore(base, object, Some(part));
    }
}

/// Installs the contents as values, as `lay` does.
pub fn lay_values(
    alloc: Global,
    base: &mut BTreeMap<u32, Part>,
    contents: &BTreeMap<u32, Content>,
) -> Result<Replaced, AllocError>
    ensures ok { OnOk result
        (parts_in base.new ≡ laid (values_of contents.now.entries) (parts_in base.old)) }
    ensures back { IfOk result (λ replaced. CanUndo replaced.items (parts_in base.new)
        × (undone replaced.items (parts_in base.new) ≡ parts_in base.old)) }
    ensures err { OnErr result (parts_in base.new ≡ parts_in base.old) }
{
    let mut values = BTreeMap::new(alloc);
    for (&object, content) in contents {
        drop(values.insert(object, Part::Value(content.copy()?))?);
    }
    lay(alloc, base, &values)
}

/// Installs one part over the base, and gives what the object had.
fn lay_one(
    base: &mut BTreeMap<u32, Part>,
    object: u32,
    part: &Part,
) -> Result<Option<Part>, AllocError>
    ensures before { IfOk result (λ before. before ≡ map.get (parts_in base.old) object) }
    ensures ok { OnOk result (parts_in base.new ≡ put_over object part.now (parts_in base.old)) }
    ensures err { OnErr result (parts_in base.new ≡ parts_in base.old) }
{
    let installed = part_over(part, base.get(&object))?;
    Ok(base.insert(object, installed)?)
}

/// What stands in a base once this part is installed over what stood there.
#[tactic(auto, using(atomic_types::specs::TypeLaws::wrapped))]
pub fn part_over(part: &Part, before: Option<&Part>) -> Result<Part, AllocError>
    ensures { IfOk result (λ installed. installed ≡ over part.now (option_copied before.entry)) }
{
    match (part, before) {
        (Part::Delta(by), Some(Part::Delta(sum))) => Ok(Part::Delta(sum.wrapping_add(*by))),
        (Part::Delta(_), Some(Part::Value(content))) => Ok(Part::Value(part.laid_on(content)?)),
        _ => part.copy(),
    }
}

/// Gives the objects back what they had, the last first. This takes no memory.
pub fn undo(base: &mut BTreeMap<u32, Part>, mut replaced: Replaced)
    requires { CanUndo replaced.items (parts_in base.old) }
    ensures { parts_in base.new ≡ undone replaced.items (parts_in base.old) }
{
    while let Some((object, before)) = replaced.pop() {
        restore(base, object, before);
    }
}

/// Gives an object of the base back what it had. This takes no memory.
fn restore(base: &mut BTreeMap<u32, Part>, object: u32, before: Option<Part>)
    requires { IsSome (map.get (parts_in base.old) object) }
    ensures { parts_in base.new ≡ restored object before (parts_in base.old) }
{
    match before {
        Some(part) => {
            if let Some(held) = base.get_mut(&object) {
                *held = part;
            }
        }
        None => drop(base.remove(&object)),
    }
}
