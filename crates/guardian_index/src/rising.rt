//! Numbers of objects that strictly rise.
ghost use Rattle.std.specs.Prelude.{◌≡◌, ◌==◌, ◌||◌, ◌≤◌, ◌+◌, ℕ, [], IsTrue, IfOk, length, nat_lt, vec_len, vec_capacity};
ghost use Rattle.guardian_index.specs.Held.{IsRising, has_number, row_of};

use std::alloc::{AllocError, Global};

/// For how many objects a row's first room is at least: the least piece of memory has as much.
const FIRST_ROOM: usize = 4;

/// No objects, and room for so many. Fails only if memory runs out.
pub(crate) fn with_room(alloc: Global, count: usize) -> Result<Vec<u32>, AllocError>
    ensures items { IfOk result (λ objects. objects.items ≡ []) }
    ensures room { IfOk result (λ objects. count ≤ vec_capacity objects) }
{
    Vec::with_capacity(alloc, count.max(FIRST_ROOM))
}

/// The same objects, with room for as many. Fails only if memory runs out.
pub(crate) fn copy(alloc: Global, objects: &Vec<u32>) -> Result<Vec<u32>, AllocError>
    ensures { IfOk result (λ copy. row_of copy ≡ row_of objects.now) }
{
    let mut copy = Vec::with_capacity(alloc, objects.capacity())?;
    for (at, object) in objects.iter().enumerate() {
        // A push does not say that it keeps the room as it is.
        copy.insert(at, *object)?;
    }
    Ok(copy)
}

/// Puts the object into its place, if it is not there yet. There is room for it.
pub(crate) fn insert(objects: &mut Vec<u32>, object: u32)
    requires rising { IsRising objects.old.items }
    requires room { IsTrue (has_number objects.old.items object
        || nat_lt (vec_len objects.old) (vec_capacity objects.old)) }
    ensures rising { IsRising objects.new.items }
    ensures numbers { (n : ℕ)
        → has_number objects.new.items n ≡ ((object == n) || has_number objects.old.items n) }
    ensures len { vec_len objects.new ≤ vec_len objects.old + 1 }
    ensures capacity { vec_capacity objects.new ≡ vec_capacity objects.old }
{
    if let Err(at) = objects.binary_search(&object) {
        objects.insert(at, object).unwrap();
    }
}

/// Puts all these objects into their places. There is room for them.
pub(crate) fn insert_all(objects: &mut Vec<u32>, others: &[u32])
    requires rising { IsRising objects.old.items }
    requires room { vec_len objects.old + length others.now ≤ vec_capacity objects.old }
    ensures rising { IsRising objects.new.items }
    ensures numbers { (n : ℕ) → has_number objects.new.items n
        ≡ (has_number others.now n || has_number objects.old.items n) }
    ensures len { vec_len objects.new ≤ vec_len objects.old + length others.now }
    ensures capacity { vec_capacity objects.new ≡ vec_capacity objects.old }
{
    for &object in others {
        insert(objects, object);
    }
}
