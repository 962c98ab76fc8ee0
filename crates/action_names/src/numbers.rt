//! The numbers of a name: a few lie in the value itself, more are shared by all copies.
ghost use Rattle.std.specs.Prelude.{◌≡◌, ◌<◌, ◌≤◌, ◌++◌, [], ◌∷◌, length, take, IsOk, IfOk};
ghost use Rattle.action_names.specs.Names.{max_depth};

use crate::name::MAX_DEPTH;
use std::alloc::{AllocError, Global};
use std::marker::Model;
use std::sync::Arc;

/// How many numbers lie in the value itself.
pub(crate) const FEW: usize = 8;

/// How many numbers the smaller of the shared arrays has.
const SOME: usize = 16;

/// At most 32 numbers, which never change. A copy takes no memory: up to 8 numbers are copied in one piece, and more
/// are shared.
#[derive(Drop)]
pub(crate) struct Numbers {
    alloc: Global,
    count: usize,
    place: Place,
}

const _: () = prove!(size_of::<Numbers>() == 48);

/// Where the numbers lie. They begin the array, and what follows them there means nothing.
#[derive(Drop)]
enum Place {
    Here([u32; FEW]),
    Shared(Arc<[u32; SOME], Global>),
    Deep(Arc<[u32; MAX_DEPTH], Global>),
}

impl Model for Numbers {
    ghost use Rattle.std.specs.Prelude.{List, ℕ, take};
    ghost use Rattle.action_names.specs.Numbers.{array_at, IsPlaceOf};

    ghost Value = { List ℕ };

    ghost view = { λ a. take a.count (array_at a.place) };

    ghost invariant = { λ a. IsPlaceOf a.count a.place };
}

impl Numbers {
    /// The first numbers of the array, so many. This takes no memory.
    pub(crate) fn few(alloc: Global, numbers: [u32; FEW], count: usize) -> Numbers
        requires { count ≤ 8 }
        ensures { result ≡ take count numbers }
    {
        Numbers {
            alloc,
            count,
            place: Place::Here(numbers),
        }
    }

    /// These numbers. This takes no memory up to 8.
    pub(crate) fn from_slice(alloc: Global, numbers: &[u32]) -> Result<Numbers, AllocError>
        requires { length numbers.now ≤ max_depth }
        ensures ok { IfOk result (λ a. a ≡ numbers.now) }
        ensures inline { length numbers.now ≤ 8 → IsOk result }
    {
        let count = numbers.len();
        let place = if count <= FEW {
            Place::Here(at_front_of(numbers))
        } else if count <= SOME {
            Place::Shared(Arc::new(alloc, at_front_of(numbers))?)
        } else {
            Place::Deep(Arc::new(alloc, at_front_of(numbers))?)
        };
        Ok(Numbers {
            alloc,
            count,
            place,
        })
    }

    /// The numbers.
    pub(crate) fn as_slice(&self) -> &[u32]
        ensures { result.now ≡ self.now }
    {
        match &self.place {
            Place::Here(few) => &few[..self.count],
            Place::Shared(some) => &some[..self.count],
            Place::Deep(many) => &many[..self.count],
        }
    }

    /// How many numbers there are.
    pub(crate) fn len(&self) -> usize
        ensures { result ≡ length self.now }
    {
        self.count
    }

    /// A copy of the numbers. This takes no memory, and fails only where too many copies share them.
    pub(crate) fn copy(&self) -> Result<Numbers, AllocError>
        ensures ok { IfOk result (λ a. a ≡ self.now) }
        ensures inline { length self.now ≤ 8 → IsOk result }
    {
        self.front(self.count)
    }

    /// A copy of the first numbers, so many. This takes no memory, and fails only where too many copies share them.
    pub(crate) fn front(&self, count: usize) -> Result<Numbers, AllocError>
        requires { count ≤ length self.now }
        ensures ok { IfOk result (λ a. a ≡ take count self.now) }
        ensures inline { count ≤ 8 → IsOk result }
    {
        let alloc = self.alloc;
        let place = match &self.place {
            Place::Here(few) => Place::Here(*few),
            _ if count <= FEW => Place::Here(at_front_of(&self.as_slice()[..count])),
            Place::Shared(some) => Place::Shared(some.clone()?),
            Place::Deep(many) => Place::Deep(many.clone()?),
        };
        Ok(Numbers {
            alloc,
            count,
            place,
        })
    }

    /// The numbers with one more behind them. This takes no memory below 8.
    pub(crate) fn with(&self, number: u32) -> Result<Numbers, AllocError>
        requires { length self.now < max_depth }
        ensures ok { IfOk result (λ a. a ≡ self.now ++ number ∷ []) }
        ensures inline { length self.now < 8 → IsOk result }
    {
        let alloc = self.alloc;
        let count = self.count + 1;
        if let Place::Here(few) = &self.place {
            if count <= FEW {
                let mut few = *few;
                few[self.count] = number;
                let place = Place::Here(few);
                return Ok(Numbers {
                    alloc,
                    count,
                    place,
                });
            }
        }
        let mut many: [u32; MAX_DEPTH] = at_front_of(self.as_slice());
        many[self.count] = number;
        Numbers::from_slice(alloc, &many[..count])
    }
}

/// An array that begins with these numbers.
fn at_front_of<const N: usize>(numbers: &[u32]) -> [u32; N]
    requires { length numbers.now ≤ N }
    ensures front { take (length numbers.now) result ≡ numbers.now }
    ensures len { length result ≡ N }
{
    let mut array = [0; N];
    array[..numbers.len()].copy_from_slice(numbers);
    array
}
