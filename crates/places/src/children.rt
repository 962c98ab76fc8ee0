//! The children of one action, by their numbers.
ghost use Rattle.std.specs.Prelude.{◌≡◌, None, IfOk, IfErr, OnOk, OnErr};
ghost use Rattle.std.specs.FinMap as map;
ghost use Rattle.action_names.specs.Deps.{IsAt, IsGapFor, IsRising, least_at, with_least};

use std::alloc::{AllocError, Global};
use std::marker::Model;

/// The places of an action's children. Mostly there is one child, which stands here without memory of its own.
/// Contracts see the map from numbers to places.
#[derive(Drop)]
pub(crate) struct Children {
    kept: Kept,
}

#[derive(Drop)]
enum Kept {
    One {
        alloc: Global,
        number: u32,
        place: usize,
    },
    /// Rising by the children's numbers.
    Listed(Vec<(u32, usize)>),
}

impl Model for Children {
    ghost use Rattle.std.specs.Prelude.{ℕ};
    ghost use Rattle.std.specs.Ordering.{nat_cmp};
    ghost use Rattle.std.specs.Coded.{coded_ℕ};
    ghost use Rattle.std.specs.FinMap as map;
    ghost use Rattle.action_names.specs.Deps.{IsRising};
    ghost use Rattle.places.specs.Children.{entries_of};

    ghost Value = { map.FinMap nat_cmp ℕ };

    ghost coded = { map.code coded_ℕ coded_ℕ };

    ghost view = { λ a. map.from_sorted (entries_of a.kept) };

    ghost invariant = { λ a. IsRising (entries_of a.kept) };
}

impl Children {
    /// No children. This takes no memory.
    pub(crate) fn new(alloc: Global) -> Self
        ensures { result ≡ map.empty }
    {
        Children {
            kept: Kept::Listed(Vec::new(alloc)),
        }
    }

    /// The place of the child of this number, if there is one.
    pub(crate) fn get(&self, number: u32) -> Option<usize>
        ensures { result ≡ map.get self.now number }
    {
        match &self.kept {
            Kept::One {
                number: known,
                place,
                ..
            } => { if *known == number { Some(*place) } else { None } }
            Kept::Listed(places) => listed(places, number),
        }
    }

    /// Gives a new child its place. If memory runs out, nothing changes.
    pub(crate) fn insert(&mut self, number: u32, place: usize) -> Result<(), AllocError>
        requires { map.get self.old number ≡ None }
        ensures ok { OnOk result (self.new ≡ map.insert self.old number place) }
        ensures err { OnErr result (self.new ≡ self.old) }
    {
        match &mut self.kept {
            Kept::One {
                alloc,
                number: first,
                place: at,
            } => {
                let mut places = Vec::with_capacity(*alloc, 2)?;
                places.push_reserved((*first, *at));
                add(&mut places, number, place)?;
                self.kept = Kept::Listed(places);
                Ok(())
            }
            Kept::Listed(places) => {
                if places.is_empty() {
                    let alloc = *places.allocator();
                    self.kept = Kept::One {
                        alloc,
                        number,
                        place,
                    };
                    return Ok(());
                }
                add(places, number, place)
            }
        }
    }
}

/// The place of the child of this number among these, if it is one of them.
fn listed(places: &[(u32, usize)], number: u32) -> Option<usize>
    requires { IsRising places.now }
    ensures { result ≡ least_at places.now number }
{
    match search(places, number) {
        Ok(at) => Some(places[at].1),
        Err(_) => None,
    }
}

/// Adds a child to these. If memory runs out, nothing changes.
fn add(places: &mut Vec<(u32, usize)>, number: u32, place: usize) -> Result<(), AllocError>
    requires rising { IsRising places.old.items }
    requires absent { least_at places.old.items number ≡ None }
    ensures rising { IsRising places.new.items }
    ensures ok { OnOk result (places.new.items ≡ with_least places.old.items number place) }
    ensures err { OnErr result (places.new.items ≡ places.old.items) }
{
    match search(places, number) {
        Ok(_) => unreachable!(),
        Err(at) => Ok(places.insert(at, (number, place))?),
    }
}

// Where the child of this number stands among these, or would stand. The numbers of an action's children rise from 1,
// so it mostly stands where its number says.
fn search(places: &[(u32, usize)], number: u32) -> Result<usize, usize>
    requires { IsRising places.now }
    ensures found { IfOk result (IsAt places.now number) }
    ensures absent { IfErr result (IsGapFor places.now number) }
{
    let guess = (number as usize).wrapping_sub(1);
    match places.get(guess) {
        Some(&(known, _)) if known == number => Ok(guess),
        _ => places.binary_search_by_key(&number, |&(known, _)| known),
    }
}
