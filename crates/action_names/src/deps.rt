//! On which incarnations of guardians an action depends: the least of each guardian, in the order of the guardians.
ghost use Rattle.std.specs.Prelude.{◌≡◌, ◌==◌, ◌+◌, ◌<◌, ◌≤◌, ℕ, List, IsSome, IsTrue, is_some, length, IsOk, IfOk, IfErr, OnOk, OnErr};
ghost use Rattle.smallvec.specs.SmallVec.{small_vec_len};
ghost use Rattle.std.specs.Ordering.{nat_cmp};
ghost use Rattle.std.specs.FinMap as map;
ghost use Rattle.action_names.specs.Deps.{lesser, lowered, Entries, IsRising, least_at, with_least, count_new, IsAt, IsGapFor};

use smallvec::SmallVec;
use std::alloc::{AllocError, Global};
use std::marker::Model;

/// On which incarnation of each guardian an action depends, the least. Most actions depend on one guardian or two,
/// whose entries lie in the value itself.
#[derive(Debug, Drop)]
pub struct Deps {
    least: SmallVec<(u32, u64), 2>,
}

impl Model for Deps {
    ghost use Rattle.std.specs.Prelude.{ℕ};
    ghost use Rattle.std.specs.Ordering.{nat_cmp};
    ghost use Rattle.std.specs.Coded.{coded_ℕ};
    ghost use Rattle.std.specs.FinMap as map;
    ghost use Rattle.action_names.specs.Deps.{IsRising};

    ghost Value = { map.FinMap nat_cmp ℕ };

    ghost coded = { map.code coded_ℕ coded_ℕ };

    ghost view = { λ a. map.from_sorted a.least.items };

    ghost invariant = { λ a. IsRising a.least.items };
}

impl Deps {
    /// No dependency. This takes no memory.
    pub fn new(alloc: Global) -> Self
        ensures { result ≡ map.empty }
    {
        Deps {
            least: SmallVec::new(alloc),
        }
    }

    /// The least incarnation of the guardian, if there is a dependency on it.
    pub fn get(&self, guardian: u32) -> Option<u64>
        ensures { result ≡ map.get self.now guardian }
    {
        match search(self.least.as_slice(), guardian) {
            Ok(at) => Some(self.least.as_slice()[at].1),
            Err(_) => None,
        }
    }

    /// Adds a dependency on an incarnation of the guardian: the lesser of the two stays.
    /// This takes memory only for a guardian that is new. Where memory runs out, nothing changes.
    pub fn lower(&mut self, guardian: u32, incarnation: u64) -> Result<(), AllocError>
        ensures ok { OnOk result
            (self.new
            ≡ map.insert self.old guardian (lowered (map.get self.old guardian) incarnation)) }
        ensures err { OnErr result (self.new ≡ self.old) }
        ensures known { IsSome (map.get self.old guardian) → IsOk result }
    {
        lower_in(&mut self.least, 0, guardian, incarnation)
    }

    /// Adds the dependencies of the other: the lesser incarnation of each guardian stays.
    /// This takes memory only for guardians that are new. Where memory runs out, nothing changes.
    pub fn merge(&mut self, other: &Deps) -> Result<(), AllocError>
        ensures ok { OnOk result
            ((g : ℕ) → map.get self.new g ≡ lesser (map.get self.old g) (map.get other.now g)) }
        ensures err { OnErr result (self.new ≡ self.old) }
        ensures known { ((g : ℕ) → IsSome (map.get other.now g) → IsSome (map.get self.old g))
            → IsOk result }
    {
        merge_in(&mut self.least, other.least.as_slice())
    }

    /// A copy of the dependencies.
    pub fn copy(&self) -> Result<Deps, AllocError>
        ensures { IfOk result (λ deps. deps ≡ self.now) }
    {
        let least = SmallVec::from_slice(*self.least.allocator(), self.least.as_slice())?;
        Ok(Deps { least })
    }

    /// On how many guardians there are dependencies.
    pub fn len(&self) -> usize
        ensures { result ≡ map.len self.now }
    {
        self.least.len()
    }

    /// Whether there is no dependency.
    pub fn is_empty(&self) -> bool
        ensures { result ≡ (map.len self.now == 0) }
    {
        self.least.is_empty()
    }

    /// Each guardian with its least incarnation, in the order of the guardians.
    pub fn entries(&self) -> &[(u32, u64)]
        ensures { result.now ≡ map.entries self.now }
    {
        self.least.as_slice()
    }
}

// The place of the guardian's entry, or that where it would go.
fn search(least: &[(u32, u64)], guardian: u32) -> Result<usize, usize>
    requires { IsRising least.now }
    ensures found { IfOk result (IsAt least.now guardian) }
    ensures absent { IfErr result (IsGapFor least.now guardian) }
{
    if is_past(least, guardian) {
        return Err(least.len());
    }
    least.binary_search_by_key(&guardian, |&(known, _)| known)
}

// Whether the guardian comes after all that have an entry. Dependencies that are built in order are found so without
// a search.
fn is_past(least: &[(u32, u64)], guardian: u32) -> bool
    requires { IsRising least.now }
    ensures { IsTrue result → IsGapFor least.now guardian (length least.now) }
{
    match least.last() {
        Some(&(greatest, _)) => greatest < guardian,
        None => true,
    }
}

// The same, where the entry may well be at the place that is guessed.
fn search_near(least: &[(u32, u64)], guess: usize, guardian: u32) -> Result<usize, usize>
    requires { IsRising least.now }
    ensures found { IfOk result (IsAt least.now guardian) }
    ensures absent { IfErr result (IsGapFor least.now guardian) }
{
    match least.get(guess) {
        Some(&(known, _)) if known == guardian => Ok(guess),
        _ => search(least, guardian),
    }
}

// How many entries have a guardian that the known ones lack.
fn count_new(known: &[(u32, u64)], entries: &[(u32, u64)]) -> usize
    requires { IsRising known.now }
    ensures { result ≡ count_new known.now entries.now }
{
    let mut new = 0;
    for at in 0..entries.len() {
        if !is_known(known, at, entries[at].0) {
            new += 1;
        }
    }
    new
}

// Whether the guardian has an entry, which may well be at the place that is guessed.
fn is_known(least: &[(u32, u64)], guess: usize, guardian: u32) -> bool
    requires { IsRising least.now }
    ensures { result ≡ is_some (least_at least.now guardian) }
{
    search_near(least, guess, guardian).is_ok()
}

// Adds one dependency, whose entry may well be at the place that is guessed. It takes memory only for a new guardian
// for whom no room is left.
fn lower_in(
    least: &mut SmallVec<(u32, u64), 2>,
    guess: usize,
    guardian: u32,
    incarnation: u64,
) -> Result<(), AllocError>
    requires { IsRising least.old.items }
    ensures rising { IsRising least.new.items }
    ensures ok { OnOk result (least.new.items
        ≡ with_least least.old.items guardian
        (lowered (least_at least.old.items guardian) incarnation)) }
    ensures err { OnErr result (least.new.items ≡ least.old.items) }
    ensures known { IsSome (least_at least.old.items guardian) → IsOk result }
    ensures room { small_vec_len least.old < least.old.capacity → IsOk result }
    ensures capacity { least.old.capacity ≤ least.new.capacity }
{
    match search_near(least.as_slice(), guess, guardian) {
        Ok(at) => {
            let entry = &mut least.as_mut_slice()[at];
            entry.1 = entry.1.min(incarnation);
            Ok(())
        }
        Err(at) => Ok(least.insert(at, (guardian, incarnation))?),
    }
}

// Adds the dependencies of the others, once there is room for those on new guardians. Mostly both have the same
// guardians, in the same places.
fn merge_in(least: &mut SmallVec<(u32, u64), 2>, others: &[(u32, u64)]) -> Result<(), AllocError>
    requires own { IsRising least.old.items }
    requires others { IsRising others.now }
    ensures rising { IsRising least.new.items }
    ensures ok { OnOk result
        ((g : ℕ) → least_at least.new.items g
        ≡ lesser (least_at least.old.items g) (least_at others.now g)) }
    ensures err { OnErr result (least.new.items ≡ least.old.items) }
    ensures known { count_new least.old.items others.now ≡ 0 → IsOk result }
{
    let new = count_new(least.as_slice(), others);
    if least.capacity() - least.len() < new {
        least.reserve(new)?;
    }
    for at in 0..others.len() {
        let (guardian, incarnation) = others[at];
        lower_in(least, at, guardian, incarnation).unwrap();
    }
    Ok(())
}
