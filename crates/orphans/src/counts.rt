//! The counts of others' crashes that a guardian knows, in the order in which it learnt them, and found by guardian.
ghost use Rattle.std.specs.Prelude.{◌≡◌, ◌≤◌, ◌+◌, ◌∷◌, [], ℕ, length, nat_eq, reverse, take, IfOk, OnOk, vec_len};
ghost use Rattle.std.specs.HashMap as hash;
ghost use Rattle.run_model.specs.LocalReadings.{most_of, raised};
ghost use Rattle.orphans.specs.Indexes.{AreGreatest};

use std::alloc::{AllocError, Global};
use std::collections::HashMap;

/// Guardians with the counts that raised what was known of them, the oldest first, and the greatest count of each.
#[derive(Drop)]
pub struct Counts {
    log: Vec<(u32, u64)>,
    greatest: HashMap<u32, u64>,
    ghost indexed: { AreGreatest (hash.get nat_eq greatest) (reverse log.items) },
}

impl Counts {
    ghost use Rattle.orphans.specs.Logs.{HasCountRoom, known_counts};

    /// No counts. This takes no memory.
    pub fn new(alloc: Global) -> Counts
        ensures { known_counts result ≡ [] }
    {
        Counts {
            log: Vec::new(alloc),
            greatest: HashMap::new(alloc),
        }
    }

    /// The greatest count of the guardian. This takes no memory.
    pub fn greatest(&self, guardian: u32) -> u64
        ensures { result ≡ most_of (known_counts self.now) guardian }
    {
        self.greatest.get(&guardian).copied().unwrap_or(0)
    }

    /// Makes room for so many more counts. Whether or not there is memory for it, the counts are those that there were.
    pub fn plan_room(&mut self, more: usize) -> Result<(), AllocError>
        ensures counts { known_counts self.new ≡ known_counts self.old }
        ensures room { OnOk result (HasCountRoom self.new more) }
    {
        self.log.reserve(more)?;
        self.greatest.reserve(more)
    }

    /// Takes the counts, the last of them first, and puts those in that raise what is known. This cannot fail.
    pub fn learn(&mut self, counts: &mut Vec<(u32, u64)>)
        requires { HasCountRoom self.old (vec_len counts.old) }
        ensures { known_counts self.new ≡ raised counts.old.items (known_counts self.old) }
    {
        while let Some((guardian, count)) = counts.pop() {
            self.put(guardian, count);
        }
    }

    /// How many counts were learnt.
    pub fn len(&self) -> usize
        ensures { result ≡ length (known_counts self.now) }
    {
        self.log.len()
    }

    /// The newest so many counts, the newest first.
    pub fn newest(&self, count: usize) -> Result<Vec<(u32, u64)>, AllocError>
        requires { count ≤ length (known_counts self.now) }
        ensures { IfOk result (λ counts. counts.items ≡ take count (known_counts self.now)) }
    {
        let mut newest = Vec::with_capacity(*self.log.allocator(), count)?;
        for back in 0..count {
            newest.push(self.log[self.log.len() - 1 - back])?;
        }
        Ok(newest)
    }

    // Puts a count in, if it raises what is known of the guardian.
    fn put(&mut self, guardian: u32, count: u64)
        requires { HasCountRoom self.old 1 }
        ensures counts { known_counts self.new
            ≡ raised ((guardian, count) ∷ []) (known_counts self.old) }
        ensures room { (n : ℕ) → HasCountRoom self.old (n + 1) → HasCountRoom self.new n }
    {
        if self.greatest(guardian) < count {
            let put: Result<_, _> = self.greatest.insert(guardian, count);
            put.unwrap();
            self.log.push_reserved((guardian, count));
        }
    }
}
