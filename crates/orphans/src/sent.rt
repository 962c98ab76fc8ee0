//! How much of its lists each guardian has sent in each of its lives.
ghost use Rattle.std.specs.Prelude.{◌≡◌, ℕ, OnOk};

use std::alloc::{AllocError, Global};
use std::collections::HashMap;

/// How many entries of the two lists came.
#[derive(Clone, Copy)]
pub struct Came {
    pub aborts: u64,
    pub counts: u64,
}

/// By sender and its life what came, up to 2^64 - 1 entries of each list.
#[derive(Drop)]
pub struct Sent {
    came: HashMap<(u32, u64), Came>,
}

impl Sent {
    ghost use Rattle.orphans.specs.Sending.{HasPlace, came_of, counted};

    /// Nothing came. This takes no memory.
    pub fn new(alloc: Global) -> Sent
        ensures { (h life : ℕ) → came_of result h life ≡ record { aborts = 0; counts = 0 } }
    {
        Sent {
            came: HashMap::new(alloc),
        }
    }

    /// What came of the sender in this life of it. This takes no memory.
    pub fn came(&self, sender: u32, life: u64) -> Came
        ensures { result ≡ came_of self.now sender life }
    {
        match self.came.get(&(sender, life)) {
            Some(came) => *came,
            None => Came {
                aborts: 0,
                counts: 0,
            },
        }
    }

    /// Makes a place for one more sender. Whether or not there is memory for it, as much has come as had.
    pub fn plan_place(&mut self) -> Result<(), AllocError>
        ensures same { (h life : ℕ) → came_of self.new h life ≡ came_of self.old h life }
        ensures place { OnOk result (HasPlace self.new) }
    {
        self.came.reserve(1)
    }

    /// Counts what came of the sender, if there is one. This cannot fail.
    pub fn count(&mut self, sender: Option<u32>, life: u64, aborts: u64, counts: u64)
        requires { HasPlace self.old }
        ensures { (h present : ℕ) → came_of self.new h present
            ≡ counted sender life aborts counts (came_of self.old) h present }
    {
        let Some(sender) = sender else {
            return;
        };
        let came = self.came(sender, life);
        let more = Came {
            aborts: came.aborts.saturating_add(aborts),
            counts: came.counts.saturating_add(counts),
        };
        let kept: Result<_, _> = self.came.insert((sender, life), more);
        kept.unwrap();
    }
}
