//! The aborts that a guardian knows, in the order in which it learnt them, and found by name.
ghost use Rattle.std.specs.Prelude.{◌≡◌, ◌≤◌, ◌+◌, ◌∷◌, [], ℕ, take, IfOk, OnOk, length, vec_len};
ghost use Rattle.action_names.specs.Names.{has_name};
ghost use Rattle.run_model.specs.LocalReadings.{learnt};
ghost use Rattle.orphans.specs.Indexes.{IsIndex};

use run_model::Name;
use std::alloc::{AllocError, Global};
use std::collections::HashSet;

/// The name of an action that aborted, and its path once more, by which the index finds it.
#[derive(Drop)]
pub struct Abort {
    name: Name,
    path: Vec<u32>,
    ghost same: { path.items ≡ name },
}

/// Names, the oldest first, and an index of their paths.
#[derive(Drop)]
pub struct Log {
    names: Vec<Name>,
    paths: HashSet<Vec<u32>>,
    ghost indexed: { IsIndex names.items paths.keys },
}

impl Abort {
    ghost use Rattle.orphans.specs.Logs.{name_of};

    /// A copy of the name, with its path.
    pub fn of(alloc: Global, name: &Name) -> Result<Abort, AllocError>
        ensures { IfOk result (λ abort. name_of abort ≡ name.now) }
    {
        Ok(Abort {
            name: name.copy()?,
            path: Vec::from_slice(alloc, name.components())?,
        })
    }
}

impl Log {
    ghost use Rattle.orphans.specs.Logs.{HasRoom, known_names, name_of, names_of};

    /// No names. This takes no memory.
    pub fn new(alloc: Global) -> Log
        ensures { known_names result ≡ [] }
    {
        Log {
            names: Vec::new(alloc),
            paths: HashSet::new(alloc),
        }
    }

    /// Makes room for so many more names. Whether or not there is memory for it, the log has the names that it had.
    pub fn plan_room(&mut self, more: usize) -> Result<(), AllocError>
        ensures names { known_names self.new ≡ known_names self.old }
        ensures room { OnOk result (HasRoom self.new more) }
    {
        self.names.reserve(more)?;
        self.paths.reserve(more)
    }

    /// Takes the names, the last of them first, and puts those in that it lacks. This cannot fail.
    pub fn learn(&mut self, aborts: &mut Vec<Abort>)
        requires { HasRoom self.old (vec_len aborts.old) }
        ensures { known_names self.new ≡ learnt (names_of aborts.old.items) (known_names self.old) }
    {
        while let Some(abort) = aborts.pop() {
            self.put(abort);
        }
    }

    /// Whether the log has the name of this path. This takes no memory.
    pub fn contains(&self, path: &[u32]) -> bool
        ensures { result ≡ has_name (known_names self.now) path.now }
    {
        self.paths.contains(path)
    }

    /// How many names it has.
    pub fn len(&self) -> usize
        ensures { result ≡ length (known_names self.now) }
    {
        self.names.len()
    }

    /// Copies of the newest so many names, the newest first.
    pub fn newest(&self, count: usize) -> Result<Vec<Name>, AllocError>
        requires { count ≤ length (known_names self.now) }
        ensures { IfOk result (λ names. names.items ≡ take count (known_names self.now)) }
    {
        let mut newest = Vec::with_capacity(*self.names.allocator(), count)?;
        for back in 0..count {
            newest.push(self.names[self.names.len() - 1 - back].copy()?)?;
        }
        Ok(newest)
    }

    // Puts a name in, if the log lacks it.
    fn put(&mut self, abort: Abort)
        requires { HasRoom self.old 1 }
        ensures names { known_names self.new ≡ learnt (name_of abort ∷ []) (known_names self.old) }
        ensures room { (n : ℕ) → HasRoom self.old (n + 1) → HasRoom self.new n }
    {
        let Abort { name, path } = abort;
        let inserted: Result<_, _> = self.paths.insert(path);
        if inserted.unwrap() {
            self.names.push_reserved(name);
        }
    }
}
