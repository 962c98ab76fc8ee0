//! Lists of names.
ghost use Rattle.std.specs.Prelude.{◌≡◌, ◌==◌, ◌++◌, [], ◌∷◌, length, OnOk, OnErr, IfOk, IfErr};
ghost use Rattle.action_names.specs.Names.{has_name};

use crate::name::Name;
use std::alloc::{AllocError, AllocFailed, Global};
use std::marker::Model;

/// A list of names, in any order and with repetitions.
#[derive(Debug, Drop)]
pub struct Names {
    names: Vec<Name>,
}

impl Model for Names {
    ghost use Rattle.std.specs.Prelude.{List, ℕ};

    ghost Value = { List (List ℕ) };

    ghost view = { λ a. a.names.items };
}

impl Names {
    /// No names. This takes no memory.
    pub fn new(alloc: Global) -> Self
        ensures { result ≡ [] }
    {
        Names {
            names: Vec::new(alloc),
        }
    }

    /// The names of a vector.
    pub fn from_vec(names: Vec<Name>) -> Self
        ensures { result ≡ names.items }
    {
        Names { names }
    }

    /// The names as a vector.
    pub fn into_vec(self) -> Vec<Name>
        ensures { result.items ≡ self }
    {
        let Names { names } = self;
        names
    }

    /// The names as a slice.
    pub fn as_slice(&self) -> &[Name]
        ensures { result.now ≡ self.now }
    {
        &self.names
    }

    /// How many names there are, each repetition counted.
    pub fn len(&self) -> usize
        ensures { result ≡ length self.now }
    {
        self.names.len()
    }

    /// Whether there is no name.
    pub fn is_empty(&self) -> bool
        ensures { result ≡ (length self.now == 0) }
    {
        self.names.is_empty()
    }

    /// Puts a name at the end. Where memory runs out, the list stays as it was and the name comes back.
    pub fn push(&mut self, name: Name) -> Result<(), AllocFailed<Name>>
        ensures ok { OnOk result (self.new ≡ self.old ++ name ∷ []) }
        ensures err { OnErr result (self.new ≡ self.old) }
        ensures name_returned { IfErr result (λ failed. failed.value ≡ name) }
    {
        self.names.push(name)
    }

    /// A copy of the list, name by name.
    pub fn copy(&self) -> Result<Names, AllocError>
        ensures { IfOk result (λ names. names ≡ self.now) }
    {
        let mut names = Vec::with_capacity(*self.names.allocator(), self.names.len())?;
        for name in &self.names {
            names.push(name.copy()?)?;
        }
        Ok(Names { names })
    }

    /// Whether the name is in the list.
    pub fn contains(&self, name: &Name) -> bool
        ensures { result ≡ has_name self.now name.now }
    {
        self.names.contains(name)
    }
}
