//! The variables that are bound while a body is read.
ghost use Rattle.std.specs.Prelude.{◌≡◌, ℕ, ◌≤◌, List, [], ◌∷◌, ◌++◌, length, None, option_map, if◌then◌else◌, IfOk, OnErr};
ghost use Rattle.script_model.specs.declared.names.Sort.{Sort};
ghost use Rattle.script_model.specs.Scopes as spec;
ghost use Rattle.script_model.specs.Scopes.{find, count_bound, same_sort};
ghost use Rattle.script_parts.specs.Scoping.{variable_of, count_of};

use script_model::Sort;
use std::alloc::{AllocError, Global};
use std::collections::BTreeMap;
use std::marker::Model;

/// A variable: its sort, and its place among the variables of that sort.
#[derive(Clone, Copy)]
pub struct Variable {
    /// What it holds.
    pub sort: Sort,
    /// How many of its sort were bound before it.
    pub place: u32,
}

/// A name that is bound, and what it is.
#[derive(Clone, Copy)]
struct Bound<'j> {
    name: &'j str,
    sort: Sort,
}

/// How many variables of each sort are bound.
#[derive(Clone, Copy)]
struct Counts {
    ints: u32,
    texts: u32,
    truths: u32,
    unknown: u32,
}

/// The variables that are bound, the newest last.
#[derive(Drop)]
pub struct Scope<'j> {
    bound: Vec<Bound<'j>>,
    variables: BTreeMap<&'j str, Variable>,
    counts: Counts,
}

impl<'j> Model for Scope<'j> {
    ghost use Rattle.script_model.specs.Scopes as spec;
    ghost use Rattle.script_parts.specs.Scoping.{scope_of, IsKept};

    ghost Value = { spec.Scope };

    ghost view = { λ s. scope_of s.bound.items };

    ghost invariant = { λ s. IsKept (scope_of s.bound.items) s.variables s.counts };
}

impl Counts {
    fn of(&self, sort: Sort) -> u32
        ensures { result ≡ count_of self.now sort }
    {
        match sort {
            Sort::Int => self.ints,
            Sort::Text => self.texts,
            Sort::Truth => self.truths,
            Sort::Unknown => self.unknown,
        }
    }

    fn set(&mut self, sort: Sort, count: u32)
        ensures { (t : Sort)
            → count_of self.new t ≡ (if same_sort sort t then count else count_of self.old t) }
    {
        match sort {
            Sort::Int => self.ints = count,
            Sort::Text => self.texts = count,
            Sort::Truth => self.truths = count,
            Sort::Unknown => self.unknown = count,
        }
    }
}

impl<'j> Scope<'j> {
    /// With no variable.
    pub fn new(alloc: Global) -> Scope<'j>
        ensures { result ≡ [] }
    {
        let counts = Counts {
            ints: 0,
            texts: 0,
            truths: 0,
            unknown: 0,
        };
        Scope {
            bound: Vec::new(alloc),
            variables: BTreeMap::new(alloc),
            counts,
        }
    }

    /// How many variables are bound.
    pub fn len(&self) -> usize
        ensures { result ≡ length self.now }
    {
        self.bound.len()
    }

    /// How many variables of this sort are bound.
    pub fn count(&self, sort: Sort) -> u32
        ensures { result ≡ count_bound sort self.now }
    {
        self.counts.of(sort)
    }

    /// The variable of this name, if it is bound.
    pub fn find(&self, name: &str) -> Option<Variable>
        ensures { option_map variable_of result ≡ find self.now name.now }
    {
        self.variables.get(name).copied()
    }

    /// Binds a name that is not bound, and gives its place. Fails if memory runs out, and then
    /// binds nothing.
    pub fn bind(&mut self, name: &'j str, sort: Sort) -> Result<u32, AllocError>
        requires { find self.old name.now ≡ None }
        ensures bound { IfOk result
            (λ _. self.new ≡ record { name = name.now; sort = sort } ∷ self.old) }
        ensures place { IfOk result (λ place. place ≡ count_bound sort self.old) }
        ensures refused { OnErr result (self.new ≡ self.old) }
    {
        let place = self.counts.of(sort);
        let Some(count) = place.checked_add(1) else {
            return Err(AllocError);
        };
        self.bound.push(Bound { name, sort })?;
        match self.variables.insert(name, Variable { sort, place }) {
            Ok(_) => {
                self.counts.set(sort, count);
                Ok(place)
            }
            Err(_) => {
                self.bound.pop();
                Err(AllocError)
            }
        }
    }

    /// Forgets the newest variable, where there is one.
    fn forget_last(&mut self)
        requires { 1 ≤ length self.old }
        ensures { (b : spec.Bound) × (self.old ≡ b ∷ self.new) }
    {
        if let Some(last) = self.bound.pop() {
            self.variables.remove(last.name);
            let count = self.counts.of(last.sort).saturating_sub(1);
            self.counts.set(last.sort, count);
        }
    }

    /// Forgets the newest variables, until so many are left.
    pub fn forget_to(&mut self, len: usize)
        requires { len ≤ length self.old }
        ensures newest { (bs : List spec.Bound) × (self.old ≡ bs ++ self.new) }
        ensures left { length self.new ≡ len }
    {
        while self.len() > len {
            self.forget_last();
        }
    }
}
