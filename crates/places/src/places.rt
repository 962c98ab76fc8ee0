//! The places of names.
ghost use Rattle.std.specs.Prelude.{◌≡◌, ◌<◌, ◌≤◌, [], ◌∷◌, get_or, length, IfOk, Some};
ghost use Rattle.action_names.specs.Names.{IsName, is_ancestor, parent_of};
ghost use Rattle.places.specs.Placed.{AreMore, place_in};

use crate::children::Children;
use action_names::Name;
use std::alloc::{AllocError, Global};
use std::collections::HashMap;
use std::marker::Model;

/// A name: its last number, the place of its parent, and the places of its children.
#[derive(Drop)]
struct Node {
    number: u32,
    parent: Option<usize>,
    children: Children,
}

/// Names that have a place, from 0 on in the order in which they came. They form a tree, parents first: a child is
/// found by its parent's place and its own number. A place stays, and so does what stands there.
#[derive(Drop)]
pub struct Places {
    nodes: Vec<Node>,
    tops: HashMap<u32, usize>,
}

impl Model for Places {
    ghost use Rattle.std.specs.Prelude.{List, nat_eq};
    ghost use Rattle.std.specs.HashMap as hash;
    ghost use Rattle.action_names.specs.Names.{Name};
    ghost use Rattle.places.specs.Trees.{IsTree, names_by};

    ghost Value = { List Name };

    ghost view = { λ a. names_by a.nodes.items };

    ghost invariant = { λ a. IsTree a.nodes.items (λ n. hash.get nat_eq a.tops n) };
}

impl Places {
    /// No name has a place. This takes no memory.
    pub fn new(alloc: Global) -> Places
        ensures { result ≡ [] }
    {
        Places {
            nodes: Vec::new(alloc),
            tops: HashMap::new(alloc),
        }
    }

    /// How many names have a place. This takes no memory, as no reading below does.
    pub fn len(&self) -> usize
        ensures { result ≡ length self.now }
    {
        self.nodes.len()
    }

    /// The place of the action, if it has one.
    pub fn find(&self, action: &Name) -> Option<usize>
        ensures { result ≡ place_in self.now action.now }
    {
        let Some((top, below)) = action.components().split_first() else {
            unreachable!();
        };
        let mut at = *self.tops.get(top)?;
        for number in below {
            at = self.nodes[at].children.get(*number)?;
        }
        Some(at)
    }

    /// The place of the parent of the action at the place, if it has a parent.
    pub fn parent(&self, at: usize) -> Option<usize>
        requires { at < length self.now }
        ensures { result ≡ place_in self.now (parent_of (get_or self.now at [])) }
    {
        self.nodes[at].parent
    }

    /// Whether the action at the place above is an ancestor of the one at the other place. An action is an ancestor of
    /// itself.
    pub fn is_ancestor(&self, above: usize, of: usize) -> bool
        requires above { above < length self.now }
        requires of { of < length self.now }
        ensures { result ≡ is_ancestor (get_or self.now above []) (get_or self.now of []) }
    {
        let mut at = of;
        while at != above {
            match self.nodes[at].parent {
                Some(parent) => at = parent,
                None => return false,
            }
        }
        true
    }

    /// Makes places for the action and its ancestors, where they have none, and gives the action's. What had a place
    /// keeps it, also if memory runs out.
    pub fn provide(&mut self, action: &Name) -> Result<usize, AllocError>
        ensures named { IsName action.now }
        ensures more { AreMore self.old self.new }
        ensures place { IfOk result (λ at. place_in self.new action.now ≡ Some at) }
    {
        let Some((top, below)) = action.components().split_first() else {
            unreachable!();
        };
        let mut at = self.provide_top(*top)?;
        for number in below {
            at = self.provide_child(at, *number)?;
        }
        Ok(at)
    }
}

impl Places {
    ghost use Rattle.action_names.specs.Names.{child_of};

    // Makes a place for the top action of this number, where it has none.
    fn provide_top(&mut self, number: u32) -> Result<usize, AllocError>
        requires { 1 ≤ number }
        ensures more { AreMore self.old self.new }
        ensures place { IfOk result (λ at. place_in self.new (number ∷ []) ≡ Some at) }
    {
        if let Some(at) = self.tops.get(&number) {
            return Ok(*at);
        }
        self.nodes.reserve(1)?;
        let at = self.nodes.len();
        self.tops.insert(number, at)?;
        self.nodes.push_reserved(Node {
            number,
            parent: None,
            children: Children::new(*self.nodes.allocator()),
        });
        Ok(at)
    }

    // Makes a place for the child of this number of the action at the place, where it has none.
    fn provide_child(&mut self, parent: usize, number: u32) -> Result<usize, AllocError>
        requires parent { parent < length self.old }
        requires name { IsName (child_of (get_or self.old parent []) number) }
        ensures more { AreMore self.old self.new }
        ensures place { IfOk result
            (λ at. place_in self.new (child_of (get_or self.old parent []) number) ≡ Some at) }
    {
        if let Some(at) = self.nodes[parent].children.get(number) {
            return Ok(at);
        }
        self.nodes.reserve(1)?;
        let at = self.nodes.len();
        self.nodes[parent].children.insert(number, at)?;
        self.nodes.push_reserved(Node {
            number,
            parent: Some(parent),
            children: Children::new(*self.nodes.allocator()),
        });
        Ok(at)
    }
}
