//! Walks of an action's tree.
ghost use Rattle.std.specs.Prelude.{◌≡◌, ℕ, Bool, List, IfOk, slice_get};
ghost use Rattle.run_model.specs.LocalHistories.{events_there};
ghost use Rattle.action_forest.specs.Walks.{outcome_of};

use crate::forest::Forest;
use run_model::Name;
use std::alloc::AllocError;
use step_answers::Status;

/// Who knows of which actions it was told.
pub trait Hearer {
    /// That these are the actions of which it was told.
    ghost hears: { Self → (List ℕ → Bool) → Type 0 };

    /// Whether it was told of the action.
    fn was_told(&self, action: &Name) -> bool
        ensures { (told : List ℕ → Bool) → hears self.now told → result ≡ told action.now };
}

impl Forest {
    ghost use Rattle.action_forest.specs.Forests.{AtEach};
    ghost use Rattle.action_forest.specs.Trees.{children_in, trees};
    ghost use Rattle.action_forest.specs.Walks.{AreBelow, name_there, untold_at, untold_below, untold_outcome};

    /// The ended descendants of the action of which the hearer was not told, by name, each with whether it committed.
    pub fn outcomes_below<H: Hearer>(
        &self,
        path: &[u32],
        hearer: &H,
    ) -> Result<Vec<(Name, bool)>, AllocError>
        ensures { (told : List ℕ → Bool) → H.hears hearer.now told
            → AtEach (trees self.now) (λ opening registry. IfOk result
            (λ outcomes. outcomes.items ≡ untold_below path.now told (events_there registry))) }
    {
        let places = self.descendants(path)?;
        let mut outcomes = self.outcomes_at(&places, hearer)?;
        outcomes.sort_unstable();
        Ok(outcomes)
    }

    // The places of the action's descendants, level by level.
    fn descendants(&self, path: &[u32]) -> Result<Vec<usize>, AllocError>
        ensures { AtEach (trees self.now) (λ opening registry. IfOk result
            (λ places. AreBelow (trees self.now) path.now (events_there registry) places.items)) }
    {
        let mut below = Vec::new(*self.nodes.allocator());
        let Some(start) = self.place(path) else {
            return Ok(below);
        };
        below.extend_from_slice(self.children_at(start))?;
        for next in 0..self.nodes.len() {
            let Some(at) = below.get(next).copied() else {
                break;
            };
            below.extend_from_slice(self.children_at(at))?;
        }
        Ok(below)
    }

    // Of the actions at the places the outcomes of those that have ended and of which the hearer was not told.
    fn outcomes_at<H: Hearer>(
        &self,
        places: &[usize],
        hearer: &H,
    ) -> Result<Vec<(Name, bool)>, AllocError>
        ensures { (told : List ℕ → Bool) → H.hears hearer.now told
            → AtEach (trees self.now) (λ opening registry. IfOk result (λ outcomes. outcomes.items
            ≡ untold_at (trees self.now) told (events_there registry) places.now)) }
    {
        let mut outcomes = Vec::new(*self.nodes.allocator());
        for place in places {
            if let Some(outcome) = self.outcome_at(*place, hearer)? {
                outcomes.push(outcome)?;
            }
        }
        Ok(outcomes)
    }

    // The outcome of the action at the place, if it has ended and the hearer was not told of it.
    fn outcome_at<H: Hearer>(
        &self,
        at: usize,
        hearer: &H,
    ) -> Result<Option<(Name, bool)>, AllocError>
        ensures { (told : List ℕ → Bool) → H.hears hearer.now told
            → AtEach (trees self.now) (λ opening registry. IfOk result (λ outcome. outcome
            ≡ untold_outcome told (events_there registry) (name_there (trees self.now) at))) }
    {
        let Some(node) = self.nodes.get(at) else {
            return Ok(None);
        };
        let Some(committed) = outcome_of(node.status) else {
            return Ok(None);
        };
        if hearer.was_told(&node.name) {
            return Ok(None);
        }
        Ok(Some((node.name.copy()?, committed)))
    }

    // The places of the children of the action at the place.
    fn children_at(&self, at: usize) -> &[usize]
        ensures { result.now ≡ children_in (slice_get (trees self.now).actions at) }
    {
        match self.nodes.get(at) {
            Some(node) => &node.children,
            None => &[],
        }
    }
}

// Whether an action that stands so committed, if it has ended.
fn outcome_of(status: Status) -> Option<bool>
    ensures { result ≡ outcome_of status }
{
    match status {
        Status::Active | Status::Closed => None,
        Status::Committed => Some(true),
        Status::Aborted => Some(false),
    }
}
