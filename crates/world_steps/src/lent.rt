ghost use Rattle.std.specs.Prelude.{◌≡◌, ◌≤◌, ℕ, [], IfOk, MatchOption, IsTrue, None};
ghost use Rattle.layer_contracts.specs.Guardians.{GuardianState, lent_two};
ghost use Rattle.world_steps.specs.Lending.{IsSaidByTwo, StandsAt};

use action_names::Name;
use atomic_types::AtomicType;
use layer_contracts::{Forest, Guardian};
use run_model::{Answer, ObjectId, Op, Opening};
use std::alloc::{AllocError, Global};
use step_answers::{Actor, Reads, ReadsAction, Worker};

/// What a step reads that is lent the forest and two guardians, or one guardian twice.
#[derive(Drop)]
pub struct Lent<'a, R, G> {
    pub alloc: Global,
    pub forest: &'a R,
    pub first: &'a G,
    pub second: &'a G,
}

impl<'a, R: Forest, G: Guardian> Lent<'a, R, G> {
    /// The guardian of this number, if it is lent.
    pub fn at(&self, guardian: u32) -> Option<&'a G>
        ensures { (a b : GuardianState) → G.stands self.now.first.now a
            → G.stands self.now.second.now b → MatchOption result (lent_two a b guardian ≡ [])
            (λ x. StandsAt (G.stands x.now) a b guardian) }
    {
        if self.first.number() == guardian {
            return Some(self.first);
        }
        if self.second.number() == guardian {
            return Some(self.second);
        }
        None
    }
}

impl<'a, R: Forest, G: Guardian> ReadsAction for Lent<'a, R, G> {
    ghost says = { λ x.
        IsSaidByTwo (R.stands x.forest.now) (G.stands x.first.now) (G.stands x.second.now) };

    fn opening(&self) -> &Opening {
        self.forest.opening()
    }

    fn worker(&self, action: &Name) -> Option<Worker> {
        Some(self.forest.actor(action)?.worker())
    }

    fn is_gone(&self, action: &Name, home: u32) -> bool {
        match self.at(home) {
            Some(guardian) => guardian.is_gone(action),
            None => false,
        }
    }

    fn is_orphan(&self, action: &Name, home: u32) -> Result<bool, AllocError> {
        match self.at(home) {
            Some(guardian) => guardian.is_orphan(action),
            None => Ok(false),
        }
    }

    fn operated(
        &self,
        action: &Name,
        object: ObjectId,
        operation: &Op,
    ) -> Result<Answer, AllocError> {
        match self.at(object.guardian) {
            Some(guardian) => guardian.operated(action, object, operation),
            None => {
                let mut content = self.forest.opening().first_content(object)?;
                Ok(Answer::Granted(content.apply(operation)?))
            }
        }
    }
}

impl<'a, R: Forest, G: Guardian> Reads for Lent<'a, R, G> {
    fn alloc(&self) -> Global {
        self.alloc
    }

    fn actor(&self, action: &Name) -> Option<Actor> {
        self.forest.actor(action)
    }

    fn is_ready(&self, top: &Name) -> bool {
        self.forest.is_ready(top)
    }

    fn next(&self, path: &[u32]) -> u64 {
        self.forest.next(path)
    }

    fn is_down(&self, guardian: u32) -> bool {
        match self.at(guardian) {
            Some(guardian) => guardian.is_down(),
            None => false,
        }
    }

    fn takes_part(&self, guardian: u32, top: &Name) -> bool {
        self.forest.dependency(top, guardian).is_some()
    }

    fn has_voted(&self, guardian: u32, top: &Name) -> bool {
        self.forest.has_voted(guardian, top)
    }

    fn was_told(&self, guardian: u32, action: &Name) -> bool {
        match self.at(guardian) {
            Some(guardian) => guardian.was_told(action),
            None => false,
        }
    }

    fn votes_yes(&self, guardian: u32, top: &Name) -> bool {
        let crashes = match self.at(guardian) {
            Some(guardian) => guardian.crashes(),
            None => 0,
        };
        self.forest.dependency(top, guardian) == Some(crashes)
    }

    fn told_count(&self, guardian: u32, action: &Name) -> Result<u64, AllocError> {
        let committed = self.forest.is_committed(action);
        match self.at(guardian) {
            Some(guardian) => guardian.told_count(action, committed),
            None => Ok(0),
        }
    }
}
