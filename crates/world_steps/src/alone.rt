ghost use Rattle.std.specs.Prelude.{◌≡◌, ◌≤◌, ℕ, [], IfOk, MatchOption, IsTrue, None};
ghost use Rattle.world_steps.specs.Lending.{IsSaidAlone};

use action_names::Name;
use atomic_types::AtomicType;
use layer_contracts::Forest;
use run_model::{Answer, ObjectId, Op, Opening};
use std::alloc::{AllocError, Global};
use step_answers::{Actor, Reads, ReadsAction, Worker};

/// What a step reads that is lent the forest alone.
#[derive(Drop)]
pub struct Alone<'a, R> {
    pub alloc: Global,
    pub forest: &'a R,
}

impl<'a, R: Forest> ReadsAction for Alone<'a, R> {
    ghost says = { λ x. IsSaidAlone (R.stands x.forest.now) };

    fn opening(&self) -> &Opening {
        self.forest.opening()
    }

    fn worker(&self, action: &Name) -> Option<Worker> {
        Some(self.forest.actor(action)?.worker())
    }

    fn is_gone(&self, _action: &Name, _home: u32) -> bool {
        false
    }

    fn is_orphan(&self, _action: &Name, _home: u32) -> Result<bool, AllocError> {
        Ok(false)
    }

    fn operated(
        &self,
        action: &Name,
        object: ObjectId,
        operation: &Op,
    ) -> Result<Answer, AllocError> {
        let mut content = self.forest.opening().first_content(object)?;
        Ok(Answer::Granted(content.apply(operation)?))
    }
}

impl<'a, R: Forest> Reads for Alone<'a, R> {
    fn alloc(&self) -> Global {
        self.alloc
    }

    fn actor(&self, action: &Name) -> Option<Actor> {
        self.forest.actor(action)
    }

    fn is_ready(&self, top: &Name) -> bool {
        self.forest.is_ready(top)
    }

    fn next(&self, path: &[u32]) -> u64 {
        self.forest.next(path)
    }

    fn is_down(&self, _guardian: u32) -> bool {
        false
    }

    fn takes_part(&self, guardian: u32, top: &Name) -> bool {
        self.forest.dependency(top, guardian).is_some()
    }

    fn has_voted(&self, guardian: u32, top: &Name) -> bool {
        self.forest.has_voted(guardian, top)
    }

    fn was_told(&self, _guardian: u32, _action: &Name) -> bool {
        false
    }

    fn votes_yes(&self, guardian: u32, top: &Name) -> bool {
        self.forest.dependency(top, guardian) == Some(0)
    }

    fn told_count(&self, _guardian: u32, _action: &Name) -> Result<u64, AllocError> {
        Ok(0)
    }
}
