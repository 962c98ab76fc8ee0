//! The steps by which a service commits a top action.
use crate::fault::CallFault;
use crate::service::Service;
use action_names::Name;
use committing::CommitSteps;
use stepping::MakesOwnSteps;

/// A step that is refused is an error, and so only a vote is not done.
impl<W: MakesOwnSteps + Drop> CommitSteps for Service<W> {
    ghost use Rattle.service.specs.Calling.{IsCall};
    ghost use Rattle.service.specs.Trying.{IsDoneBy};

    type Stop = CallFault;

    ghost tries = { λ step result old new. IsCall W.run W.sees W.leaves step (IsDoneBy step)
        old.world new.world result };

    fn try_close(&mut self, top: &Name) -> Result<bool, CallFault> {
        self.close(top)?;
        Ok(true)
    }

    fn try_prepare(&mut self, guardian: u32, top: &Name) -> Result<bool, CallFault> {
        self.prepare(guardian, top)
    }

    fn try_decide(&mut self, top: &Name) -> Result<bool, CallFault> {
        self.decide(top)?;
        Ok(true)
    }
}
