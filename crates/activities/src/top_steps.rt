//! The steps by which an activity commits a top action.
use crate::activity_steps::ActivitySteps;
use crate::open_action::{prepare, try_step};
use action_names::Name;
use committing::CommitSteps;
use run_model::Step;
use stepping::Fault;

/// Makes these steps of an activity.
#[derive(Drop)]
pub(crate) struct TopSteps<'w, W: ActivitySteps> {
    pub(crate) world: &'w mut W,
}

impl<'w, W: ActivitySteps> CommitSteps for TopSteps<'w, W> {
    ghost use Rattle.std.specs.Prelude.{◌≡◌};
    ghost use Rattle.activities.specs.TopSteps.{IsTried};

    type Stop = Fault;

    ghost tries = { λ step result old new. (new.world.ghost_name ≡ old.world.ghost_name)
        × IsTried W.alone W.fails step result (W.run old.world.now) (W.run new.world.now) };

    fn try_close(&mut self, top: &Name) -> Result<bool, Fault> {
        try_step(self.world, Step::Close(top.copy()?))
    }

    fn try_prepare(&mut self, guardian: u32, top: &Name) -> Result<bool, Fault> {
        prepare(self.world, guardian, top)
    }

    fn try_decide(&mut self, top: &Name) -> Result<bool, Fault> {
        try_step(self.world, Step::Decide(top.copy()?))
    }
}
