//! The two phases of a top action.
ghost use Rattle.std.specs.Prelude.{List, ℕ};
ghost use Rattle.std.specs.Iterator.{AlwaysYields, IsFinite};
ghost use Rattle.committing.specs.TwoPhases.{AreTried, two_phases};

use action_names::Name;

/// Makes the steps by which a top action commits.
pub trait CommitSteps {
    ghost use Rattle.run_model.specs.declared.step.Step.TheVariants as steps;
    ghost use Rattle.committing.specs.TwoPhases.{Tries};

    /// Why a step could not be made.
    type Stop: Drop;

    /// That a step was tried with this result: whether it was done, or why it could not be made.
    ghost tries: { Tries Self.Stop Self };

    /// Closes the top action. Whether that was done.
    fn try_close(&mut self, top: &Name) -> Result<bool, Self::Stop>
        ensures { tries (steps.Close top.now) result self.old self.new };

    /// Lets a guardian vote on the closed top action. Whether it votes yes.
    fn try_prepare(&mut self, guardian: u32, top: &Name) -> Result<bool, Self::Stop>
        ensures { tries (steps.Prepare guardian top.now) result self.old self.new };

    /// Decides the closed top action on which all participants voted yes. Whether that was done.
    fn try_decide(&mut self, top: &Name) -> Result<bool, Self::Stop>
        ensures { tries (steps.Decide top.now) result self.old self.new };
}

/// Commits a top action by two phases: closes it, lets the participants vote in this order up to the first no, and
/// decides it if all vote yes. False at the first step that is not done; the top action can be aborted then.
pub fn commit_by_two_phases<'a, S: CommitSteps, I: Iterator<Item = &'a u32>>(
    steps: &mut S,
    top: &Name,
    participants: I,
) -> Result<bool, S::Stop>
    requires can { I.can_next participants }
    requires ends { IsFinite (I.remaining participants) }
    ensures { (guardians : List ℕ) → AlwaysYields I.next_gives (λ g. g.now) participants guardians
        → AreTried S.tries (two_phases top.now guardians) result steps.old steps.new }
{
    if !steps.try_close(top)? {
        return Ok(false);
    }
    for guardian in participants {
        if !steps.try_prepare(*guardian, top)? {
            return Ok(false);
        }
    }
    steps.try_decide(top)
}
