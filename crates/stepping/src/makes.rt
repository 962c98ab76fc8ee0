ghost use Rattle.std.specs.Prelude.{◌≡◌, IfOk, OnErr, Option};
ghost use Rattle.run_model.specs.Answers.{answer_of};
ghost use Rattle.run_model.specs.Openings.{opening_in};
ghost use Rattle.run_model.specs.Runs.{IsRun, World, world_after};
ghost use Rattle.layer_contracts.specs.Stores.{fault_in};
ghost use Rattle.layer_contracts.specs.declared.guardian.Fault.{Fault};
ghost use Rattle.run_model.specs.declared.step.Step.{Step};

use layer_contracts::Fault;
use run_model::{Answer, Opening, Step};

/// A world in which steps are made. Contracts see of it its run, and how a step leaves its stores.
pub trait MakesSteps {
    /// The opening, in lists, and what has happened since.
    ghost run: { Self → World };

    /// That a step, which may have failed so, leaves the stores of the world so.
    ghost leaves: { Step → Option Fault → Self → Self → Type 0 };

    /// Makes one step and gives its answer. An accepted step has happened from then on, with its answer; one that is
    /// refused or waits changes nothing. After an error the world is as it was.
    fn step(&mut self, step: &Step) -> Result<Answer, Fault>
        ensures answer { IfOk result (λ answer. answer
            ≡ answer_of (opening_in (run self.old).lists) step.now (run self.old).past) }
        ensures after { IfOk result
            (λ answer. run self.new ≡ world_after (run self.old) step.now answer) }
        ensures err { OnErr result (run self.new ≡ run self.old) }
        ensures stores { leaves step.now (fault_in result) self.old self.new };

    /// The opening from which it began. What has happened since is a run of it.
    fn opening(&self) -> &Opening
        ensures opening { result.now ≡ (run self.now).lists }
        ensures is_run { IsRun (opening_in (run self.now).lists) (run self.now).past };
}
