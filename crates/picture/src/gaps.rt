//! When guardians were down.
ghost use Rattle.std.specs.Prelude.{◌≡◌, [], ◌∷◌, suc, length, List, OnOk};
ghost use Rattle.run_model.specs.declared.history.Event.{Event};
ghost use Rattle.run_model.specs.declared.answer.Answer.{Answer};
ghost use Rattle.picture.specs.Layouts.{AreGaps};

use run_model::Step;
use std::alloc::{AllocError, Global};
use std::collections::BTreeMap;

/// From a crash of a guardian to its recovery, by the numbers of these events.
#[derive(Clone, Copy, Debug, PartialEq, Eq)]
pub struct Gap {
    pub guardian: u32,
    pub crash: u64,
    pub recovery: u64,
}

/// The gaps in the lanes of guardians.
#[derive(Drop)]
pub struct Gaps {
    /// Those that recoveries have ended, in order of the recoveries.
    pub ended: Vec<Gap>,
    /// For each guardian that is down, the number of its crash.
    pub down: BTreeMap<u32, u64>,
}

impl Gaps {
    /// No guardian has crashed.
    pub(crate) fn new(alloc: Global) -> Gaps
        ensures { AreGaps result [] }
    {
        Gaps {
            ended: Vec::new(alloc),
            down: BTreeMap::new(alloc),
        }
    }

    /// Adds the crash or the recovery that the step of this number is, if it is one.
    pub(crate) fn add(&mut self, number: u64, step: &Step) -> Result<(), AllocError>
        ensures { (past : List Event) (answer : Answer) → AreGaps self.old past
            → number ≡ suc (length past)
            → OnOk result (AreGaps self.new (record { step = step.now; answer = answer } ∷ past)) }
    {
        match step {
            Step::Crash(guardian) => {
                self.down.insert(*guardian, number)?;
            }
            Step::Recover(guardian) => {
                if let Some(crash) = self.down.remove(guardian) {
                    self.ended.push(Gap {
                        guardian: *guardian,
                        crash,
                        recovery: number,
                    })?;
                }
            }
            _ => (),
        }
        Ok(())
    }
}
