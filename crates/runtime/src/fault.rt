//! Why a step did not come about.

use layer_contracts::Fault;
use std::alloc::AllocError;
use thiserror::Error;

/// Why a step did not come about. After each of these all guardians stand where they stood.
#[derive(Clone, Copy, Debug, PartialEq, Eq, Drop, Error)]
pub enum StepFault {
    #[error("out of memory")]
    Memory,
    /// The store of a guardian failed, and has counted one failure more.
    #[error("a store failed")]
    Stable,
    /// The guardian has drawn its 4,294,967,296 stamps.
    #[error("a guardian has drawn all its stamps")]
    UsedUp,
}

impl From<AllocError> for StepFault {
    ghost use Rattle.std.specs.Prelude.{◌≡◌};
    ghost use Rattle.runtime.specs.declared.fault.StepFault.TheVariants.{Memory};

    ghost from_gives = { λ _ fault. fault ≡ Memory };

    fn from(_refused: AllocError) -> StepFault {
        StepFault::Memory
    }
}

impl From<Fault> for StepFault {
    ghost use Rattle.std.specs.Prelude.{◌≡◌};
    ghost use Rattle.runtime.specs.Faults.{fault_for};

    ghost from_gives = { λ given fault. fault ≡ fault_for given };

    fn from(fault: Fault) -> StepFault {
        match fault {
            Fault::Memory => StepFault::Memory,
            Fault::Stable => StepFault::Stable,
        }
    }
}
