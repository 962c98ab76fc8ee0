use stable_store::StoreFault;
use std::alloc::AllocError;
use thiserror::Error;

/// Why a system was not opened again.
#[derive(Clone, Copy, Debug, PartialEq, Eq, Drop, Error)]
pub enum Refused {
    /// An allocation was refused.
    #[error("out of memory")]
    Memory,
    /// A store failed.
    #[error("a store failed")]
    Stable,
    /// A store holds no content, or not that of a guardian of this system.
    #[error("not the stores of this system")]
    NotOurs,
}

impl From<StoreFault> for Refused {
    ghost use Rattle.std.specs.Prelude.{◌≡◌};
    ghost use Rattle.store_recovery.specs.Faults.{refused_by};

    ghost from_gives = { λ fault refused. refused ≡ refused_by fault };

    fn from(fault: StoreFault) -> Refused {
        match fault {
            StoreFault::Memory => Refused::Memory,
            StoreFault::Failed => Refused::Stable,
            StoreFault::NotOurs => Refused::NotOurs,
        }
    }
}

impl From<AllocError> for Refused {
    ghost use Rattle.std.specs.Prelude.{◌≡◌};
    ghost use Rattle.store_recovery.specs.declared.refused.Refused.TheVariants.{Memory};

    ghost from_gives = { λ _ refused. refused ≡ Memory };

    fn from(_refused: AllocError) -> Refused {
        Refused::Memory
    }
}
