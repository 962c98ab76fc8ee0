//! Why a call of a service did not come about.
use action_names::Names;
use layer_contracts::Fault;
use run_model::Refusal;
use std::alloc::AllocError;
use thiserror::Error;

/// Why a call did not come about. Nothing has happened then.
#[derive(Debug, Drop, Error)]
pub enum CallFault {
    /// The step is refused, for this reason.
    #[error("refused: {0:?}")]
    Refused(Refusal),
    /// The operation waits until the objects are free of what these actions did. The same call may be granted later.
    #[error("waits for other actions")]
    Waits(Names),
    /// Memory ran out, or the store of a guardian failed. The same call may succeed later.
    #[error("{0}")]
    Failed(Fault),
}

impl From<Fault> for CallFault {
    ghost use Rattle.std.specs.Prelude.{◌≡◌};
    ghost use Rattle.service.specs.declared.fault.CallFault.TheVariants.{Failed};

    ghost from_gives = { λ e fault. fault ≡ Failed e };

    fn from(fault: Fault) -> CallFault {
        CallFault::Failed(fault)
    }
}

impl From<AllocError> for CallFault {
    ghost use Rattle.std.specs.Prelude.{◌≡◌};
    ghost use Rattle.layer_contracts.specs.declared.guardian.Fault.TheVariants.{Memory};
    ghost use Rattle.service.specs.declared.fault.CallFault.TheVariants.{Failed};

    ghost from_gives = { λ _ fault. fault ≡ Failed Memory };

    fn from(_refused: AllocError) -> CallFault {
        CallFault::Failed(Fault::Memory)
    }
}
