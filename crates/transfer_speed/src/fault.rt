//! Why the program ends early.
use run_model::SetupFault;
use service::CallFault;
use std::alloc::AllocError;
use std::io;
use thiserror::Error;
use values::ValueFault;
use world::Fault;

/// Why the program ends early.
#[derive(Clone, Copy, Debug, PartialEq, Eq, Drop, Error)]
pub(crate) enum SpeedFault {
    #[error("out of memory")]
    Memory,
    #[error("the words are not: step N, or transact N")]
    Words,
    #[error("a step was refused, waited or failed")]
    Step,
    #[error("the setup is none, or the field has no name")]
    Setup,
    #[error("the output cannot be written")]
    Output,
}

impl From<AllocError> for SpeedFault {
    fn from(_refused: AllocError) -> SpeedFault {
        SpeedFault::Memory
    }
}

impl From<Fault> for SpeedFault {
    fn from(fault: Fault) -> SpeedFault {
        match fault {
            Fault::Memory => SpeedFault::Memory,
            Fault::Stable => SpeedFault::Step,
        }
    }
}

impl From<CallFault> for SpeedFault {
    fn from(fault: CallFault) -> SpeedFault {
        match fault {
            CallFault::Refused(_) | CallFault::Waits(_) => SpeedFault::Step,
            CallFault::Failed(fault) => SpeedFault::from(fault),
        }
    }
}

impl From<SetupFault> for SpeedFault {
    fn from(fault: SetupFault) -> SpeedFault {
        match fault {
            SetupFault::Memory => SpeedFault::Memory,
            SetupFault::Bad => SpeedFault::Setup,
        }
    }
}

impl From<ValueFault> for SpeedFault {
    fn from(fault: ValueFault) -> SpeedFault {
        match fault {
            ValueFault::Memory => SpeedFault::Memory,
            ValueFault::Unfit => SpeedFault::Setup,
        }
    }
}

impl From<io::Error> for SpeedFault {
    fn from(_error: io::Error) -> SpeedFault {
        SpeedFault::Output
    }
}
