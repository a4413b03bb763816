//! Why a run came to no outcome.

ghost use Rattle.std.specs.Prelude.{◌≡◌};
ghost use Rattle.cal_run.specs.declared.fault.SimFault.TheVariants.{Memory};

use std::alloc::AllocError;
use thiserror::Error;

/// Why a run came to no outcome. `fault as u8` is its number, 1 to 3.
#[derive(Clone, Copy, Debug, PartialEq, Eq, Error)]
pub enum SimFault {
    /// Memory was refused.
    #[error("out of memory")]
    Memory = 1,
    /// A thread could not be started. Only a run of threads answers it.
    #[error("a thread could not be started")]
    Spawn = 2,
    /// The gate ended a worker. Only a run of threads answers it.
    #[error("the gate ended a worker")]
    Gate = 3,
}

impl From<AllocError> for SimFault {
    ghost from_gives = { λ _ e. e ≡ Memory };

    fn from(_e: AllocError) -> SimFault {
        SimFault::Memory
    }
}
