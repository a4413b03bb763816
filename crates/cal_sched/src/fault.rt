//! Why a pass is refused.

ghost use Rattle.std.specs.Prelude.{◌≡◌};
ghost use Rattle.cal_sched.specs.declared.fault.PassFault.TheVariants.{Memory};

use std::alloc::AllocError;
use thiserror::Error;

/// Why a pass is refused; nothing has changed then. `fault as u8` is its number, 1 or 2.
#[derive(Clone, Copy, Debug, PartialEq, Eq, Error)]
pub enum PassFault {
    /// Memory was refused.
    #[error("out of memory")]
    Memory = 1,
    /// The history has 1,048,576 passes. This is checked first.
    #[error("the history is full")]
    HistoryFull = 2,
}

impl From<AllocError> for PassFault {
    ghost from_gives = { λ _ e. e ≡ Memory };

    fn from(_e: AllocError) -> PassFault {
        PassFault::Memory
    }
}
