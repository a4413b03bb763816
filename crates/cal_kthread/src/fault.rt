//! Why a turn is refused.

ghost use Rattle.std.specs.Prelude.{◌≡◌};
ghost use Rattle.cal_kthread.specs.declared.fault.TurnFault.TheVariants.{Memory};

use std::alloc::AllocError;
use thiserror::Error;

/// Why a turn is refused; nothing has changed then. `fault as u8` is its number, 1 or 2.
#[derive(Clone, Copy, Debug, PartialEq, Eq, Error)]
pub enum TurnFault {
    /// Memory was refused, for the journal or for the queue.
    #[error("out of memory")]
    Memory = 1,
    /// The journal has fewer than 6 of its 1,048,576 places left. This is checked first.
    #[error("the journal is full")]
    JournalFull = 2,
}

impl From<AllocError> for TurnFault {
    ghost from_gives = { λ _ e. e ≡ Memory };

    fn from(_e: AllocError) -> TurnFault {
        TurnFault::Memory
    }
}
