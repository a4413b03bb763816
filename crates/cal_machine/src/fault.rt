//! Why a text is no task table.

ghost use Rattle.std.specs.Prelude.{◌≡◌};
ghost use Rattle.cal_machine.specs.declared.fault.ConfigFault.TheVariants.{Memory};

use std::alloc::{AllocError, AllocFailed};
use thiserror::Error;

/// Why a text is no task table: the first check that fails. `fault as u8` is its number, 1 to 9.
#[derive(Clone, Copy, Debug, PartialEq, Eq, Error)]
pub enum ConfigFault {
    /// The bytes are no TOML document, or no UTF-8.
    #[error("the text is no TOML document")]
    NotToml = 1,
    /// A table has a key that means nothing there.
    #[error("a table has an unknown key")]
    UnknownKey = 2,
    /// A table lacks a key.
    #[error("a table lacks a key")]
    MissingKey = 3,
    /// A key holds a value of another type, or a task is no table.
    #[error("a value is of the wrong type")]
    WrongType = 4,
    /// A number, a kind or the number of tasks is out of range.
    #[error("a value is out of range")]
    OutOfRange = 5,
    /// A best-effort task has guaranteed cores.
    #[error("a best-effort task has guaranteed cores")]
    BestEffortGuarantee = 6,
    /// The tasks are guaranteed more cores than there are.
    #[error("more cores are guaranteed than there are")]
    GuaranteesExceedCores = 7,
    /// The limits add up to more than `MOST_THREADS` kernel threads.
    #[error("the tasks have too many kernel threads")]
    TooManyThreads = 8,
    /// Memory was refused. It may come at any place, and only there.
    #[error("out of memory")]
    Memory = 9,
}

impl From<AllocError> for ConfigFault {
    ghost from_gives = { λ _ e. e ≡ Memory };

    fn from(_e: AllocError) -> ConfigFault {
        ConfigFault::Memory
    }
}

impl<T: Drop> From<AllocFailed<T>> for ConfigFault {
    ghost from_gives = { λ _ e. e ≡ Memory };

    fn from(_e: AllocFailed<T>) -> ConfigFault {
        ConfigFault::Memory
    }
}
