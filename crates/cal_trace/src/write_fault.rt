//! Why a text could not be written.

use std::io;
use thiserror::Error;

/// Why a text could not be written. `fault as u8` is its number. After it how much was written is
/// unspecified.
#[derive(Clone, Copy, Debug, PartialEq, Eq, Error)]
pub enum WriteFault {
    /// The writer returned an error other than out of memory.
    #[error("the writer failed")]
    Write = 1,
    /// The writer answered that memory ran out.
    #[error("out of memory")]
    Memory = 2,
}

impl From<io::Error> for WriteFault {
    ghost use Rattle.std.specs.Prelude.{◌≡◌};
    ghost use Rattle.std.specs.IoError.{error_kind};
    ghost use Rattle.cal_trace.specs.WriteFault.{fault_of};

    ghost from_gives = { λ e fault. fault ≡ fault_of (error_kind e) };

    fn from(e: io::Error) -> WriteFault {
        match e.kind() {
            io::ErrorKind::OutOfMemory => WriteFault::Memory,
            _ => WriteFault::Write,
        }
    }
}
