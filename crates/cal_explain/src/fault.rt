//! Why a pass was not explained.

use std::alloc::AllocError;
use std::io;
use thiserror::Error;

/// Why a pass was not explained to its end. After it how much was written is unspecified.
#[derive(Clone, Copy, Debug, PartialEq, Eq, Error)]
pub enum ExplainFault {
    /// Memory was refused.
    #[error("out of memory")]
    Memory,
    /// The writer returned an error.
    #[error("the writer failed")]
    Write,
}

impl From<AllocError> for ExplainFault {
    ghost use Rattle.std.specs.Prelude.{◌≡◌};
    ghost use Rattle.cal_explain.specs.declared.fault.ExplainFault.TheVariants.{Memory};

    ghost from_gives = { λ _ e. e ≡ Memory };

    fn from(_e: AllocError) -> ExplainFault {
        ExplainFault::Memory
    }
}

impl From<io::Error> for ExplainFault {
    ghost use Rattle.std.specs.Prelude.{◌≡◌};
    ghost use Rattle.cal_explain.specs.declared.fault.ExplainFault.TheVariants.{Write};

    ghost from_gives = { λ _ e. e ≡ Write };

    fn from(_e: io::Error) -> ExplainFault {
        ExplainFault::Write
    }
}
