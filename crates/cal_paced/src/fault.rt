//! Why arrivals cannot be paced.

ghost use Rattle.std.specs.Prelude.{◌≡◌};
ghost use Rattle.cal_paced.specs.declared.fault.PaceFault.TheVariants.{Memory};

use std::alloc::AllocError;
use thiserror::Error;

/// Why arrivals cannot be paced.
#[derive(Clone, Copy, Debug, PartialEq, Eq, Error)]
pub enum PaceFault {
    /// Memory was refused.
    #[error("out of memory")]
    Memory,
    /// There is not one pass row for each turn.
    #[error("there are not as many passes as turns")]
    Rows,
    /// More passes would come of them than a history has room for.
    #[error("there are more than 1,048,576 passes")]
    Passes,
    /// No run can go by the plan. `paced_arrivals` never answers it.
    #[error("a turn has at least one pass, and does at most all of its work")]
    NoPlan,
    /// The figures are to be those that the threads show, and no request has misses.
    /// `paced_arrivals` never answers it.
    #[error("no request has misses that could be shown")]
    NoMisses,
}

impl From<AllocError> for PaceFault {
    ghost from_gives = { λ _ e. e ≡ Memory };

    fn from(_e: AllocError) -> PaceFault {
        PaceFault::Memory
    }
}
