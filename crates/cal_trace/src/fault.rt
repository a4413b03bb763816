//! Why a file cannot be read.

ghost use Rattle.std.specs.Prelude.{◌≡◌};
ghost use Rattle.cal_trace.specs.declared.fault.FaultKind.TheVariants.{Memory};

use std::alloc::{AllocError, AllocFailed};
use std::{error, fmt};
use thiserror::Error;

/// What is wrong with a row. `kind as u8` is its number, 1 to 9.
///
/// A file's fault is the first of its rows that has one; within a row the checks come in the order
/// `Fields`, `Order` for the row's kind at its place, `Number`, `Order` for its thread, its turn or
/// its count, `Range`, `Backwards`, `Repeated`.
#[derive(Clone, Copy, Debug, PartialEq, Eq)]
pub enum FaultKind {
    /// The reader of rows answered an error other than memory. A text in memory gives none.
    Read = 1,
    /// The first row is not the file's header, or there is none. Another version is no header
    /// either.
    Header = 2,
    /// The first field is none that the file knows, or the row has another number of fields.
    Fields = 3,
    /// A field is not a number: `0`, or digits with no zero in front, below 2^64.
    Number = 4,
    /// The row may not come here, is missing, comes after the end row, is of another thread than
    /// the next, counts wrongly, or is a request that does not come after the last one.
    Order = 5,
    /// A number is out of its range.
    Range = 6,
    /// A whole look does not follow the thread's earlier ones. It comes in signals alone.
    Backwards = 7,
    /// Memory was refused. It may come at any row, and only there.
    Memory = 8,
    /// The id of a request came before. It comes in arrivals alone.
    Repeated = 9,
}

impl FaultKind {
    // What is said of the row.
    fn words(&self) -> &'static str {
        match self {
            FaultKind::Read => "cannot be read",
            FaultKind::Header => "is not the header",
            FaultKind::Fields => "has the wrong fields",
            FaultKind::Number => "has a field that is no number",
            FaultKind::Order => "cannot stand here",
            FaultKind::Range => "is out of range",
            FaultKind::Backwards => "goes back",
            FaultKind::Memory => "could not be kept, out of memory",
            FaultKind::Repeated => "repeats an identity",
        }
    }
}

impl fmt::Display for FaultKind {
    fn fmt<W: fmt::Write>(&self, f: &mut fmt::Formatter<W>) -> fmt::Result {
        f.write_str(self.words())
    }
}

impl error::Error for FaultKind {}

/// Why a file cannot be read: the row, from 1, and what is wrong with it.
///
/// Rows are counted as `csv` gives records, so blank lines are none. A missing row has the number
/// after the last.
#[derive(Clone, Copy, Debug, PartialEq, Eq, Error)]
#[error("row {row} {kind}")]
pub struct TraceFault {
    /// The row's number, from 1.
    pub row: u64,
    /// What is wrong with it.
    pub kind: FaultKind,
}

impl From<AllocError> for FaultKind {
    ghost from_gives = { λ _ e. e ≡ Memory };

    fn from(_e: AllocError) -> FaultKind {
        FaultKind::Memory
    }
}

impl<T: Drop> From<AllocFailed<T>> for FaultKind {
    ghost from_gives = { λ _ e. e ≡ Memory };

    fn from(_e: AllocFailed<T>) -> FaultKind {
        FaultKind::Memory
    }
}
