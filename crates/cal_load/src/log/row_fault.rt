//! Why a log is refused.

use std::alloc::{AllocError, AllocFailed};
use std::fmt;

/// What is wrong with a row of a log.
#[derive(Clone, Copy, Debug, PartialEq, Eq)]
pub enum LogWhy {
    /// The header has no column of this name.
    NoColumn(&'static str),
    /// The header's fields are separated by this, and not by commas.
    Separated(&'static str),
    /// The header has two columns of this name.
    TwoColumns(&'static str),
    /// The header has a column of tasks, and the task is said by a word too.
    TwoTasks,
    /// There is no row of a request.
    NoRequest,
    /// It has so many fields, and the header so many.
    Fields(u64, u64),
    /// The field of this column is no number: digits, and up to nine more after a point.
    NotANumber(&'static str),
    /// Its time is before that of the row before.
    Backwards,
    /// Its field names no task of the table, which has so many.
    NotATask(u64),
    /// It comes after so many turns, the most that arrivals have.
    TooLate(u64),
    /// It takes more than so many turns.
    TooLong(u64),
    /// There are more requests than so many.
    TooMany(u64),
    /// The reader of rows answered an error other than memory. A text in memory gives none.
    Unread,
}

/// The reason in words.
impl fmt::Display for LogWhy {
    fn fmt<W: fmt::Write>(&self, f: &mut fmt::Formatter<W>) -> fmt::Result {
        match self {
            LogWhy::NoColumn(name) => write!(f, "the header has no column `{name}`"),
            LogWhy::Separated(by) => write!(
                f,
                "fields are separated by {by}; commas are wanted, and `caladan_lab log` takes either"
            ),
            LogWhy::TwoColumns(name) => write!(f, "the header has two columns `{name}`"),
            LogWhy::TwoTasks => f.write_str("the header has a column `task`, and --task is given"),
            LogWhy::NoRequest => f.write_str("no row is below the header"),
            LogWhy::Fields(fields, wanted) => {
                write!(f, "{fields} fields, and the header has {wanted}")
            }
            LogWhy::NotANumber(name) => write!(
                f,
                "`{name}` is no number: digits, and up to nine more after a point"
            ),
            LogWhy::Backwards => f.write_str(
                "`time` is before that of the row before: sort the rows by it, as `caladan_lab log` does",
            ),
            LogWhy::NotATask(tasks) => write!(
                f,
                "`task` is neither a name of --names nor a number below {tasks}"
            ),
            LogWhy::TooLate(most) => write!(f, "`time` is after {most} turns"),
            LogWhy::TooLong(most) => write!(f, "`service` is more than {most} turns"),
            LogWhy::TooMany(most) => write!(f, "more than {most} requests come"),
            LogWhy::Unread => f.write_str("cannot be read"),
        }
    }
}

/// A row of a log that is refused.
#[derive(Clone, Copy, Debug, PartialEq, Eq)]
pub struct RowFault {
    /// The row's number, from 1, which is the header's. Rows are counted as `csv` gives records.
    pub row: u64,
    /// The place of the field, from 0.
    pub field: usize,
    /// What is wrong.
    pub why: LogWhy,
}

/// Why a log is refused: a row's fault, or memory was refused.
#[derive(Clone, Copy, Debug, PartialEq, Eq)]
pub enum LogFault {
    /// A row is refused.
    Row(RowFault),
    /// Memory was refused.
    Memory,
}

impl From<AllocError> for LogFault {
    fn from(_e: AllocError) -> LogFault {
        LogFault::Memory
    }
}

impl<T: Drop> From<AllocFailed<T>> for LogFault {
    fn from(_e: AllocFailed<T>) -> LogFault {
        LogFault::Memory
    }
}

/// The fault of a field of a row.
pub(crate) fn row_fault(row: u64, field: usize, why: LogWhy) -> LogFault {
    LogFault::Row(RowFault { row, field, why })
}
