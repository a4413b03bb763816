//! Requests that a log has, in place of those of a load.

mod columns;
mod giving;
mod length;
mod logged;
mod reading;
mod row_fault;

pub use columns::LogTerms;
pub use length::{LogScale, UNITS, scale_of};
pub use logged::{logged_arrivals, turns_for};
pub use reading::read_log;
pub use row_fault::{LogFault, LogWhy, RowFault};

/// A request of a log.
#[derive(Clone, Copy, Debug, PartialEq, Eq)]
pub struct LogRow {
    /// The number of its task.
    pub task: usize,
    /// The turn in which its time falls, from 0.
    pub turn: u64,
    /// How many turns it takes, 1 to `MOST_WORK`.
    pub work: u64,
}
