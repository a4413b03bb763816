//! Files of comings: to which turn each request of some arrivals came, and how many more came and are
//! left out of them.

pub mod file;
pub mod reading;
pub mod text;

use crate::arrivals::Arrival;
use cal_machine::Listed;

/// To which turn the request of an arrival came.
#[derive(Clone, Copy, Debug, PartialEq, Eq)]
pub struct Coming {
    /// The arrival.
    pub arrival: Arrival,
    /// The number of the turn, from 0: that of the arrival, or an earlier one.
    pub turn: u64,
}

/// How many requests of a task are left out of some arrivals, since they found no free turn.
#[derive(Clone, Copy, Debug, PartialEq, Eq)]
pub struct LeftOut {
    /// The number of the task.
    pub task: u64,
    /// How many, at least one.
    pub count: u64,
}

/// What a file of comings holds.
#[derive(Drop)]
pub struct Comings {
    /// To which turn each request came, in the order of the arrivals.
    pub requests: Listed<Coming>,
    /// How many are left out, of each task of which some are, in task order.
    pub left_out: Listed<LeftOut>,
}
