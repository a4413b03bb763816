//! Files of arrivals: the passes and turns of a run, and the requests that come to its threads.

pub mod file;
pub mod ids;
pub mod reading;
pub mod text;

use cal_machine::{Listed, Request};

/// A pass that is to be made: its clock and its bandwidth figure.
#[derive(Clone, Copy, Debug, PartialEq, Eq)]
pub struct GivenPass {
    /// The clock, in ticks.
    pub now: u64,
    /// The bandwidth figure, in the unit of the table's limit.
    pub bandwidth: u64,
}

/// A request that comes to a thread at the beginning of one of its turns.
#[derive(Clone, Copy, Debug, PartialEq, Eq)]
pub struct Arrival {
    /// The number of the thread.
    pub thread: u8,
    /// The number of the turn, from 0.
    pub turn: u64,
    /// The request.
    pub request: Request,
}

/// What a file of arrivals holds.
#[derive(Drop)]
pub struct Arrivals {
    /// The passes, from pass 0 on.
    pub passes: Listed<GivenPass>,
    /// The clock of each turn, which each thread makes, from turn 0 on.
    pub turns: Listed<u64>,
    /// The requests, by thread and then by turn. A thread gets at most one before a turn.
    pub requests: Listed<Arrival>,
}
