//! The outcome of a run.

pub mod given_once;
pub mod headline;

use cal_kthread::{Journal, RequestList};
use cal_machine::Listed;
use cal_policy::PassEntry;
use cal_signal::Round;
use cal_trace::Tally;
use cal_world::Event;

/// What a run ends with, once its threads have ended and their ends were brought together: its
/// outcome but for the list of its steps, which `linearise` makes of it.
#[derive(Drop)]
pub struct RunEnd {
    /// The passes of the scheduler, the first one first.
    pub history: Listed<PassEntry>,
    /// What each kernel thread did, in thread order.
    pub journals: Listed<Journal>,
    /// The requests that were left with each kernel thread, in thread order.
    pub left: Listed<RequestList>,
    /// What the watch found on each thread's page, round by round.
    pub watched: Listed<Round>,
}

/// The outcome of a run, once its threads have ended and their ends were brought together.
#[derive(Drop)]
pub struct Outcome {
    /// The passes of the scheduler, the first one first.
    pub history: Listed<PassEntry>,
    /// What each kernel thread did, in thread order.
    pub journals: Listed<Journal>,
    /// The requests that were left with each kernel thread, in thread order.
    pub left: Listed<RequestList>,
    /// The steps of the scheduler, of the threads and of the watch in one legal list.
    pub events: Listed<Event>,
    /// What the watch found on each thread's page, round by round.
    pub watched: Listed<Round>,
}

/// What a run ends with where what its kernel threads did was counted, and none of it kept.
#[derive(Drop)]
pub struct TalliedEnd {
    /// What each kernel thread did, counted, in thread order.
    pub tallies: Listed<Tally>,
    /// The requests that were left with each kernel thread, in thread order.
    pub left: Listed<RequestList>,
}
