//! A whole run: its input, its outcome, and what follows from that.
//!
//! A run makes the passes and the turns that it is given, and its threads end. It then has an
//! `Outcome`. `IsRun` says what each run promises of it, in whichever order its threads made their
//! steps, and the headline is a law over that.
//!
//! Not promised: that the events are in the order of time between threads; that a request is ever
//! served.
#![tactic(auto)]

mod closing;
mod collector;
mod fault;
mod one_thread;
mod outcome;
mod parts;
mod rounds;
mod workers;

pub use closing::pages_and_rings::close_threads;
pub use closing::{RunRest, close_parts, end_parts, end_run};
pub use collector::Collector;
pub use collector::collected::{Collected, OpenCollection};
pub use collector::scheduler::CollectingScheduler;
pub use collector::worker::{CollectingWorker, split_workers};
pub use fault::SimFault;
pub use one_thread::{
    lockstep, lockstep_by, lockstep_collected_by, lockstep_end, lockstep_end_by, lockstep_tallied,
    lockstep_tallied_by,
};
pub use outcome::given_once::given_stand_once;
pub use outcome::headline::{headline_of_runs, headline_of_runs_by};
pub use outcome::{Outcome, RunEnd, TalliedEnd};
pub use parts::Parts;
pub use parts::opening::{
    MOST_ROUNDS, open_parts, open_parts_by, open_unwatched, open_unwatched_by,
};
pub use rounds::passes::{pass_given, step_given};
pub use rounds::watch::watch_of_round;
pub use rounds::{make_rounds, turns_of_round};
pub use workers::worker::Worker;
