//! The numbers of a run, and its spans: how long each task's requests took, how many cores it had and
//! why it lost them; and who had which core from which pass to which. Each number is that of its
//! definition over the run's journals and history (`specs/`).
//!
//! What is measured, and how, is Doranjei's. Who had which core, and which cores were banned, are the
//! spans of a history and its bans (`spans`), which two trackers follow.
#![tactic(auto)]

mod actions;
mod clocks;
mod cores;
mod ended_run;
mod ends;
mod requests;
mod services;
mod shares;
mod spans;
mod spread;
mod states;
mod thread_work;
mod times;
mod totals;
mod turns;
mod walk;
mod work;

pub use actions::LossKind;
pub use clocks::{ArrivalClocks, run_end, turns_last};
pub use cores::{MachineCores, TaskActions, TaskCores};
pub use ended_run::EndedRun;
pub use ends::{TimedTurn, timed_of};
pub use requests::TaskRequests;
pub use services::Service;
pub use shares::thousandths;
pub use spans::bans::{BanSpan, BanTracker};
pub use spans::laws::{
    holders_are_shown, shown_are_holders, shown_are_stays, spans_are_apart, stays_are_holders,
    stays_are_shown,
};
pub use spans::span::{Left, Span};
pub use spans::tracking::Tracker;
pub use spread::{Spread, Time};
pub use states::{CoreState, is_congested, task_delay};
pub use thread_work::ThreadWork;
pub use thread_work::each::{end_works, open_works};
pub use thread_work::totals::ThreadTotals;
pub use turns::{Turn, turns_of};
pub use walk::{Walk, given_of, walked};
pub use work::TaskWork;
