//! A run in threads: one for the scheduler, one for each kernel thread and one for the watch.
//!
//! All are started at the same time, and meet over their pages, rings and queues alone: there are
//! no locks, and nobody waits for anybody. Only the joins wait. Its outcome is the outcome of a
//! run, in whichever order its threads made their steps.
//!
//! Not promised: that a thread gets on, so that the run ends; that any two threads meet.
#![tactic(auto)]

mod answers;
mod faults;
mod gate;
mod kernel_threads;
mod running;
mod simulation;
mod working;

pub use gate::{FreeGate, Gate};
pub use running::run_threads;
pub use simulation::{simulate, simulate_by, simulation_end, simulation_end_by};
