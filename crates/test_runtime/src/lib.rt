//! The tests of the runtime, in a crate of their own, since a crate with tests is proved twice: the
//! scheduler, kernel threads, worlds of events, the order of a run's steps, and whole runs on one
//! thread and in threads. What no clause says: that calls succeed where there is memory, that
//! worked examples come out as they were meant, and that threads meet.
#![tactic(auto)]

#[cfg(test)]
mod in_threads;
#[cfg(test)]
mod kernel_threads;
#[cfg(test)]
mod one_thread;
pub mod order;
#[cfg(test)]
mod runs;
#[cfg(test)]
mod same;
#[cfg(test)]
mod scheduler;
#[cfg(test)]
mod texts;
#[cfg(test)]
mod world;
