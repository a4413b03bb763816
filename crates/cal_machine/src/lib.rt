//! The machine and its tasks: a task table is read exactly as its text says, or refused by its first
//! fault.
//!
//! A `Machine` is a number of cores, two and two siblings; a `CoreSet` is a set of cores; a
//! `Config` is the accepted task table, which says for each task what it may have and numbers the
//! kernel threads of all tasks one after the other. What several crates speak of is
//! here too: `ThreadSet`, a set of kernel threads; `Command`, what the scheduler tells a kernel
//! thread, and `Request`, a piece of work for one; `Listed`, a list that is made once and then
//! read, and `Past`, a list that only contracts see.
//!
//! The form and the limits are Doranjei's. Nothing here decides who gets a core: the rules of a
//! pass are cal_policy's.
#![tactic(auto)]

mod command;
mod config;
mod core_set;
mod fault;
mod fields;
pub mod laws;
mod listed;
mod machine;
mod numbering;
mod past;
mod request;
mod table;
mod task;
mod task_table;
mod thread_set;

pub use command::Command;
pub use config::Config;
pub use core_set::CoreSet;
pub use fault::ConfigFault;
pub use listed::Listed;
pub use machine::{MOST_CORES, MOST_PAIRS, Machine};
pub use numbering::MOST_THREADS;
pub use past::Past;
pub use request::Request;
pub use task::{Kind, Task};
pub use task_table::{MOST_LIMIT, MOST_TASKS, MOST_TICKS};
pub use thread_set::ThreadSet;
