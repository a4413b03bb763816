//! Arrivals that are made for a task table: at random from words, a load, the turns that requests
//! take, how they come, and a seed; or of the requests of a log. The same words give the same bytes.
//!
//! What is made are arrivals that fit the table, with as many requests as are counted, each with the
//! turn and the clock at which it came: that is proved, and so is what is taken from the words of a
//! pattern, a service, a unit and a turn. Which requests come, and to which thread, is only tested, and
//! so is what a log's text says.
#![tactic(auto)]

mod asked;
mod clocks;
mod comings;
mod decimal;
mod drawing;
mod fault;
mod limits;
mod loads;
mod log;
mod made;
mod making;
mod requests;
mod service;
mod variate;

pub use asked::{LoadWords, are_known, asked_loads, task_at, word_at};
pub use clocks::{MOST_TICKS, Timing};
pub use fault::{LoadFault, Why, WordFault, refused};
pub use limits::are_held;
pub use loads::Measure;
pub use log::{
    LogFault, LogRow, LogScale, LogTerms, LogWhy, RowFault, UNITS, logged_arrivals, read_log,
    scale_of, turns_for,
};
pub use made::{ArrivalPlan, Count, MOST_REQUESTS, Made, made_arrivals};
pub use making::{Pattern, TaskLoad, pattern_of};
pub use service::{ServicePart, service_of};
