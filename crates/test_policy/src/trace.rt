//! The files of a run.

mod arrivals;
mod histories;
mod reports;
mod signals;
mod tables;
