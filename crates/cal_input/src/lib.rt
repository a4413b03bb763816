//! What a program reads, and why it gave no answer: an input, read to its end within its limit and
//! taken apart into its task table and its trace; and the fault of a run, with its line and its exit
//! status.
//!
//! `read_input` reads. Of an input in memory `split_input` gives both parts as they are, `read_parts`
//! the table and the text of the trace, `run_input` the table and its arrivals, and `recorded_passes`
//! the table and a history before its first pass. What a program says and exits with after a fault
//! are `fault_line` and `status`.
#![tactic(auto)]

mod fault;
mod parts;
mod reading;
mod separator;

pub use fault::{RunFault, fault_line, fault_line_as, status};
pub use parts::{read_parts, recorded_passes, run_input};
pub use reading::{INPUT_LIMIT, read_input};
pub use separator::split_input;
