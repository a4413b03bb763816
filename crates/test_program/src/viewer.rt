//! The spans of worked histories.

mod spans;
mod worked_histories;
