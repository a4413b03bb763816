//! The engines of caladan_sim, and whole runs of it: readers that fail or never end, writers that
//! fail, and what it then ends with.

mod ends;
mod one_pass;
mod programs;
