//! The tests of the crates below the scheduler, from cal_machine to cal_trace: what no clause of
//! theirs says, that calls succeed, and rows that were worked out by hand. They are in one crate at
//! the top of these, since a crate that has tests is proved a second time with them.
//!
//! A call whose contract says more than its test asks for goes through a small private function
//! that promises less: then what is not asked for is no burden to the proof of the test.
#![tactic(auto)]

#[cfg(test)]
mod command;
#[cfg(test)]
mod guard;
#[cfg(test)]
mod lists;
#[cfg(test)]
mod looks;
#[cfg(test)]
mod machine;
#[cfg(test)]
mod policy;
#[cfg(test)]
mod same;
#[cfg(test)]
mod signal;
#[cfg(test)]
mod texts;
#[cfg(test)]
mod trace;
