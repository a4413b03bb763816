//! Idle passes: those in which nothing was done, and no look told anything new. A history says the
//! same with and without them, so whoever records passes need not write them.
//!
//! Each law is the contract of a function that does nothing, its statement a definition in specs/;
//! to cite a law, call its function. All of it is Doranjei's own.
#![tactic(auto)]

mod assured;
mod caladan;
mod laws;

pub use assured::assured_goes_by_what_is_left;
pub use caladan::{
    caladan_does_nothing_earlier, caladan_goes_by_what_is_left, idle_passes_may_come_earlier,
};
pub use laws::{
    idle_passes_change_nothing, idle_passes_leave_the_same, idle_passes_may_be_put_in,
    records_are_legal, records_leave_the_same, records_once_more_are_idle, same_looks_are_idle,
};
