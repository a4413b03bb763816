//! Laws of the second policy, `assured`, over its definitions, which are cal_policy's.
//!
//! Under it a latency-critical task that goes on waiting below its guarantee is granted a core at the
//! latest as many passes later as threads take to leave, if no ring is full. It differs from the
//! other policy in which bans end, which are made, and in its grants; all of it is Doranjei's own.
//!
//! Each law is the contract of a function that does nothing, its statement a definition in specs/;
//! to cite a law, call its function.
#![tactic(auto)]

mod histories;
mod order;
mod passes;
mod rings;

pub use histories::{nothing_is_legal, one_pass_more_is_legal, prefixes_are_legal};
pub use order::{places_have_their_task, tasks_have_their_place, turns_are_in_order};
pub use passes::{
    bans_end_for_what_is_lacked, bans_leave_what_is_lacked, kept_cores_are_taken,
    no_core_is_revoked_twice, no_more_is_taken_than_is_lacked, owed_cores_are_kept,
    owed_cores_are_taken, revocations_have_cause, the_fewest_held_comes_first,
    the_later_comes_first,
};
pub use rings::rings_have_room;
