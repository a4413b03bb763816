//! What every legal history keeps to: laws over the definitions of a pass alone, in the subject's
//! own words. What is so of every permitted history too, whoever chose its actions, is said in
//! cal_guard; of that, only what shows that a legal history is permitted stands here.
//!
//! Each law is the contract of a function that does nothing, its statement a definition in specs/.
//! It is said at every point inside a pass, not only between passes, so that whoever follows a run
//! action by action can cite it. To cite a law, call its function: its contract is then a fact of
//! the proof.
//!
//! A law says so if it is after Caladan; all others are Doranjei's.
#![tactic(auto)]

mod bans;
mod caps;
mod cause;
mod choice;
mod ends;
mod limits;
mod old_delay;
mod one_each;

pub use bans::{
    banned_are_emptied_at_once, banned_are_empty_after_passes, bans_are_due,
    bans_are_shown_after_passes, bans_end_unshown, long_requests_have_banned_siblings,
    no_ban_is_left_due, no_banned_is_granted,
};
pub use caps::caps_are_due;
pub use cause::{revocations_have_cause, revocations_have_cause_by};
pub use choice::{classes_are_told, grants_are_best, preemptions_have_thread};
pub use ends::ends_are_points;
pub use limits::{grants_keep_to_caps, revocations_leave_guarantees, tasks_keep_to_caps};
pub use old_delay::delays_are_of_queues;
pub use one_each::{
    actions_come_in_turn, commands_go_where_is_room, passes_are_short, tasks_are_served_once,
    threads_are_sent_one_command,
};
