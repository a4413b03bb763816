//! Any policy, the same safety: what every history of permitted actions is safe from, whoever chose
//! them.
//!
//! Each law is the contract of a function that does nothing, its statement a definition in specs/;
//! to cite a law, call its function. A legal history of each policy is permitted, so the laws are its
//! too; which thread and core a grant takes, and why a core is revoked, are no part of them.
#![tactic(auto)]

mod checking;
mod gone;
mod group_laws;
mod guard;
mod histories;
mod laws;
mod legality;
mod pass_looks;
mod passing;
mod refusal;
mod settled;
mod sizes;
mod spare;

pub use checking::{is_permitted, is_permitted_pass, permits};
pub use gone::{gone_may_be_freed, permitted_gone_is_kept};
pub use group_laws::groups_make_a_pass;
pub use guard::Guard;
pub use histories::{
    doing_nothing_is_permitted, permitted_goes_on, permitted_is_orderly, permitted_is_safe,
    permitted_is_steady,
};
pub use laws::{
    banned_are_emptied_at_once, banned_are_empty_after_passes, commands_go_where_is_room,
    freed_cores_were_left, grants_keep_to_caps, holders_are_of_their_last_run,
    kept_records_are_true, kept_threads_are_on_core, no_banned_is_granted, no_pair_is_banned,
    passes_are_short, permitted_is_safe_between, revocations_leave_guarantees,
    runs_go_to_idle_threads, runs_stand_until_left, tasks_keep_to_caps, tasks_keep_to_limits,
    threads_are_sent_one_command, threads_have_one_core,
};
pub use legality::{each_policy_is_permitted, legal_is_permitted, legal_is_right};
pub use refusal::{Refused, Why};
pub use settled::permitted_settled_is_no_news;
