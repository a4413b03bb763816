//! Legal histories are permitted.

ghost use Rattle.cal_guard.specs.Histories.{EachPolicyIsPermitted, LegalIsPermitted};
ghost use Rattle.cal_guard.specs.Causes.{LegalIsRight};

use cal_laws::{
    banned_are_emptied_at_once, banned_are_empty_after_passes, bans_are_due, bans_end_unshown,
    caps_are_due, commands_go_where_is_room, grants_keep_to_caps, no_banned_is_granted,
    passes_are_short, revocations_have_cause, revocations_leave_guarantees, tasks_keep_to_caps,
    threads_are_sent_one_command,
};
use cal_policy::laws::{
    action_is_one_more, chosen_is_of_least_class, last_thread_is_placed, legal_is_sound,
    victim_has_most_misses,
};

/// A legal history is permitted: so the guard lets Caladan's policy through.
pub fn legal_is_permitted()
    ensures { LegalIsPermitted }
{
    legal_is_sound();
    last_thread_is_placed();
    commands_go_where_is_room();
    threads_are_sent_one_command();
    passes_are_short();
    revocations_leave_guarantees();
    tasks_keep_to_caps();
    grants_keep_to_caps();
    no_banned_is_granted();
    banned_are_emptied_at_once();
    banned_are_empty_after_passes();
}

/// A legal history is permitted, and each of its actions is for its cause.
pub fn legal_is_right()
    ensures { LegalIsRight }
{
    legal_is_permitted();
    revocations_have_cause();
    bans_are_due();
    bans_end_unshown();
    caps_are_due();
}

/// A history of any policy is permitted: so the guard lets each policy that is proved through.
pub fn each_policy_is_permitted()
    ensures { EachPolicyIsPermitted }
{
    legal_is_permitted();
    action_is_one_more();
    chosen_is_of_least_class();
    victim_has_most_misses();
}
