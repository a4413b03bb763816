//! What holds of lockstep runs without a word about threads.

ghost use Rattle.cal_lockstep.specs.Late.{LateRequestsAreHelpedInLockstep};
ghost use Rattle.cal_lockstep.specs.Lockstep.{GuaranteesAreGivenInLockstep};
ghost use Rattle.cal_lockstep.specs.Lockstep.{LeftCoresAreFreedInLockstep, RingsHaveRoomInLockstep};

use cal_guarantee::{first_and_last_are_enough, guarantees_are_given_whole, honest_waits_stay};
use cal_guard::{
    each_policy_is_permitted, holders_are_of_their_last_run, threads_are_sent_one_command,
};
use cal_kthread::laws::record_shows_taken;
use cal_policy::laws::commands_begin_alike;
use cal_run::headline_of_runs_by;

/// In a lockstep run, by each policy, every ring has room in each pass, if a turn follows each pass
/// before it: a thread is sent at most one command a pass, and takes one a turn.
pub fn rings_have_room_in_lockstep()
    ensures { RingsHaveRoomInLockstep }
{
    headline_of_runs_by();
    each_policy_is_permitted();
    threads_are_sent_one_command();
}

/// And that pass frees each core that is being left where it begins.
pub fn left_cores_are_freed_in_lockstep()
    ensures { LeftCoresAreFreedInLockstep }
{
    headline_of_runs_by();
    each_policy_is_permitted();
    threads_are_sent_one_command();
    holders_are_of_their_last_run();
    record_shows_taken();
    commands_begin_alike();
}

/// So a guarantee is given within one pass: for every table and all arrivals, a task that is short
/// and waits where the grants of pass `p` and of the next begin, and needs `n` cores, is granted `n`
/// in them, if a turn follows pass `p` and each pass before it.
pub fn guarantees_are_given_in_lockstep()
    ensures { GuaranteesAreGivenInLockstep }
{
    headline_of_runs_by();
    rings_have_room_in_lockstep();
    left_cores_are_freed_in_lockstep();
    guarantees_are_given_whole();
}

/// And a late request is helped within one pass: a thread shows it in pass `p` and in the next, on no
/// core where their grants begin, and its task books fewer cores there than it is guaranteed. Then one
/// of the two passes grants a core to a thread of the task, if a turn follows pass `p` and each pass
/// before it. That the task waits follows from the request, and no premise on threads is left.
pub fn late_requests_are_helped_in_lockstep()
    ensures { LateRequestsAreHelpedInLockstep }
{
    headline_of_runs_by();
    rings_have_room_in_lockstep();
    left_cores_are_freed_in_lockstep();
    honest_waits_stay();
    first_and_last_are_enough();
}
