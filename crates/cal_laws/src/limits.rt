//! No task has more than it may, and none is preempted below its guarantee.
//!
//! At every point of a legal history. What cal_guard has by the same name is of permitted ones.

ghost use Rattle.cal_laws.specs.Limits.{GrantsKeepToCaps};
ghost use Rattle.cal_laws.specs.Limits.{TasksKeepToCaps, RevocationsLeaveGuarantees};

use cal_machine::laws::threads_are_of_their_task;
use cal_policy::laws::{
    action_is_one_more, chosen_has_waited_longest, chosen_is_of_least_class, legal_is_sound,
    victim_has_most_misses,
};

/// A task is granted a core only where it has booked less than its limit and, if it is best-effort,
/// less than its cap. (After Caladan's controller of memory bandwidth; the cap is Doranjei's.)
pub fn grants_keep_to_caps()
    ensures { GrantsKeepToCaps }
{
    legal_is_sound();
    chosen_has_waited_longest();
    threads_are_of_their_task();
}

/// At every point a best-effort task holds no more cores than its cap, but between a cut of its cap
/// and the revocation that follows at once: there it holds at most one more. (After Caladan's
/// controller of memory bandwidth; the cap is Doranjei's.)
pub fn tasks_keep_to_caps()
    ensures { TasksKeepToCaps }
{
    legal_is_sound();
    action_is_one_more();
    chosen_has_waited_longest();
    threads_are_of_their_task();
}

/// A core is revoked only from a task that holds more than it is guaranteed: so none holds less
/// than its guarantee for having lost a core, whatever the cause. (After Caladan's guaranteed and
/// burstable cores; Doranjei's rule.)
pub fn revocations_leave_guarantees()
    ensures { RevocationsLeaveGuarantees }
{
    legal_is_sound();
    action_is_one_more();
    chosen_is_of_least_class();
    victim_has_most_misses();
}
