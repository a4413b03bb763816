//! What every permitted history is safe from, at every point of it; so a history of each policy, by
//! `each_policy_is_permitted`. What cal_laws has by the same name is of legal ones: two are stronger,
//! and the others show that legal histories are permitted.

ghost use Rattle.cal_guard.specs.Laws.{ThreadsHaveOneCore, HoldersAreOfTheirLastRun};
ghost use Rattle.cal_guard.specs.Laws.{RunsGoToIdleThreads, KeptRecordsAreTrue};
ghost use Rattle.cal_guard.specs.Laws.{KeptThreadsAreOnCore, FreedCoresWereLeft};
ghost use Rattle.cal_guard.specs.Laws.{TasksKeepToLimits, GrantsKeepToCaps};
ghost use Rattle.cal_guard.specs.Laws.{RevocationsLeaveGuarantees, NoBannedIsGranted};
ghost use Rattle.cal_guard.specs.Laws.{NoPairIsBanned, BannedAreEmptyAfterPasses};
ghost use Rattle.cal_guard.specs.Laws.{BannedAreEmptiedAtOnce, CommandsGoWhereIsRoom};
ghost use Rattle.cal_guard.specs.Laws.{ThreadsAreSentOneCommand, PassesAreShort, TasksKeepToCaps};
ghost use Rattle.cal_guard.specs.Laws.{RunsStandUntilLeft, PermittedIsSafeBetween};

use crate::histories::{permitted_is_safe, permitted_is_steady};
use cal_policy::laws::{action_is_one_more, last_thread_is_placed, look_is_one_more};

/// At every point a thread holds or leaves at most one core.
pub fn threads_have_one_core()
    ensures { ThreadsHaveOneCore }
{
    permitted_is_safe();
    action_is_one_more();
    last_thread_is_placed();
}

/// At every point the number of a core's holder is that of the last Run that was sent to its
/// thread, a Run of this core. Where the core is held it is the thread's last command; where it is
/// being left, one Park came after.
pub fn holders_are_of_their_last_run()
    ensures { HoldersAreOfTheirLastRun }
{
    permitted_is_safe();
    action_is_one_more();
    last_thread_is_placed();
}

/// A Run is sent only for a free core, and to a thread that neither holds nor leaves any core.
pub fn runs_go_to_idle_threads()
    ensures { RunsGoToIdleThreads }
{}

/// At every point each thread's kept record acknowledges no more commands than were sent to the
/// thread. Where it shows its thread on a core, that core was held or being left by the thread, by
/// a Run that the record acknowledges, as the pass began in which the record was kept.
pub fn kept_records_are_true()
    ensures { KeptRecordsAreTrue }
{
    permitted_is_safe();
    look_is_one_more();
}

/// At every point, where a thread's kept record shows it on a core, the thread holds or leaves that
/// core, by a Run that the record acknowledges: a core is not freed before its thread is shown to
/// have left it.
pub fn kept_threads_are_on_core()
    ensures { KeptThreadsAreOnCore }
{
    permitted_is_safe();
    action_is_one_more();
    look_is_one_more();
}

/// A core is freed only where it is one of the machine's and is held or being left, and the kept
/// record of its thread has `taken` at least the number of the Run that put it there and `running`
/// 0. (After Caladan's yields; the test is Doranjei's.)
pub fn freed_cores_were_left()
    ensures { FreedCoresWereLeft }
{
    permitted_is_safe();
}

/// At every point `held <= booked <= limit` for every task.
pub fn tasks_keep_to_limits()
    ensures { TasksKeepToLimits }
{}

/// A task is granted a core only where it has booked less than its limit and, if it is best-effort,
/// than its cap.
pub fn grants_keep_to_caps()
    ensures { GrantsKeepToCaps }
{}

/// No revocation leaves a task below its guarantee.
pub fn revocations_leave_guarantees()
    ensures { RevocationsLeaveGuarantees }
{
    action_is_one_more();
}

/// No core is granted while it is banned.
pub fn no_banned_is_granted()
    ensures { NoBannedIsGranted }
{}

/// A core and its sibling are never banned at once.
pub fn no_pair_is_banned()
    ensures { NoPairIsBanned }
{}

/// After each pass no banned core is held.
pub fn banned_are_empty_after_passes()
    ensures { BannedAreEmptyAfterPasses }
{}

/// Inside a pass a banned core that is held is revoked by the next action.
pub fn banned_are_emptied_at_once()
    ensures { BannedAreEmptiedAtOnce }
{}

/// A command is sent only to a thread whose ring has room.
pub fn commands_go_where_is_room()
    ensures { CommandsGoWhereIsRoom }
{
    permitted_is_safe();
    last_thread_is_placed();
}

/// A pass sends each thread at most one command.
pub fn threads_are_sent_one_command()
    ensures { ThreadsAreSentOneCommand }
{
    permitted_is_safe();
    last_thread_is_placed();
}

/// A pass has at most `MOST_ACTIONS` actions.
pub fn passes_are_short()
    ensures { PassesAreShort }
{}

/// At every point a best-effort task holds no more cores than its cap, or the next action revokes
/// one of them.
pub fn tasks_keep_to_caps()
    ensures { TasksKeepToCaps }
{}

/// At every point each Run that was sent is of a core of the machine; and its thread holds or
/// leaves that core by this Run, or the core was freed at an earlier point, where the thread was on
/// it by this Run and the thread's kept record had taken the Run and showed no core.
pub fn runs_stand_until_left()
    ensures { RunsStandUntilLeft }
{
    permitted_is_safe();
    action_is_one_more();
}

/// After the whole passes of a permitted history, the empty one included: each thread has at most
/// one core, by its last Run; Runs stand until they are left; limits and caps are kept; no core and
/// its sibling are both banned, and no banned core is held.
pub fn permitted_is_safe_between()
    ensures { PermittedIsSafeBetween }
{
    permitted_is_safe();
    permitted_is_steady();
    action_is_one_more();
    last_thread_is_placed();
}
