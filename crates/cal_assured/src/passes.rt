//! Laws of one pass, each at its own place.

ghost use Rattle.cal_assured.specs.Laws.{OwedCoresAreKept, NoMoreIsTakenThanIsLacked};
ghost use Rattle.cal_assured.specs.Laws.{NoCoreIsRevokedTwice, BansLeaveWhatIsLacked};
ghost use Rattle.cal_assured.specs.Laws.{BansEndForWhatIsLacked, TheLaterComesFirst};
ghost use Rattle.cal_assured.specs.Laws.{RevocationsHaveCause, OwedCoresAreTaken};
ghost use Rattle.cal_assured.specs.Laws.{KeptCoresAreTaken, TheFewestHeldComesFirst};

use cal_policy::laws::action_is_one_more;

/// A core that was revoked for a task and is free is granted to another only where that task does
/// not wait; or where the other is short, and the task is not, or as many lower cores are owed to
/// it as it could be granted in this pass.
pub fn owed_cores_are_kept()
    ensures { OwedCoresAreKept }
{}

/// Where a task is short and waits at the end of its turn, no open core is owed to it: it has taken
/// them all.
pub fn owed_cores_are_taken()
    ensures { OwedCoresAreTaken }
{}

/// A short task to which a core was granted in no earlier turn of the pass takes all open cores that
/// are owed to it, where they are no more than it needs.
pub fn kept_cores_are_taken()
    ensures { KeptCoresAreTaken }
{}

/// A core is revoked for a task only where more of its threads are late, and not in flight, than
/// cores are coming to it.
pub fn no_core_is_revoked_twice()
    ensures { NoCoreIsRevokedTwice }
{}

/// A core of another latency-critical task is revoked for a task only where fewer cores are coming to
/// it than it lacks.
pub fn no_more_is_taken_than_is_lacked()
    ensures { NoMoreIsTakenThanIsLacked }
{}

/// Where a short task waits, a free core is banned only if more cores are open than are lacking.
pub fn bans_leave_what_is_lacked()
    ensures { BansLeaveWhatIsLacked }
{}

/// Where a short task waits after the second part of a pass, as many cores are open as are lacking,
/// or no free core is banned.
pub fn bans_end_for_what_is_lacked()
    ensures { BansEndForWhatIsLacked }
{
    action_is_one_more();
}

/// Of two latency-critical tasks, neither short where the grants begin: if the less late one is
/// granted a core, and the later one was granted none before it in this pass, then at its turn the
/// later one did not wait or might take no open core.
pub fn the_later_comes_first()
    ensures { TheLaterComesFirst }
{}

/// Of two best-effort tasks: if the one that held more cores where the grants began is granted one, and
/// the other was granted none before it in this pass, then at its turn the other did not wait or might
/// take no open core.
pub fn the_fewest_held_comes_first()
    ensures { TheFewestHeldComesFirst }
{}

/// Each revocation of a pass is for what its cause says.
pub fn revocations_have_cause()
    ensures { RevocationsHaveCause }
{}
