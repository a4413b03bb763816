//! Idle passes, of each policy.

ghost use Rattle.cal_idle.specs.AtSight.{SameLooksAreIdle, RecordsOnceMoreAreIdle};
ghost use Rattle.cal_idle.specs.Idle.{IdlePassesLeaveTheSame, IdlePassesChangeNothing};
ghost use Rattle.cal_idle.specs.LeftOut.{RecordsLeaveTheSame, RecordsAreLegal};
ghost use Rattle.cal_idle.specs.LeftOut.{IdlePassesMayBePutIn};

use crate::assured::assured_goes_by_what_is_left;
use crate::caladan::caladan_goes_by_what_is_left;

/// A history leaves the same with an idle pass and without it: the same actions, and of each thread
/// the same kept record and the same that it showed last.
pub fn idle_passes_leave_the_same()
    ensures { IdlePassesLeaveTheSame }
{}

/// Where a pass is idle, a history with it is legal exactly if the history without it is, and the
/// pass is one of the policy at its place. So an idle pass may be taken out of a legal history, and
/// put into one wherever the policy does nothing there, at the pass's clock, its figure and its
/// rooms.
pub fn idle_passes_change_nothing()
    ensures { IdlePassesChangeNothing }
{
    caladan_goes_by_what_is_left();
    assured_goes_by_what_is_left();
}

/// A record that leaves out idle passes alone leaves the same as all passes.
pub fn records_leave_the_same()
    ensures { RecordsLeaveTheSame }
{}

/// A record that leaves out idle passes alone is legal if all passes together are.
pub fn records_are_legal()
    ensures { RecordsAreLegal }
{
    caladan_goes_by_what_is_left();
    assured_goes_by_what_is_left();
}

/// And the other way round: where the record is legal, all passes together are, if each that was
/// left out is one of the policy at its place. The record itself does not show that.
pub fn idle_passes_may_be_put_in()
    ensures { IdlePassesMayBePutIn }
{
    caladan_goes_by_what_is_left();
    assured_goes_by_what_is_left();
}

/// A pass that does nothing, and whose looks are those of the pass before, each judged as it was
/// there, is idle.
pub fn same_looks_are_idle()
    ensures { SameLooksAreIdle }
{}

/// Where each record that was found so far was kept, a pass that does nothing is idle if each of its
/// looks found no record, or the one that its thread showed last.
pub fn records_once_more_are_idle()
    ensures { RecordsOnceMoreAreIdle }
{}
