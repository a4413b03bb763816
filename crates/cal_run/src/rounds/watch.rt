//! The rounds of the watch of a run.

ghost use Rattle.std.specs.Prelude.{◌≡◌, ◌+◌, ◌≤◌, length, min};
ghost use Rattle.cal_run.specs.Parts.{watch_seat_of};

use cal_sched::Watch;

/// One round of the watch, where it has one left to make. Waits for nobody.
pub fn watch_of_round(watch: &mut Watch)
    requires few { length watch.old.rounds ≤ watch.old.most }
    ensures rounds { length watch.new.rounds ≡ min (length watch.old.rounds + 1) watch.old.most }
    ensures seat { watch_seat_of watch.new ≡ watch_seat_of watch.old }
{
    watch.round();
}
