//! The passes that a run is given.

ghost use Rattle.std.specs.Prelude.{◌≡◌, ◌+◌, ◌<◌, ◌++◌, ◌∷◌, [], length, IfOk, IfErr};
ghost use Rattle.std.specs.Prelude.{Some, slice_get};
ghost use Rattle.cal_policy.specs.declared.history.entry.PassEntry.{PassEntry as EntryOf};
ghost use Rattle.cal_run.specs.Outcome.{figures_of};
ghost use Rattle.cal_run.specs.Parts.{HasPassed, scheduler_seat_of};
ghost use Rattle.cal_run.specs.Workers.{FitSomeTable};
ghost use Rattle.cal_sched.specs.Scheduler.{IsKept};

use cal_policy::{Actions, PassEntry};
use cal_sched::{BareScheduler, PassFault};
use cal_trace::Arrivals;
use std::alloc::AllocError;

/// Pass `p` of those given, with its clock and its bandwidth figure, and its entry. Asks that the
/// passes before were made. Fails only when out of memory, and then it has not changed: there
/// are never too many. Waits for nobody.
pub fn pass_given(
    scheduler: &mut BareScheduler,
    arrivals: &Arrivals,
    p: usize,
) -> Result<PassEntry, AllocError>
    requires fits { FitSomeTable arrivals.now }
    requires given { p < length arrivals.now.passes }
    requires passed { HasPassed arrivals.now p scheduler.old }
    ensures passed { IfOk result (λ _. HasPassed arrivals.now (p + 1) scheduler.new) }
    ensures entered { IfOk result (λ entry.
        scheduler.new.history ≡ scheduler.old.history ++ entry ∷ []) }
    ensures seat { scheduler_seat_of scheduler.new ≡ scheduler_seat_of scheduler.old }
    ensures refused { IfErr result (λ _. scheduler.new ≡ scheduler.old) }
    ensures kept { IsKept scheduler.new }
{
    let given = arrivals.passes.as_slice()[p];
    match scheduler.pass(given.now, given.bandwidth) {
        Ok(entry) => Ok(entry),
        Err(PassFault::Memory) => Err(AllocError),
        Err(PassFault::HistoryFull) => unreachable!(),
    }
}

/// Pass `p` of those given, as `pass_given` makes it, but with no entry: its actions, and no others,
/// come into `out`. Takes no memory, and waits for nobody.
pub fn step_given(scheduler: &mut BareScheduler, arrivals: &Arrivals, p: usize, out: &mut Actions)
    requires fits { FitSomeTable arrivals.now }
    requires given { p < length arrivals.now.passes }
    requires passed { HasPassed arrivals.now p scheduler.old }
    ensures passed { HasPassed arrivals.now (p + 1) scheduler.new }
    ensures acted { (entry : EntryOf)
        × (scheduler.new.history ≡ scheduler.old.history ++ entry ∷ [])
        × (slice_get arrivals.now.passes p ≡ Some (figures_of entry)) × (out.new ≡ entry.actions) }
    ensures seat { scheduler_seat_of scheduler.new ≡ scheduler_seat_of scheduler.old }
    ensures kept { IsKept scheduler.new }
{
    let given = arrivals.passes.as_slice()[p];
    let Ok(()) = scheduler.step(given.now, given.bandwidth, out) else {
        unreachable!()
    };
}
