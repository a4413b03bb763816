//! Who collects what the passes and the turns of a run hand out.

pub mod collected;
pub mod open_journal;
pub mod scheduler;
pub mod tallies;
pub mod worker;

ghost use Rattle.std.specs.Prelude.{◌≡◌, ◌≤◌, ◌<◌, ◌+◌, ◌++◌, ◌∷◌, List, Some, length, slice_get};
ghost use Rattle.std.specs.Prelude.{slice_set, IfErr, IfOk, OnOk, ⊤};
ghost use Rattle.cal_kthread.specs.Turn.Entries.{entries_of};
ghost use Rattle.cal_kthread.specs.declared.journal.entry.Entry.{Entry};
ghost use Rattle.cal_kthread.specs.declared.kernel_thread.TheConstants.{MOST_ENTRIES};
ghost use Rattle.cal_machine.specs.Table.{Table};
ghost use Rattle.cal_policy.specs.declared.history.entry.PassEntry.{PassEntry as EntryOfPass};
ghost use Rattle.cal_run.specs.Order.{Made, a_pass, turn_of};
ghost use Rattle.cal_run.specs.Parts.{HasPassed, scheduler_seat_of};
ghost use Rattle.cal_run.specs.Workers.{FitSomeTable};
ghost use Rattle.cal_sched.specs.Scheduler.{IsKept};

use cal_kthread::TurnEntries;
use cal_sched::BareScheduler;
use cal_trace::Arrivals;
use std::alloc::AllocError;

/// Collects what the passes of a run do, and what each turn adds to its thread's journal, as they are
/// made. Neither the scheduler of a run nor its threads keep any of it. A collector that needs a
/// pass's entry makes the pass with it; the others make it without.
pub trait Collector {
    /// Why it takes no more.
    type Fault: From<AllocError> + Drop;

    /// What it holds of these passes and of these journals, which are in thread order.
    ghost holds: { Self → List EntryOfPass → List (List Entry) → Type 0 };

    /// Of which tables' runs it can take passes.
    ghost suits: { Self → Table → Type 0 };

    /// What it has written of these passes, where it was the first before any of them.
    ghost wrote: { Self → Self → List EntryOfPass → Type 0 } = { λ _ _ _. ⊤ };

    /// That it borrows the same as the first.
    ghost same: { Self → Self → Type 0 } = { λ _ _. ⊤ };

    /// That it was handed these passes and turns, the latest first.
    ghost met: { Self → List Made → Type 0 } = { λ _ _. ⊤ };

    /// Makes pass `p` of those given, the next one, and takes of it what it collects.
    fn make_pass(
        &mut self,
        scheduler: &mut BareScheduler,
        arrivals: &Arrivals,
        p: usize,
    ) -> Result<(), Self::Fault>
        requires suits { suits self.old scheduler.old.table }
        requires fits { FitSomeTable arrivals.now }
        requires given { p < length arrivals.now.passes }
        requires passed { HasPassed arrivals.now p scheduler.old }
        ensures suits { IfOk result (λ _. suits self.new scheduler.old.table) }
        ensures passed { IfOk result (λ _. HasPassed arrivals.now (p + 1) scheduler.new) }
        ensures seat { scheduler_seat_of scheduler.new ≡ scheduler_seat_of scheduler.old }
        ensures collected { (journals : List (List Entry)) →
            holds self.old scheduler.old.history journals →
            OnOk result (holds self.new scheduler.new.history journals) }
        ensures kept { IsKept scheduler.new }
        ensures wrote { (first : Self) → wrote first self.old scheduler.old.history →
            OnOk result (wrote first self.new scheduler.new.history) }
        ensures stopped { (first : Self) → wrote first self.old scheduler.old.history →
            IfErr result (λ _. wrote first self.new scheduler.old.history) }
        ensures same { (first : Self) → same first self.old → same first self.new }
        ensures ordered { (made : List Made) → met self.old made →
            OnOk result (met self.new (a_pass ∷ made)) };

    /// Takes what a turn of thread `k` added to its journal.
    fn add_turn(&mut self, k: usize, entries: &TurnEntries) -> Result<(), Self::Fault>
        ensures suits { (table : Table) → suits self.old table →
            IfOk result (λ _. suits self.new table) }
        ensures collected { (history : List EntryOfPass) (journals : List (List Entry))
            (journal : List Entry) → holds self.old history journals →
            slice_get journals k ≡ Some journal →
            length (journal ++ entries_of entries.now) ≤ MOST_ENTRIES →
            OnOk result (holds self.new history
            (slice_set journals k (journal ++ entries_of entries.now))) }
        ensures wrote { (first : Self) (history : List EntryOfPass) →
            wrote first self.old history → wrote first self.new history }
        ensures same { (first : Self) → same first self.old → same first self.new }
        ensures ordered { (made : List Made) → met self.old made →
            OnOk result (met self.new (turn_of k ∷ made)) };
}
