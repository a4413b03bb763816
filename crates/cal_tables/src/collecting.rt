//! What is measured of a run, taken while it is made.

ghost use Rattle.std.specs.Prelude.{◌≡◌, ◌+◌, ◌<◌, ◌≤◌, ◌++◌, ◌∷◌, [], List, Some, IfOk, OnOk};
ghost use Rattle.std.specs.Prelude.{length, replicate, slice_get, slice_set};
ghost use Rattle.std.specs.List.{AllZip};
ghost use Rattle.cal_kthread.specs.Turn.Entries.{entries_of};
ghost use Rattle.cal_kthread.specs.declared.journal.entry.Entry.{Entry};
ghost use Rattle.cal_kthread.specs.declared.kernel_thread.TheConstants.{MOST_ENTRIES};
ghost use Rattle.cal_machine.specs.TableTasks.{threads_of_table};
ghost use Rattle.cal_measure.specs.Clocks.{AreClocksOf};
ghost use Rattle.cal_measure.specs.ThreadWork.{IsThreadWorkOf};
ghost use Rattle.cal_measure.specs.Walk.{IsOpenFor, IsWalkOf};
ghost use Rattle.cal_policy.specs.declared.history.entry.PassEntry.{PassEntry};
ghost use Rattle.cal_run.specs.Parts.{HasPassed, scheduler_seat_of};
ghost use Rattle.cal_run.specs.Workers.{FitSomeTable};
ghost use Rattle.cal_run.specs.declared.outcome.Outcome.{Outcome};
ghost use Rattle.cal_sched.specs.Scheduler.{IsKept};
ghost use Rattle.cal_tables.specs.Measured.{AreNumbersAtEnd, AreNumbersSoFar};

use cal_came::Counted;
use cal_guard::{each_policy_is_permitted, passes_are_short, permitted_is_orderly};
use cal_kthread::{RequestList, TurnEntries};
use cal_machine::{Config, Listed};
use cal_measure::{EndedRun, ThreadWork, Walk, open_works};
use cal_policy::Actions;
use cal_run::{Collector, step_given};
use cal_sched::BareScheduler;
use cal_trace::Arrivals;
use std::alloc::{AllocError, Global};

/// What is measured of a run while it is made. Nothing of it grows with the passes, and of the turns
/// it keeps one value for each request that was served. A pass has no entry, and its state is the
/// scheduler's.
#[derive(Drop)]
pub struct OpenNumbers {
    /// The table of the run.
    pub config: Config,
    /// The walk over the passes so far.
    pub walk: Walk,
    /// What the turns of each kernel thread so far came to, in thread order.
    pub threads: Vec<ThreadWork>,
    /// Room for the actions of a pass.
    pub actions: Actions,
}

/// What was measured of a run that has ended.
#[derive(Drop)]
pub struct EndedNumbers {
    /// The table of the run.
    pub config: Config,
    /// The walk over all its passes.
    pub walk: Walk,
    /// What is told of its requests.
    pub run: EndedRun,
}

impl OpenNumbers {
    /// Of a run on this table in which nothing was made yet. Fails only when out of memory.
    pub fn open(alloc: Global, config: &Config) -> Result<OpenNumbers, AllocError>
        ensures table { IfOk result (λ numbers. numbers.config ≡ config.now) }
        ensures open { IfOk result (λ numbers. IsOpenFor config.now numbers.walk) }
        ensures nothing { IfOk result
            (AreNumbersSoFar [] (replicate (threads_of_table config.now) [])) }
    {
        let walk = Walk::open(alloc, config)?;
        let threads = open_works(alloc, config.threads())?;
        let actions = Actions::reserved(alloc)?;
        let config = config.copy(alloc)?;
        Ok(OpenNumbers {
            config,
            walk,
            threads,
            actions,
        })
    }

    /// Makes pass `p` of those given, the next one, and takes it: its actions and the state that it
    /// leaves, of the scheduler itself. Takes no memory.
    pub fn pass(&mut self, scheduler: &mut BareScheduler, arrivals: &Arrivals, p: usize)
        requires table { self.old.config ≡ scheduler.old.table }
        requires open { IsOpenFor self.old.config self.old.walk }
        requires fits { FitSomeTable arrivals.now }
        requires given { p < length arrivals.now.passes }
        requires passed { HasPassed arrivals.now p scheduler.old }
        ensures table { self.new.config ≡ self.old.config }
        ensures threads { self.new.threads ≡ self.old.threads }
        ensures open { IsOpenFor self.old.config self.new.walk }
        ensures passed { HasPassed arrivals.now (p + 1) scheduler.new }
        ensures seat { scheduler_seat_of scheduler.new ≡ scheduler_seat_of scheduler.old }
        ensures kept { IsKept scheduler.new }
        ensures entered { (entry : PassEntry)
            × (scheduler.new.history ≡ scheduler.old.history ++ entry ∷ []) }
        ensures walk { IsWalkOf self.old.config scheduler.old.history self.old.walk →
            IsWalkOf self.old.config scheduler.new.history self.new.walk }
    {
        each_policy_is_permitted();
        permitted_is_orderly();
        passes_are_short();
        self.config.limits();
        step_given(scheduler, arrivals, p, &mut self.actions);
        let given = arrivals.passes.as_slice()[p];
        let after = scheduler.board();
        let actions = self.actions.as_slice();
        self.walk.pass(&self.config, after, given, actions);
    }

    /// Takes what a turn of thread `k` added to its journal. Fails only when out of memory. (Inlined
    /// into the loop of the turns, so that of the entries only what is read is made.)
    #[inline(always)]
    pub fn turn(&mut self, k: usize, entries: &TurnEntries) -> Result<(), AllocError>
        ensures table { self.new.config ≡ self.old.config }
        ensures walk { self.new.walk ≡ self.old.walk }
        ensures threads { (journals : List (List Entry)) (journal : List Entry) →
            AllZip IsThreadWorkOf journals self.old.threads.items →
            slice_get journals k ≡ Some journal →
            length (journal ++ entries_of entries.now) ≤ MOST_ENTRIES →
            OnOk result (AllZip IsThreadWorkOf
            (slice_set journals k (journal ++ entries_of entries.now)) self.new.threads.items) }
    {
        if k >= self.threads.len() {
            return Ok(());
        }
        self.threads[k].take(entries)?;
        Ok(())
    }

    /// What was measured, counted so, once the run on these arrivals has ended, where these requests
    /// were left with its kernel threads, in thread order. Fails only when out of memory.
    pub fn end(
        self,
        alloc: Global,
        arrivals: &Arrivals,
        counted: &Counted,
        left: Listed<RequestList>,
    ) -> Result<EndedNumbers, AllocError>
        ensures table { IfOk result (λ ended. ended.config ≡ self.config) }
        ensures walk { IfOk result (λ ended. ended.walk ≡ self.walk) }
        ensures clocks { IfOk result (λ ended. AreClocksOf counted.now.came ended.run.clocks) }
        ensures ended { IfOk result (λ ended. (outcome : Outcome) →
            AreNumbersSoFar outcome.history outcome.journals self → outcome.left ≡ left →
            AreNumbersAtEnd arrivals.now outcome ended) }
    {
        let OpenNumbers {
            config,
            walk,
            threads,
            ..
        } = self;
        let run = EndedRun::of(alloc, arrivals, counted, threads, left)?;
        Ok(EndedNumbers { config, walk, run })
    }
}

impl Collector for OpenNumbers {
    type Fault = AllocError;

    ghost holds = { λ numbers history journals. AreNumbersSoFar history journals numbers };

    ghost suits = { λ numbers table.
        (numbers.config ≡ table) × IsOpenFor table numbers.walk };

    fn make_pass(
        &mut self,
        scheduler: &mut BareScheduler,
        arrivals: &Arrivals,
        p: usize,
    ) -> Result<(), AllocError> {
        self.pass(scheduler, arrivals, p);
        Ok(())
    }

    fn add_turn(&mut self, k: usize, entries: &TurnEntries) -> Result<(), AllocError> {
        self.turn(k, entries)?;
        Ok(())
    }
}
