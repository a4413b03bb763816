//! What the threads of a run serve, taken while it is made.

ghost use Rattle.std.specs.Prelude.{◌≡◌, ◌≤◌, ◌++◌, [], List, Some, IfOk, OnOk, length};
ghost use Rattle.std.specs.Prelude.{replicate, slice_get, slice_set};
ghost use Rattle.std.specs.List.{AllZip};
ghost use Rattle.cal_kthread.specs.Turn.Entries.{entries_of};
ghost use Rattle.cal_kthread.specs.declared.journal.entry.Entry.{Entry};
ghost use Rattle.cal_kthread.specs.declared.kernel_thread.TheConstants.{MOST_ENTRIES};
ghost use Rattle.cal_machine.specs.TableTasks.{threads_of_table};
ghost use Rattle.cal_measure.specs.ThreadWork.{IsThreadWorkOf};
ghost use Rattle.cal_tables.specs.Planned.{AreGivenBy, ArePlannedBy};
ghost use Rattle.cal_trace.specs.Arrivals.FitsTable.{FitsTable};
ghost use Rattle.cal_trace.specs.History.Ranges.{IsInRange};
ghost use Rattle.cal_trace.specs.History.Reading.{extent_of};
ghost use Rattle.cal_trace.specs.declared.arrivals.Arrivals.{Arrivals as RunArrivals};
ghost use Rattle.cal_facts.specs.Replayed.{IsReplayServed};
ghost use Rattle.cal_facts.specs.Served.{IsRunServed};

use crate::requests::served::ServedRequests;
use cal_kthread::TurnEntries;
use cal_machine::Config;
use cal_measure::{ThreadWork, end_works, open_works, run_end};
use cal_paced::Plan;
use cal_policy::{Actions, PassEntry, Policy};
use cal_replay::Stopped;
use cal_run::{Collector, step_given};
use cal_sched::BareScheduler;
use cal_tables::{collected_by, replayed_by};
use cal_trace::Arrivals;
use std::alloc::{AllocError, Global};

/// What is taken of a run while it is made: of the turns one value for each request that was
/// served, and nothing of a pass.
#[derive(Drop)]
pub(crate) struct OpenRequests {
    /// What the turns of each kernel thread so far came to, in thread order.
    pub(crate) works: Vec<ThreadWork>,
    /// Room for the actions of a pass.
    pub(crate) actions: Actions,
}

impl OpenRequests {
    /// Of a run on this table in which nothing was made yet. Fails only when out of memory.
    fn open(alloc: Global, config: &Config) -> Result<OpenRequests, AllocError>
        ensures { IfOk result (λ taken. AllZip IsThreadWorkOf
            (replicate (threads_of_table config.now) []) taken.works.items) }
    {
        let works = open_works(alloc, config.threads())?;
        let actions = Actions::reserved(alloc)?;
        Ok(OpenRequests { works, actions })
    }

    /// Takes what a turn of thread `k` added to its journal. Fails only when out of memory.
    #[inline(always)]
    fn turn(&mut self, k: usize, entries: &TurnEntries) -> Result<(), AllocError>
        ensures { (journals : List (List Entry)) (journal : List Entry) →
            AllZip IsThreadWorkOf journals self.old.works.items →
            slice_get journals k ≡ Some journal →
            length (journal ++ entries_of entries.now) ≤ MOST_ENTRIES →
            OnOk result (AllZip IsThreadWorkOf
            (slice_set journals k (journal ++ entries_of entries.now)) self.new.works.items) }
    {
        if k >= self.works.len() {
            return Ok(());
        }
        self.works[k].take(entries)?;
        Ok(())
    }
}

impl Collector for OpenRequests {
    ghost use Rattle.std.specs.List.{AllZip};
    ghost use Rattle.std.specs.Prelude.{⊤};
    ghost use Rattle.cal_measure.specs.ThreadWork.{IsThreadWorkOf};

    type Fault = AllocError;

    ghost holds = { λ taken history journals. AllZip IsThreadWorkOf journals taken.works.items };

    ghost suits = { λ taken table. ⊤ };

    fn make_pass(
        &mut self,
        scheduler: &mut BareScheduler,
        arrivals: &Arrivals,
        p: usize,
    ) -> Result<(), AllocError> {
        step_given(scheduler, arrivals, p, &mut self.actions);
        Ok(())
    }

    fn add_turn(&mut self, k: usize, entries: &TurnEntries) -> Result<(), AllocError> {
        self.turn(k, entries)?;
        Ok(())
    }
}

/// Makes a whole run by this policy, and by this plan or in lockstep, on one thread on what
/// `planned_for` gives, and takes what its threads serve while it is made. Fails only when out of
/// memory.
pub(crate) fn served_of_run(
    alloc: Global,
    config: &Config,
    policy: Policy,
    plan: Option<Plan>,
    given: &mut Arrivals,
) -> Result<ServedRequests, AllocError>
    requires fits { FitsTable config.now given.old }
    requires given { AreGivenBy plan given.old }
    ensures { (arrivals : RunArrivals) → ArePlannedBy plan arrivals given.old →
        IfOk result (IsRunServed plan policy config.now arrivals given.new) }
{
    let mut open = OpenRequests::open(alloc, config)?;
    collected_by(alloc, config, policy, plan, given, &mut open)?;
    let OpenRequests { works, .. } = open;
    let threads = end_works(alloc, works, run_end(given))?;
    let served = ServedRequests::of(alloc, threads.as_slice())?;
    Ok(served)
}

/// Makes a whole run whose passes are those of this history, by this plan or in lockstep, on one thread
/// on what `planned_for` gives, and takes what its threads serve while it is made.
pub(crate) fn served_of_replay(
    alloc: Global,
    config: &Config,
    plan: Option<Plan>,
    given: &mut Arrivals,
    history: &[PassEntry],
) -> Result<ServedRequests, Stopped<AllocError>>
    requires fits { FitsTable config.now given.old }
    requires given { AreGivenBy plan given.old }
    requires range { IsInRange (extent_of config.now) history.now }
    ensures { (arrivals : RunArrivals) → ArePlannedBy plan arrivals given.old →
        IfOk result (IsReplayServed plan config.now arrivals given.new history.now) }
{
    let mut open = OpenRequests::open(alloc, config)?;
    replayed_by(alloc, config, plan, given, history, &mut open)?;
    let OpenRequests { works, .. } = open;
    let threads = end_works(alloc, works, run_end(given))?;
    let served = ServedRequests::of(alloc, threads.as_slice())?;
    Ok(served)
}
