//! The rounds of a paced run.

ghost use Rattle.std.specs.Prelude.{◌≡◌, ◌+◌, ◌-◌, ◌*◌, ◌<◌, ◌≤◌, ◌++◌, ℕ, List, Some, length, map};
ghost use Rattle.std.specs.Prelude.{min, replicate, slice_get, slice_index, IfOk, OnOk};
ghost use Rattle.cal_kthread.specs.Turn.Entries.{entries_of};
ghost use Rattle.cal_kthread.specs.Turn.Thread.{KernelView};
ghost use Rattle.cal_kthread.specs.declared.journal.entry.Entry.{Entry};
ghost use Rattle.cal_machine.specs.Table.{Table};
ghost use Rattle.cal_machine.specs.declared.numbering.TheConstants.{MOST_THREADS};
ghost use Rattle.cal_policy.specs.declared.history.entry.PassEntry.{PassEntry};
ghost use Rattle.cal_run.specs.Order.{Made, then_passes, then_turns};
ghost use Rattle.cal_run.specs.Parts.{AreParts, HasPassed, scheduler_seat_of, watch_seat_of};
ghost use Rattle.cal_run.specs.Workers.GivenTurns.{request_at};
ghost use Rattle.cal_run.specs.Workers.{FitSomeTable, HasMade, HaveMade, HaveMadeNoTurn};
ghost use Rattle.cal_run.specs.Workers.{journals_of, seat_of, seats_of};
ghost use Rattle.cal_run.specs.declared.workers.worker.Worker.{Worker as WorkerOf};
ghost use Rattle.cal_trace.specs.declared.arrivals.GivenPass.{GivenPass as Pass};
ghost use Rattle.cal_paced.specs.Making.{AreAllCores, AreBelowWhole, DifferFrom, IsMadeUpTo};
ghost use Rattle.cal_paced.specs.Making.{misses_of, standings_of};
ghost use Rattle.cal_paced.specs.Order.{then_round, then_rounds};
ghost use Rattle.cal_paced.specs.Paced.{IsPlan, SlowsNobody};
ghost use Rattle.cal_paced.specs.Rounds.{IsRound, IsTurnBy};
ghost use Rattle.cal_paced.specs.Shares.{IsInterference, share};
ghost use Rattle.cal_paced.specs.declared.plan.Figure.TheVariants.{Given, Shown};
ghost use Rattle.cal_paced.specs.declared.plan.Plan.{Plan as PlanOf};
ghost use Rattle.cal_paced.specs.declared.plan.TheConstants.{WHOLE as ALL};

use crate::plan::{Figure, Plan};
use crate::shares::{Interference, all_cores};
use cal_kthread::TurnEntries;
use cal_kthread::laws::turns_add_up;
use cal_machine::{CoreSet, Listed};
use cal_run::{Collector, Parts, Worker, watch_of_round};
use cal_sched::{BareScheduler, Watch};
use cal_trace::{Arrivals, GivenPass};
use std::alloc::{AllocError, Global};
use std::mem::replace;

/// What a paced run keeps from round to round beside its parts.
#[derive(Drop)]
pub struct Keeping {
    /// What each thread has left over of a turn's work, in thousandths, in thread order.
    pub(crate) saved: Vec<u16>,
    /// All cores.
    pub(crate) all: CoreSet,
    /// The misses that all records showed before the last round of turns.
    pub(crate) misses: u64,
}

impl Keeping {
    /// Nothing left over, of so many threads, and no misses. Fails only when out of memory.
    pub fn new(alloc: Global, threads: usize) -> Result<Keeping, AllocError>
        ensures saved { IfOk result (λ keeping. keeping.saved.items ≡ replicate threads 0) }
        ensures cores { IfOk result (λ keeping. AreAllCores keeping.all) }
        ensures misses { IfOk result (λ keeping. keeping.misses ≡ 0) }
    {
        let mut saved = Vec::new(alloc);
        for _ in 0..threads {
            saved.push(0)?;
        }
        Ok(Keeping {
            saved,
            all: all_cores(),
            misses: 0,
        })
    }
}

/// All rounds of a run on these paced arrivals by this plan. In round `r` come first the passes
/// before turn `r`, then turn `r` of each thread in thread order, then as many rounds of the watch as
/// there were passes. Fails only when out of memory, or where the collector does.
pub(crate) fn make_rounds<C: Collector>(
    alloc: Global,
    parts: &mut Parts,
    given: &mut Arrivals,
    plan: &Plan,
    keeping: &mut Keeping,
    collector: &mut C,
) -> Result<(), C::Fault>
    requires plan { IsPlan plan.now }
    requires suits { C.suits collector.old parts.old.scheduler.table }
    requires fits { FitSomeTable given.old }
    requires many { length given.old.passes ≡ plan.now.pace * length given.old.turns }
    requires few { length parts.old.workers.items ≤ MOST_THREADS }
    requires opened { AreParts parts.old.scheduler.table given.old 0 0 0 parts.old }
    requires fresh { HaveMadeNoTurn (map (λ (w : WorkerOf). w.thread) parts.old.workers.items) }
    requires nothing { keeping.old.saved.items ≡ replicate (length parts.old.workers.items) 0 }
    requires no_misses { keeping.old.misses ≡ 0 }
    requires cores { AreAllCores keeping.old.all }
    ensures suits { IfOk result (λ _. C.suits collector.new parts.old.scheduler.table) }
    ensures given { DifferFrom 0 given.old given.new }
    ensures as_given { plan.now.figure ≡ Given → given.new ≡ given.old }
    ensures made { IfOk result (λ _. IsMadeUpTo (length given.new.turns) plan.now
        parts.old.scheduler.table given.new parts.new keeping.new.saved.items keeping.new.misses) }
    ensures most { IfOk result (λ _. parts.new.watch.most ≡ parts.old.watch.most) }
    ensures policy { IfOk result (λ _. parts.new.scheduler.policy ≡ parts.old.scheduler.policy) }
    ensures collected { C.holds collector.old parts.old.scheduler.history
        (journals_of parts.old.workers.items) →
        OnOk result (C.holds collector.new parts.new.scheduler.history
        (journals_of parts.new.workers.items)) }
    ensures ordered { (made : List Made) → C.met collector.old made →
        OnOk result (C.met collector.new (then_rounds plan.now.pace
        (length parts.old.workers.items) (length given.old.turns) made)) }
{
    for r in 0..given.turns.as_slice().len() {
        make_round(alloc, parts, given, plan, r, keeping, collector)?;
    }
    Ok(())
}

/// Round `r`.
fn make_round<C: Collector>(
    alloc: Global,
    parts: &mut Parts,
    given: &mut Arrivals,
    plan: &Plan,
    r: usize,
    keeping: &mut Keeping,
    collector: &mut C,
) -> Result<(), C::Fault>
    requires plan { IsPlan plan.now }
    requires suits { C.suits collector.old parts.old.scheduler.table }
    requires fits { FitSomeTable given.old }
    requires many { length given.old.passes ≡ plan.now.pace * length given.old.turns }
    requires few { length parts.old.workers.items ≤ MOST_THREADS }
    requires given { r < length given.old.turns }
    requires before { IsMadeUpTo r plan.now parts.old.scheduler.table given.old parts.old
        keeping.old.saved.items keeping.old.misses }
    requires cores { AreAllCores keeping.old.all }
    ensures suits { IfOk result (λ _. C.suits collector.new parts.old.scheduler.table) }
    ensures given { DifferFrom (plan.now.pace * r) given.old given.new }
    ensures as_given { plan.now.figure ≡ Given → given.new ≡ given.old }
    ensures made { IfOk result (λ _. IsMadeUpTo (r + 1) plan.now parts.old.scheduler.table
        given.new parts.new keeping.new.saved.items keeping.new.misses) }
    ensures most { IfOk result (λ _. parts.new.watch.most ≡ parts.old.watch.most) }
    ensures policy { IfOk result (λ _. parts.new.scheduler.policy ≡ parts.old.scheduler.policy) }
    ensures few { IfOk result (λ _.
        length parts.new.workers.items ≡ length parts.old.workers.items) }
    ensures cores { IfOk result (λ _. AreAllCores keeping.new.all) }
    ensures collected { C.holds collector.old parts.old.scheduler.history
        (journals_of parts.old.workers.items) →
        OnOk result (C.holds collector.new parts.new.scheduler.history
        (journals_of parts.new.workers.items)) }
    ensures ordered { (made : List Made) → C.met collector.old made →
        OnOk result (C.met collector.new
        (then_round plan.now.pace (length parts.old.workers.items) made)) }
{
    show_figure(alloc, parts.workers.as_slice(), given, plan, r, keeping);
    make_passes(&mut parts.scheduler, given, plan.pace, r, collector)?;
    make_turns(
        parts.workers.as_mut_slice(),
        given,
        plan,
        r,
        keeping,
        collector,
    )?;
    watch_passes(&mut parts.watch, plan.pace);
    Ok(())
}

/// The passes before turn `r`.
fn make_passes<C: Collector>(
    scheduler: &mut BareScheduler,
    given: &Arrivals,
    pace: u16,
    r: usize,
    collector: &mut C,
) -> Result<(), C::Fault>
    requires suits { C.suits collector.old scheduler.old.table }
    requires fits { FitSomeTable given.now }
    requires some { pace * r + pace ≤ length given.now.passes }
    requires passed { HasPassed given.now (pace * r) scheduler.old }
    ensures suits { IfOk result (λ _. C.suits collector.new scheduler.old.table) }
    ensures passed { IfOk result (λ _. HasPassed given.now (pace * (r + 1)) scheduler.new) }
    ensures seat { scheduler_seat_of scheduler.new ≡ scheduler_seat_of scheduler.old }
    ensures collected { (journals : List (List Entry)) →
        C.holds collector.old scheduler.old.history journals →
        OnOk result (C.holds collector.new scheduler.new.history journals) }
    ensures ordered { (made : List Made) → C.met collector.old made →
        OnOk result (C.met collector.new (then_passes pace made)) }
{
    let first = r * pace as usize;
    for p in first..first + pace as usize {
        collector.make_pass(scheduler, given, p)?;
    }
    Ok(())
}

/// Turn `r` of each thread, in thread order.
pub fn make_turns<C: Collector>(
    workers: &mut [Worker],
    given: &Arrivals,
    plan: &Plan,
    r: usize,
    keeping: &mut Keeping,
    collector: &mut C,
) -> Result<(), C::Fault>
    requires plan { IsPlan plan.now }
    requires fits { FitSomeTable given.now }
    requires given { r < length given.now.turns }
    requires made { HaveMade given.now r workers.old }
    requires kept { length keeping.old.saved.items ≡ length workers.old }
    requires below { AreBelowWhole keeping.old.saved.items }
    requires cores { AreAllCores keeping.old.all }
    requires nothing { SlowsNobody plan.now →
        keeping.old.saved.items ≡ replicate (length workers.old) 0 }
    ensures suits { (table : Table) → C.suits collector.old table →
        IfOk result (λ _. C.suits collector.new table) }
    ensures made { IfOk result (λ _. HaveMade given.now (r + 1) workers.new) }
    ensures seats { IfOk result (λ _. seats_of workers.new ≡ seats_of workers.old) }
    ensures kept { IfOk result (λ _.
        length keeping.new.saved.items ≡ length keeping.old.saved.items) }
    ensures below { IfOk result (λ _. AreBelowWhole keeping.new.saved.items) }
    ensures cores { IfOk result (λ _. AreAllCores keeping.new.all) }
    ensures nothing { SlowsNobody plan.now →
        IfOk result (λ _. keeping.new.saved ≡ keeping.old.saved) }
    ensures misses { IfOk result (λ _. keeping.new.misses ≡ keeping.old.misses) }
    ensures shares { IfOk result (λ _. IsRound plan.now given.now r
        (standings_of workers.old keeping.old.saved.items)
        (standings_of workers.new keeping.new.saved.items)) }
    ensures collected { (history : List PassEntry) →
        C.holds collector.old history (journals_of workers.old) →
        OnOk result (C.holds collector.new history (journals_of workers.new)) }
    ensures ordered { (made : List Made) → C.met collector.old made →
        OnOk result (C.met collector.new (then_turns (length workers.old) made)) }
{
    if plan.slows_nobody() {
        return whole_turns(workers, given, r, keeping, collector);
    }
    shared_turns(workers, given, plan, r, keeping, collector)
}

/// The same where nobody is slowed.
fn whole_turns<C: Collector>(
    workers: &mut [Worker],
    given: &Arrivals,
    r: usize,
    keeping: &mut Keeping,
    collector: &mut C,
) -> Result<(), C::Fault>
    requires fits { FitSomeTable given.now }
    requires given { r < length given.now.turns }
    requires made { HaveMade given.now r workers.old }
    requires kept { length keeping.old.saved.items ≡ length workers.old }
    requires nothing { keeping.old.saved.items ≡ replicate (length workers.old) 0 }
    requires cores { AreAllCores keeping.old.all }
    ensures suits { (table : Table) → C.suits collector.old table →
        IfOk result (λ _. C.suits collector.new table) }
    ensures made { IfOk result (λ _. HaveMade given.now (r + 1) workers.new) }
    ensures seats { IfOk result (λ _. seats_of workers.new ≡ seats_of workers.old) }
    ensures kept { IfOk result (λ _.
        length keeping.new.saved.items ≡ length keeping.old.saved.items) }
    ensures below { IfOk result (λ _. AreBelowWhole keeping.new.saved.items) }
    ensures cores { IfOk result (λ _. AreAllCores keeping.new.all) }
    ensures nothing { IfOk result (λ _. keeping.new.saved ≡ keeping.old.saved) }
    ensures misses { IfOk result (λ _. keeping.new.misses ≡ keeping.old.misses) }
    ensures shares { (plan : PlanOf) → SlowsNobody plan → IfOk result (λ _.
        IsRound plan given.now r (standings_of workers.old keeping.old.saved.items)
        (standings_of workers.new keeping.new.saved.items)) }
    ensures collected { (history : List PassEntry) →
        C.holds collector.old history (journals_of workers.old) →
        OnOk result (C.holds collector.new history (journals_of workers.new)) }
    ensures ordered { (made : List Made) → C.met collector.old made →
        OnOk result (C.met collector.new (then_turns (length workers.old) made)) }
{
    turns_add_up();
    for k in 0..workers.len() {
        let entries = workers[k].turn_on(given, r, keeping.all)?;
        collector.add_turn(k, &entries)?;
    }
    Ok(())
}

/// The same where threads are slowed: each does its share by what all are before.
fn shared_turns<C: Collector>(
    workers: &mut [Worker],
    given: &Arrivals,
    plan: &Plan,
    r: usize,
    keeping: &mut Keeping,
    collector: &mut C,
) -> Result<(), C::Fault>
    requires plan { IsPlan plan.now }
    requires fits { FitSomeTable given.now }
    requires given { r < length given.now.turns }
    requires made { HaveMade given.now r workers.old }
    requires kept { length keeping.old.saved.items ≡ length workers.old }
    requires below { AreBelowWhole keeping.old.saved.items }
    requires cores { AreAllCores keeping.old.all }
    ensures suits { (table : Table) → C.suits collector.old table →
        IfOk result (λ _. C.suits collector.new table) }
    ensures made { IfOk result (λ _. HaveMade given.now (r + 1) workers.new) }
    ensures seats { IfOk result (λ _. seats_of workers.new ≡ seats_of workers.old) }
    ensures kept { IfOk result (λ _.
        length keeping.new.saved.items ≡ length keeping.old.saved.items) }
    ensures below { IfOk result (λ _. AreBelowWhole keeping.new.saved.items) }
    ensures cores { IfOk result (λ _. AreAllCores keeping.new.all) }
    ensures misses { IfOk result (λ _. keeping.new.misses ≡ keeping.old.misses) }
    ensures shares { IfOk result (λ _. IsRound plan.now given.now r
        (standings_of workers.old keeping.old.saved.items)
        (standings_of workers.new keeping.new.saved.items)) }
    ensures collected { (history : List PassEntry) →
        C.holds collector.old history (journals_of workers.old) →
        OnOk result (C.holds collector.new history (journals_of workers.new)) }
    ensures ordered { (made : List Made) → C.met collector.old made →
        OnOk result (C.met collector.new (then_turns (length workers.old) made)) }
{
    turns_add_up();
    let interference = Interference::of(plan, keeping.all, workers);
    for k in 0..workers.len() {
        let mut saved = keeping.saved[k];
        let entries = shared_turn(&mut workers[k], &mut saved, given, r, &interference)?;
        keeping.saved[k] = saved;
        collector.add_turn(k, &entries)?;
    }
    Ok(())
}

/// A thread's turn `r`, which does its share by what all threads were before the round.
fn shared_turn(
    worker: &mut Worker,
    saved: &mut u16,
    given: &Arrivals,
    r: usize,
    interference: &Interference,
) -> Result<TurnEntries, AllocError>
    requires fits { FitSomeTable given.now }
    requires given { r < length given.now.turns }
    requires made { HasMade given.now worker.old.number r worker.old }
    requires below { saved.old < ALL }
    requires beside { interference.now.beside ≤ ALL }
    requires some { (plan : PlanOf) × (threads : List KernelView)
        × IsInterference plan threads interference.now }
    ensures made { IfOk result (λ _. HasMade given.now worker.old.number (r + 1) worker.new) }
    ensures handed { IfOk result (λ entries.
        worker.new.thread.journal ≡ worker.old.thread.journal ++ entries_of entries) }
    ensures seat { seat_of worker.new.thread ≡ seat_of worker.old.thread }
    ensures below { saved.new < ALL }
    ensures shares { (plan : PlanOf) (threads : List KernelView) →
        IsInterference plan threads interference.now → IfOk result (λ _.
        IsTurnBy (slice_index given.now.turns r)
        (request_at given.now.requests worker.old.number r)
        (share plan threads worker.old.thread)
        (record { thread = worker.old.thread; saved = saved.old })
        (record { thread = worker.new.thread; saved = saved.new })) }
{
    let shares = interference.shares_of(&worker.thread.last_record());
    let works = shares.cores(*saved);
    let entries = worker.turn_on(given, r, works)?;
    *saved = shares.left_over(*saved, &entries);
    Ok(entries)
}

/// As many rounds of the watch as there were passes, where it has them left to make.
fn watch_passes(watch: &mut Watch, pace: u16)
    requires few { length watch.old.rounds ≤ watch.old.most }
    ensures rounds { length watch.new.rounds
        ≡ min (length watch.old.rounds + pace) watch.old.most }
    ensures seat { watch_seat_of watch.new ≡ watch_seat_of watch.old }
{
    for _ in 0..pace {
        watch_of_round(watch);
    }
}

/// Gives the passes before turn `r` the misses by which the records rose in the turns before, where
/// the figures are those that the records show.
pub fn show_figure(
    alloc: Global,
    workers: &[Worker],
    given: &mut Arrivals,
    plan: &Plan,
    r: usize,
    keeping: &mut Keeping,
)
    requires few { length workers.now ≤ MOST_THREADS }
    requires fits { FitSomeTable given.old }
    requires some { plan.now.pace * r + plan.now.pace ≤ length given.old.passes }
    ensures given { DifferFrom (plan.now.pace * r) given.old given.new }
    ensures as_given { plan.now.figure ≡ Given → given.new ≡ given.old }
    ensures figures { plan.now.figure ≡ Shown → (i : ℕ) (pass : Pass) → plan.now.pace * r ≤ i →
        i < plan.now.pace * r + plan.now.pace → slice_get given.new.passes i ≡ Some pass →
        pass.bandwidth ≡ misses_of workers.now - keeping.old.misses }
    ensures misses { plan.now.figure ≡ Shown → keeping.new.misses ≡ misses_of workers.now }
    ensures saved { keeping.new.saved ≡ keeping.old.saved }
    ensures cores { keeping.new.all ≡ keeping.old.all }
{
    let Figure::Shown = plan.figure else {
        return;
    };
    let misses = misses_shown(workers);
    let figure = misses.saturating_sub(keeping.misses);
    keeping.misses = misses;
    let first = r * plan.pace as usize;
    set_figures(alloc, given, first, first + plan.pace as usize, figure);
}

/// The misses that the last records of these threads show, all together. (No sum is above 2^63: a
/// table has at most 128 threads, and each record at most 2^56 misses.)
fn misses_shown(workers: &[Worker]) -> u64
    requires few { length workers.now ≤ MOST_THREADS }
    ensures { result ≡ misses_of workers.now }
{
    let mut misses = 0;
    for worker in workers {
        misses += worker.thread.last_record().misses;
    }
    misses
}

/// Gives these passes this figure.
fn set_figures(alloc: Global, given: &mut Arrivals, first: usize, end: usize, figure: u64)
    ensures given { DifferFrom first given.old given.new }
    ensures figures { (i : ℕ) (pass : Pass) → first ≤ i → i < end →
        slice_get given.new.passes i ≡ Some pass → pass.bandwidth ≡ figure }
{
    let listed = replace(&mut given.passes, Listed::new(Vec::new(alloc)));
    let mut passes = listed.into_items();
    for p in first..end.min(passes.len()) {
        let now = passes[p].now;
        passes[p] = GivenPass {
            now,
            bandwidth: figure,
        };
    }
    given.passes = Listed::new(passes);
}
