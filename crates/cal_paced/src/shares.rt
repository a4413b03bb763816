//! What threads do of a turn's work.

ghost use Rattle.std.specs.Prelude.{◌≡◌, ◌<◌, ◌≤◌, ◌&&◌, not, if◌then◌else◌, ℕ, Bool, true, false};
ghost use Rattle.std.specs.Prelude.{List, Option, map, nat_lt};
ghost use Rattle.cal_kthread.specs.Turn.OnCores.{core_in_turn, would_bring};
ghost use Rattle.cal_kthread.specs.Turn.Thread.{KernelView};
ghost use Rattle.cal_kthread.specs.Turn.{Answers};
ghost use Rattle.cal_machine.specs.CoreSet.{has};
ghost use Rattle.cal_machine.specs.Machine.{sibling_of};
ghost use Rattle.cal_machine.specs.declared.machine.TheConstants.{MOST_CORES as NUMBERS};
ghost use Rattle.cal_machine.specs.declared.request.Request.{Request};
ghost use Rattle.cal_signal.specs.Records.{IsShaped};
ghost use Rattle.cal_run.specs.declared.workers.worker.Worker.{Worker as WorkerOf};
ghost use Rattle.cal_paced.specs.Making.{IsTurnTold};
ghost use Rattle.cal_paced.specs.Rounds.{comes_to_turn, left_over};
ghost use Rattle.cal_paced.specs.Shares.{AreShares, IsInterference, is_at_work, is_at_work_on};
ghost use Rattle.cal_paced.specs.Shares.{last_record, memory_part, share_on};
ghost use Rattle.cal_paced.specs.declared.plan.Plan.{Plan as PlanOf};
ghost use Rattle.cal_paced.specs.declared.plan.TheConstants.{WHOLE as ALL};

use crate::plan::{Plan, WHOLE};
use cal_kthread::TurnEntries;
use cal_machine::{CoreSet, MOST_CORES};
use cal_run::Worker;
use cal_signal::Record;

/// What the threads at work before a round of turns mean to the turns of it.
#[derive(Clone, Copy, Debug)]
pub(crate) struct Interference {
    /// All cores.
    all: CoreSet,
    /// The cores beside which no thread is at work.
    clear: CoreSet,
    /// What a thread at work does of a turn's work for the memory's sake, in thousandths.
    memory: u16,
    /// What a turn beside a sibling at work does.
    beside: u16,
}

impl Interference {
    /// By what these threads are before a round; `all` are all cores.
    pub(crate) fn of(plan: &Plan, all: CoreSet, workers: &[Worker]) -> Interference
        requires { (core : ℕ) → has all core ≡ nat_lt core NUMBERS }
        ensures { IsInterference plan.now (map (λ (w : WorkerOf). w.thread) workers.now) result }
    {
        let mut clear = all;
        let mut brought: u128 = 0;
        for worker in workers {
            let shows = worker.thread.last_record();
            take_beside(&mut clear, &shows);
            brought += brings(worker, &shows) as u128;
        }
        Interference {
            all,
            clear,
            memory: memory_part(plan.memory, brought),
            beside: plan.beside,
        }
    }

    /// The shares of a thread that showed this last.
    pub(crate) fn shares_of(&self, shows: &Record) -> Shares
        requires beside { self.now.beside ≤ ALL }
        requires memory { self.now.memory ≤ ALL }
        ensures { (plan : PlanOf) (threads : List KernelView) (k : KernelView) →
            IsInterference plan threads self.now → last_record k ≡ shows.now →
            AreShares plan threads k result }
    {
        let memory = if is_at_work(shows) {
            self.memory
        } else {
            WHOLE
        };
        Shares {
            all: self.all,
            clear: self.clear,
            alone: memory,
            beside: (self.beside as u32 * memory as u32 / WHOLE as u32) as u16,
        }
    }
}

/// What a thread does of a turn's work, in thousandths, by the core on which it is.
#[derive(Clone, Copy, Debug)]
pub(crate) struct Shares {
    all: CoreSet,
    clear: CoreSet,
    /// Where no thread is at work beside it.
    alone: u16,
    /// And where one is.
    beside: u16,
}

impl Shares {
    /// The share on this core.
    fn on(&self, core: u8) -> u16
        requires core { core < NUMBERS }
        requires beside { self.now.beside ≤ self.now.alone }
        ensures share { result ≡ share_on self.now core }
        ensures within { result ≤ self.now.alone }
    {
        if self.clear.has(core) {
            self.alone
        } else {
            self.beside
        }
    }

    /// The cores where a thread comes to a whole turn's work with what it has left over.
    pub(crate) fn cores(&self, saved: u16) -> CoreSet
        requires saved { saved < ALL }
        requires alone { self.now.alone ≤ ALL }
        requires beside { self.now.beside ≤ self.now.alone }
        requires all { (core : ℕ) → has self.now.all core ≡ nat_lt core NUMBERS }
        requires clear { (core : ℕ) → has self.now.clear core ≡ true → core < NUMBERS }
        ensures { (core : ℕ) →
            has result core ≡ comes_to_turn saved (share_on self.now) core }
    {
        if saved + self.beside >= WHOLE {
            return self.all;
        }
        if saved + self.alone >= WHOLE {
            return self.clear;
        }
        CoreSet::empty()
    }

    /// What it has left over after the turn that did this.
    pub(crate) fn left_over(&self, saved: u16, entries: &TurnEntries) -> u16
        requires saved { saved < ALL }
        requires alone { self.now.alone ≤ ALL }
        requires beside { self.now.beside ≤ self.now.alone }
        requires shaped { IsShaped entries.now.published.shown }
        ensures left { (shares : ℕ → ℕ) (works : ℕ → Bool) (now : ℕ) (request : Option Request)
            (answers : Answers) (before after : KernelView) →
            ((core : ℕ) → core < NUMBERS → share_on self.now core ≡ shares core) →
            IsTurnTold works now request answers before after entries.now →
            ((core : ℕ) → works core ≡ comes_to_turn saved shares core) →
            result ≡ left_over saved shares (core_in_turn now request answers before)
            after.thread.current }
        ensures below { result < ALL }
    {
        if entries.worked.is_some() {
            return 0;
        }
        let running = entries.published.shown.running;
        if running == 0 {
            return saved;
        }
        let total = saved + self.on((running - 1) as u8);
        if total < WHOLE { total } else { total - WHOLE }
    }
}

/// All cores that a machine can have.
pub(crate) fn all_cores() -> CoreSet
    ensures { (c : ℕ) → has result c ≡ nat_lt c NUMBERS }
{
    let mut all = CoreSet::empty();
    for core in 0..MOST_CORES {
        all.insert(core as u8);
    }
    all
}

/// Whether a record shows a thread at work.
fn is_at_work(shows: &Record) -> bool
    ensures { result ≡ is_at_work shows.now }
{
    shows.running != 0 && shows.started != 0
}

/// The misses that a thread that showed this last would bring in a turn of its work.
fn brings(worker: &Worker, shows: &Record) -> u64
    ensures { result ≡ (if is_at_work shows.now then would_bring worker.now.thread.thread else 0) }
{
    if is_at_work(shows) {
        worker.thread.would_bring()
    } else {
        0
    }
}

/// Takes away the core beside which this record shows a thread at work.
fn take_beside(clear: &mut CoreSet, shows: &Record)
    ensures taken { (core : ℕ) → core < NUMBERS → has clear.new core
        ≡ (has clear.old core && not (is_at_work_on (sibling_of core) shows.now)) }
    ensures no_more { (core : ℕ) → has clear.old core ≡ false → has clear.new core ≡ false }
{
    if !is_at_work(shows) {
        return;
    }
    if shows.running > MOST_CORES as u64 {
        return;
    }
    clear.remove(sibling_of((shows.running - 1) as u8));
}

/// The sibling of a core.
fn sibling_of(core: u8) -> u8
    requires { core < NUMBERS }
    ensures sibling { result ≡ sibling_of core }
    ensures within { result < NUMBERS }
{
    if core % 2 == 0 { core + 1 } else { core - 1 }
}

/// The part of a turn's work for which memory bears the misses, in thousandths.
fn memory_part(memory: Option<u64>, misses: u128) -> u16
    ensures part { result ≡ memory_part memory misses }
    ensures within { result ≤ ALL }
{
    let Some(most) = memory else {
        return WHOLE;
    };
    if misses <= most as u128 {
        return WHOLE;
    }
    (most as u128 * WHOLE as u128 / misses) as u16
}
