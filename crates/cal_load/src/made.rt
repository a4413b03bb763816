//! The arrivals of a plan.

ghost use Rattle.std.specs.Prelude.{◌≡◌, ◌≢◌, ◌<◌, ◌≤◌, ◌+◌, ℕ, List, [], length, None};
ghost use Rattle.std.specs.Prelude.{IfErr, IfOk, IfSome, OnOk};
ghost use Rattle.cal_machine.specs.Table.{Table};
ghost use Rattle.cal_machine.specs.Tasks.{threads_in};
ghost use Rattle.cal_load.specs.Built.{AreBuilt};
ghost use Rattle.cal_load.specs.Clocks.{IsTiming};
ghost use Rattle.cal_load.specs.Counts.{came_in, count_of};
ghost use Rattle.cal_load.specs.Loads.{flag_of, measure_in};
ghost use Rattle.cal_load.specs.Made.{AreArrivals, AreGathered, IsLoadOf, IsMadeOf, IsPut};
ghost use Rattle.cal_load.specs.Made.{IsTimedBy};
ghost use Rattle.cal_load.specs.Refused.{IsRefusedFor};
ghost use Rattle.cal_load.specs.declared.making.TaskLoad.{TaskLoad};
ghost use Rattle.cal_trace.specs.History.Ranges.{Each};

use crate::clocks::{Timing, passes_of, turns_of};
use crate::comings::came_of;
use crate::fault::{LoadFault, Why, refused};
use crate::loads::{Measure, flag_of};
use crate::making::{Coming, TaskLoad};
use crate::requests::{put_queues, put_turns};
use cal_came::Came;
use cal_machine::{Config, Listed};
use cal_trace::{Arrival, Arrivals};
use rand_core::SeedableRng;
use rand_xoshiro::Xoshiro256PlusPlus;
use std::alloc::{AllocError, Global};

/// The most requests of all tasks.
pub const MOST_REQUESTS: u64 = 1_000_000;

/// What came to a task.
#[derive(Clone, Copy, Debug, PartialEq, Eq)]
pub struct Count {
    /// The number of the task.
    pub task: usize,
    /// How many requests came.
    pub came: u64,
    /// How many of these come before a later turn than they came to, which was taken.
    pub later: u64,
    /// How many found no turn any more, and are left out.
    pub left_out: u64,
    /// The turns that all others take.
    pub work: u64,
}

/// Arrivals that are to be made for a table.
#[derive(Clone, Copy)]
pub struct ArrivalPlan<'a> {
    /// What comes to tasks: no two of these are of one task.
    pub loads: &'a [TaskLoad],
    /// How many passes and turns there are, and how far apart they are.
    pub timing: Timing,
    /// The seed of all that comes by chance.
    pub seed: u64,
}

impl<'a> ArrivalPlan<'a> {
    /// The load of a task, where it has one.
    fn load_of(&self, task: usize) -> Option<&'a TaskLoad>
        ensures some { IfSome result (λ load. IsLoadOf self.now.loads.now task load.now) }
        ensures none { result ≡ None → Each (λ load. load.task ≢ task) self.now.loads.now }
    {
        for place in 0..self.loads.len() {
            if self.loads[place].task == task {
                return Some(&self.loads[place]);
            }
        }
        None
    }

    /// What the loads are measured in: the first of them.
    pub fn measure(&self) -> Measure
        ensures { result ≡ measure_in self.now.loads.now }
    {
        match self.loads.first() {
            Some(load) => load.measure,
            None => Measure::Limit,
        }
    }
}

/// Arrivals that were made.
#[derive(Drop)]
pub struct Made {
    /// The arrivals.
    pub arrivals: Arrivals,
    /// How each request came, in their order: to its own turn or one before it.
    pub came: Vec<Came>,
    /// What came to each task that has a load.
    pub counts: Vec<Count>,
}

/// The generator of a task: one that is by 2^128 numbers further for each task more, so that no
/// task changes what comes to another.
pub(crate) fn generator(seed: u64, task: usize) -> Xoshiro256PlusPlus {
    let mut rng = Xoshiro256PlusPlus::seed_from_u64(seed);
    for _ in 0..task {
        rng.jump();
    }
    rng
}

/// What came to a task.
fn count_of(task: usize, coming: &Coming) -> Count
    ensures { result ≡ count_of task coming.now }
{
    Count {
        task,
        came: coming.came,
        later: coming.later,
        left_out: coming.left_out,
        work: coming.work,
    }
}

/// What came to the tasks so far.
#[derive(Drop)]
pub(crate) struct Gathered {
    requests: Vec<Arrival>,
    /// The turn to which each of them came.
    came_to: Vec<u64>,
    counts: Vec<Count>,
}

impl Gathered {
    /// Nothing yet.
    pub(crate) fn new(alloc: Global) -> Gathered
        ensures is { (table : Table) (loads : List TaskLoad) (turns : ℕ) →
            AreGathered table loads turns 0 result }
        ensures nothing { result.requests.items ≡ [] }
        ensures none { result.counts.items ≡ [] }
    {
        Gathered {
            requests: Vec::new(alloc),
            came_to: Vec::new(alloc),
            counts: Vec::new(alloc),
        }
    }

    /// Puts what comes to a task, of whose threads this is the first, each request with these misses.
    pub(crate) fn put(
        &mut self,
        task: usize,
        misses: u32,
        first: usize,
        coming: &Coming,
    ) -> Result<(), AllocError>
        requires { first + length coming.now.queues.items ≤ 256 }
        ensures { OnOk result (IsPut task misses first coming.now self.old self.new) }
    {
        let queues = coming.queues.as_slice();
        put_queues(&mut self.requests, first, queues, misses)?;
        put_turns(&mut self.came_to, queues)?;
        self.counts.push(count_of(task, coming))?;
        Ok(())
    }

    /// What came, as arrivals of this timing. Fails only when out of memory.
    pub(crate) fn assembled(self, alloc: Global, timing: Timing) -> Result<Made, AllocError>
        requires { IsTiming timing }
        ensures whole { (table : Table) (thread : ℕ) →
            AreBuilt (threads_in table.tasks) timing.turns thread self.requests.items →
            IfOk result (AreArrivals table) }
        ensures requests { IfOk result (λ made.
            made.arrivals.requests ≡ self.requests.items) }
        ensures counts { IfOk result (λ made. made.counts.items ≡ self.counts.items) }
        ensures timed { IfOk result (λ made. IsTimedBy timing made.arrivals) }
    {
        let requests = self.requests.as_slice();
        let came = came_of(alloc, timing, requests, self.came_to.as_slice())?;
        Ok(Made {
            arrivals: Arrivals {
                passes: Listed::new(passes_of(alloc, timing)?),
                turns: Listed::new(turns_of(alloc, timing)?),
                requests: Listed::new(self.requests),
            },
            came,
            counts: self.counts,
        })
    }
}

/// What comes to each task that has a load, by their numbers; nothing where it is more than
/// `MOST_REQUESTS`. Fails only when out of memory.
fn all_that_come(
    alloc: Global,
    config: &Config,
    plan: &ArrivalPlan<'_>,
    turns: u64,
) -> Result<Option<Gathered>, AllocError>
    ensures { IfOk result (λ answer. IfSome answer
        (AreGathered config.now plan.now.loads.now turns (length config.now.tasks))) }
{
    config.limits();
    let mut gathered = Gathered::new(alloc);
    let mut came = 0u64;
    for task in 0..config.tasks() {
        let Some(load) = plan.load_of(task) else {
            continue;
        };
        let (first, threads) = config.threads_of(task);
        let mut rng = generator(plan.seed, task);
        let Some(coming) = load.come(alloc, &mut rng, threads, turns)? else {
            return Ok(None);
        };
        came = came.saturating_add(coming.came);
        if came > MOST_REQUESTS {
            return Ok(None);
        }
        gathered.put(task, load.misses, first, &coming)?;
    }
    Ok(Some(gathered))
}

/// The arrivals of a plan for a table: so many passes and turns, and the requests of its loads, each
/// before the turn to which it comes or the first after it that is free at its thread. What comes to a
/// task depends on the seed, its number, its limit and its load alone. A timing that no arrivals can
/// have is taken as the nearest.
///
/// The fault is that of this word, that of the first load, where more than `MOST_REQUESTS` come.
pub fn made_arrivals<'a>(
    alloc: Global,
    config: &Config,
    plan: &ArrivalPlan<'_>,
    word: &'a str,
) -> Result<Made, LoadFault<'a>>
    // They fit the table, and of each task they have as many requests as its count says, each with
    // the misses of its load.
    ensures made { IfOk result (IsMadeOf config.now plan.now.loads.now) }
    ensures timed { IsTiming plan.now.timing →
        IfOk result (λ made. IsTimedBy plan.now.timing made.arrivals) }
    ensures few { IfOk result (λ made. came_in made.counts.items ≤ MOST_REQUESTS) }
    ensures fault { IfErr result (IsRefusedFor (flag_of (measure_in plan.now.loads.now)) word.now
        (Why.TooMany MOST_REQUESTS)) }
{
    let timing = plan.timing.nearest();
    let Some(gathered) = all_that_come(alloc, config, plan, timing.turns)? else {
        let why = Why::TooMany(MOST_REQUESTS);
        return Err(refused(flag_of(plan.measure()), word, why));
    };
    let made = gathered.assembled(alloc, timing)?;
    Ok(made)
}
