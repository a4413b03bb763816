//! Requests that come by chance to the threads of a task.

ghost use Rattle.std.specs.Prelude.{◌≡◌, ◌<◌, IfOk, IfSome, OnOk, length};
ghost use Rattle.cal_load.specs.Comings.{IsComing, IsComingTo};

use crate::loads::Measure;
use crate::made::MOST_REQUESTS;
use crate::making::{Coming, Pattern, Slot, TaskLoad};
use crate::service::{next_turns, turns_by_share};
use crate::variate::{ONE, exponential};
use rand::RngExt;
use rand_core::Rng;
use std::alloc::{AllocError, Global};

/// The time between two arrivals of a task.
#[derive(Clone, Copy)]
struct Gap {
    /// The mean is this part of a turn: so much of so much.
    part: u64,
    whole: u64,
    pattern: Pattern,
}

impl Gap {
    /// That of a load on so many threads.
    fn of(load: &TaskLoad, threads: usize) -> Gap {
        let part = turns_by_share(load.service.as_slice());
        Gap {
            part: part.saturating_mul(load.at_once()),
            whole: load.work_of(threads).saturating_mul(100),
            pattern: load.pattern,
        }
    }

    /// The next one, in 2^-32 of a turn.
    fn next<R: Rng>(&self, rng: &mut R) -> u128 {
        let time = match self.pattern {
            Pattern::Even => ONE,
            Pattern::Poisson | Pattern::Bursts(_) => exponential(rng),
        };
        let far = u128::from(time).saturating_mul(u128::from(self.part));
        far.checked_div(u128::from(self.whole)).unwrap_or(0)
    }
}

/// One of so many threads, by chance.
pub(crate) fn next_thread<R: Rng>(rng: &mut R, threads: usize) -> usize
    requires { 0 < threads }
    ensures { result < threads }
{
    rng.random_range(0..threads as u64) as usize
}

impl TaskLoad {
    /// How many requests come at once.
    fn at_once(&self) -> u64 {
        match self.pattern {
            Pattern::Poisson | Pattern::Even => 1,
            Pattern::Bursts(number) => number,
        }
    }

    /// What comes to so many threads, in thousandths of what one thread can do.
    fn work_of(&self, threads: usize) -> u64 {
        match self.measure {
            Measure::Limit => self.load.saturating_mul(threads as u64),
            Measure::Cores => self.load,
        }
    }

    /// Gives the requests that come at once to a turn, each to a thread by chance.
    fn give_at<R: Rng>(&self, rng: &mut R, turn: u64, coming: &mut Coming) -> Result<(), AllocError>
        requires is { IsComing coming.old }
        requires some { 0 < length coming.old.queues.items }
        ensures is { OnOk result (IsComing coming.new) }
        ensures threads { length coming.new.queues.items ≡ length coming.old.queues.items }
        ensures turns { coming.new.turns ≡ coming.old.turns }
    {
        let threads = coming.queues.len();
        for _k in 0..self.at_once() {
            let work = next_turns(rng, self.service.as_slice());
            let thread = next_thread(rng, threads);
            let came_to = turn;
            coming.give(
                thread,
                Slot {
                    turn,
                    work,
                    came_to,
                },
            )?;
        }
        Ok(())
    }

    /// What comes to so many threads of the task in so many turns; nothing where it is more than
    /// `MOST_REQUESTS`. The same generator gives the same, and of a load in cores the same turns
    /// for any number of threads. Fails only when out of memory.
    pub(crate) fn come<R: Rng>(
        &self,
        alloc: Global,
        rng: &mut R,
        threads: usize,
        turns: u64,
    ) -> Result<Option<Coming>, AllocError>
        requires { 0 < threads }
        ensures { IfOk result (λ answer. IfSome answer (IsComingTo threads turns)) }
    {
        let mut coming = Coming::new(alloc, threads, turns)?;
        let gap = Gap::of(self, threads);
        let mut time = 0u128;
        // One more than the most that come, one at a time: the last one finds the end.
        for _k in 0..=MOST_REQUESTS {
            if coming.came > MOST_REQUESTS {
                return Ok(None);
            }
            time = time.saturating_add(gap.next(rng));
            let turn = (time >> 32).min(u128::from(turns)) as u64;
            if turn >= turns {
                return Ok(Some(coming));
            }
            self.give_at(rng, turn, &mut coming)?;
        }
        Ok(None)
    }
}
