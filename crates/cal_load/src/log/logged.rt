//! The arrivals of a log.

ghost use Rattle.std.specs.Prelude.{IfOk, length};
ghost use Rattle.cal_load.specs.Clocks.{IsTiming};
ghost use Rattle.cal_load.specs.Logs.{AreGiven, AreLogged, AreOfLog};
ghost use Rattle.cal_load.specs.Made.{AreArrivals, IsTimedBy};

use crate::clocks::Timing;
use crate::log::LogRow;
use crate::log::giving::come_of;
use crate::made::{Gathered, Made, generator};
use cal_machine::Config;
use std::alloc::{AllocError, Global};

/// The seed of the threads that requests of a log come to.
const SEED: u64 = 1;

/// How many turns a run has in which the longest request can be served after the last one came.
pub fn turns_for(rows: &[LogRow]) -> u64 {
    let mut last = 0u64;
    let mut longest = 0u64;
    for row in rows {
        last = last.max(row.turn);
        longest = longest.max(row.work);
    }
    last.saturating_add(1).saturating_add(longest)
}

/// What a log gives to each task of a table.
fn all_of_log(
    alloc: Global,
    config: &Config,
    rows: &[LogRow],
    turns: u64,
) -> Result<Gathered, AllocError>
    requires { AreLogged (length config.now.tasks) rows.now }
    ensures { IfOk result (AreGiven config.now rows.now turns (length config.now.tasks)) }
{
    config.limits();
    let mut gathered = Gathered::new(alloc);
    for task in 0..config.tasks() {
        let (first, threads) = config.threads_of(task);
        let mut rng = generator(SEED, task);
        let coming = come_of(alloc, &mut rng, rows, task, threads, turns)?;
        gathered.put(task, 0, first, &coming)?;
    }
    Ok(gathered)
}

/// The arrivals of the requests of a log for a table: so many passes and turns, and each request
/// before the turn in which its time falls, or the first after it that is free at its thread. What
/// comes to a task depends on its number, its limit and its own requests alone; what is of no task
/// of the table is not made. A timing that no arrivals can have is taken as the nearest. Fails only
/// when out of memory.
pub fn logged_arrivals(
    alloc: Global,
    config: &Config,
    rows: &[LogRow],
    timing: Timing,
) -> Result<Made, AllocError>
    requires { AreLogged (length config.now.tasks) rows.now }
    // They fit the table, and each task has as many requests as the log has for it, but those that
    // are counted as left out.
    ensures made { IfOk result (AreArrivals config.now) }
    ensures counted { IfOk result (AreOfLog config.now rows.now) }
    ensures timed { IsTiming timing → IfOk result (λ made. IsTimedBy timing made.arrivals) }
{
    let timing = timing.nearest();
    let gathered = all_of_log(alloc, config, rows, timing.turns)?;
    let made = gathered.assembled(alloc, timing)?;
    Ok(made)
}
