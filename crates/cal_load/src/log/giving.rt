//! The requests of a log, given to the threads of a task.

ghost use Rattle.std.specs.Prelude.{◌≡◌, ◌<◌, ◌≤◌, IfOk, Some, length, slice_get};
ghost use Rattle.cal_load.specs.Comings.{IsComingTo};
ghost use Rattle.cal_load.specs.Logs.{rows_for};
ghost use Rattle.cal_load.specs.Services.{IsWork};
ghost use Rattle.cal_load.specs.declared.made.TheConstants.{MOST_REQUESTS};
ghost use Rattle.cal_trace.specs.History.Ranges.{Each};

use crate::drawing::next_thread;
use crate::log::LogRow;
use crate::making::{Coming, Slot};
use rand_xoshiro::Xoshiro256PlusPlus;
use std::alloc::{AllocError, Global};

/// The request of a log, as it comes to a thread.
fn slot_of(row: LogRow) -> Slot
    ensures { result.work ≡ row.work }
{
    Slot {
        turn: row.turn,
        work: row.work,
        came_to: row.turn,
    }
}

/// The request at a place of a log.
fn row_at(rows: &[LogRow], place: usize) -> LogRow
    requires { place < length rows.now }
    ensures { slice_get rows.now place ≡ Some result }
{
    rows[place]
}

/// What a log gives to so many threads of a task in so many turns: each of its requests in their
/// order, to a thread by chance, before the turn in which its time falls or the first after it that
/// is free. The same generator gives the same. Fails only when out of memory.
pub(crate) fn come_of(
    alloc: Global,
    rng: &mut Xoshiro256PlusPlus,
    rows: &[LogRow],
    task: usize,
    threads: usize,
    turns: u64,
) -> Result<Coming, AllocError>
    requires logged { Each (λ row. IsWork row.work) rows.now }
    requires few { length rows.now ≤ MOST_REQUESTS }
    requires threads { 0 < threads }
    ensures coming { IfOk result (IsComingTo threads turns) }
    ensures came { IfOk result (λ coming. coming.came ≡ length (rows_for task rows.now)) }
{
    let mut coming = Coming::new(alloc, threads, turns)?;
    for place in 0..rows.len() {
        let row = row_at(rows, place);
        if row.task == task {
            let thread = next_thread(rng, threads);
            coming.give(thread, slot_of(row))?;
        }
    }
    Ok(coming)
}
