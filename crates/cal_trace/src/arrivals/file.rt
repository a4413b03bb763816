//! Files of arrivals.

ghost use Rattle.std.specs.Prelude.{◌≡◌, IfOk};
ghost use Rattle.cal_machine.specs.Tasks.{threads_in};
ghost use Rattle.cal_trace.specs.Rows.Answers.{IsWhatRowsSay};
ghost use Rattle.cal_trace.specs.Arrivals.{arrivals_of};
ghost use Rattle.cal_trace.specs.Arrivals.FitsTable.{FitsTable};
ghost use Rattle.cal_trace.specs.Rows.{rows_of, rest_of, IsReading};

use crate::arrivals::Arrivals;
use crate::arrivals::reading::ArrivalReading;
use crate::fault::TraceFault;
use crate::rows::Rows;
use crate::rows::header::take_first_header;
use crate::rows::reading::take_rows;
use cal_machine::Config;
use std::alloc::Global;

/// Reads a file of arrivals for the threads of a table. It has version 1 alone.
///
/// What it answers fits the table. The error is the first check that fails, in the order of the
/// rows and of the checks of a row. `Memory` comes only where memory was refused. `Read` comes only
/// where `csv` fails to read, which it does not on a text in memory. `Backwards` never comes.
pub fn read_arrivals(alloc: Global, config: &Config, text: &[u8]) -> Result<Arrivals, TraceFault>
    ensures gives { IsWhatRowsSay (λ arrivals. arrivals) result
        (arrivals_of (threads_in config.now.tasks) (rows_of text.now)) }
    ensures fits { IfOk result (FitsTable config.now) }
{
    let mut rows = Rows::open(alloc, text);
    take_arrivals(alloc, config.threads() as u8, &mut rows)
}

/// The arrivals of a file for so many threads, of all its rows.
fn take_arrivals(alloc: Global, threads: u8, rows: &mut Rows) -> Result<Arrivals, TraceFault>
    requires reading { IsReading rows.old }
    requires first { rows.old.number ≡ 0 }
    ensures { IsWhatRowsSay (λ arrivals. arrivals) result (arrivals_of threads (rest_of rows.old)) }
{
    take_first_header(rows, b"caladan-arrivals".as_slice())?;
    take_rows(rows, ArrivalReading::new(alloc, threads))
}
