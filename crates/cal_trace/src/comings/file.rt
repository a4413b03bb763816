//! Files of comings.

ghost use Rattle.std.specs.Prelude.{◌≡◌, length, OnOk};
ghost use Rattle.cal_trace.specs.Comings.{below_header, comings_of};
ghost use Rattle.cal_trace.specs.Rows.Answers.{IsWhatRowsSay};
ghost use Rattle.cal_trace.specs.Rows.{IsReading, rest_of, rows_of};
ghost use Rattle.cal_trace.specs.declared.rows.version.Version.TheVariants.{One};

use crate::arrivals::{Arrival, Arrivals};
use crate::comings::Comings;
use crate::comings::reading::{ComingReading, is_header};
use crate::fault::{FaultKind, TraceFault};
use crate::rows::Rows;
use crate::rows::reading::take_rows;
use cal_machine::Config;
use std::alloc::Global;

/// Reads a file of comings of these arrivals, for a table: its header, a row for each request in
/// their order, which came to its turn or to an earlier one, and then a row for each task of which
/// requests are left out.
///
/// The error is the first check that fails, in the order of the rows and of the checks of a row, as
/// `FaultKind` says. `Memory` comes only where memory was refused. `Read` comes only where `csv`
/// fails to read, which it does not on a text in memory. `Backwards` and `Repeated` never come.
pub fn read_comings(
    alloc: Global,
    config: &Config,
    arrivals: &Arrivals,
    text: &[u8],
) -> Result<Comings, TraceFault>
    ensures { IsWhatRowsSay (λ comings. comings) result
        (comings_of (length config.now.tasks) arrivals.now.requests (rows_of text.now)) }
{
    let mut rows = Rows::open(alloc, text);
    let requests = arrivals.requests.as_slice();
    take_comings(alloc, config.tasks() as u64, requests, &mut rows)
}

/// The comings of these requests in a file, for so many tasks, of all its rows.
fn take_comings(
    alloc: Global,
    tasks: u64,
    requests: &[Arrival],
    rows: &mut Rows,
) -> Result<Comings, TraceFault>
    requires reading { IsReading rows.old }
    requires first { rows.old.number ≡ 0 }
    ensures { IsWhatRowsSay (λ comings. comings) result
        (comings_of tasks requests.now (rest_of rows.old)) }
{
    take_coming_header(rows)?;
    take_rows(rows, ComingReading::new(alloc, tasks, requests))
}

/// Takes the header row of a file of comings.
fn take_coming_header(rows: &mut Rows) -> Result<(), TraceFault>
    requires reading { IsReading rows.old }
    requires first { rows.old.number ≡ 0 }
    ensures gives { IsWhatRowsSay (λ _. (One, rest_of rows.new)) result
        (below_header (rest_of rows.old)) }
    ensures reading { OnOk result (IsReading rows.new) }
    ensures number { OnOk result (rows.new.number ≡ 1) }
{
    if rows.step()? && is_header(rows.row()) {
        return Ok(());
    }
    Err(TraceFault {
        row: 1,
        kind: FaultKind::Header,
    })
}
