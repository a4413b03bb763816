//! The task table of an input, and what follows it: a text, arrivals, or a history.

ghost use Rattle.std.specs.Prelude.{IfOk, ◌≡◌, [], Err, IfErr};
ghost use Rattle.cal_trace.specs.Arrivals.FitsTable.{FitsTable};
ghost use Rattle.cal_trace.specs.History.Reading.{IsOpen};
ghost use Rattle.cal_input.specs.Answers.{Decided, IsWhatInputSays};
ghost use Rattle.cal_input.specs.Parts.{parts_of, run_input_of};
ghost use Rattle.cal_input.specs.Recorded.{recorded_run_of, HasGivenOf};

use crate::fault::RunFault;
use crate::separator::split_input;
use cal_machine::Config;
use cal_trace::{Arrivals, HistoryRows, read_arrivals};
use std::alloc::Global;

/// The task table of an input, and the text of the trace after it.
///
/// The fault is `Separator` where no line is the separator, else the table's.
pub fn read_parts(alloc: Global, input: &[u8]) -> Result<(Config, &[u8]), RunFault>
    ensures { IsWhatInputSays (λ parts. record { table = parts.0; trace = parts.1.now }) result
        (parts_of input.now) }
{
    let Some((table, trace)) = split_input(input) else {
        return Err(RunFault::Separator);
    };
    let config = Config::read(alloc, table)?;
    Ok((config, trace))
}

/// The task table of an input, and the arrivals for its threads. The faults are those of the word
/// `lockstep`, in its order: `Separator`, `Config`, `Trace`; `Memory` may come at any place.
pub fn run_input(alloc: Global, input: &[u8]) -> Result<(Config, Arrivals), RunFault>
    ensures exact { IsWhatInputSays (λ r. record { table = r.0; arrivals = r.1 }) result
        (run_input_of input.now) }
    ensures fits { IfOk result (λ r. FitsTable r.0 r.1) }
{
    let (config, trace) = read_parts(alloc, input)?;
    let arrivals = read_arrivals(alloc, &config, trace)?;
    Ok((config, arrivals))
}

/// The task table of an input, and its history as it is there, before its first pass. The faults
/// come in this order: `Separator`, `Config`, `Trace` where the history has not its header;
/// `Memory` may come at any place.
pub fn recorded_passes(alloc: Global, input: &[u8]) -> Result<(Config, HistoryRows<'_>), RunFault>
    ensures ready { IfOk result (λ r. IsOpen r.1) }
    ensures given { IfOk result (λ r. HasGivenOf input.now r.0 [] r.1) }
    ensures fault { IfErr result (λ fault. Decided fault (recorded_run_of input.now ≡ Err fault)) }
{
    let (config, trace) = read_parts(alloc, input)?;
    let rows = HistoryRows::open(alloc, &config, trace)?;
    Ok((config, rows))
}
