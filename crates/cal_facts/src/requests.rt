//! What came of each request of a run.

pub mod collecting;
pub mod served;
pub mod writing;

ghost use Rattle.std.specs.Prelude.{◌≡◌, ◌≢◌, IfErr, IfOk};
ghost use Rattle.cal_facts.specs.RequestRows.{AreClocksTold};
ghost use Rattle.cal_facts.specs.Telling.{IsAskedRun, IsRunOn, TellsRequests, came_told};
ghost use Rattle.cal_input.specs.Parts.{run_input_of};
ghost use Rattle.cal_tables.specs.Asked.{asked_run};
ghost use Rattle.cal_tables.specs.Measuring.{DecidedFor, IsRefusedOn};
ghost use Rattle.cal_trace.specs.Arrivals.FitsTable.{FitsTable};

use crate::requests::collecting::served_of_run;
use crate::requests::writing::{RunRequests, write_request_rows};
use cal_came::{CountedRequests, counted_requests};
use cal_input::{RunFault, run_input};
use cal_machine::Config;
use cal_measure::ArrivalClocks;
use cal_tables::{AskedFault, MeasuredInput, planned_for};
use cal_trace::Arrivals;
use std::alloc::{AllocError, Global};
use std::io::Write;

/// Writes what came of each request of the run that an input asks for, a row for each, in the order of
/// the arrivals: when it came, by the file of comings where there is one, else at the clock of its
/// turn. Nothing is written before all of the input was read and the run was made.
///
/// The faults are those of the word `lockstep`, in its order: a history has no requests. Then come
/// those of `counted_requests`, and then those of the plan.
pub fn write_requests<W: Write>(
    alloc: Global,
    asked: MeasuredInput<'_>,
    writer: &mut W,
) -> Result<(), AskedFault>
    // The text of the requests of a run was written and nothing else, or the fault says what it
    // must.
    ensures exact { TellsRequests asked.entry result
        (W.contents writer.old) (W.contents writer.new) }
    ensures untouched { IfErr result (λ fault.
        fault ≢ AskedFault.Run RunFault.Write → writer.new ≡ writer.old) }
{
    let run = requests_asked(alloc, asked)?;
    match write_request_rows(&run, writer) {
        Ok(()) => Ok(()),
        Err(_) => Err(AskedFault::Run(RunFault::Write)),
    }
}

/// When the requests came that were counted by a file of comings; nothing where they were not. Fails
/// only when out of memory.
pub(crate) fn clocks_told(
    alloc: Global,
    told: &CountedRequests,
) -> Result<Option<ArrivalClocks>, AllocError>
    ensures { IfOk result (AreClocksTold (came_told told.now)) }
{
    match &told.comings {
        None => Ok(None),
        Some(_) => {
            let clocks = ArrivalClocks::of(alloc, told.counted.came.as_slice())?;
            Ok(Some(clocks))
        }
    }
}

/// A run on these arrivals as it is asked for, and what it served.
fn run_asked(
    alloc: Global,
    asked: MeasuredInput<'_>,
    config: Config,
    arrivals: Arrivals,
) -> Result<RunRequests, AskedFault>
    requires fits { FitsTable config arrivals }
    ensures run { IfOk result (IsRunOn asked.entry config arrivals) }
    ensures fault { IfErr result (IsRefusedOn asked.entry config arrivals) }
{
    let told = counted_requests(alloc, &config, &arrivals, asked.counting)?;
    let came = clocks_told(alloc, &told)?;
    let mut given = planned_for(alloc, asked.plan, arrivals)?;
    let served = served_of_run(alloc, &config, asked.policy, asked.plan, &mut given)?;
    Ok(RunRequests {
        config,
        arrivals: given,
        came,
        served,
    })
}

/// The run that an input asks for, and what it served.
fn requests_asked(alloc: Global, asked: MeasuredInput<'_>) -> Result<RunRequests, AskedFault>
    ensures run { IfOk result (IsAskedRun asked.entry (run_input_of asked.entry.bytes.now)) }
    ensures fault { IfErr result (λ fault.
        DecidedFor asked.entry fault (asked_run (run_input_of asked.entry.bytes.now))) }
{
    let (config, arrivals) = run_input(alloc, asked.bytes)?;
    let run = run_asked(alloc, asked, config, arrivals)?;
    Ok(run)
}
