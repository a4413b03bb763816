//! What each pass of a history found of each task, and left it with.

pub mod collecting;
pub mod point;
pub mod replaying;
pub mod writing;

ghost use Rattle.std.specs.Prelude.{◌≡◌, ◌≢◌, IfErr, IfOk};
ghost use Rattle.std.specs.Option.{is_some};
ghost use Rattle.cal_facts.specs.Series.{series_text, text_of_series};
ghost use Rattle.cal_facts.specs.Telling.{IsAskedText, Tells};
ghost use Rattle.cal_tables.specs.Asked.{asked_by};
ghost use Rattle.cal_tables.specs.Planned.{DecidedBy};

use crate::series::collecting::series_of_run;
use crate::series::point::Point;
use crate::series::replaying::series_of_history;
use crate::series::writing::write_series_rows;
use cal_input::RunFault;
use cal_machine::Config;
use cal_paced::Plan;
use cal_policy::Policy;
use cal_tables::{Asked, PlannedFault, read_asked};
use std::alloc::Global;
use std::io::Write;

/// Writes the series of what an input asks for, a row for each pass and task: the delay that the
/// pass finds of the task, and the cores that the task has after it. It takes what `write_spans`
/// takes, with the same faults, and writes nothing before all of it was read and the run was made.
pub fn write_series<W: Write>(
    alloc: Global,
    policy: Policy,
    plan: Option<Plan>,
    input: &[u8],
    writer: &mut W,
) -> Result<(), PlannedFault>
    // The text of what is asked for was written and nothing else, or the fault says what it must.
    ensures exact { Tells plan (IsAskedText plan policy series_text) result
        (asked_by (is_some plan) input.now) (W.contents writer.old) (W.contents writer.new) }
    ensures untouched { IfErr result (λ fault.
        fault ≢ PlannedFault.Run RunFault.Write → writer.new ≡ writer.old) }
{
    let (config, points) = series_asked(alloc, policy, plan, input)?;
    match write_series_rows(&config, points.as_slice(), writer) {
        Ok(()) => Ok(()),
        Err(_) => Err(PlannedFault::Run(RunFault::Write)),
    }
}

/// The table of an input, and the series of what it asks for.
fn series_asked(
    alloc: Global,
    policy: Policy,
    plan: Option<Plan>,
    input: &[u8],
) -> Result<(Config, Vec<Point>), PlannedFault>
    ensures points { IfOk result (λ told. IsAskedText plan policy series_text
        (asked_by (is_some plan) input.now) (text_of_series told.0 told.1.items)) }
    ensures fault { IfErr result (λ fault.
        DecidedBy plan fault (asked_by (is_some plan) input.now)) }
{
    match read_asked(alloc, input, plan.is_some())? {
        Asked::Run { config, arrivals } => {
            let points = series_of_run(alloc, &config, policy, plan, arrivals)?;
            Ok((config, points))
        }
        Asked::History { config, history } => {
            let points = series_of_history(alloc, &config, history.as_slice())?;
            Ok((config, points))
        }
    }
}
