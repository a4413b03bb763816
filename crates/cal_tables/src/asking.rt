//! What an input asks for: a run on its arrivals, or the history that it records.

ghost use Rattle.std.specs.Prelude.{◌≡◌, Err, IfErr, IfOk};
ghost use Rattle.cal_input.specs.Answers.{Decided};
ghost use Rattle.cal_input.specs.Recorded.{recorded_in};
ghost use Rattle.cal_tables.specs.Asking.{IsAcceptable, IsReadAs};
ghost use Rattle.cal_tables.specs.Asked.{asked_by, asked_history, asked_of};

use cal_input::{RunFault, read_parts, run_input};
use cal_machine::Config;
use cal_policy::PassEntry;
use cal_trace::{Arrivals, FaultKind, read_arrivals, read_history};
use std::alloc::Global;

/// What an input asks for, with its task table.
#[derive(Drop)]
pub enum Asked {
    /// A run on these arrivals.
    Run {
        /// The task table.
        config: Config,
        /// The arrivals.
        arrivals: Arrivals,
    },
    /// This history.
    History {
        /// The task table.
        config: Config,
        /// The history.
        history: Vec<PassEntry>,
    },
}

/// What an input asks for: a run on its arrivals or, unless it is to be a run alone, where what
/// follows the table has not their header, the history that it records. The faults are those of the
/// word `lockstep`, in its order; of a history those of `audit`.
pub fn read_asked(alloc: Global, input: &[u8], alone: bool) -> Result<Asked, RunFault>
    ensures exact { IfOk result (IsReadAs (asked_by alone input.now)) }
    ensures accepted { IfOk result IsAcceptable }
    ensures fault { IfErr result (λ fault. Decided fault (asked_by alone input.now ≡ Err fault)) }
{
    if !alone {
        return read_either(alloc, input);
    }
    let (config, arrivals) = run_input(alloc, input)?;
    Ok(Asked::Run { config, arrivals })
}

/// What an input asks for, a run or a history.
fn read_either(alloc: Global, input: &[u8]) -> Result<Asked, RunFault>
    ensures exact { IfOk result (IsReadAs (asked_of input.now)) }
    ensures accepted { IfOk result IsAcceptable }
    ensures fault { IfErr result (λ fault. Decided fault (asked_of input.now ≡ Err fault)) }
{
    let (config, trace) = read_parts(alloc, input)?;
    match read_arrivals(alloc, &config, trace) {
        Ok(arrivals) => Ok(Asked::Run { config, arrivals }),
        Err(fault) if fault.kind == FaultKind::Header => recorded(alloc, config, trace),
        Err(fault) => Err(RunFault::from(fault)),
    }
}

/// The history that a text after a table records, and the table.
fn recorded(alloc: Global, config: Config, trace: &[u8]) -> Result<Asked, RunFault>
    ensures exact { IfOk result (IsReadAs (asked_history (recorded_in config trace.now))) }
    ensures accepted { IfOk result IsAcceptable }
    ensures fault { IfErr result (λ fault.
        Decided fault (recorded_in config trace.now ≡ Err fault)) }
{
    let history = read_history(alloc, &config, trace)?;
    Ok(Asked::History { config, history })
}
