//! A run whose passes are a history's, measured.

ghost use Rattle.std.specs.Prelude.{◌≡◌, ◌≢◌, [], IfOk, IfErr, replicate};
ghost use Rattle.cal_machine.specs.Table.{Table};
ghost use Rattle.cal_machine.specs.TableTasks.{threads_of_table};
ghost use Rattle.cal_replay.specs.Faults.{IsStopped};
ghost use Rattle.cal_replay.specs.Replays.{IsReplayTo};
ghost use Rattle.cal_tables.specs.Planned.{AreGivenBy};
ghost use Rattle.cal_tables.specs.Replayed.{AreGivenBack, AreRead, IsReplayedRun};
ghost use Rattle.cal_tables.specs.Replayed.{MayBeReplayed};
ghost use Rattle.cal_trace.specs.Arrivals.FitsTable.{FitsTable};
ghost use Rattle.cal_trace.specs.History.Ranges.{IsInRange};
ghost use Rattle.cal_trace.specs.History.Reading.{extent_of};

use crate::asked_fault::AskedFault;
use crate::collecting::OpenNumbers;
use crate::measuring::{MeasuredInput, RunNumbers, numbers_of_run};
use crate::planned::planned_for;
use crate::replayed_fault::ReplayedFault;
use crate::style::NumberStyle;
use crate::writing::sheet_of;
use cal_came::{Counted, counted_requests};
use cal_guard::{passes_are_short, permitted_is_orderly};
use cal_input::{RunFault, run_input};
use cal_kthread::RequestList;
use cal_machine::{Config, Listed};
use cal_measure::walked;
use cal_paced::Plan;
use cal_policy::PassEntry;
use cal_replay::{Stopped, replay_lockstep, replay_paced};
use cal_run::Collector;
use cal_trace::{Arrivals, read_history};
use std::alloc::{AllocError, Global};
use std::io::Write;

/// The arrivals of an input and a history for its table.
#[derive(Drop)]
pub struct ReplayedInput {
    /// The task table.
    pub config: Config,
    /// The arrivals.
    pub arrivals: Arrivals,
    /// The history.
    pub history: Vec<PassEntry>,
}

/// The table of an input, its arrivals, and a history for that table, whose rows are these.
///
/// The faults are those of the input, as of the word `lockstep`, and then those of the rows.
pub fn read_replayed(
    alloc: Global,
    input: &[u8],
    history: &[u8],
) -> Result<ReplayedInput, ReplayedFault>
    ensures read { IfOk result (AreRead input.now history.now) }
    ensures fits { IfOk result (λ read. FitsTable read.config read.arrivals) }
    ensures range { IfOk result (λ read. IsInRange (extent_of read.config) read.history.items) }
{
    let (config, arrivals) = run_input(alloc, input)?;
    let history = read_history(alloc, &config, history)?;
    Ok(ReplayedInput {
        config,
        arrivals,
        history,
    })
}

/// What is left with the kernel threads of a run on what `planned_for` gives, by the plan or in
/// lockstep, whose passes are those of this history, where a collector takes what its turns hand out,
/// as in `replay_lockstep`.
pub fn replayed_by<C: Collector>(
    alloc: Global,
    config: &Config,
    plan: Option<Plan>,
    given: &mut Arrivals,
    history: &[PassEntry],
    collector: &mut C,
) -> Result<Listed<RequestList>, Stopped<C::Fault>>
    requires fits { FitsTable config.now given.old }
    requires given { AreGivenBy plan given.old }
    requires range { IsInRange (extent_of config.now) history.now }
    requires opened { C.holds collector.old [] (replicate (threads_of_table config.now) []) }
    ensures fits { IfOk result (λ _. FitsTable config.now given.new) }
    ensures given { IfOk result (λ _. AreGivenBack plan given.old given.new) }
    ensures replay { IfOk result
        (IsReplayTo (C.holds collector.new []) config.now given.new history.now) }
    ensures suits { (table : Table) → C.suits collector.old table →
        IfOk result (λ _. C.suits collector.new table) }
    ensures stopped { IfErr result (IsStopped config.now given.new history.now) }
{
    match plan {
        Some(plan) => replay_paced(alloc, config, &plan, given, history, collector),
        None => replay_lockstep(alloc, config, given, history, collector),
    }
}

/// Makes a whole run by this plan or in lockstep, on one thread on what `planned_for` gives, whose
/// passes are those of this history, and measures it, counted so.
pub fn replayed_numbers(
    alloc: Global,
    config: &Config,
    plan: Option<Plan>,
    given: &mut Arrivals,
    history: &[PassEntry],
    counted: &Counted,
) -> Result<RunNumbers, Stopped<AllocError>>
    requires fits { FitsTable config.now given.old }
    requires given { AreGivenBy plan given.old }
    requires range { IsInRange (extent_of config.now) history.now }
    ensures given { IfOk result (λ _. AreGivenBack plan given.old given.new) }
    ensures numbers { IfOk result
        (IsReplayedRun config.now given.new history.now counted.now) }
    ensures stopped { IfErr result (IsStopped config.now given.new history.now) }
{
    config.limits();
    permitted_is_orderly();
    passes_are_short();
    let mut numbers = OpenNumbers::open(alloc, config)?;
    let left = replayed_by(alloc, config, plan, given, history, &mut numbers)?;
    numbers.walk = walked(alloc, config, history)?;
    let ended = numbers.end(alloc, given, counted, left)?;
    Ok(numbers_of_run(alloc, given, counted, &ended)?)
}

/// What is written of the run that an input asks for, with the passes of this history, in memory.
fn replayed_text(
    alloc: Global,
    asked: MeasuredInput<'_>,
    history: &[u8],
    style: NumberStyle<'_>,
) -> Result<String, ReplayedFault>
    ensures { IfOk result (λ _. MayBeReplayed asked.entry history.now) }
{
    let read = read_replayed(alloc, asked.bytes, history)?;
    let ReplayedInput {
        config,
        arrivals,
        history,
    } = read;
    let told = counted_requests(alloc, &config, &arrivals, asked.counting)?;
    let mut given = planned_for(alloc, asked.plan, arrivals)?;
    let passes = history.as_slice();
    let counted = &told.counted;
    let numbers = replayed_numbers(alloc, &config, asked.plan, &mut given, passes, counted)?;
    let sheet = sheet_of(alloc, &config, &numbers, &told.comings, style)?;
    Ok(sheet.written(alloc, style.form)?)
}

/// Writes the numbers of the run that an input asks for, as `measure` does, where its passes are not
/// the policy's but those of a history, whose rows are these. Nothing is written before the whole text
/// is in memory.
///
/// The faults are those of `read_replayed`, then those of `counted_requests` and of the plan, and
/// then those of the replay.
pub fn measure_replayed<W: Write>(
    alloc: Global,
    asked: MeasuredInput<'_>,
    history: &[u8],
    style: NumberStyle<'_>,
    writer: &mut W,
) -> Result<(), ReplayedFault>
    // There is such a run, and nothing is written before it was made.
    ensures may { IfOk result (λ _. MayBeReplayed asked.entry history.now) }
    ensures untouched { IfErr result (λ fault.
        fault ≢ ReplayedFault.Asked (AskedFault.Run RunFault.Write) → writer.new ≡ writer.old) }
{
    let text = replayed_text(alloc, asked, history, style)?;
    match writer.write_all(text.as_bytes()) {
        Ok(()) => Ok(()),
        Err(_) => Err(ReplayedFault::Asked(AskedFault::Run(RunFault::Write))),
    }
}
