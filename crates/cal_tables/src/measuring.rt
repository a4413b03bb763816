//! A run on one thread or a recorded history, measured.

ghost use Rattle.std.specs.Prelude.{◌≡◌, ◌≢◌, ◌≤◌, IfErr, IfOk, length};
ghost use Rattle.cal_measure.specs.Clocks.{AreClocksOf};
ghost use Rattle.cal_measure.specs.Walk.{IsOpenFor};
ghost use Rattle.cal_run.specs.declared.outcome.Outcome.{Outcome};
ghost use Rattle.cal_trace.specs.Arrivals.FitsTable.{FitsTable};
ghost use Rattle.cal_policy.specs.Policies.{IsVerdictBy};
ghost use Rattle.cal_policy.specs.declared.history.entry.TheConstants.{MOST_PASSES};
ghost use Rattle.cal_tables.specs.Measured.{AreNumbersAtEnd, AreNumbersOf, AreRunNumbers};
ghost use Rattle.cal_tables.specs.Measured.{IsCountedRun, IsMeasuredRun};
ghost use Rattle.cal_tables.specs.Measuring.{asked_for, DecidedFor, is_of_run, IsRefusedOn};
ghost use Rattle.cal_tables.specs.Measuring.{IsVerdictFor, JudgesAs, MayBeMeasured};

use crate::asked_fault::AskedFault;
use crate::asking::{Asked, read_asked};
use crate::collecting::{EndedNumbers, OpenNumbers};
use crate::planned::counted_by;
use crate::recorded::{HistoryNumbers, Recorded, measured, numbers_of_walk};
use crate::style::NumberStyle;
use crate::writing::{history_sheet, sheet_of};
use cal_came::{CountAsked, Counted, counted_as_given, counted_requests, is_asked};
use cal_input::RunFault;
use cal_machine::Config;
use cal_measure::{MachineCores, TaskCores, TaskRequests, turns_last};
use cal_paced::Plan;
use cal_policy::{PassEntry, Policy, Verdict};
use cal_run::lockstep_collected_by;
use cal_trace::Arrivals;
use std::alloc::{AllocError, Global};
use std::io::Write;

/// The numbers of a run.
#[derive(Drop)]
pub struct RunNumbers {
    /// What came of each task's requests, in task order.
    pub requests: Vec<TaskRequests>,
    /// What came of each task's cores, in task order.
    pub cores: Vec<TaskCores>,
    /// What came of the machine's cores.
    pub machine: MachineCores,
    /// How long the run's turns last, in clock ticks.
    pub turns: u64,
}

/// The numbers of each task's requests, counted so, in task order. Fails only when out of memory.
fn numbers_of(
    alloc: Global,
    arrivals: &Arrivals,
    counted: &Counted,
    ended: &EndedNumbers,
) -> Result<Vec<TaskRequests>, AllocError>
    requires fits { FitsTable ended.now.config arrivals.now }
    requires clocks { AreClocksOf counted.now.came ended.now.run.clocks }
    ensures { IfOk result (λ numbers. (outcome : Outcome) →
        AreNumbersAtEnd arrivals.now outcome ended.now →
        AreNumbersOf ended.now.config arrivals.now counted.now outcome numbers.items) }
{
    let mut numbers = Vec::new(alloc);
    for task in 0..ended.config.tasks() {
        let of_task = ended
            .run
            .requests_of(alloc, &ended.config, arrivals, counted, task)?;
        numbers.push(of_task)?;
    }
    Ok(numbers)
}

/// The numbers of a run on these arrivals, counted so. Fails only when out of memory.
pub(crate) fn numbers_of_run(
    alloc: Global,
    arrivals: &Arrivals,
    counted: &Counted,
    ended: &EndedNumbers,
) -> Result<RunNumbers, AllocError>
    requires fits { FitsTable ended.now.config arrivals.now }
    requires clocks { AreClocksOf counted.now.came ended.now.run.clocks }
    requires open { IsOpenFor ended.now.config ended.now.walk }
    ensures { IfOk result (λ numbers. (outcome : Outcome) →
        AreNumbersAtEnd arrivals.now outcome ended.now →
        AreRunNumbers ended.now.config arrivals.now counted.now outcome numbers) }
{
    let requests = numbers_of(alloc, arrivals, counted, ended)?;
    let HistoryNumbers { cores, machine } = numbers_of_walk(alloc, &ended.walk)?;
    Ok(RunNumbers {
        requests,
        cores,
        machine,
        turns: turns_last(arrivals),
    })
}

/// Makes a whole run by this policy on one thread on these arrivals, and measures it, counted so,
/// while it is made. Its fault is `Memory`.
pub fn counted_run(
    alloc: Global,
    config: &Config,
    policy: Policy,
    arrivals: &Arrivals,
    counted: &Counted,
) -> Result<RunNumbers, RunFault>
    requires fits { FitsTable config.now arrivals.now }
    ensures numbers { IfOk result (IsCountedRun policy config.now arrivals.now counted.now) }
    ensures kind { IfErr result (λ fault. fault ≡ RunFault.Memory) }
{
    let mut numbers = OpenNumbers::open(alloc, config)?;
    let left = lockstep_collected_by(alloc, config, policy, arrivals, &mut numbers)?;
    let ended = numbers.end(alloc, arrivals, counted, left)?;
    Ok(numbers_of_run(alloc, arrivals, counted, &ended)?)
}

/// Makes a whole run by this policy on one thread on these arrivals, and measures it while it is
/// made: all requests, each from the clock of its turn. Its fault is `Memory`.
pub fn measured_run(
    alloc: Global,
    config: &Config,
    policy: Policy,
    arrivals: &Arrivals,
) -> Result<RunNumbers, RunFault>
    requires fits { FitsTable config.now arrivals.now }
    ensures numbers { IfOk result (IsMeasuredRun policy config.now arrivals.now) }
    ensures kind { IfErr result (λ fault. fault ≡ RunFault.Memory) }
{
    let counted = counted_as_given(alloc, arrivals)?;
    counted_run(alloc, config, policy, arrivals, &counted)
}

/// An input, and how it is to be measured.
#[derive(Clone, Copy)]
pub struct MeasuredInput<'a> {
    /// The bytes of the input.
    pub bytes: &'a [u8],
    /// By which policy its run is made, or its history audited.
    pub policy: Policy,
    /// By which plan its run goes; without it the run is in lockstep.
    pub plan: Option<Plan>,
    /// From when its requests count, and which of them are ranked.
    pub counting: CountAsked<'a>,
}

/// Whether a run on arrivals alone is asked for, and not what a history comes to.
fn is_of_run(asked: MeasuredInput<'_>) -> bool
    ensures { result ≡ is_of_run asked.entry }
{
    asked.plan.is_some() || is_asked(asked.counting)
}

/// What is written of a run on these arrivals as it is asked for, in memory.
fn run_text(
    alloc: Global,
    config: &Config,
    asked: MeasuredInput<'_>,
    arrivals: Arrivals,
    style: NumberStyle<'_>,
) -> Result<String, AskedFault>
    requires fits { FitsTable config.now arrivals }
    ensures may { IfOk result (λ _. MayBeMeasured asked.entry config.now arrivals) }
    ensures fault { IfErr result (IsRefusedOn asked.entry config.now arrivals) }
{
    let told = counted_requests(alloc, config, &arrivals, asked.counting)?;
    let counted = &told.counted;
    let numbers = counted_by(alloc, config, asked.policy, asked.plan, arrivals, counted)?;
    let sheet = sheet_of(alloc, config, &numbers, &told.comings, style)?;
    Ok(sheet.written(alloc, style.form)?)
}

/// What an audit by this policy says of a recorded history, and what is written of it, in memory: of
/// one that is not legal nothing. Fails only when out of memory.
fn history_text(
    alloc: Global,
    config: &Config,
    policy: Policy,
    history: &[PassEntry],
    style: NumberStyle<'_>,
) -> Result<(Verdict, String), AllocError>
    requires few { length history.now ≤ MOST_PASSES }
    ensures { IfOk result (λ told. IsVerdictBy policy config.now history.now told.0) }
{
    match measured(alloc, config, policy, history)? {
        Recorded::Legal { numbers } => {
            let sheet = history_sheet(alloc, config, &numbers, style)?;
            Ok((Verdict::Legal, sheet.written(alloc, style.form)?))
        }
        Recorded::Illegal { pass } => Ok((Verdict::Illegal { pass }, String::new(alloc))),
    }
}

/// The verdict on what an input asks for, and what is written of it, in memory: of the run on its
/// arrivals, or of the history that it records.
fn measured_text(
    alloc: Global,
    asked: MeasuredInput<'_>,
    style: NumberStyle<'_>,
) -> Result<(Verdict, String), AskedFault>
    ensures verdict { IfOk result (λ told. IsVerdictFor asked.entry told.0 (asked_for asked.entry)) }
    ensures fault { IfErr result (λ fault. DecidedFor asked.entry fault (asked_for asked.entry)) }
{
    match read_asked(alloc, asked.bytes, is_of_run(asked))? {
        Asked::Run { config, arrivals } => {
            let text = run_text(alloc, &config, asked, arrivals, style)?;
            Ok((Verdict::Legal, text))
        }
        Asked::History { config, history } => {
            let history = history.as_slice();
            Ok(history_text(alloc, &config, asked.policy, history, style)?)
        }
    }
}

/// Writes the numbers of an input in this style: in columns that line up, or as CSV. Where it is a
/// task table and arrivals they are those of a whole run on one thread, counted as it is asked for;
/// where it is a table and a history, and neither a plan nor a count of requests is asked for, those
/// of the history's cores, if it is legal. What is answered is the audit's verdict; a run is legal.
/// Nothing is written before the whole text is in memory.
///
/// The faults are those of the word `lockstep`, in its order; of a history those of `audit`. Then
/// come those of `counted_requests`, and then those of the plan. An input is not too long here,
/// whatever its length.
pub fn measure<W: Write>(
    alloc: Global,
    asked: MeasuredInput<'_>,
    style: NumberStyle<'_>,
    writer: &mut W,
) -> Result<Verdict, AskedFault>
    // The verdict is that on the run or the history that the input asks for, or the fault says what
    // it must of the input.
    ensures exact { JudgesAs asked.entry result }
    // Nothing is written before the run was made, and nothing of a history that is not legal.
    ensures untouched { IfErr result (λ fault.
        fault ≢ AskedFault.Run RunFault.Write → writer.new ≡ writer.old) }
    ensures illegal { IfOk result (λ verdict.
        verdict ≢ Verdict.Legal → writer.new ≡ writer.old) }
{
    let (verdict, text) = measured_text(alloc, asked, style)?;
    match verdict {
        Verdict::Illegal { .. } => Ok(verdict),
        Verdict::Legal => match writer.write_all(text.as_bytes()) {
            Ok(()) => Ok(verdict),
            Err(_) => Err(AskedFault::Run(RunFault::Write)),
        },
    }
}
