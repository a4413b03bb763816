//! Whole runs on the arrivals of an input.

ghost use Rattle.std.specs.Prelude.{◌≡◌, ◌≢◌, ◌⊎◌, Err, IfOk, IfErr, IfSome, OnOk, false};
ghost use Rattle.cal_policy.specs.declared.policy.Policy.TheVariants.{Caladan};
ghost use Rattle.cal_trace.specs.Arrivals.FitsTable.{FitsTable};
ghost use Rattle.cal_input.specs.Answers.{Decided, Failed};
ghost use Rattle.cal_input.specs.Parts.{run_input_of, within_limit};
ghost use Rattle.cal_engine.specs.Front.{front_of};
ghost use Rattle.cal_engine.specs.Running.{is_told, run_front, Begins, IsTextOfRun, Runs, Tells};
ghost use Rattle.cal_engine.specs.Running.{TellsRun};

use crate::jobs::accepted::AcceptedInput;
use crate::jobs::answer::write_after_front;
use crate::jobs::deciding::report_lines::ReportLines;
use crate::jobs::front::Front;
use crate::jobs::run_text::tallied_summary;
use crate::jobs::telling::tell_lockstep;
use cal_input::{RunFault, read_input, run_input};
use cal_policy::Policy;
use cal_run::{end_run, lockstep_tallied_by, make_rounds, open_unwatched_by};
use std::alloc::Global;
use std::io::{Read, Write};

/// What is written of a run.
#[derive(Clone, Copy, Debug, PartialEq, Eq)]
pub enum RunAnswer {
    /// Its history, as a file.
    History,
    /// The same after the task table of the input and the line `---`, so that it is an input.
    WithTable,
    /// What each kernel thread did.
    Summary,
    /// What the audit of its history writes above the last line.
    Report,
}

/// Reads an input of a task table and arrivals to its end, makes a whole run of them on one thread by
/// `Policy::Caladan`, and writes what is asked for and nothing else: its history as a file, its
/// summary or its report. Nothing is written before the input was accepted. A history is written pass
/// by pass, each as soon as it was made, and no pass is kept; a summary or a report is in memory
/// first.
///
/// The faults come in this order: `Read` or `Length`, whichever comes first, `Separator`, `Config`,
/// `Trace`, `Write`. `Memory` may come at any place, and only where memory was refused: of a history
/// nothing was written then, or what stands before it, its first row and whole passes.
pub fn run_lockstep<R: Read + Drop, W: Write>(
    alloc: Global,
    reader: R,
    answer: RunAnswer,
    writer: &mut W,
) -> Result<(), RunFault>
    // The text of a run on the input was written and nothing else, or the fault is the input's
    // first.
    ensures exact { IfSome (R.remaining reader) (λ input.
        Runs Caladan answer result input (within_limit input (run_input_of input))
        (W.contents writer.old) (W.contents writer.new)) }
    // Nothing is written before the input was accepted, and but for a history nothing before the
    // run was made.
    ensures untouched { IfErr result (λ fault. fault ≢ RunFault.Write →
        (fault ≡ RunFault.Memory → is_told answer ≡ false) → writer.new ≡ writer.old) }
    // Where memory was refused in the midst of the run, whole passes of its history were written.
    ensures begun { IfErr result (λ fault. fault ≡ RunFault.Memory →
        (writer.new ≡ writer.old) ⊎ IfSome (R.remaining reader) (λ input.
        Begins Caladan (front_of (run_front answer) input) (within_limit input (run_input_of input))
        (W.contents writer.old) (W.contents writer.new))) }
    // No thread is started, and no gate asked.
    ensures alone { IfErr result (λ fault. (fault ≢ RunFault.Spawn) × (fault ≢ RunFault.Gate)) }
{
    run_lockstep_by(alloc, Policy::Caladan, reader, answer, writer)
}

/// `run_lockstep` by this policy.
pub fn run_lockstep_by<R: Read + Drop, W: Write>(
    alloc: Global,
    policy: Policy,
    mut reader: R,
    answer: RunAnswer,
    writer: &mut W,
) -> Result<(), RunFault>
    // The text of a run on the input was written and nothing else, or the fault is the input's
    // first.
    ensures exact { IfSome (R.remaining reader) (λ input.
        Runs policy answer result input (within_limit input (run_input_of input))
        (W.contents writer.old) (W.contents writer.new)) }
    // Nothing is written before the input was accepted, and but for a history nothing before the
    // run was made.
    ensures untouched { IfErr result (λ fault. fault ≢ RunFault.Write →
        (fault ≡ RunFault.Memory → is_told answer ≡ false) → writer.new ≡ writer.old) }
    // Where memory was refused in the midst of the run, whole passes of its history were written.
    ensures begun { IfErr result (λ fault. fault ≡ RunFault.Memory →
        (writer.new ≡ writer.old) ⊎ IfSome (R.remaining reader) (λ input.
        Begins policy (front_of (run_front answer) input) (within_limit input (run_input_of input))
        (W.contents writer.old) (W.contents writer.new))) }
    // No thread is started, and no gate asked.
    ensures alone { IfErr result (λ fault. (fault ≢ RunFault.Spawn) × (fault ≢ RunFault.Gate)) }
{
    let input = read_input(alloc, &mut reader)?;
    let given = input.as_slice();
    let front = run_front(answer);
    if is_told(answer) {
        return told_input(alloc, policy, front, given, writer);
    }
    let text = lockstep_text(alloc, policy, answer, given)?;
    write_after_front(front, given, text.as_slice(), writer)
}

/// Whether a run is written pass by pass: where its history is asked for.
fn is_told(answer: RunAnswer) -> bool
    ensures { result ≡ is_told answer }
{
    match answer {
        RunAnswer::History | RunAnswer::WithTable => true,
        RunAnswer::Summary | RunAnswer::Report => false,
    }
}

/// Makes a run on one thread on the arrivals of an input, and writes its history pass by pass, after
/// what stands before it. The faults are those of `run_lockstep` for an input in memory.
fn told_input<W: Write>(
    alloc: Global,
    policy: Policy,
    front: Front,
    input: &[u8],
    writer: &mut W,
) -> Result<(), RunFault>
    ensures told { OnOk result (Tells policy (front_of front input.now) (run_input_of input.now)
        (W.contents writer.old) (W.contents writer.new)) }
    ensures begun { IfErr result (λ fault. fault ≡ RunFault.Memory →
        (writer.new ≡ writer.old) ⊎ Begins policy (front_of front input.now)
        (run_input_of input.now) (W.contents writer.old) (W.contents writer.new)) }
    ensures fault { IfErr result (λ fault. Failed fault (run_input_of input.now)) }
    ensures untouched { IfErr result (λ fault. fault ≢ RunFault.Write →
        fault ≢ RunFault.Memory → writer.new ≡ writer.old) }
{
    let (config, arrivals) = run_input(alloc, input)?;
    let accepted = AcceptedInput {
        input,
        config: &config,
        arrivals: &arrivals,
        policy,
    };
    tell_lockstep(alloc, front, &accepted, writer)
}

/// What stands before the text of a run.
pub(crate) fn run_front(answer: RunAnswer) -> Front
    ensures { result ≡ run_front answer }
{
    match answer {
        RunAnswer::WithTable => Front::Table,
        _ => Front::Nothing,
    }
}

/// What is written of a run on one thread on the arrivals of an input, in memory, where that is no
/// history.
fn lockstep_text(
    alloc: Global,
    policy: Policy,
    answer: RunAnswer,
    input: &[u8],
) -> Result<Vec<u8>, RunFault>
    requires untold { is_told answer ≡ false }
    ensures text { IfOk result (λ text. TellsRun policy answer (run_input_of input.now) text.items) }
    ensures fault { IfErr result (λ fault. Decided fault (run_input_of input.now ≡ Err fault)) }
{
    let (config, arrivals) = run_input(alloc, input)?;
    let accepted = AcceptedInput {
        input,
        config: &config,
        arrivals: &arrivals,
        policy,
    };
    lockstep_on(alloc, answer, &accepted)
}

/// What is written of a run on one thread on the arrivals of an accepted input, in memory, where that
/// is no history. Its fault is `Memory`.
fn lockstep_on(
    alloc: Global,
    answer: RunAnswer,
    accepted: &AcceptedInput<'_>,
) -> Result<Vec<u8>, RunFault>
    requires fits { FitsTable accepted.now.config.now accepted.now.arrivals.now }
    requires untold { is_told answer ≡ false }
    ensures text { IfOk result (λ text. IsTextOfRun accepted.now.policy answer
        (record { table = accepted.now.config.now; arrivals = accepted.now.arrivals.now })
        text.items) }
    ensures kind { IfErr result (λ fault. fault ≡ RunFault.Memory) }
{
    let (config, arrivals, policy) = (accepted.config, accepted.arrivals, accepted.policy);
    match answer {
        // A summary counts what the threads do, so neither passes nor journals are kept.
        RunAnswer::Summary => {
            let end = lockstep_tallied_by(alloc, config, policy, arrivals)?;
            tallied_summary(alloc, arrivals, &end)
        }
        RunAnswer::Report => lockstep_report(alloc, accepted),
        RunAnswer::History | RunAnswer::WithTable => unreachable!(),
    }
}

/// The report of a run on one thread on the arrivals of an accepted input, in memory. Its lines are
/// made as its passes are, and no pass is kept. Its fault is `Memory`.
fn lockstep_report(alloc: Global, accepted: &AcceptedInput<'_>) -> Result<Vec<u8>, RunFault>
    requires fits { FitsTable accepted.now.config.now accepted.now.arrivals.now }
    ensures text { IfOk result (λ text. IsTextOfRun accepted.now.policy RunAnswer.Report
        (record { table = accepted.now.config.now; arrivals = accepted.now.arrivals.now })
        text.items) }
    ensures kind { IfErr result (λ fault. fault ≡ RunFault.Memory) }
{
    let (config, arrivals) = (accepted.config, accepted.arrivals);
    let mut parts = open_unwatched_by(alloc, config, accepted.policy, arrivals)?;
    let mut lines = ReportLines::new(alloc);
    make_rounds(&mut parts, arrivals, &mut lines)?;
    let text = lines.end(config, parts.scheduler.board())?;
    end_run(alloc, config, arrivals, parts)?;
    Ok(text)
}
