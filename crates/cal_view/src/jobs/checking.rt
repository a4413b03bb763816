//! An input checked: what it is, or why it is refused.

mod guarantees;

ghost use Rattle.std.specs.Prelude.{◌<◌, length};

use crate::jobs::checking::guarantees::least_before;
use cal_facts::count_passes;
use cal_input::{RunFault, read_parts, split_input};
use cal_machine::Config;
use cal_trace::{FaultKind, read_arrivals, read_signals};
use cal_why::is_table_alone;
use std::alloc::{AllocError, Global};
use std::fmt::Write as _;
use std::io::Write;

/// Writes in a line what an input is: a task table, alone or with signals, arrivals or a history;
/// and below it a note for each task that may have to wait for the cores that it is guaranteed.
/// Answers the exit status, 0. The fault is the input's, or that of writing.
pub fn answer_check<W: Write>(alloc: Global, input: &[u8], output: &mut W) -> Result<u8, RunFault> {
    let said = accepted(alloc, input)?;
    match output.write_all(said.as_bytes()) {
        Ok(()) => Ok(0),
        Err(_) => Err(RunFault::Write),
    }
}

/// What an input is, in a line, and the notes on its table; or its fault.
fn accepted(alloc: Global, input: &[u8]) -> Result<String, RunFault> {
    if split_input(input).is_none() && is_table_alone(input) {
        let config = Config::read(alloc, input)?;
        return Ok(text_of(alloc, &config, "")?);
    }
    let (config, trace) = read_parts(alloc, input)?;
    let what = trace_of(alloc, &config, input, trace)?;
    Ok(text_of(alloc, &config, what.as_str())?)
}

/// The line of a table and of what comes after it, and the notes on the table.
fn text_of(alloc: Global, config: &Config, what: &str) -> Result<String, AllocError> {
    let mut text = line_of(alloc, config, what)?;
    for t in 0..config.tasks() {
        if let Some(before) = least_before(config, t) {
            put_note(config, t, before, &mut text)?;
        }
    }
    Ok(text)
}

/// Puts the note on a task which may have to wait for this one.
fn put_note(config: &Config, t: usize, before: usize, text: &mut String) -> Result<(), AllocError>
    requires task { t < length config.now.tasks }
    requires other { before < length config.now.tasks }
{
    let own = config.task(t).guaranteed;
    let (guaranteed, limit) = (config.task(before).guaranteed, config.task(before).limit);
    write!(
        text,
        "note: by caladan, task {t} may have to wait for the cores that it is guaranteed ({own}): "
    )?;
    write!(
        text,
        "task {before} (guaranteed {guaranteed}, limit {limit}) comes first, up to its limit, "
    )?;
    writeln!(text, "also to a core that was freed for task {t}")
}

/// The line of a table, and of what comes after it.
fn line_of(alloc: Global, config: &Config, what: &str) -> Result<String, AllocError> {
    let cores = config.machine().cores();
    let tasks = config.tasks();
    let threads = config.threads();
    format!(in alloc; "a task table (cores {cores}, tasks {tasks}, threads {threads}){what}\n")
}

/// What a trace is: the first kind whose header it has.
fn trace_of(
    alloc: Global,
    config: &Config,
    input: &[u8],
    trace: &[u8],
) -> Result<String, RunFault> {
    match read_signals(alloc, config, trace) {
        Ok(signals) => {
            let passes = signals.passes.as_slice().len();
            return Ok(format!(in alloc; " and signals (passes {passes})")?);
        }
        Err(fault) if fault.kind == FaultKind::Header => {}
        Err(fault) => return Err(RunFault::from(fault)),
    }
    match read_arrivals(alloc, config, trace) {
        Ok(arrivals) => {
            let passes = arrivals.passes.as_slice().len();
            let turns = arrivals.turns.as_slice().len();
            let requests = arrivals.requests.as_slice().len();
            let what = format!(in alloc;
                " and arrivals (passes {passes}, turns {turns}, requests {requests})"
            )?;
            return Ok(what);
        }
        Err(fault) if fault.kind == FaultKind::Header => {}
        Err(fault) => return Err(RunFault::from(fault)),
    }
    let passes = count_passes(alloc, input)?;
    Ok(format!(in alloc; " and a history (passes {passes})")?)
}
