//! The summary of arrivals that were made.

use cal_load::Count;
use cal_machine::Config;
use cal_measure::thousandths;
use std::alloc::{AllocError, Global};
use std::fmt::Write;

/// The passes and turns, and a line for each task that requests came to.
pub fn summary_of(
    alloc: Global,
    config: &Config,
    counts: &[Count],
    turns: u64,
) -> Result<String, AllocError> {
    let mut text = String::new(alloc);
    writeln!(text, "passes {turns} turns {turns}")?;
    for count in counts {
        put_count(config, count, turns, &mut text)?;
    }
    Ok(text)
}

/// Puts the line of a task.
fn put_count(
    config: &Config,
    count: &Count,
    turns: u64,
    text: &mut String,
) -> Result<(), AllocError> {
    let Count {
        task,
        came,
        later,
        left_out,
        work,
    } = *count;
    let load = load_of(work, turns, threads_of(config, task));
    let (ones, rest) = (load / 1000, load % 1000);
    writeln!(
        text,
        "task {task} came {came} later {later} left out {left_out} load {ones}.{rest:03}"
    )
}

/// How many threads a task has.
fn threads_of(config: &Config, task: usize) -> u64 {
    if task < config.tasks() {
        config.threads_of(task).1 as u64
    } else {
        0
    }
}

/// The work that comes, in thousandths of the turns of so many threads.
fn load_of(work: u64, turns: u64, threads: u64) -> u64 {
    let whole = u128::from(turns).saturating_mul(u128::from(threads));
    thousandths(u128::from(work), whole).unwrap_or(0)
}
