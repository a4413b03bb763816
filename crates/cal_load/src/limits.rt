//! Whether the threads of a table's tasks can hold what comes.

ghost use Rattle.std.specs.Prelude.{◌≡◌, ℕ, List, IfErr, IfOk, false, true};
ghost use Rattle.cal_load.specs.Loads.{AreHeld, IsHeld, limit_of};
ghost use Rattle.cal_load.specs.Refused.{IsRefusedFor};

use crate::asked::word_of;
use crate::fault::{LoadFault, Why, refused};
use crate::loads::{Measure, OFFERED};
use crate::making::TaskLoad;
use cal_machine::Config;

/// How many threads a task of a table has.
fn limit_of(table: &Config, task: usize) -> usize
    ensures { result ≡ limit_of task table.now }
{
    if task < table.tasks() {
        table.threads_of(task).1
    } else {
        0
    }
}

/// Whether the turns of so many threads can hold a load; of one that is no load in cores it is not
/// asked.
fn is_held(load: &TaskLoad, threads: usize) -> bool
    ensures held { result ≡ true → IsHeld load.now.measure load.now.load threads }
    ensures unheld { result ≡ false → ¬ IsHeld load.now.measure load.now.load threads }
{
    match load.measure {
        Measure::Limit => true,
        Measure::Cores => u128::from(load.load) <= 1000 * threads as u128,
    }
}

/// Whether the turns of each task's threads can hold its load, where it is in cores: no more cores
/// than threads. The fault is that of the word of the first load that they cannot hold, and says how
/// many threads there are.
pub fn are_held<'a>(
    table: &Config,
    loads: &[TaskLoad],
    words: &[&'a str],
) -> Result<(), LoadFault<'a>>
    ensures held { IfOk result (λ _. AreHeld table.now loads.now) }
    ensures unheld { IfErr result (λ _. ¬ AreHeld table.now loads.now) }
    ensures fault { IfErr result (λ fault. (word : List ℕ) × (threads : ℕ) ×
        IsRefusedFor OFFERED.now word (Why.TooFewThreads threads) fault) }
{
    for place in 0..loads.len() {
        let load = &loads[place];
        let threads = limit_of(table, load.task);
        if !is_held(load, threads) {
            let why = Why::TooFewThreads(threads as u64);
            return Err(refused(OFFERED, word_of(words, place), why));
        }
    }
    Ok(())
}
