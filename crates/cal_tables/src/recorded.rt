//! A recorded history, measured.

ghost use Rattle.std.specs.Prelude.{◌≡◌, ◌≤◌, IfOk, List, length};
ghost use Rattle.cal_machine.specs.Table.{Table};
ghost use Rattle.cal_measure.specs.Walk.{IsOpenFor, IsWalkOf};
ghost use Rattle.cal_policy.specs.Policies.{IsVerdictBy};
ghost use Rattle.cal_policy.specs.declared.history.entry.PassEntry.{PassEntry as EntryOf};
ghost use Rattle.cal_policy.specs.declared.history.entry.TheConstants.{MOST_PASSES};
ghost use Rattle.cal_tables.specs.Measured.{AreHistoryNumbers};
ghost use Rattle.cal_tables.specs.Recording.{IsMeasured, IsOfAPolicy};

use cal_guard::{each_policy_is_permitted, passes_are_short, permitted_is_orderly};
use cal_machine::Config;
use cal_measure::{MachineCores, TaskCores, Walk, walked};
use cal_policy::{Auditor, PassEntry, Policy, Verdict};
use std::alloc::{AllocError, Global};

/// The numbers of the cores in a history.
#[derive(Drop)]
pub struct HistoryNumbers {
    /// What came of each task's cores, in task order.
    pub cores: Vec<TaskCores>,
    /// What came of the machine's cores.
    pub machine: MachineCores,
}

/// What is said of a recorded history.
#[derive(Drop)]
pub enum Recorded {
    /// It is legal, and these are its numbers.
    Legal {
        /// The numbers.
        numbers: HistoryNumbers,
    },
    /// This pass, counted from 0, is the first that is not the policy's.
    Illegal {
        /// The pass.
        pass: u64,
    },
}

/// The core numbers of the walked history. Fails only when out of memory.
pub(crate) fn numbers_of_walk(alloc: Global, walk: &Walk) -> Result<HistoryNumbers, AllocError>
    requires { length walk.now.times.items ≡ length walk.now.actions.items }
    ensures { IfOk result (λ numbers. (table : Table) (history : List EntryOf) →
        IsOpenFor table walk.now → IsWalkOf table history walk.now →
        AreHistoryNumbers table history numbers) }
{
    let cores = walk.cores(alloc)?;
    Ok(HistoryNumbers {
        cores,
        machine: walk.machine(),
    })
}

/// The numbers of the cores in a history of some policy, by one walk over it. Fails only when out of
/// memory.
pub fn history_numbers(
    alloc: Global,
    config: &Config,
    history: &[PassEntry],
) -> Result<HistoryNumbers, AllocError>
    requires legal { IsOfAPolicy config.now history.now }
    requires few { length history.now ≤ MOST_PASSES }
    ensures { IfOk result (AreHistoryNumbers config.now history.now) }
{
    each_policy_is_permitted();
    permitted_is_orderly();
    passes_are_short();
    config.limits();
    let walk = walked(alloc, config, history)?;
    numbers_of_walk(alloc, &walk)
}

/// What an audit by this policy says of a history. Fails only when out of memory.
fn verdict_on(
    alloc: Global,
    config: &Config,
    policy: Policy,
    history: &[PassEntry],
) -> Result<Verdict, AllocError>
    requires { length history.now ≤ MOST_PASSES }
    ensures { IfOk result (IsVerdictBy policy config.now history.now) }
{
    let mut auditor = Auditor::open_by(alloc, config, policy)?;
    for entry in history {
        auditor.next(config, entry);
    }
    Ok(auditor.verdict())
}

/// What is said of a history by this policy. Fails only when out of memory.
pub fn measured(
    alloc: Global,
    config: &Config,
    policy: Policy,
    history: &[PassEntry],
) -> Result<Recorded, AllocError>
    requires { length history.now ≤ MOST_PASSES }
    ensures { IfOk result (IsMeasured policy config.now history.now) }
{
    match verdict_on(alloc, config, policy, history)? {
        Verdict::Legal => {
            let numbers = history_numbers(alloc, config, history)?;
            Ok(Recorded::Legal { numbers })
        }
        Verdict::Illegal { pass } => Ok(Recorded::Illegal { pass }),
    }
}
