//! What the program does not show: the values that were read from a table, and sets of cores. What
//! tables are refused, and why, is in examples/rows/tables.

use cal_machine::{Config, CoreSet, Kind, Task};
use std::test::Fail;

/// Two latency-critical tasks and a best-effort one on four cores.
const THREE_TASKS: &[u8] =
    b"cores = 4\nbandwidth_limit = 1000\n[[task]]\nkind = \"lc\"\nguaranteed = 1\nlimit = 2\n\
    delay = 10\nrequest = 50\n[[task]]\nkind = \"be\"\nguaranteed = 0\nlimit = 3\ndelay = 20\n\
    request = 0\n[[task]]\nkind = \"lc\"\nguaranteed = 2\nlimit = 4\ndelay = 30\nrequest = 70\n";

/// Whether the set has cores 0 and 127, and none between.
fn is_of_two(set: &CoreSet) -> bool {
    set.has(0) && set.has(127) && !set.has(64) && set.least_from(1) == Some(127)
}

#[test]
fn cores_of_a_set(rt: HostRuntime) {
    let mut set = CoreSet::empty();
    assert!(rt; set.greatest().is_none());
    set.insert(127);
    set.insert(0);
    set.insert(64);
    set.remove(64);
    assert!(rt; is_of_two(&set));
    assert!(rt; matches!((set.least(), set.greatest()), (Some(0), Some(127))));
}

/// Whether these are the numbers of a table of three tasks.
fn has_three_tasks(config: &Config) -> bool {
    if config.tasks() != 3 || config.threads() != 9 || config.bandwidth_limit() != 1000 {
        return false;
    }
    config.machine().cores() == 4 && config.task_of(4) == 1 && config.threads_of(2) == (5, 4)
}

/// Whether the second task is the best-effort one.
fn has_best_effort_task(config: &Config) -> bool {
    if config.tasks() < 2 {
        return false;
    }
    let Task {
        kind,
        guaranteed,
        limit,
        delay,
        request,
    } = config.task(1);
    matches!(kind, Kind::BestEffort) && (guaranteed, limit) == (0, 3) && (delay, request) == (20, 0)
}

#[test]
fn what_a_table_says(rt: HostRuntime) -> Result<(), Fail> {
    let config = Config::read(rt.alloc(), THREE_TASKS)?;
    assert!(rt; has_three_tasks(&config));
    let copied = config.copy(rt.alloc())?;
    assert!(rt; has_three_tasks(&copied) && has_best_effort_task(&copied));
    Ok(())
}
