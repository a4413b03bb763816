//! What a pass found of a task, and left it with.

ghost use Rattle.std.specs.Prelude.{◌≡◌, ◌<◌, ◌++◌, List, OnOk, None, Some, length};
ghost use Rattle.std.specs.Prelude.{if◌then◌else◌};
ghost use Rattle.cal_machine.specs.TableTasks.{is_latency_critical};
ghost use Rattle.cal_policy.specs.Board.Counts as counts;
ghost use Rattle.cal_policy.specs.State.{Agrees, IsReady};
ghost use Rattle.cal_policy.specs.declared.history.action.Action.{Action};
ghost use Rattle.cal_policy.specs.declared.history.entry.PassEntry.{PassEntry};
ghost use Rattle.cal_facts.specs.Series.{point_of, points_of};
ghost use Rattle.cal_facts.specs.PassAt.{IsPassAt};

use cal_machine::Config;
use cal_measure::task_delay;
use cal_policy::state::{Board, booked_by, cap_of, held_by};
use cal_trace::GivenPass;
use std::alloc::AllocError;

/// What a pass found of a task, and left it with.
#[derive(Clone, Copy, Debug, PartialEq, Eq)]
pub struct Point {
    /// The pass.
    pub pass: usize,
    /// Its clock, in ticks.
    pub clock: u64,
    /// Its bandwidth figure, in the unit of the table's limit.
    pub bandwidth: u64,
    /// The task.
    pub task: usize,
    /// The delay of the task that the pass finds: the greatest of its threads', by the pass's clock
    /// and the records that are kept after its looks. In ticks.
    pub delay: u64,
    /// Whether that is strictly above its threshold.
    pub congested: bool,
    /// The cores that its threads hold after the pass's actions.
    pub held: u8,
    /// The cores that they hold or leave then.
    pub booked: u8,
    /// The cap of a best-effort task then.
    pub cap: Option<u8>,
    /// Its limit.
    pub limit: u8,
}

/// A pass that was made, and its number.
#[derive(Clone, Copy)]
pub(crate) struct MadePass {
    /// Its number, from 0.
    pub(crate) pass: usize,
    /// Its clock and its bandwidth figure.
    pub(crate) given: GivenPass,
}

/// The cap of a task, where it is a best-effort one.
fn cap_if_any(config: &Config, board: &Board, task: usize) -> Option<u8>
    requires { task < length config.now.tasks }
    ensures { (x : List Action) → Agrees board.now x →
        result ≡ (if is_latency_critical config.now task then None
        else Some (counts.cap_of config.now x task)) }
{
    config.limits();
    if config.is_latency_critical(task) {
        None
    } else {
        Some(cap_of(config, board, task))
    }
}

/// What a pass, after which the state is this, found of a task and left it with.
fn point_of(config: &Config, board: &Board, made: MadePass, task: usize) -> Point
    requires ready { IsReady config.now board.now }
    requires task { task < length config.now.tasks }
    ensures { (before : List PassEntry) (entry : PassEntry) →
        IsPassAt before entry board.now made → result ≡ point_of config.now before entry task }
{
    config.limits();
    let clock = made.given.now;
    let delay = task_delay(config, board, clock, task);
    Point {
        pass: made.pass,
        clock,
        bandwidth: made.given.bandwidth,
        task,
        delay,
        congested: delay > config.task(task).delay,
        held: held_by(config, board, task),
        booked: booked_by(config, board, task),
        cap: cap_if_any(config, board, task),
        limit: config.task(task).limit,
    }
}

/// Puts those of all tasks at the end of a list. Fails only when out of memory.
pub(crate) fn put_points(
    config: &Config,
    board: &Board,
    made: MadePass,
    points: &mut Vec<Point>,
) -> Result<(), AllocError>
    requires { IsReady config.now board.now }
    ensures { (before : List PassEntry) (entry : PassEntry) →
        IsPassAt before entry board.now made →
        OnOk result (points.new.items ≡ points.old.items ++ points_of config.now before entry) }
{
    for task in 0..config.tasks() {
        let point = point_of(config, board, made, task);
        points.push(point)?;
    }
    Ok(())
}
