//! How many cores tasks have.

ghost use Rattle.std.specs.Prelude.{◌≡◌, ℕ, ◌<◌, ◌≤◌, true, false, length, List};
ghost use Rattle.std.specs.Option.{IfSome};
ghost use Rattle.cal_machine.specs.Table.{IsTable};
ghost use Rattle.cal_machine.specs.declared.task_table.TheConstants.{MOST_TASKS};
ghost use Rattle.cal_machine.specs.TableTasks.{threads_of_table};
ghost use Rattle.cal_policy.specs.declared.history.action.Action.{Action};
ghost use Rattle.cal_policy.specs.Board.Counts as counts;
ghost use Rattle.cal_policy.specs.Board.Counts.{is_held_for};
ghost use Rattle.cal_policy.specs.Board.Losing.{secure_of};
ghost use Rattle.cal_policy.specs.Pass.ToBan.{NoneOver};
ghost use Rattle.cal_policy.specs.Board.{holder_in, placement_of};
ghost use Rattle.cal_policy.specs.State.{IsReady, Agrees};

use crate::board::Board;
use crate::board::holders::Holder;
use cal_machine::Config;

/// Whether a thread of the task holds the core; one that leaves it holds it no more.
pub fn holds_for(config: &Config, task: usize, holder: Holder) -> bool
    requires { IfSome (placement_of holder)
        (λ placement. placement.thread < threads_of_table config.now) }
    ensures { result ≡ is_held_for config.now task holder }
{
    match holder {
        Holder::Held(placement) => config.task_of(placement.thread as usize) == task,
        Holder::Free | Holder::Leaving(..) => false,
    }
}

/// How many cores the task's threads hold.
pub fn held_by(config: &Config, board: &Board, task: usize) -> u8
    requires ready { IsReady config.now board.now }
    requires task { task < MOST_TASKS }
    ensures held { (x : List Action) → Agrees board.now x →
        result ≡ counts.held_by config.now x task }
    ensures some { (core : ℕ) → core < config.now.cores →
        is_held_for config.now task (holder_in board.now.holding core) ≡ true → 0 < result }
{
    config.limits();
    board.survey.held[task]
}

/// How many cores the task's threads hold or leave.
pub fn booked_by(config: &Config, board: &Board, task: usize) -> u8
    requires ready { IsReady config.now board.now }
    requires task { task < MOST_TASKS }
    ensures { (x : List Action) → Agrees board.now x → result ≡ counts.booked_by config.now x task }
{
    config.limits();
    board.survey.booked[task]
}

/// Whether the task holds more cores than it is guaranteed.
pub fn is_over(config: &Config, board: &Board, task: usize) -> bool
    requires table { IsTable config.now }
    requires ready { IsReady config.now board.now }
    requires task { task < length config.now.tasks }
    ensures { (x : List Action) → Agrees board.now x → result ≡ counts.is_over config.now x task }
{
    config.task(task).guaranteed < held_by(config, board, task)
}

/// Whether some task holds more cores than it is guaranteed. Only such a one may lose a core to
/// another: a best-effort task is guaranteed none.
pub fn some_is_over(config: &Config, board: &Board) -> bool
    requires table { IsTable config.now }
    requires ready { IsReady config.now board.now }
    ensures none { result ≡ false → NoneOver config.now board.now }
    ensures secure { result ≡ false → (x : List Action) → Agrees board.now x → (t : ℕ) →
        t < length config.now.tasks → counts.held_by config.now x t ≤ secure_of config.now t }
{
    for task in 0..config.tasks() {
        if config.task(task).guaranteed < held_by(config, board, task) {
            return true;
        }
    }
    false
}

/// The cap of a task: its last one, else its limit.
pub fn cap_of(config: &Config, board: &Board, task: usize) -> u8
    requires table { IsTable config.now }
    requires task { task < length config.now.tasks }
    ensures { (x : List Action) → Agrees board.now x → result ≡ counts.cap_of config.now x task }
{
    match board.caps.caps[task] {
        Some(cap) => cap,
        None => config.task(task).limit,
    }
}
