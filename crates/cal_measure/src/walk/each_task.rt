//! What stands at each task's place, with one action or one pass more.

ghost use Rattle.std.specs.Prelude.{◌≡◌, ◌≢◌, ◌<◌, ◌+◌, ◌^◌, ◌++◌, ◌∷◌, [], ℕ, List, length};
ghost use Rattle.std.specs.List.{All};
ghost use Rattle.cal_machine.specs.TableTasks.{owner_of, threads_of_table};
ghost use Rattle.cal_measure.specs.Actions.{IsNothingTo};
ghost use Rattle.cal_measure.specs.Walk.{AreActionsOfEach, EachTask, IsTimeOf, until_next};
ghost use Rattle.cal_policy.specs.Board.{NamesTable};
ghost use Rattle.cal_policy.specs.State.{Agrees, IsReady, IsStateAfter};
ghost use Rattle.cal_policy.specs.declared.history.action.Action.{Action as ActionOf};
ghost use Rattle.cal_policy.specs.declared.history.entry.PassEntry.{PassEntry};
ghost use Rattle.cal_policy.specs.declared.history.entry.TheConstants.{MOST_PASSES};

use crate::actions::TaskState;
use crate::cores::TaskActions;
use crate::walk::task_time::{PassTiming, TaskTime};
use cal_machine::Config;
use cal_policy::Action;
use cal_policy::state::Board;

/// The core time of each task, with one pass more: see `TaskTime::with_pass`.
pub fn time_each(config: &Config, board: &Board, times: &mut [TaskTime], timing: PassTiming)
    requires ready { IsReady config.now board.now }
    requires many { length times.old ≡ length config.now.tasks }
    ensures many { length times.new ≡ length times.old }
    ensures times { (h : List PassEntry) (entry : PassEntry) → length h < MOST_PASSES →
        IsStateAfter board.now (h ++ entry ∷ []) → timing.clock ≡ entry.input.now →
        timing.lasts ≡ until_next h entry → EachTask (IsTimeOf config.now h) times.old →
        EachTask (IsTimeOf config.now (h ++ entry ∷ [])) times.new }
{
    for task in 0..times.len() {
        times[task] = times[task].with_pass(config, board, task, timing);
    }
}

/// The numbers of each task, with one action more.
fn count_each(config: &Config, board: &Board, numbers: &mut [TaskActions], action: Action)
    requires ready { IsReady config.now board.now }
    requires names { NamesTable config.now action }
    requires many { length numbers.old ≡ length config.now.tasks }
    ensures many { length numbers.new ≡ length numbers.old }
    ensures numbers { (x : List ActionOf) → length x + 1 < 2 ^ 64 → Agrees board.now x →
        AreActionsOfEach config.now x numbers.old →
        AreActionsOfEach config.now (x ++ action ∷ []) numbers.new }
{
    for task in 0..numbers.len() {
        let state = TaskState {
            config,
            board,
            task,
        };
        numbers[task] = state.with_one(&numbers[task], action);
    }
}

/// The numbers of all tasks, with one action more, which may count for the task of this thread
/// alone.
fn count_for(
    config: &Config,
    board: &Board,
    numbers: &mut [TaskActions],
    thread: u8,
    action: Action,
)
    requires ready { IsReady config.now board.now }
    requires names { NamesTable config.now action }
    requires many { length numbers.old ≡ length config.now.tasks }
    requires thread { thread < threads_of_table config.now }
    requires alone { (x : List ActionOf) (t : ℕ) → t ≢ owner_of config.now thread →
        IsNothingTo config.now t x action }
    ensures many { length numbers.new ≡ length numbers.old }
    ensures numbers { (x : List ActionOf) → length x + 1 < 2 ^ 64 → Agrees board.now x →
        AreActionsOfEach config.now x numbers.old →
        AreActionsOfEach config.now (x ++ action ∷ []) numbers.new }
{
    let task = config.task_of(thread as usize);
    let state = TaskState {
        config,
        board,
        task,
    };
    numbers[task] = state.with_one(&numbers[task], action);
}

/// The numbers of all tasks, with one action more. A core that is freed or unbanned counts for no
/// task, and a grant and a ban for that of their thread alone.
fn count_action(config: &Config, board: &Board, numbers: &mut [TaskActions], action: Action)
    requires ready { IsReady config.now board.now }
    requires names { NamesTable config.now action }
    requires many { length numbers.old ≡ length config.now.tasks }
    ensures many { length numbers.new ≡ length numbers.old }
    ensures numbers { (x : List ActionOf) → length x + 1 < 2 ^ 64 → Agrees board.now x →
        AreActionsOfEach config.now x numbers.old →
        AreActionsOfEach config.now (x ++ action ∷ []) numbers.new }
{
    match action {
        Action::Free { .. } => {}
        Action::Unban { .. } => {}
        Action::Grant { thread, .. } => count_for(config, board, numbers, thread, action),
        Action::Ban { thread, .. } => count_for(config, board, numbers, thread, action),
        Action::Revoke { .. } => count_each(config, board, numbers, action),
        Action::Cap { .. } => count_each(config, board, numbers, action),
    }
}

/// Brings a board and the numbers of each task up to the actions of one pass more.
pub fn count_actions_of_each(
    config: &Config,
    board: &mut Board,
    numbers: &mut [TaskActions],
    actions: &[Action],
)
    requires ready { IsReady config.now board.old }
    requires names { All (NamesTable config.now) actions.now }
    requires many { length numbers.old ≡ length config.now.tasks }
    ensures agrees { (x : List ActionOf) → Agrees board.old x →
        Agrees board.new (x ++ actions.now) }
    ensures ready { IsReady config.now board.new }
    ensures keeping { board.new.keeping ≡ board.old.keeping }
    ensures many { length numbers.new ≡ length numbers.old }
    ensures numbers { (x : List ActionOf) → length (x ++ actions.now) < 2 ^ 64 →
        Agrees board.old x →
        AreActionsOfEach config.now x numbers.old →
        AreActionsOfEach config.now (x ++ actions.now) numbers.new }
{
    config.limits();
    for action in actions {
        count_action(config, board, numbers, *action);
        board.apply(config, *action);
    }
}
