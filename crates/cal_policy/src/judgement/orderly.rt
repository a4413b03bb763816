//! Whether each action of a history fits the state before it.

ghost use Rattle.std.specs.Prelude.{◌≡◌, ℕ, ◌<◌, ◌&&◌, not, ◌++◌};
ghost use Rattle.std.specs.Prelude.{◌∷◌, [], ◌↔◌, List, IsTrue};
ghost use Rattle.cal_machine.specs.Machine.{sibling_of};
ghost use Rattle.cal_machine.specs.declared.task_table.TheConstants.{MOST_TASKS};
ghost use Rattle.cal_policy.specs.declared.history.action.Action.{Action};
ghost use Rattle.cal_policy.specs.declared.history.action.Action.TheVariants.{Free, Unban, Ban};
ghost use Rattle.cal_policy.specs.declared.history.action.Action.TheVariants.{Revoke, Cap, Grant};
ghost use Rattle.cal_policy.specs.declared.history.entry.PassEntry.{PassEntry};
ghost use Rattle.cal_policy.specs.History.{actions_of, looks_of};
ghost use Rattle.cal_policy.specs.History as history;
ghost use Rattle.cal_policy.specs.Judgement.Orderly as order;
ghost use Rattle.cal_policy.specs.Judgement.Orderly.{fits_state, FitInTurn, IsOrderlyEntry};
ghost use Rattle.cal_policy.specs.Judgement.Orderly.{IsOrderly};
ghost use Rattle.cal_policy.specs.Board.{NamesTable};
ghost use Rattle.cal_policy.specs.State.{IsReady, Agrees, KeepingAgrees};

use crate::board::Board;
use crate::board::cores::{has_no_core, is_banned, is_free, is_held};
use crate::board::replay::step;
use crate::history::action::{Action, Cause};
use crate::history::entry::PassEntry;
use crate::judgement::judging::looks_fit;
use cal_machine::Config;

/// Whether a cause names a core or task of the table.
fn names_table(config: &Config, cause: Cause) -> bool
    ensures { result ≡ order.names_table config.now cause }
{
    match cause {
        Cause::Ban { by } => by < config.machine().cores(),
        Cause::Bandwidth => true,
        Cause::Preempt { task } => (task as usize) < config.tasks(),
    }
}

/// Whether a core that is held or being left may be freed.
fn may_free(config: &Config, board: &Board, core: u8) -> bool
    ensures fits { (x : List Action) → Agrees board.now x →
        result ≡ fits_state config.now x (Free core) }
    ensures names { IsTrue result → core < config.now.cores }
{
    core < config.machine().cores() && !is_free(board, core)
}

/// Whether a ban on a core may end.
fn may_unban(config: &Config, board: &Board, core: u8) -> bool
    ensures fits { (x : List Action) → Agrees board.now x →
        result ≡ fits_state config.now x (Unban core) }
    ensures names { IsTrue result → core < config.now.cores }
{
    core < config.machine().cores() && is_banned(board, core)
}

/// Whether a core may be banned: neither it nor its sibling is.
fn may_ban(config: &Config, board: &Board, core: u8) -> bool
    requires { core < config.now.cores }
    ensures { (x : List Action) → Agrees board.now x →
        result ≡ (not (history.is_banned x core) && not (history.is_banned x (sibling_of core))) }
{
    let sibling = config.machine().sibling(core);
    !is_banned(board, core) && !is_banned(board, sibling)
}

/// Whether a core may be banned for a thread.
fn may_ban_for(config: &Config, board: &Board, core: u8, thread: u8) -> bool
    ensures fits { (x : List Action) (started : ℕ) → Agrees board.now x →
        result ≡ fits_state config.now x (Ban core thread started) }
    ensures names { (started : ℕ) → IsTrue result →
        NamesTable config.now (Ban core thread started) }
{
    core < config.machine().cores()
        && (thread as usize) < config.threads()
        && may_ban(config, board, core)
}

/// Whether a held core may be revoked.
fn may_revoke(config: &Config, board: &Board, core: u8, cause: Cause) -> bool
    ensures fits { (x : List Action) → Agrees board.now x →
        result ≡ fits_state config.now x (Revoke core cause) }
    ensures names { IsTrue result → core < config.now.cores }
{
    core < config.machine().cores() && names_table(config, cause) && is_held(board, core)
}

/// Whether a task may be capped.
fn may_cap(config: &Config, task: u8, cap: u8) -> bool
    ensures fits { (x : List Action) → result ≡ fits_state config.now x (Cap task cap) }
    ensures names { IsTrue result → task < MOST_TASKS }
{
    (task as usize) < config.tasks() && cap <= config.task(task as usize).limit
}

/// Whether a free core may be granted to a thread that has none.
fn may_grant(config: &Config, board: &Board, core: u8, thread: u8) -> bool
    ensures fits { (x : List Action) (class : ℕ) → Agrees board.now x →
        result ≡ fits_state config.now x (Grant core thread class) }
    ensures names { (class : ℕ) → IsTrue result → NamesTable config.now (Grant core thread class) }
{
    core < config.machine().cores()
        && (thread as usize) < config.threads()
        && is_free(board, core)
        && has_no_core(config, board, thread)
}

/// Whether an action names the table's cores, threads and tasks and fits the state.
pub fn is_fit(config: &Config, board: &Board, action: Action) -> bool
    ensures fits { (x : List Action) → Agrees board.now x →
        result ≡ fits_state config.now x action }
    ensures names { IsTrue result → NamesTable config.now action }
{
    match action {
        Action::Free { core } => may_free(config, board, core),
        Action::Unban { core } => may_unban(config, board, core),
        Action::Ban { core, thread, .. } => may_ban_for(config, board, core, thread),
        Action::Revoke { core, cause } => may_revoke(config, board, core, cause),
        Action::Cap { task, cap } => may_cap(config, task, cap),
        Action::Grant { core, thread, .. } => may_grant(config, board, core, thread),
    }
}

/// Brings the board up to the actions of one pass, as far as they fit, and says whether all do.
fn step_fitting(config: &Config, board: &mut Board, actions: &[Action]) -> bool
    requires { IsReady config.now board.old }
    ensures fits { (x : List Action) → Agrees board.old x → IsTrue result ↔
        FitInTurn config.now x actions.now }
    ensures agrees { IsTrue result → (x : List Action) → Agrees board.old x →
        Agrees board.new (x ++ actions.now) }
    ensures ready { IsReady config.now board.new }
    ensures keeping { board.new.keeping ≡ board.old.keeping }
{
    for action in actions {
        if !is_fit(config, board, *action) {
            return false;
        }
        step(config, board, *action);
    }
    true
}

/// Brings the board up to one more pass, as far as it is orderly, and says whether it is.
pub fn replay_fitting(config: &Config, board: &mut Board, entry: &PassEntry) -> bool
    requires { IsReady config.now board.old }
    ensures fits { (h : List PassEntry) → Agrees board.old (actions_of h) →
        KeepingAgrees board.old.keeping (looks_of h) →
        IsTrue result ↔ IsOrderlyEntry config.now h entry.now }
    ensures agrees { IsTrue result → (h : List PassEntry) → Agrees board.old (actions_of h) →
        Agrees board.new (actions_of (h ++ entry.now ∷ [])) }
    ensures keeping { IsTrue result → (h : List PassEntry) →
        KeepingAgrees board.old.keeping (looks_of h) →
        KeepingAgrees board.new.keeping (looks_of (h ++ entry.now ∷ [])) }
    ensures ready { IsReady config.now board.new }
{
    if !looks_fit(&board.keeping, config, &entry.input) {
        return false;
    }
    board.begin_fit(entry.input.seen.as_slice());
    step_fitting(config, board, entry.actions.as_slice())
}

/// Whether a history is orderly: in each pass the looks fit those before, cores, threads and tasks
/// are the table's, and each action fits the state before it. Any history may be asked about.
pub fn orderly(config: &Config, history: &[PassEntry]) -> bool
    ensures { IsTrue result ↔ IsOrderly config.now history.now }
{
    let mut board = Board::new();
    for entry in history {
        if !replay_fitting(config, &mut board, entry) {
            return false;
        }
    }
    true
}
