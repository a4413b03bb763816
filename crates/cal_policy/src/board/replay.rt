//! The board of a whole history, by one walk over it.

ghost use Rattle.std.specs.Prelude.{◌≡◌, ◌-◌, ◌≤◌, ◌++◌, ◌∷◌, [], List, length};
ghost use Rattle.std.specs.List.{All};
ghost use Rattle.cal_machine.specs.declared.numbering.TheConstants.{MOST_THREADS};
ghost use Rattle.cal_policy.specs.declared.history.action.Action.{Action};
ghost use Rattle.cal_policy.specs.declared.history.entry.PassEntry.{PassEntry};
ghost use Rattle.cal_policy.specs.History.{actions_of, looks_of, looks_before};
ghost use Rattle.cal_policy.specs.Judgement.Orderly.{IsOrderly};
ghost use Rattle.cal_policy.specs.Board.{KeepsBefore, NamesTable};
ghost use Rattle.cal_policy.specs.State.{IsReady, Agrees, KeepingAgrees};
ghost use Rattle.cal_policy.specs.Board.KeepingSets.{FitAfter};

use crate::board::Board;
use crate::history::action::Action;
use crate::history::entry::PassEntry;
use cal_machine::Config;

/// Brings the board up to one more action, which names the table's cores, threads and tasks.
pub fn step(config: &Config, board: &mut Board, action: Action)
    requires ready { IsReady config.now board.old }
    requires names { NamesTable config.now action }
    ensures agrees { (x : List Action) → Agrees board.old x → Agrees board.new (x ++ action ∷ []) }
    ensures ready { IsReady config.now board.new }
    ensures keeping { board.new.keeping ≡ board.old.keeping }
{
    config.limits();
    board.apply(config, action);
}

/// Brings the board up to more actions, each of which names the table's cores, threads and tasks.
fn step_each(config: &Config, board: &mut Board, actions: &[Action])
    requires ready { IsReady config.now board.old }
    requires names { All (NamesTable config.now) actions.now }
    ensures agrees { (x : List Action) → Agrees board.old x → Agrees board.new (x ++ actions.now) }
    ensures ready { IsReady config.now board.new }
    ensures keeping { board.new.keeping ≡ board.old.keeping }
{
    for action in actions {
        step(config, board, *action);
    }
}

/// Brings the board up to one more pass, whose looks fit those before.
pub fn replay(config: &Config, board: &mut Board, entry: &PassEntry)
    requires ready { IsReady config.now board.old }
    requires looks { length entry.now.input.seen ≤ MOST_THREADS }
    requires names { All (NamesTable config.now) entry.now.actions }
    ensures agrees { (h : List PassEntry) → Agrees board.old (actions_of h) →
        Agrees board.new (actions_of (h ++ entry.now ∷ [])) }
    ensures keeping { (h : List PassEntry) → KeepingAgrees board.old.keeping (looks_of h) →
        FitAfter (looks_of h) entry.now.input.seen →
        KeepingAgrees board.new.keeping (looks_of (h ++ entry.now ∷ [])) }
    ensures before { (h : List PassEntry) → KeepingAgrees board.old.keeping (looks_of h) →
        KeepsBefore board.new.keeping (looks_of h) }
    ensures ready { IsReady config.now board.new }
{
    board.begin_fit(entry.input.seen.as_slice());
    step_each(config, board, entry.actions.as_slice());
}

/// The board after a history.
pub fn board_of(config: &Config, history: &[PassEntry]) -> Board
    requires { IsOrderly config.now history.now }
    ensures agrees { Agrees result (actions_of history.now) }
    ensures keeping { KeepingAgrees result.keeping (looks_of history.now) }
    ensures before { KeepsBefore result.keeping (looks_before history.now) }
    ensures ready { IsReady config.now result }
{
    config.limits();
    let mut board = Board::new();
    for entry in history {
        replay(config, &mut board, entry);
    }
    board
}
