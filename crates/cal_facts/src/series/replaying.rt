//! The series of a history, by one walk over it.

ghost use Rattle.std.specs.Prelude.{◌≡◌, ◌≤◌, ◌++◌, ◌∷◌, [], List, IfOk, length};
ghost use Rattle.std.specs.List.{All};
ghost use Rattle.cal_machine.specs.declared.numbering.TheConstants.{MOST_THREADS};
ghost use Rattle.cal_policy.specs.Board.{NamesTable};
ghost use Rattle.cal_policy.specs.State.{Agrees, IsReady, IsStateAfter};
ghost use Rattle.cal_policy.specs.declared.history.action.Action.{Action};
ghost use Rattle.cal_policy.specs.declared.history.entry.PassEntry.{PassEntry};
ghost use Rattle.cal_trace.specs.History.Ranges.{IsInRange};
ghost use Rattle.cal_trace.specs.History.Reading.{extent_of};
ghost use Rattle.cal_facts.specs.Series.{series_of};

use crate::series::point::{MadePass, Point, put_points};
use cal_machine::Config;
use cal_measure::given_of;
use cal_policy::state::Board;
use cal_policy::{Action, PassEntry};
use std::alloc::{AllocError, Global};

/// Brings a state up to one more action, which names the table's cores, threads and tasks.
fn apply_one(config: &Config, board: &mut Board, action: Action)
    requires ready { IsReady config.now board.old }
    requires names { NamesTable config.now action }
    ensures agrees { (x : List Action) → Agrees board.old x → Agrees board.new (x ++ action ∷ []) }
    ensures ready { IsReady config.now board.new }
    ensures keeping { board.new.keeping ≡ board.old.keeping }
{
    config.limits();
    board.apply(config, action);
}

/// Brings a state up to more actions, each of which names the table's cores, threads and tasks.
fn apply_each(config: &Config, board: &mut Board, actions: &[Action])
    requires ready { IsReady config.now board.old }
    requires names { All (NamesTable config.now) actions.now }
    ensures agrees { (x : List Action) → Agrees board.old x → Agrees board.new (x ++ actions.now) }
    ensures ready { IsReady config.now board.new }
    ensures keeping { board.new.keeping ≡ board.old.keeping }
{
    for action in actions {
        apply_one(config, board, *action);
    }
}

/// Brings a state up to one more pass, whichever it is: its looks need not fit those before.
fn follow(config: &Config, board: &mut Board, entry: &PassEntry)
    requires ready { IsReady config.now board.old }
    requires looks { length entry.now.input.seen ≤ MOST_THREADS }
    requires names { All (NamesTable config.now) entry.now.actions }
    ensures state { (h : List PassEntry) → IsStateAfter board.old h →
        IsStateAfter board.new (h ++ entry.now ∷ []) }
    ensures ready { IsReady config.now board.new }
{
    board.begin(entry.input.seen.as_slice());
    apply_each(config, board, entry.actions.as_slice());
}

/// The series of a history that a file can hold. Fails only when out of memory.
pub(crate) fn series_of_history(
    alloc: Global,
    config: &Config,
    history: &[PassEntry],
) -> Result<Vec<Point>, AllocError>
    requires { IsInRange (extent_of config.now) history.now }
    ensures { IfOk result (λ points. points.items ≡ series_of config.now history.now) }
{
    config.limits();
    let mut board = Board::new();
    let mut points = Vec::new(alloc);
    for pass in 0..history.len() {
        let entry = &history[pass];
        follow(config, &mut board, entry);
        let given = given_of(entry);
        let made = MadePass { pass, given };
        put_points(config, &board, made, &mut points)?;
    }
    Ok(points)
}
