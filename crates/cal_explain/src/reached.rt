//! The state that the passes of a history leave, as far as they are orderly.

ghost use Rattle.std.specs.Prelude.{◌<◌, ◌+◌, length, take};
ghost use Rattle.cal_explain.specs.Reached.{IsReached};

use cal_machine::Config;
use cal_policy::state::{Board, board_of, replay_fitting};
use cal_policy::{PassEntry, orderly};

/// The state that these passes leave; none where they are not orderly.
pub fn reached_by(config: &Config, history: &[PassEntry]) -> Option<Board>
    ensures { IsReached config.now history.now result }
{
    if orderly(config, history) {
        Some(board_of(config, history))
    } else {
        None
    }
}

/// The state after one pass more of a history, of that after so many passes.
pub fn reached_after(
    config: &Config,
    state: Option<Board>,
    history: &[PassEntry],
    pass: usize,
) -> Option<Board>
    requires within { pass < length history.now }
    requires before { IsReached config.now (take pass history.now) state }
    ensures { IsReached config.now (take (pass + 1) history.now) result }
{
    match state {
        None => None,
        Some(mut board) => {
            if replay_fitting(config, &mut board, &history[pass]) {
                Some(board)
            } else {
                None
            }
        }
    }
}
