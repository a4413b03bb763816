//! What a board says of a core, and whether a thread has any.

ghost use Rattle.std.specs.Prelude.{◌≡◌, ◌<◌, ◌==◌, List};
ghost use Rattle.cal_machine.specs.declared.machine.TheConstants.{MOST_CORES};
ghost use Rattle.cal_policy.specs.declared.history.action.Action.{Action};
ghost use Rattle.cal_policy.specs.History as history;
ghost use Rattle.cal_policy.specs.History.{holder_of};
ghost use Rattle.cal_policy.specs.State.{Agrees};
ghost use Rattle.cal_policy.specs.Board.Counts as counts;
ghost use Rattle.cal_policy.specs.Board.Counts.{cores_of_thread};

use crate::board::Board;
use cal_machine::Config;

/// Whether a core is free.
pub fn is_free(board: &Board, core: u8) -> bool
    requires { core < MOST_CORES }
    ensures { (x : List Action) → Agrees board.now x → result ≡ counts.is_free (holder_of x core) }
{
    board.holding.holders[core as usize].is_free()
}

/// Whether a core is held.
pub fn is_held(board: &Board, core: u8) -> bool
    requires { core < MOST_CORES }
    ensures { (x : List Action) → Agrees board.now x → result ≡ counts.is_held (holder_of x core) }
{
    board.holding.holders[core as usize].is_held()
}

/// Whether a core is banned.
pub fn is_banned(board: &Board, core: u8) -> bool
    requires { core < MOST_CORES }
    ensures { (x : List Action) → Agrees board.now x → result ≡ history.is_banned x core }
{
    board.bans.bans[core as usize].is_some()
}

/// Whether thread `k` holds and leaves no core.
pub fn has_no_core(config: &Config, board: &Board, k: u8) -> bool
    ensures { (x : List Action) → Agrees board.now x →
        result ≡ (cores_of_thread config.now x k == 0) }
{
    for core in 0..config.machine().cores() {
        if board.holding.holders[core as usize].is_with(k) {
            return false;
        }
    }
    true
}
