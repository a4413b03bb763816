//! How many cores a board has places for.

ghost use Rattle.std.specs.Prelude.{◌≡◌, length};
ghost use Rattle.cal_machine.specs.declared.machine.TheConstants.{MOST_CORES};
ghost use Rattle.cal_guard.specs.Spare.{HasPlaces};

use cal_machine::MOST_CORES;
use cal_policy::state::Board;

/// A list that goes by cores has `MOST_CORES` places.
fn places<T>(list: &[T; MOST_CORES])
    ensures { length list.now ≡ MOST_CORES }
{
    let _ = list;
}

/// Each list of a board that goes by cores has `MOST_CORES` places.
pub fn board_has_places(board: &Board)
    ensures { HasPlaces board.now }
{
    places(&board.holding.granted);
    places(&board.holding.holders);
    places(&board.bans.bans);
}
