//! Looks that come in one by one.

use cal_machine::{Config, MOST_THREADS};
use cal_policy::state::Board;
use cal_policy::{FoundLook, OpenPass};

/// Takes in one look, and says whether it fits.
fn take_in(came: &mut OpenPass, config: &Config, board: &Board, found: FoundLook) -> bool {
    if came.count >= config.threads() || came.count >= MOST_THREADS {
        return false;
    }
    came.pass_over(board, found) || came.look(config, board, found).is_ok()
}

/// Takes in the looks one by one, and says whether each of them fits.
pub fn take_in_all(
    came: &mut OpenPass,
    config: &Config,
    board: &Board,
    looks: &[FoundLook],
) -> bool {
    came.begin();
    for found in looks {
        if !take_in(came, config, board, *found) {
            return false;
        }
    }
    true
}
