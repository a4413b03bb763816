//! What a task has, as C is told.

ghost use Rattle.std.specs.Prelude.{◌≡◌, List, length, nat_lt};
ghost use Rattle.std.specs.Option.{is_some, IfSome};
ghost use Rattle.cal_policy.specs.declared.history.entry.PassEntry.{PassEntry};
ghost use Rattle.cal_policy.specs.State.{IsReady, IsStateAfter};
ghost use Rattle.cal_policy.specs.History.{actions_of};
ghost use Rattle.caladan_c.specs.Told.{counts_of};

use cal_machine::Config;
use cal_policy::state::Board;

/// What a task has after the passes so far, in cores.
#[repr(C)]
#[derive(Clone, Copy)]
pub struct Counts {
    /// Those that its threads hold.
    pub held: u8,
    /// Those that its threads hold or leave.
    pub booked: u8,
    /// Its last cap, else its limit.
    pub cap: u8,
}

/// How many cores a task holds, how many it books, and its cap, where the table has it.
pub fn counts_of_task(config: &Config, board: &Board, task: usize) -> Option<Counts>
    requires { IsReady config.now board.now }
    ensures there { is_some result ≡ nat_lt task (length config.now.tasks) }
    ensures counts { IfSome result (λ counted. (h : List PassEntry) → IsStateAfter board.now h →
        counted ≡ counts_of config.now (actions_of h) task) }
{
    if task < config.tasks() {
        Some(Counts {
            held: board.held(config, task),
            booked: board.booked(config, task),
            cap: board.cap(config, task),
        })
    } else {
        None
    }
}
