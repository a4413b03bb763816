//! Who has a core, as C is told.

ghost use Rattle.std.specs.Prelude.{◌≡◌, List, nat_lt};
ghost use Rattle.std.specs.Option.{is_some, IfSome};
ghost use Rattle.cal_policy.specs.declared.history.entry.PassEntry.{PassEntry};
ghost use Rattle.cal_policy.specs.Board.{kept_holder};
ghost use Rattle.cal_policy.specs.State.{IsStateAfter};
ghost use Rattle.cal_policy.specs.History.{actions_of, holder_of};
ghost use Rattle.caladan_c.specs.Told.{cause_of, told_holder_of};

use cal_machine::Config;
use cal_policy::state::Board;
use cal_policy::{Cause, Holder};

/// Who has a core.
#[repr(C)]
#[derive(Clone, Copy)]
pub struct ToldHolder {
    /// 0 nobody, 1 a thread holds it, 2 a thread was told to leave it.
    pub state: u8,
    /// The thread, unless nobody has it.
    pub thread: u8,
    /// Why it was told to leave: 1 for a ban, 2 for bandwidth, 3 for a task.
    pub cause: u8,
    /// Of a ban, the core that was banned for; of a task, the task.
    pub cause_of: u8,
}

/// A cause as two numbers: its kind, and what it names.
fn tell_cause(cause: Cause) -> (u8, u8)
    ensures { result ≡ cause_of cause }
{
    match cause {
        Cause::Ban { by } => (1, by),
        Cause::Bandwidth => (2, 0),
        Cause::Preempt { task } => (3, task),
    }
}

/// Who has the core, in numbers.
pub fn tell_holder(holder: Holder) -> ToldHolder
    ensures { result ≡ told_holder_of holder }
{
    match holder {
        Holder::Free => ToldHolder {
            state: 0,
            thread: 0,
            cause: 0,
            cause_of: 0,
        },
        Holder::Held(placement) => ToldHolder {
            state: 1,
            thread: placement.thread,
            cause: 0,
            cause_of: 0,
        },
        Holder::Leaving(placement, cause) => {
            let (kind, named) = tell_cause(cause);
            ToldHolder {
                state: 2,
                thread: placement.thread,
                cause: kind,
                cause_of: named,
            }
        }
    }
}

/// Who has a core, where the table has it.
pub fn holder_on(config: &Config, board: &Board, core: u8) -> Option<Holder>
    ensures there { is_some result ≡ nat_lt core config.now.cores }
    ensures holder { IfSome result (λ holder. (h : List PassEntry) → IsStateAfter board.now h →
        holder ≡ kept_holder (holder_of (actions_of h) core)) }
{
    config.limits();
    if core < config.machine().cores() {
        Some(board.holder(core))
    } else {
        None
    }
}
