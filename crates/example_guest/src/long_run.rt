//! Many passes behind one guard, to be timed.

ghost use Rattle.cal_guard.specs.Guarded.{board_in};
ghost use Rattle.cal_policy.specs.State.{IsReady};

use crate::made::record;
use cal_guard::Guard;
use cal_machine::Config;
use cal_policy::{Action, Cause, FoundLook, Input, Look};
use std::alloc::{AllocError, Global};

/// The look at thread `k` in pass `i`: thread 1 took all that was sent to it, and runs in each
/// second of three passes; the others never published.
fn look(i: u64, k: usize) -> Look {
    if k != 1 {
        return Look::Whole {
            number: 0,
            rec: record([0; 4]),
        };
    }
    let taken = (i / 3).wrapping_mul(2).wrapping_add(i % 3);
    Look::Whole {
        number: i.wrapping_add(1),
        rec: record([i, taken, u64::from(i % 3 == 1), 0]),
    }
}

/// What pass `i` is to do: core 0 is granted to thread 1, revoked, and freed, in turn.
fn action(i: u64) -> Action {
    match i % 3 {
        0 => Action::Grant {
            core: 0,
            thread: 1,
            class: 3,
        },
        1 => Action::Revoke {
            core: 0,
            cause: Cause::Bandwidth,
        },
        _ => Action::Free { core: 0 },
    }
}

/// The input of pass `i`, in which each ring has room.
fn input_of(alloc: Global, config: &Config, guard: &Guard, i: u64) -> Result<Input, AllocError> {
    let mut found = Vec::new(alloc);
    for k in 0..config.threads() {
        let look = look(i, k);
        found.push(FoundLook { look, room: true })?;
    }
    guard.board().input(alloc, config, i, 0, &found)
}

/// Makes pass `i`, and tells whether the guard let it through.
fn make_pass(alloc: Global, config: &Config, guard: &mut Guard, i: u64) -> Result<bool, AllocError>
    requires { IsReady config.now (board_in guard.old) }
    ensures { IsReady config.now (board_in guard.new) }
{
    let input = input_of(alloc, config, guard, i)?;
    if !guard.board().fits(config, &input) {
        return Ok(false);
    }
    Ok(guard.step(config, &input, &[action(i)]).is_ok())
}

/// Makes so many passes, and tells how many the guard let through.
pub fn long_run(alloc: Global, config: &Config, passes: u64) -> Result<u64, AllocError> {
    let mut guard = Guard::open(alloc, config)?;
    let mut through = 0u64;
    for i in 0..passes {
        if make_pass(alloc, config, &mut guard, i)? {
            through = through.saturating_add(1);
        }
    }
    Ok(through)
}
