//! When the turns of a kernel thread end.

ghost use Rattle.std.specs.Prelude.{◌≡◌, ◌<◌, ◌++◌, ◌∷◌, [], length, IfOk, OnOk, Some};
ghost use Rattle.cal_measure.specs.Ends.{end_of, ticks_of, timed_at, timed_by, timed_of};

use crate::turns::Turn;
use std::alloc::{AllocError, Global};

/// A turn of a kernel thread, with its end.
#[derive(Clone, Copy, Debug, PartialEq, Eq)]
pub struct TimedTurn {
    /// The request of which it did the last work, if it did.
    pub served: Option<u64>,
    /// The stamp of its publication, in clock ticks.
    pub stamp: u64,
    /// When it ended: the stamp of its thread's next turn; of the last one, the run's last clock,
    /// or its own stamp if that is later. In clock ticks.
    pub ends: u64,
    /// Whether it worked.
    pub at_work: bool,
}

/// When a turn ends, told its thread's next one and the run's last clock.
fn end_of(last: u64, turn: Turn, next: Option<Turn>) -> u64
    ensures { result ≡ end_of last turn next }
{
    match next {
        Some(next) => next.stamp,
        None => turn.stamp.max(last),
    }
}

/// A turn with its end, told its thread's next one and the run's last clock.
pub(crate) fn with_end(last: u64, turn: Turn, next: Option<Turn>) -> TimedTurn
    ensures { result ∷ [] ≡ timed_by last (Some turn) next }
{
    TimedTurn {
        served: turn.served,
        stamp: turn.stamp,
        ends: end_of(last, turn, next),
        at_work: turn.at_work,
    }
}

/// Puts the turn at a place, with its end, at the end of a list. Fails only when out of memory.
fn put_timed(
    turns: &[Turn],
    place: usize,
    last: u64,
    timed: &mut Vec<TimedTurn>,
) -> Result<(), AllocError>
    requires { place < length turns.now }
    ensures { OnOk result (timed.new.items ≡ timed.old.items ++ timed_at last turns.now place) }
{
    let next = turns.get(place + 1).copied();
    timed.push(with_end(last, turns[place], next))?;
    Ok(())
}

/// The turns of a thread, each with its end, in a run with this last clock. Fails only when out of
/// memory.
pub fn timed_of(alloc: Global, turns: &[Turn], last: u64) -> Result<Vec<TimedTurn>, AllocError>
    ensures { IfOk result (λ timed. timed.items ≡ timed_of last turns.now) }
{
    let mut timed = Vec::new(alloc);
    for place in 0..turns.len() {
        put_timed(turns, place, last, &mut timed)?;
    }
    Ok(timed)
}

/// How long a turn lasts, in clock ticks.
pub fn ticks_of(turn: TimedTurn) -> u64
    ensures { result ≡ ticks_of turn }
{
    turn.ends.saturating_sub(turn.stamp)
}
