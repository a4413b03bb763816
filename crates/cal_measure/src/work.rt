//! What the threads of a task did in their turns.

ghost use Rattle.std.specs.Prelude.{◌≡◌, ◌<◌, ◌++◌, List, OnOk};
ghost use Rattle.cal_kthread.specs.declared.journal.entry.Entry.{Entry};
ghost use Rattle.cal_measure.specs.Turns.{one_of};
ghost use Rattle.cal_measure.specs.Work.{stolen_by, suspension_by, time_worked};
ghost use Rattle.cal_measure.specs.declared.ends.TimedTurn.{TimedTurn};

use crate::ends::{TimedTurn, ticks_of};
use crate::turns::Turn;
use cal_kthread::Entry;
use std::alloc::AllocError;

/// What the threads of a task did in their turns.
#[derive(Clone, Copy, Debug, PartialEq, Eq)]
pub struct TaskWork {
    /// How long they worked, together, in clock ticks.
    pub worked: u128,
    /// How many requests they stole from one another.
    pub thefts: usize,
    /// How often a request of theirs was suspended: its thread lost the core on which it worked.
    pub suspensions: usize,
}

/// Puts a number, if there is one, at the end of a list. Fails only when out of memory.
pub fn put_number(numbers: &mut Vec<u64>, number: Option<u64>) -> Result<(), AllocError>
    ensures { OnOk result (numbers.new.items ≡ numbers.old.items ++ one_of number) }
{
    match number {
        None => Ok(()),
        Some(number) => {
            numbers.push(number)?;
            Ok(())
        }
    }
}

/// How long a turn worked, if it did.
pub(crate) fn time_worked(turn: TimedTurn) -> Option<u64>
    ensures { (before : List TimedTurn) → one_of result ≡ time_worked before turn }
{
    if turn.at_work {
        Some(ticks_of(turn))
    } else {
        None
    }
}

/// The request that an entry says was stolen, if it does.
pub(crate) fn stolen_by(entry: Entry) -> Option<u64>
    ensures { (before : List Entry) → one_of result ≡ stolen_by before entry }
{
    match entry {
        Entry::Stole { id, .. } => Some(id),
        Entry::Arrived(_) => None,
        Entry::Took(..) => None,
        Entry::Served { .. } => None,
        Entry::Yielded => None,
        Entry::Published(..) => None,
    }
}

/// When a request was suspended between two turns, if one was.
pub(crate) fn suspension_by(turn: Option<Turn>, next: Option<Turn>) -> Option<u64>
    ensures { one_of result ≡ suspension_by turn next }
{
    match turn {
        None => None,
        Some(turn) => match next {
            None => None,
            Some(next) => {
                if turn.at_work && next.suspended {
                    Some(next.stamp)
                } else {
                    None
                }
            }
        },
    }
}
