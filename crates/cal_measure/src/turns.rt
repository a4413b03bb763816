//! The turns of a kernel thread, as its journal tells of them.

ghost use Rattle.std.specs.Prelude.{◌≡◌, ◌++◌, ◌∷◌, [], List, IfOk, OnOk};
ghost use Rattle.cal_kthread.specs.declared.journal.entry.Entry.{Entry};
ghost use Rattle.cal_measure.specs.Turns.{one_of, served_since, turn_by, turns_of};

use cal_kthread::Entry;
use std::alloc::{AllocError, Global};

/// A turn of a kernel thread.
#[derive(Clone, Copy, Debug, PartialEq, Eq)]
pub struct Turn {
    /// The request of which it did the last work, if it did.
    pub served: Option<u64>,
    /// The stamp of its publication, in clock ticks.
    pub stamp: u64,
    /// Whether its publication shows a core, and it shows a request or ends a turn that served one.
    pub at_work: bool,
    /// Whether its publication shows a suspended request.
    pub suspended: bool,
}

/// The request that was served in this turn so far, with one entry more.
pub(crate) fn served_after(served: Option<u64>, entry: Entry) -> Option<u64>
    ensures { (before : List Entry) → served ≡ served_since before →
        result ≡ served_since (before ++ entry ∷ []) }
{
    match entry {
        Entry::Served { id } => Some(id),
        Entry::Published(..) => None,
        Entry::Arrived(_) => served,
        Entry::Took(..) => served,
        Entry::Stole { .. } => served,
        Entry::Yielded => served,
    }
}

/// The turn that an entry ends, if it does.
pub(crate) fn turn_by(served: Option<u64>, entry: Entry) -> Option<Turn>
    ensures { (before : List Entry) → served ≡ served_since before →
        one_of result ≡ turn_by before entry }
{
    match entry {
        Entry::Published(_, rec) => Some(Turn {
            served,
            stamp: rec.stamp,
            at_work: rec.running > 0 && (rec.started > 0 || served.is_some()),
            suspended: rec.paused > 0,
        }),
        Entry::Arrived(_) => None,
        Entry::Took(..) => None,
        Entry::Stole { .. } => None,
        Entry::Served { .. } => None,
        Entry::Yielded => None,
    }
}

/// Puts a turn, if there is one, at the end of a list. Fails only when out of memory.
fn put_one(turns: &mut Vec<Turn>, turn: Option<Turn>) -> Result<(), AllocError>
    ensures { OnOk result (turns.new.items ≡ turns.old.items ++ one_of turn) }
{
    match turn {
        None => Ok(()),
        Some(turn) => {
            turns.push(turn)?;
            Ok(())
        }
    }
}

/// The turns that a journal tells of, in order. Fails only when out of memory.
pub fn turns_of(alloc: Global, journal: &[Entry]) -> Result<Vec<Turn>, AllocError>
    ensures { IfOk result (λ turns. turns.items ≡ turns_of journal.now) }
{
    let mut turns = Vec::new(alloc);
    let mut served = None;
    for entry in journal {
        put_one(&mut turns, turn_by(served, *entry))?;
        served = served_after(served, *entry);
    }
    Ok(turns)
}
