//! The sources of what a thread steals: the queues of the other threads of its task.
ghost use Rattle.std.specs.Prelude.{◌≡◌, ◌<◌, length, MatchOption};
ghost use Rattle.cal_kthread.specs.Turn.{robbed};

use crate::queue::Thief;
use crate::queue::waiting::Waiting;

/// Another thread of the task, from whose queue a thread steals.
#[derive(Drop)]
pub(crate) struct Source {
    /// The thread's number.
    pub(crate) number: u8,
    /// The end that steals from its queue.
    pub(crate) thief: Thief,
}

/// Tries once to steal from each, in order, and stops at the first that gives a request: its place
/// among them, and the request. Those before it gave none.
pub(crate) fn steal_first(sources: &mut Vec<Source>) -> Option<(usize, Waiting)>
    ensures { MatchOption result (sources.new.items ≡ sources.old.items)
        (λ theft. (theft.0 < length sources.old.items)
        × (sources.new.items ≡ robbed sources.old.items theft.0 theft.1)) }
{
    for place in 0..sources.len() {
        let source = &mut sources[place];
        if let Some(waiting) = source.thief.steal() {
            return Some((place, waiting));
        }
    }
    None
}
