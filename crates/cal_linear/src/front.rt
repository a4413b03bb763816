//! How far a thread's journal is listed, and what a look adds.

ghost use Rattle.std.specs.Prelude.{◌≡◌, ◌++◌, IfOk};
ghost use Rattle.cal_kthread.specs.Journal.Entries.{past};
ghost use Rattle.cal_linear.specs.Steps.{events_of};
ghost use Rattle.cal_linear.specs.Reads.{further, place_found};
ghost use Rattle.cal_linear.specs.Linear.{look_events};
ghost use Rattle.cal_linear.specs.Fronts.{IsFront};

use crate::steps::{append_all, append_upto};
use cal_kthread::Entry;
use cal_policy::Seen;
use cal_world::Event;
use std::alloc::AllocError;

/// How far a thread's journal is listed.
#[derive(Clone, Copy)]
pub(crate) struct Front {
    /// The furthest place that was read.
    pub place: u64,
    /// How many entries there are up to its publication.
    pub entries: usize,
}

/// Appends a look at a thread, and before a Read the part of its journal up to the record that was
/// read. Answers how far the journal is then listed.
pub(crate) fn append_look(
    events: &mut Vec<Event>,
    thread: u8,
    journal: &[Entry],
    front: Front,
    seen: Seen,
) -> Result<Front, AllocError>
    requires { IsFront journal.now front }
    ensures appended { IfOk result (λ now. events.new.items ≡
        events.old.items ++ look_events thread journal.now front.place seen) }
    ensures place { IfOk result (λ now. now.place ≡ further front.place (place_found seen)) }
    ensures listed { IfOk result (λ now. IsFront journal.now now) }
{
    match seen {
        Seen::Whole { number, rec: _ } => {
            let rest = &journal[front.entries..];
            let count = append_upto(events, thread, rest, number.saturating_sub(front.place))?;
            events.push(Event::Read(thread, number))?;
            let left = rest.len() - count;
            Ok(Front {
                place: front.place.max(number),
                entries: journal.len() - left,
            })
        }
        _ => {
            events.push(Event::Skip(thread, seen))?;
            Ok(front)
        }
    }
}

/// Appends what a journal has past the place up to which it is listed.
pub(crate) fn append_rest(
    events: &mut Vec<Event>,
    thread: u8,
    journal: &[Entry],
    front: Front,
) -> Result<(), AllocError>
    requires { IsFront journal.now front }
    ensures { IfOk result (λ done. events.new.items ≡
        events.old.items ++ events_of thread (past front.place journal.now)) }
{
    append_all(events, thread, &journal[front.entries..])
}
