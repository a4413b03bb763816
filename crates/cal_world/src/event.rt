//! What can happen in a world.

ghost use Rattle.std.specs.Prelude.{◌≡◌, IfOk};

use cal_policy::{PassEntry, Record, Seen};
use std::alloc::{AllocError, Global};

/// One thing that happened: a kernel thread or the scheduler made one step.
#[derive(Drop)]
pub enum Event {
    /// The thread took the next of the commands that were sent to it.
    Take(u8),
    /// The thread gave up its core.
    Yield(u8),
    /// The thread published this record, at the next place of its page.
    Publish(u8, Record),
    /// The scheduler looked at the thread's page and found the record at this place.
    Read(u8, u64),
    /// The scheduler looked at the thread's page and kept nothing: the look was Busy, Ahead or
    /// Foreign.
    Skip(u8, Seen),
    /// The scheduler made this pass.
    Decide(PassEntry),
    /// The second observer looked at the thread's page and found the record at this place.
    Watch(u8, u64),
}

impl Event {
    /// An equal event. Fails only when out of memory.
    pub fn copy(&self, alloc: Global) -> Result<Event, AllocError>
        ensures { IfOk result (λ event. event ≡ self.now) }
    {
        match self {
            Event::Take(k) => Ok(Event::Take(*k)),
            Event::Yield(k) => Ok(Event::Yield(*k)),
            Event::Publish(k, rec) => Ok(Event::Publish(*k, *rec)),
            Event::Read(k, number) => Ok(Event::Read(*k, *number)),
            Event::Skip(k, seen) => Ok(Event::Skip(*k, *seen)),
            Event::Decide(entry) => Ok(Event::Decide(entry.copy(alloc)?)),
            Event::Watch(k, number) => Ok(Event::Watch(*k, *number)),
        }
    }
}
