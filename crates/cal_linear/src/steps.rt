//! The events for which the entries of a journal stand.

ghost use Rattle.std.specs.Prelude.{◌≡◌, ◌-◌, ◌<◌, ◌≤◌, ◌++◌, ◌∷◌, [], length, IfOk};
ghost use Rattle.cal_kthread.specs.Journal.Entries.{up_to, still_after};
ghost use Rattle.cal_linear.specs.Steps.{events_of};

use cal_kthread::Entry;
use cal_world::Event;
use std::alloc::AllocError;

/// Appends the event for which this entry of a thread's journal stands, where there is one.
fn append_entry(events: &mut Vec<Event>, thread: u8, entry: Entry) -> Result<(), AllocError>
    ensures { IfOk result (λ done. events.new.items ≡
        events.old.items ++ events_of thread (entry ∷ [])) }
{
    match entry {
        Entry::Took(_, _) => events.push(Event::Take(thread))?,
        Entry::Yielded => events.push(Event::Yield(thread))?,
        Entry::Published(_, rec) => events.push(Event::Publish(thread, rec))?,
        _ => {}
    }
    Ok(())
}

/// Appends the events of all these entries.
pub(crate) fn append_all(
    events: &mut Vec<Event>,
    thread: u8,
    entries: &[Entry],
) -> Result<(), AllocError>
    ensures { IfOk result (λ done. events.new.items ≡
        events.old.items ++ events_of thread entries.now) }
{
    for entry in entries {
        append_entry(events, thread, *entry)?;
    }
    Ok(())
}

/// Of some publications those that are still to come after this entry.
fn still_left(entry: Entry, left: u64) -> u64
    requires { 0 < left }
    ensures { result ≡ still_after entry (left - 1) }
{
    match entry {
        Entry::Published(_, _) => left - 1,
        _ => left,
    }
}

/// Appends the events of these entries up to the publication that is so many on, and answers how
/// many entries that are.
pub(crate) fn append_upto(
    events: &mut Vec<Event>,
    thread: u8,
    entries: &[Entry],
    publications: u64,
) -> Result<usize, AllocError>
    ensures appended { IfOk result (λ count. events.new.items ≡
        events.old.items ++ events_of thread (up_to publications entries.now)) }
    ensures count { IfOk result (λ count. count ≡ length (up_to publications entries.now)) }
    ensures within { IfOk result (λ count. count ≤ length entries.now) }
{
    let mut left = publications;
    for (i, entry) in entries.iter().enumerate() {
        if left == 0 {
            return Ok(i);
        }
        append_entry(events, thread, *entry)?;
        left = still_left(*entry, left);
    }
    Ok(entries.len())
}
