//! What a turn hands out.

ghost use Rattle.std.specs.Prelude.{◌≡◌, Some};
ghost use Rattle.cal_kthread.specs.Turn.{noted};
ghost use Rattle.cal_kthread.specs.Turn.Entries.{arrival, taking, theft, work, publication};

use crate::journal::entry::Entry;
use crate::turn::done::{Publication, Taken, Theft, Worked};
use cal_machine::{Past, Request};

/// What a turn did, step by step. It stands for the entries that the turn adds to a journal: five at
/// most, since none both serves a request and gives up its core. A journal makes its entries of
/// it, one by one (`arrival`, `taking`, `theft`, `work`, `publication`).
#[derive(Clone, Copy, Debug, PartialEq, Eq)]
pub struct TurnEntries {
    /// The request that arrived, if one came.
    pub arrived: Option<Request>,
    /// The command that was taken, if there was one.
    pub took: Option<Taken>,
    /// What was stolen, if the thread had no request of its own and a steal gave one.
    pub stole: Option<Theft>,
    /// That a request was served, or the core given up.
    pub worked: Option<Worked>,
    /// The record that was published.
    pub published: Publication,
}

impl TurnEntries {
    /// The entry of the request that arrived, if one came.
    pub fn arrival(&self) -> Option<Entry>
        ensures { result ≡ arrival self.now }
    {
        match self.arrived {
            Some(request) => Some(Entry::Arrived(request)),
            None => None,
        }
    }

    /// The entry of the command that was taken, if there was one.
    pub fn taking(&self) -> Option<Entry>
        ensures { result ≡ taking self.now }
    {
        match self.took {
            Some(taken) => Some(Entry::Took(taken.number, taken.command)),
            None => None,
        }
    }

    /// The entry of what was stolen, if something was.
    pub fn theft(&self) -> Option<Entry>
        ensures { result ≡ theft self.now }
    {
        match self.stole {
            Some(Theft { from, id }) => Some(Entry::Stole { from, id }),
            None => None,
        }
    }

    /// The entry of a request that was served or of a core that was given up, if one of them was.
    pub fn work(&self) -> Option<Entry>
        ensures { result ≡ work self.now }
    {
        match self.worked {
            Some(Worked::Served { id }) => Some(Entry::Served { id }),
            Some(Worked::Yielded) => Some(Entry::Yielded),
            None => None,
        }
    }

    /// The entry of the record that was published.
    pub fn publication(&self) -> Entry
        ensures { result ≡ publication self.now }
    {
        Entry::Published(self.published.place, self.published.shown)
    }
}

/// Adds what a turn did to what was done before.
pub(crate) fn note_turn(past: &mut Past<Entry>, entries: &TurnEntries)
    ensures { past.new ≡ noted (noted (noted (noted (noted past.old (arrival entries.now))
        (taking entries.now)) (theft entries.now)) (work entries.now))
        (Some (publication entries.now)) }
{
    note_step(past, entries.arrival());
    note_step(past, entries.taking());
    note_step(past, entries.theft());
    note_step(past, entries.work());
    past.note(&entries.publication());
}

/// Adds what a step did, if it did something.
fn note_step(past: &mut Past<Entry>, entry: Option<Entry>)
    ensures { past.new ≡ noted past.old entry }
{
    if let Some(entry) = entry {
        past.note(&entry);
    }
}
