//! A journal that is being kept.

ghost use Rattle.std.specs.Prelude.{◌≡◌, ◌++◌, [], OnOk};
ghost use Rattle.cal_kthread.specs.Turn.Entries.{entries_of};
ghost use Rattle.cal_kthread.specs.Turn.{noted};

use cal_kthread::{Entry, Journal, TurnEntries};
use std::alloc::{AllocError, Global};
use std::marker::Model;

/// A journal that is being kept. A contract sees its entries.
#[derive(Drop)]
pub struct OpenJournal {
    entries: Vec<Entry>,
}

impl Model for OpenJournal {
    ghost use Rattle.std.specs.Prelude.{List};
    ghost use Rattle.cal_kthread.specs.declared.journal.entry.Entry.{Entry as EntryOf};

    ghost Value = { List EntryOf };

    ghost view = { λ journal. journal.entries.items };
}

impl OpenJournal {
    /// The journal of a thread that did nothing yet. Takes no memory.
    pub fn new(alloc: Global) -> OpenJournal
        ensures { result ≡ [] }
    {
        OpenJournal {
            entries: Vec::new(alloc),
        }
    }

    /// Adds what a turn handed out.
    pub fn add_turn(&mut self, entries: &TurnEntries) -> Result<(), AllocError>
        ensures { OnOk result (self.new ≡ self.old ++ entries_of entries.now) }
    {
        self.add_step(entries.arrival())?;
        self.add_step(entries.taking())?;
        self.add_step(entries.theft())?;
        self.add_step(entries.work())?;
        self.entries.push(entries.publication())?;
        Ok(())
    }

    /// Adds what a step did, if it did something.
    fn add_step(&mut self, entry: Option<Entry>) -> Result<(), AllocError>
        ensures { OnOk result (self.new ≡ noted self.old entry) }
    {
        if let Some(entry) = entry {
            self.entries.push(entry)?;
        }
        Ok(())
    }

    /// The journal, to which nothing comes any more. Takes no memory.
    pub fn close(self) -> Journal
        ensures { result ≡ self }
    {
        Journal::new(self.entries)
    }
}
