//! What a kernel thread did, counted.

ghost use Rattle.std.specs.Prelude.{◌<◌, ◌+◌, ◌^◌, ◌++◌, ◌∷◌, [], List, length};
ghost use Rattle.cal_kthread.specs.Turn.Entries.{entries_of};
ghost use Rattle.cal_kthread.specs.Turn.{noted};
ghost use Rattle.cal_kthread.specs.declared.journal.entry.Entry.{Entry as EntryOf};
ghost use Rattle.cal_trace.specs.Report.Summary.{IsTallyOf};

use cal_kthread::{Entry, TurnEntries};

/// How many entries of a journal tell of a command taken, of a record published, and of a request
/// served.
#[derive(Clone, Copy, Debug, PartialEq, Eq)]
pub struct Tally {
    /// Commands taken.
    pub taken: usize,
    /// Records published.
    pub published: usize,
    /// Requests served.
    pub served: usize,
}

impl Tally {
    /// Nothing so far.
    pub const NONE: Tally = Tally {
        taken: 0,
        published: 0,
        served: 0,
    };

    /// The tally of a journal.
    pub fn of(journal: &[Entry]) -> Tally
        ensures { IsTallyOf journal.now result }
    {
        let mut tally = Tally::NONE;
        for entry in journal {
            tally.note(*entry);
        }
        tally
    }

    /// Counts what one turn more did, as the turn handed it out.
    pub fn add_turn(&mut self, entries: &TurnEntries)
        ensures { (journal : List EntryOf) → length journal + 5 < 2 ^ 64 →
            IsTallyOf journal self.old → IsTallyOf (journal ++ entries_of entries.now) self.new }
    {
        self.note_step(entries.arrival());
        self.note_step(entries.taking());
        self.note_step(entries.theft());
        self.note_step(entries.work());
        self.note(entries.publication());
    }

    /// Counts what a step did, if it did something.
    fn note_step(&mut self, entry: Option<Entry>)
        ensures { (journal : List EntryOf) → length journal + 1 < 2 ^ 64 →
            IsTallyOf journal self.old → IsTallyOf (noted journal entry) self.new }
    {
        if let Some(entry) = entry {
            self.note(entry);
        }
    }

    /// Counts one entry more.
    fn note(&mut self, entry: Entry)
        ensures { (journal : List EntryOf) → length journal + 1 < 2 ^ 64 →
            IsTallyOf journal self.old → IsTallyOf (journal ++ entry ∷ []) self.new }
    {
        match entry {
            Entry::Took(..) => self.taken = self.taken.saturating_add(1),
            Entry::Published(..) => self.published = self.published.saturating_add(1),
            Entry::Served { .. } => self.served = self.served.saturating_add(1),
            _ => {}
        }
    }
}
