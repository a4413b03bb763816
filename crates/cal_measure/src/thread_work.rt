//! What the turns of a kernel thread come to, while its journal grows.

pub mod each;
pub mod ended;
pub mod so_far;
pub mod totals;

ghost use Rattle.std.specs.Prelude.{◌≤◌, ◌++◌, ◌∷◌, [], List, IfOk, OnOk, length};
ghost use Rattle.cal_kthread.specs.Turn.Entries.{entries_of};
ghost use Rattle.cal_kthread.specs.Turn.{noted};
ghost use Rattle.cal_kthread.specs.declared.journal.entry.Entry.{Entry as EntryOf};
ghost use Rattle.cal_kthread.specs.declared.kernel_thread.TheConstants.{MOST_ENTRIES};
ghost use Rattle.cal_measure.specs.ThreadWork.{AreTotalsOf, IsThreadWorkOf};

use crate::thread_work::so_far::TurnsSoFar;
use crate::thread_work::totals::{ThreadTotals, counted};
use crate::turns::{served_after, turn_by};
use crate::work::stolen_by;
use cal_kthread::{Entry, TurnEntries};
use std::alloc::{AllocError, Global};

/// What the turns of a kernel thread so far came to. It takes the entries of its journal, one turn
/// after the other, and keeps none of them: its memory grows with the requests that were served
/// alone.
#[derive(Drop)]
pub struct ThreadWork {
    /// The request that was served since the last publication, if one was.
    pub served: Option<u64>,
    /// How many requests it stole.
    pub thefts: usize,
    /// What its turns came to.
    pub turns: TurnsSoFar,
}

impl ThreadWork {
    /// That of a thread that did nothing yet. Takes no memory.
    pub fn open(alloc: Global) -> ThreadWork
        ensures { IsThreadWorkOf [] result }
    {
        ThreadWork {
            served: None,
            thefts: 0,
            turns: TurnsSoFar::none(alloc),
        }
    }

    /// Takes what one turn more added to the journal. Fails only when out of memory; what is held
    /// then is of no journal. (Inlined, so that of the entries only what is read is made.)
    #[inline(always)]
    pub fn take(&mut self, entries: &TurnEntries) -> Result<(), AllocError>
        ensures { (journal : List EntryOf) → IsThreadWorkOf journal self.old →
            length (journal ++ entries_of entries.now) ≤ MOST_ENTRIES →
            OnOk result (IsThreadWorkOf (journal ++ entries_of entries.now) self.new) }
    {
        self.take_step(entries.arrival())?;
        self.take_step(entries.taking())?;
        self.take_step(entries.theft())?;
        self.take_step(entries.work())?;
        self.take_entry(entries.publication())
    }

    /// What the whole journal came to, in a run with this last clock: the last turn ends then. Fails
    /// only when out of memory.
    pub fn end(self, last: u64) -> Result<ThreadTotals, AllocError>
        ensures { (journal : List EntryOf) → IsThreadWorkOf journal self →
            IfOk result (AreTotalsOf last journal) }
    {
        let ThreadWork { thefts, turns, .. } = self;
        let suspensions = turns.suspensions;
        let ended = turns.end(last)?;
        Ok(ended.totals(thefts, suspensions))
    }

    /// Takes what a step did, if it did something. (Inlined, so that no entry is made of it.)
    #[inline(always)]
    fn take_step(&mut self, entry: Option<Entry>) -> Result<(), AllocError>
        ensures { (journal : List EntryOf) → IsThreadWorkOf journal self.old →
            length (noted journal entry) ≤ MOST_ENTRIES →
            OnOk result (IsThreadWorkOf (noted journal entry) self.new) }
    {
        match entry {
            None => Ok(()),
            Some(entry) => self.take_entry(entry),
        }
    }

    /// Takes one entry more.
    #[inline(always)]
    fn take_entry(&mut self, entry: Entry) -> Result<(), AllocError>
        ensures { (journal : List EntryOf) → IsThreadWorkOf journal self.old →
            length (journal ++ entry ∷ []) ≤ MOST_ENTRIES →
            OnOk result (IsThreadWorkOf (journal ++ entry ∷ []) self.new) }
    {
        self.turns.take(turn_by(self.served, entry))?;
        self.thefts = counted(self.thefts, stolen_by(entry));
        self.served = served_after(self.served, entry);
        Ok(())
    }
}
