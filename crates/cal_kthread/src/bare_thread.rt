//! A kernel thread that keeps no journal, and its turns.

mod on_cores;

ghost use Rattle.std.specs.Prelude.{◌≡◌, ◌<◌, ◌≤◌, ◌++◌, length, IfOk, IfSome, MatchResult};
ghost use Rattle.cal_kthread.specs.Journal.{IsJournal, records_of, commands_of};
ghost use Rattle.cal_kthread.specs.Team.{place_of};
ghost use Rattle.cal_kthread.specs.Turn.OnCores.{would_bring};
ghost use Rattle.cal_kthread.specs.Turn.{Answers, AreAnswers, turned};
ghost use Rattle.cal_kthread.specs.Turn.Entries.{entries_of};
ghost use Rattle.cal_kthread.specs.Turn.Turns.{IsOneTurn};
ghost use Rattle.cal_signal.specs.Pages.{last_published};
ghost use Rattle.cal_signal.specs.Records.{IsShaped};
ghost use Rattle.cal_signal.specs.declared.publisher.TheConstants.{LAST_PLACE};

use crate::journal::entry::Entry;
use crate::turn::entries::{TurnEntries, note_turn};
use crate::turn::steps::misses_of;
use crate::turn::thread::Thread;
use cal_machine::{Past, Request};
use cal_signal::Record;
use std::alloc::AllocError;
use std::marker::Model;

/// A kernel thread that hands what each turn adds to its journal to its caller and keeps none of
/// it, so that its memory does not grow with its turns. It may be moved to a thread of its own; no
/// call of it waits.
///
/// A contract sees the same as of a `KernelThread`: its number, its journal, the ends of its page,
/// its ring and the queues of its task, and what it is at. Its journal are the entries that its
/// turns gave, in order, whatever became of them.
#[derive(Drop)]
pub struct BareThread {
    /// Its number, in thread order from 0.
    pub(crate) number: u8,
    /// What it did, in order.
    pub(crate) past: Past<Entry>,
    /// All else: its ends of page, ring and queues, and what it is at.
    pub(crate) thread: Thread,
}

impl Model for BareThread {
    ghost use Rattle.cal_kthread.specs.Turn.Thread.{KernelView};
    ghost use Rattle.cal_kthread.specs.Turn.Agreement.{IsJournalOf};

    ghost Value = { KernelView };

    ghost view = { λ k. record {
      number = k.number;
      journal = k.past;
      thread = k.thread;
    } };

    ghost invariant = { λ k. IsJournalOf k.past k.thread };
}

impl BareThread {
    /// One turn, as of a `KernelThread`: a request arrives, a command is taken, the current request
    /// is worked on, the front is filled, and a record is published. Gives what each step did, for
    /// which the entries stand that this adds to its journal. `now` is in clock ticks. Waits for
    /// nobody.
    ///
    /// Asks for a place that is left on its page, which has 2^62 - 1. Fails only where room for the
    /// request was refused; then nothing has changed. Beyond that room a turn takes no memory.
    /// (Inlined, so that what a caller does not read of the answer is not made.)
    #[inline(always)]
    pub fn turn(&mut self, now: u64, request: Option<Request>) -> Result<TurnEntries, AllocError>
        requires started { 1 ≤ now }
        requires later { (last_published self.old.thread.publisher.published).stamp ≤ now }
        requires work { IfSome request (λ arriving. 1 ≤ arriving.work) }
        requires room { length (records_of self.old.journal) < LAST_PLACE }
        ensures turned { MatchResult result
            (λ _. (answers : Answers) × AreAnswers answers self.old
            × (self.new ≡ turned now request answers self.old))
            (λ _. self.new ≡ self.old) }
        ensures handed { IfOk result (λ entries.
            self.new.journal ≡ self.old.journal ++ entries_of entries) }
        ensures added { IfOk result (λ _. IsOneTurn now request self.old.journal self.new.journal) }
        ensures number { self.new.number ≡ self.old.number }
        ensures ends { (self.new.thread.publisher.page ≡ self.old.thread.publisher.page)
            × (self.new.thread.taker.ring ≡ self.old.thread.taker.ring) }
        ensures place { place_of self.new.thread ≡ place_of self.old.thread }
        ensures stamped { IfOk result (λ _.
            (last_published self.new.thread.publisher.published).stamp ≡ now) }
        ensures journal { IsJournal self.new.journal }
        ensures page { records_of self.new.journal ≡ self.new.thread.publisher.published }
        ensures ring { commands_of self.new.journal ≡ self.new.thread.taker.taken }
    {
        let arrived = self.thread.arrive(now, request)?;
        let took = self.thread.take(now);
        let stole = self.thread.provide(now);
        let worked = self.thread.work();
        self.thread.fill_front();
        let published = self.thread.publish(now);
        let entries = TurnEntries {
            arrived,
            took,
            stole,
            worked,
            published,
        };
        note_turn(&mut self.past, &entries);
        Ok(entries)
    }

    /// The record that it published last, the zero record before its first turn.
    pub fn last_record(&self) -> Record
        ensures last { result ≡ last_published self.now.thread.publisher.published }
        ensures shaped { IsShaped result }
    {
        self.agrees();
        self.shown()
    }

    /// The last record. `last_record` also says that it is shaped.
    fn shown(&self) -> Record
        ensures { result ≡ last_published self.now.thread.publisher.published }
    {
        let (_, last) = self.thread.publisher.last();
        last
    }

    /// The misses that a turn's work costs of the request that it serves on its core: 0 off a core,
    /// and where it serves none.
    pub fn would_bring(&self) -> u64
        ensures { result ≡ would_bring self.now.thread }
    {
        misses_of(self.thread.core, self.thread.current)
    }

    /// The clock of its last turn, in ticks, or 0 before the first: no turn may have a lower one.
    pub fn clock(&self) -> u64
        ensures { result ≡ (last_published self.now.thread.publisher.published).stamp }
    {
        let (_, last) = self.thread.publisher.last();
        last.stamp
    }

    /// What it did is a journal, whose records and commands are those of its page and its ring.
    pub(crate) fn agrees(&self)
        ensures journal { IsJournal self.now.journal }
        ensures page { records_of self.now.journal ≡ self.now.thread.publisher.published }
        ensures ring { commands_of self.now.journal ≡ self.now.thread.taker.taken }
    {
        let _ = &self.number;
    }
}
