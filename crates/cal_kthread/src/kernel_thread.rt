//! A kernel thread that keeps its journal, and its turns.
ghost use Rattle.std.specs.Prelude.{◌≡◌, ◌+◌, ◌<◌, ◌≤◌, ◌↔◌, [], Err, IfOk, IfSome};
ghost use Rattle.std.specs.Prelude.{MatchResult};
ghost use Rattle.std.specs.Vec.{vec_len, vec_capacity};
ghost use Rattle.cal_kthread.specs.declared.fault.TurnFault.TheVariants.{JournalFull};
ghost use Rattle.cal_kthread.specs.Journal.{IsJournal, records_of, commands_of};
ghost use Rattle.cal_kthread.specs.Team.{place_of};
ghost use Rattle.cal_kthread.specs.Turn.{Answers, AreAnswers, IsFull, noted, turned};
ghost use Rattle.cal_kthread.specs.Turn.Turns.{IsOneTurn};
ghost use Rattle.cal_signal.specs.Pages.{last_published};

use crate::bare_thread::BareThread;
use crate::fault::TurnFault;
use crate::journal::Journal;
use crate::journal::entry::Entry;
use cal_machine::Request;
use std::alloc::Global;
use std::marker::Model;

/// The most entries of a journal.
pub const MOST_ENTRIES: usize = 1_048_576;

/// How many entries must fit before a turn begins: one of each kind. A turn adds at most five,
/// since none both serves a request and gives up its core; so one place is spare.
pub const TURN_ENTRIES: usize = 6;

/// A kernel thread. It may be moved to a thread of its own; no call of it waits.
///
/// A contract sees its number, its journal, the ends of its page, its ring and the queues of its
/// task, and what it is at.
#[derive(Drop)]
pub struct KernelThread {
    /// The thread.
    pub(crate) bare: BareThread,
    /// What it did, in order: a vector, since a `Journal` does not grow. `end` makes one of it.
    pub(crate) journal: Vec<Entry>,
}

impl Model for KernelThread {
    ghost use Rattle.std.specs.Prelude.{◌≡◌, ◌≤◌, length};
    ghost use Rattle.cal_kthread.specs.Turn.Thread.{KernelView};
    ghost use Rattle.cal_kthread.specs.declared.kernel_thread.TheConstants.{MOST_ENTRIES};

    ghost Value = { KernelView };

    ghost view = { λ k. k.bare };

    ghost invariant = { λ k. (k.journal.items ≡ k.bare.journal)
        × (length k.journal.items ≤ MOST_ENTRIES) };
}

impl KernelThread {
    /// A thread that did nothing yet, with a journal.
    pub(crate) fn new(alloc: Global, bare: BareThread) -> KernelThread
        requires { bare.journal ≡ [] }
        ensures { result ≡ bare }
    {
        KernelThread {
            bare,
            journal: Vec::new(alloc),
        }
    }

    /// One turn: a request arrives, a command is taken, the current request is worked on, the front
    /// is filled, and a record is published; what was done goes into the journal. `now` is in clock
    /// ticks. Waits for nobody.
    ///
    /// `JournalFull` where fewer than 6 of the journal's 1,048,576 places are left, which is
    /// checked first; `Memory` where room for 6 entries or for the request was refused. Then
    /// nothing has changed. Beyond that room a turn takes no memory. (That a thread which finds no
    /// work first tries to steal and then gives up its core is Caladan's; the steps are
    /// Doranjei's.)
    pub fn turn(&mut self, now: u64, request: Option<Request>) -> Result<(), TurnFault>
        requires started { 1 ≤ now }
        requires later { (last_published self.old.thread.publisher.published).stamp ≤ now }
        requires work { IfSome request (λ arriving. 1 ≤ arriving.work) }
        ensures turned { MatchResult result
            (λ _. (answers : Answers) × AreAnswers answers self.old
            × (self.new ≡ turned now request answers self.old))
            (λ _. self.new ≡ self.old) }
        ensures full { (result ≡ Err JournalFull) ↔ IsFull self.old.journal }
        ensures added { IfOk result (λ _. IsOneTurn now request self.old.journal self.new.journal) }
        ensures number { self.new.number ≡ self.old.number }
        ensures ends { (self.new.thread.publisher.page ≡ self.old.thread.publisher.page)
            × (self.new.thread.taker.ring ≡ self.old.thread.taker.ring) }
        ensures place { place_of self.new.thread ≡ place_of self.old.thread }
        ensures stamped { IfOk result (λ _.
            (last_published self.new.thread.publisher.published).stamp ≡ now) }
        ensures journal { IsJournal self.new.journal }
        ensures page { records_of self.new.journal ≡ self.new.thread.publisher.published }
        ensures ring { commands_of self.new.journal ≡ self.new.thread.taker.taken }
    {
        self.bare.agrees();
        if self.journal.len() > MOST_ENTRIES - TURN_ENTRIES {
            return Err(TurnFault::JournalFull);
        }
        self.journal.reserve(TURN_ENTRIES)?;
        let entries = self.bare.turn(now, request)?;
        note(&mut self.journal, entries.arrival());
        note(&mut self.journal, entries.taking());
        note(&mut self.journal, entries.theft());
        note(&mut self.journal, entries.work());
        note(&mut self.journal, Some(entries.publication()));
        Ok(())
    }

    /// The clock of its last turn, in ticks, or 0 before the first: no turn may have a lower one.
    pub fn clock(&self) -> u64
        ensures { result ≡ (last_published self.now.thread.publisher.published).stamp }
    {
        self.bare.clock()
    }

    /// What it did so far, in order.
    pub fn journal(&self) -> &[Entry]
        ensures journal { result.now ≡ self.now.journal }
        ensures is_journal { IsJournal self.now.journal }
    {
        self.bare.agrees();
        self.journal.as_slice()
    }

    /// The same thread without its journal, and its journal. Takes no memory.
    pub fn into_parts(self) -> (BareThread, Journal)
        ensures thread { result.0 ≡ self }
        ensures journal { result.1 ≡ self.journal }
    {
        let KernelThread { bare, journal } = self;
        (bare, Journal::new(journal))
    }
}

/// Puts what a step did into the journal, which has room for it.
fn note(journal: &mut Vec<Entry>, entry: Option<Entry>)
    requires { vec_len journal.old < vec_capacity journal.old }
    ensures items { journal.new.items ≡ noted journal.old.items entry }
    ensures len { vec_len journal.new ≤ vec_len journal.old + 1 }
    ensures capacity { vec_capacity journal.new ≡ vec_capacity journal.old }
{
    match entry {
        Some(entry) => journal.push_reserved(entry),
        None => {}
    }
}
