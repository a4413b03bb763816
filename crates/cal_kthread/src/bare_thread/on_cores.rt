//! Turns of a thread that works on some cores only.
ghost use Rattle.std.specs.Prelude.{◌≡◌, ◌<◌, ◌≤◌, ◌++◌, length, IfOk, IfSome, MatchResult};
ghost use Rattle.cal_machine.specs.CoreSet.{has};
ghost use Rattle.cal_kthread.specs.Journal.{IsJournal, records_of, commands_of};
ghost use Rattle.cal_kthread.specs.Team.{place_of};
ghost use Rattle.cal_kthread.specs.Turn.Entries.{entries_of, work};
ghost use Rattle.cal_kthread.specs.Turn.OnCores.{turned_on, work_in_turn};
ghost use Rattle.cal_kthread.specs.Turn.Turns.{IsOneTurn};
ghost use Rattle.cal_kthread.specs.Turn.{Answers, AreAnswers};
ghost use Rattle.cal_signal.specs.Pages.{last_published};
ghost use Rattle.cal_signal.specs.Records.{IsShaped};
ghost use Rattle.cal_signal.specs.declared.publisher.TheConstants.{LAST_PLACE};

use crate::bare_thread::BareThread;
use crate::turn::entries::{TurnEntries, note_turn};
use cal_machine::{CoreSet, Request};
use std::alloc::AllocError;

impl BareThread {
    /// One turn, as `turn`, of a thread that works on these cores only: where it is on another one
    /// after its command is taken, no work is found and none done, and all else is as in `turn`. So
    /// with all cores it is `turn`, and with none a turn without work.
    ///
    /// Asks for the same, and fails where `turn` does. (Inlined, as `turn` is.)
    #[inline(always)]
    pub fn turn_on(
        &mut self,
        now: u64,
        request: Option<Request>,
        works: CoreSet,
    ) -> Result<TurnEntries, AllocError>
        requires started { 1 ≤ now }
        requires later { (last_published self.old.thread.publisher.published).stamp ≤ now }
        requires work { IfSome request (λ arriving. 1 ≤ arriving.work) }
        requires room { length (records_of self.old.journal) < LAST_PLACE }
        ensures turned { MatchResult result
            (λ entries. (answers : Answers) × AreAnswers answers self.old
            × (self.new ≡ turned_on (has works) now request answers self.old)
            × (work entries ≡ work_in_turn (has works) now request answers self.old))
            (λ _. self.new ≡ self.old) }
        ensures shows { IfOk result (λ entries. entries.published.shown
            ≡ last_published self.new.thread.publisher.published) }
        ensures shaped { IfOk result (λ entries. IsShaped entries.published.shown) }
        ensures handed { IfOk result (λ entries.
            self.new.journal ≡ self.old.journal ++ entries_of entries) }
        ensures added { IfOk result (λ _. IsOneTurn now request self.old.journal self.new.journal) }
        ensures number { self.new.number ≡ self.old.number }
        ensures ends { (self.new.thread.publisher.page ≡ self.old.thread.publisher.page)
            × (self.new.thread.taker.ring ≡ self.old.thread.taker.ring) }
        ensures place { place_of self.new.thread ≡ place_of self.old.thread }
        ensures stamped { IfOk result (λ _.
            (last_published self.new.thread.publisher.published).stamp ≡ now) }
        ensures journal { IsJournal self.new.journal }
        ensures page { records_of self.new.journal ≡ self.new.thread.publisher.published }
        ensures ring { commands_of self.new.journal ≡ self.new.thread.taker.taken }
    {
        let arrived = self.thread.arrive(now, request)?;
        let took = self.thread.take(now);
        let does = self.thread.does_work(works);
        let stole = self.thread.provide_if(does, now);
        let worked = self.thread.work_if(does);
        self.thread.fill_front();
        let published = self.thread.publish(now);
        let entries = TurnEntries {
            arrived,
            took,
            stole,
            worked,
            published,
        };
        note_turn(&mut self.past, &entries);
        Ok(entries)
    }
}
