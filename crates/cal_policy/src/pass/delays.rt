//! How long requests have waited, as the kept records show it.

ghost use Rattle.std.specs.Prelude.{◌≡◌, ◌<◌, length};
ghost use Rattle.cal_machine.specs.declared.numbering.TheConstants.{MOST_THREADS};
ghost use Rattle.cal_policy.specs.State.{IsOfTable};
ghost use Rattle.cal_policy.specs.Pass.AtHand.{Within};
ghost use Rattle.cal_policy.specs.Pass.Grants as grants;

use crate::board::Board;
use crate::pass::Pass;
use cal_signal::Record;

/// How long something that came at `came` has waited, where there is something; in clock ticks as
/// given. What came after the clock has not waited.
fn waited(clock: u64, there: bool, came: u64) -> u64
    ensures { result ≡ grants.waited clock there came }
{
    if there && came < clock {
        clock - came
    } else {
        0
    }
}

/// The delay that a record shows by this clock: that of its oldest queued request or of its
/// suspended one, the greater.
pub fn record_delay(clock: u64, rec: &Record) -> u64
    ensures { result ≡ grants.record_delay clock rec.now }
{
    let queued = waited(clock, rec.queued > 0, rec.oldest);
    let paused = waited(clock, rec.paused > 0, rec.since);
    queued.max(paused)
}

impl Pass<'_> {
    /// The delay of a thread, by its kept record.
    pub fn thread_delay(&self, board: &Board, thread: usize) -> u64
        requires at_hand { IsOfTable self.now.config.now board.now }
        requires thread { thread < MOST_THREADS }
        ensures { Within self.now board.now (λ s acts. result ≡ grants.thread_delay s thread) }
    {
        record_delay(self.terms.now, &board.keeping.kept[thread])
    }

    /// The delay of a task: the greatest of its threads'. Only those that wait are visited.
    pub fn task_delay(&self, board: &Board, task: usize) -> u64
        requires at_hand { IsOfTable self.now.config.now board.now }
        requires task { task < length self.now.config.now.tasks }
        ensures { Within self.now board.now (λ s acts. result ≡ grants.task_delay s task) }
    {
        let (first, count) = self.config.threads_of(task);
        let mut greatest: u64 = 0;
        let mut next = first;
        while let Some(k) = board.keeping.waiting.next(next, first + count) {
            let delay = self.thread_delay(board, k);
            greatest = greatest.max(delay);
            next = k + 1;
        }
        greatest
    }

    /// Whether the task's delay is strictly above its threshold.
    pub fn is_congested(&self, board: &Board, task: usize) -> bool
        requires at_hand { IsOfTable self.now.config.now board.now }
        requires task { task < length self.now.config.now.tasks }
        ensures { Within self.now board.now (λ s acts. result ≡ grants.is_congested s task) }
    {
        self.task_delay(board, task) > self.config.task(task).delay
    }
}
