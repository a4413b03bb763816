//! Threads that are late, and cores that are on their way to a task.

ghost use Rattle.std.specs.Prelude.{◌≡◌, ◌==◌, ℕ, ◌+◌, ◌<◌, ◌≤◌, nat_lt, true, List, length};
ghost use Rattle.std.specs.Prelude.{if◌then◌else◌};
ghost use Rattle.cal_machine.specs.declared.numbering.TheConstants.{MOST_THREADS};
ghost use Rattle.cal_machine.specs.TableTasks.{threads_of_table};
ghost use Rattle.cal_policy.specs.Assured.InFlight as rules;
ghost use Rattle.cal_policy.specs.Board.{kept_number};
ghost use Rattle.cal_policy.specs.Board.Counts.{cores_of_thread};
ghost use Rattle.cal_policy.specs.History.{holder_of, sent_to};
ghost use Rattle.cal_policy.specs.Pass.AtHand.{Within};
ghost use Rattle.cal_policy.specs.Setting.{so_far, kept_now};
ghost use Rattle.cal_policy.specs.State.{IsOfTable, Agrees};
ghost use Rattle.cal_policy.specs.declared.history.action.Action.{Action};

use crate::board::Board;
use crate::board::core_sets::next_core;
use crate::board::holders::Holder;
use crate::board::survey::survey_of;
use crate::pass::Pass;
use cal_signal::Record;

/// Whether a record has not taken this Run.
fn is_run_untaken(rec: Record, number: u128) -> bool
    ensures { (n : ℕ) → number ≡ kept_number n → result ≡ nat_lt rec.taken n }
{
    u128::from(rec.taken) < number
}

/// Whether a record has taken so many commands.
fn has_taken(rec: Record, sent: u128) -> bool
    ensures { (n : ℕ) → sent ≡ kept_number n → result ≡ true → n ≤ rec.taken }
{
    sent <= u128::from(rec.taken)
}

/// One more, where it passes.
pub fn count_if(count: usize, passes: bool) -> usize
    requires { count < 65536 }
    ensures count { result ≡ count + (if passes then 1 else 0) }
    ensures few { result ≤ count + 1 }
{
    if passes { count + 1 } else { count }
}

impl Pass<'_> {
    /// Whether the thread holds the core by a Run that its kept record has not taken.
    fn is_untaken_on(&self, board: &Board, thread: usize, core: u8) -> bool
        requires at_hand { IsOfTable self.now.config.now board.now }
        requires thread { thread < MOST_THREADS }
        requires core { core < self.now.config.now.cores }
        ensures { Within self.now board.now (λ s acts. result
            ≡ rules.is_untaken (kept_now s thread) thread (holder_of (so_far s acts) core)) }
    {
        match board.holding.holders[core as usize] {
            Holder::Held(placement) => {
                placement.thread as usize == thread
                    && is_run_untaken(board.keeping.kept[thread], placement.number)
            }
            Holder::Free | Holder::Leaving(..) => false,
        }
    }

    /// Whether a thread holds and leaves no core.
    fn has_no_core(&self, board: &Board, thread: usize) -> bool
        requires at_hand { IsOfTable self.now.config.now board.now }
        requires thread { thread < MOST_THREADS }
        ensures { (x : List Action) → Agrees board.now x →
            result ≡ (cores_of_thread self.now.config.now x thread == 0) }
    {
        survey_of(self.config, board).placed[thread] == 0
    }

    /// Whether the kept record of a thread has taken all that was sent to it.
    fn has_taken_all(&self, board: &Board, thread: usize) -> bool
        requires at_hand { IsOfTable self.now.config.now board.now }
        requires thread { thread < MOST_THREADS }
        ensures { result ≡ true → Within self.now board.now (λ s acts.
            sent_to (so_far s acts) thread ≤ (kept_now s thread).taken) }
    {
        has_taken(board.keeping.kept[thread], board.holding.sent[thread])
    }

    /// Whether a thread is in flight: it holds a core by a Run that its kept record has not taken.
    /// The cores that its task had last are gone over, and only where it has one, and has not taken
    /// all that was sent to it.
    pub fn is_in_flight(&self, board: &Board, thread: usize) -> bool
        requires at_hand { IsOfTable self.now.config.now board.now }
        requires thread { thread < threads_of_table self.now.config.now }
        ensures { Within self.now board.now (λ s acts. result
            ≡ rules.is_in_flight s (so_far s acts) thread) }
    {
        self.config.limits();
        if self.has_no_core(board, thread) {
            return false;
        }
        if self.has_taken_all(board, thread) {
            return false;
        }
        let task = self.config.task_of(thread);
        let had = board.recent.of(task);
        let mut first = 0;
        while let Some(core) = next_core(self.config, &had, first) {
            if self.is_untaken_on(board, thread, core) {
                return true;
            }
            first = core + 1;
        }
        false
    }

    /// Whether a thread is late: its delay is strictly above its task's threshold.
    pub fn is_late(&self, board: &Board, thread: usize) -> bool
        requires at_hand { IsOfTable self.now.config.now board.now }
        requires thread { thread < threads_of_table self.now.config.now }
        ensures { Within self.now board.now (λ s acts. result ≡ rules.is_late s thread) }
    {
        self.config.limits();
        let task = self.config.task_of(thread);
        self.thread_delay(board, thread) > self.config.task(task).delay
    }

    /// Whether a thread is late and not in flight.
    fn presses(&self, board: &Board, thread: usize) -> bool
        requires at_hand { IsOfTable self.now.config.now board.now }
        requires thread { thread < threads_of_table self.now.config.now }
        ensures { Within self.now board.now (λ s acts. result
            ≡ rules.presses s (so_far s acts) thread) }
    {
        self.config.limits();
        self.is_late(board, thread) && !self.is_in_flight(board, thread)
    }

    /// Whether a thread is in flight and not late.
    fn helps(&self, board: &Board, thread: usize) -> bool
        requires at_hand { IsOfTable self.now.config.now board.now }
        requires thread { thread < threads_of_table self.now.config.now }
        ensures { Within self.now board.now (λ s acts. result
            ≡ rules.helps s (so_far s acts) thread) }
    {
        self.config.limits();
        self.is_in_flight(board, thread) && !self.is_late(board, thread)
    }

    /// How many threads of a task are late and not in flight. Only those that wait are visited.
    pub fn pressing(&self, board: &Board, task: usize) -> usize
        requires at_hand { IsOfTable self.now.config.now board.now }
        requires task { task < length self.now.config.now.tasks }
        ensures { Within self.now board.now (λ s acts. result
            ≡ rules.pressing s (so_far s acts) task) }
    {
        let (first, count) = self.config.threads_of(task);
        let mut pressing = 0;
        let mut next = first;
        while let Some(k) = board.keeping.waiting.next(next, first + count) {
            pressing = count_if(pressing, self.presses(board, k));
            next = k + 1;
        }
        pressing
    }

    /// How many threads of a task are in flight and not late.
    pub fn helpers(&self, board: &Board, task: usize) -> usize
        requires at_hand { IsOfTable self.now.config.now board.now }
        requires task { task < length self.now.config.now.tasks }
        ensures count { Within self.now board.now (λ s acts. result
            ≡ rules.helpers s (so_far s acts) task) }
        ensures few { result ≤ MOST_THREADS }
    {
        let (first, count) = self.config.threads_of(task);
        let mut helpers = 0;
        for j in 0..count {
            helpers = count_if(helpers, self.helps(board, first + j));
        }
        helpers
    }

    /// Whether a thread is in flight since this pass: the core that it holds by an untaken Run was
    /// granted in this pass. Only the cores that were are gone over.
    fn is_new_in_flight(&self, board: &Board, thread: usize) -> bool
        requires at_hand { IsOfTable self.now.config.now board.now }
        requires thread { thread < threads_of_table self.now.config.now }
        ensures { Within self.now board.now (λ s acts. result
            ≡ rules.is_new_in_flight s (so_far s acts) thread) }
    {
        self.config.limits();
        let mut first = 0;
        while let Some(core) = next_core(self.config, &board.fresh, first) {
            if self.is_untaken_on(board, thread, core) {
                return true;
            }
            first = core + 1;
        }
        false
    }

    /// Whether a thread is in flight since this pass and not late.
    fn helps_newly(&self, board: &Board, thread: usize) -> bool
        requires at_hand { IsOfTable self.now.config.now board.now }
        requires thread { thread < threads_of_table self.now.config.now }
        ensures { Within self.now board.now (λ s acts. result
            ≡ rules.helps_newly s (so_far s acts) thread) }
    {
        self.config.limits();
        self.is_new_in_flight(board, thread) && !self.is_late(board, thread)
    }

    /// How many helpers of a task were granted their cores in this pass.
    pub fn new_helpers(&self, board: &Board, task: usize) -> usize
        requires at_hand { IsOfTable self.now.config.now board.now }
        requires task { task < length self.now.config.now.tasks }
        ensures count { Within self.now board.now (λ s acts. result
            ≡ rules.new_helpers s (so_far s acts) task) }
        ensures few { result ≤ MOST_THREADS }
    {
        let Some(_) = next_core(self.config, &board.fresh, 0) else {
            return 0;
        };
        let (first, count) = self.config.threads_of(task);
        let mut helpers = 0;
        for j in 0..count {
            helpers = count_if(helpers, self.helps_newly(board, first + j));
        }
        helpers
    }

    /// How many cores are being left for a task.
    pub fn coming(&self, board: &Board, task: usize) -> usize
        requires at_hand { IsOfTable self.now.config.now board.now }
        requires task { task < length self.now.config.now.tasks }
        ensures count { Within self.now board.now (λ s acts. result
            ≡ rules.coming s (so_far s acts) task) }
        ensures few { result ≤ 255 }
    {
        self.config.limits();
        survey_of(self.config, board).awaited[task] as usize
    }
}
