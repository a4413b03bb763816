//! How tasks and threads stand at a turn of a pass.

ghost use Rattle.std.specs.Prelude.{◌≡◌, ◌<◌, ◌==◌, not, length};
ghost use Rattle.std.specs.Option.{IfSome};
ghost use Rattle.cal_machine.specs.TableTasks.{threads_of_table, limit_of};
ghost use Rattle.cal_policy.specs.Board.Counts.{cores_of_thread};
ghost use Rattle.cal_policy.specs.Explain.Asked.{IsTaskState, IsThreadState};
ghost use Rattle.cal_policy.specs.Explain.Walks.{IsWalk, Walks, setting_of, actions_so_far};
ghost use Rattle.cal_policy.specs.State.{IsOfTable};
ghost use Rattle.cal_policy.specs.Pass.AtHand.{Within};
ghost use Rattle.cal_policy.specs.Pass.Bandwidth as bandwidth;
ghost use Rattle.cal_policy.specs.Pass.Grants as grants;
ghost use Rattle.cal_policy.specs.Setting.{Begun, so_far};

use crate::board::Board;
use crate::board::counts::{booked_by, cap_of, held_by};
use crate::board::survey::survey_of;
use crate::explain::walk::PassWalk;
use crate::pass::Pass;
use crate::pass::choice::Candidate;
use cal_signal::Record;

/// How a task stands at a turn. Its limit, guarantee and threshold are in its table.
#[derive(Clone, Copy, Debug, PartialEq, Eq)]
pub struct TaskState {
    /// Its delay, in ticks: the longest that a request of a thread of its has waited.
    pub delay: u64,
    /// Whether the delay is strictly above its threshold.
    pub is_congested: bool,
    /// How many cores its threads hold.
    pub held: u8,
    /// How many cores its threads hold or leave.
    pub booked: u8,
    /// Its cap: how many cores a best-effort task may book.
    pub cap: u8,
    /// Whether it may book one more core.
    pub may_book: bool,
    /// Whether a core is being left for it.
    pub awaits: bool,
}

/// How a thread stands at a turn.
#[derive(Clone, Copy, Debug, PartialEq, Eq)]
pub struct ThreadState {
    /// Its delay, in ticks.
    pub delay: u64,
    /// Whether it holds or leaves a core.
    pub has_core: bool,
    /// Whether its command ring has room.
    pub has_room: bool,
    /// Its misses since the pass before.
    pub new_misses: u64,
    /// The record that is kept of it.
    pub kept: Record,
}

impl Pass<'_> {
    /// Whether a core is being left for the task.
    fn awaits(&self, board: &Board, task: usize) -> bool
        requires at_hand { IsOfTable self.now.config.now board.now }
        requires task { task < length self.now.config.now.tasks }
        ensures { Within self.now board.now (λ s acts. result ≡ not (grants.none_leaves_for s (so_far s acts) task)) }
    {
        let survey = survey_of(self.config, board);
        let awaits_none = survey.awaited[task] == 0;
        !awaits_none
    }

    /// Whether the thread holds or leaves a core.
    fn has_core(&self, board: &Board, thread: usize) -> bool
        requires at_hand { IsOfTable self.now.config.now board.now }
        requires thread { thread < threads_of_table self.now.config.now }
        ensures { Within self.now board.now (λ s acts. result ≡ not (cores_of_thread s.table (so_far s acts) thread == 0)) }
    {
        let survey = survey_of(self.config, board);
        let has_none = survey.placed[thread] == 0;
        !has_none
    }

    /// How a task stands.
    fn task_state(&self, board: &Board, task: usize) -> TaskState
        requires at_hand { IsOfTable self.now.config.now board.now }
        requires task { task < length self.now.config.now.tasks }
        ensures { Within self.now board.now (λ s acts. IsTaskState s (so_far s acts) task result) }
    {
        self.config.limits();
        TaskState {
            delay: self.task_delay(board, task),
            is_congested: self.is_congested(board, task),
            held: held_by(self.config, board, task),
            booked: booked_by(self.config, board, task),
            cap: cap_of(self.config, board, task),
            may_book: self.may_book(board, task),
            awaits: self.awaits(board, task),
        }
    }

    /// How a thread stands.
    fn thread_state(&self, board: &Board, thread: usize) -> ThreadState
        requires at_hand { IsOfTable self.now.config.now board.now }
        requires thread { thread < threads_of_table self.now.config.now }
        ensures { Within self.now board.now (λ s acts. IsThreadState s (so_far s acts) thread result) }
    {
        self.config.limits();
        ThreadState {
            delay: self.thread_delay(board, thread),
            has_core: self.has_core(board, thread),
            has_room: self.has_room(thread),
            new_misses: self.new_misses(board, thread),
            kept: board.keeping.kept[thread],
        }
    }

    /// The core that the task would lose for bandwidth.
    fn core_to_lose(&self, board: &Board, task: usize) -> Option<u8>
        requires at_hand { IsOfTable self.now.config.now board.now }
        requires task { task < length self.now.config.now.tasks }
        ensures { Within self.now board.now (λ s acts. result ≡ bandwidth.core_to_lose s (so_far s acts) task) }
    {
        self.config.limits();
        let highest = self.cores_to_lose(board);
        highest[task]
    }

    /// The task that a figure above the limit costs a core, and its misses.
    fn victim_choice(&self, board: &Board) -> Option<Candidate<u128>>
        requires at_hand { IsOfTable self.now.config.now board.now }
        ensures victim { Within self.now board.now (λ s acts. result ≡ bandwidth.victim_of s (so_far s acts)) }
        ensures task { IfSome result (λ best. best.number < length self.now.config.now.tasks) }
    {
        let highest = self.cores_to_lose(board);
        self.victim(board, &highest)
    }
}

impl PassWalk<'_> {
    /// How a task stands.
    pub fn task(&self, task: usize) -> TaskState
        requires walk { IsWalk self.now }
        requires task { task < length self.now.config.now.tasks }
        ensures { (h : Begun) → Walks self.now h →
            IsTaskState (setting_of self.now h) (actions_so_far self.now h) task result }
    {
        self.pass().task_state(&self.board, task)
    }

    /// How a thread stands.
    pub fn thread(&self, thread: usize) -> ThreadState
        requires walk { IsWalk self.now }
        requires thread { thread < threads_of_table self.now.config.now }
        ensures { (h : Begun) → Walks self.now h →
            IsThreadState (setting_of self.now h) (actions_so_far self.now h) thread result }
    {
        self.pass().thread_state(&self.board, thread)
    }

    /// Which thread of the task a core would be granted to, counted from its first, and its delay:
    /// of those that have none and whose ring has room the one that waits longest.
    pub fn thread_choice(&self, task: usize) -> Option<Candidate<u128>>
        requires walk { IsWalk self.now }
        requires task { task < length self.now.config.now.tasks }
        ensures choice { (h : Begun) → Walks self.now h → result
            ≡ grants.thread_choice (setting_of self.now h) (actions_so_far self.now h) task }
        ensures below { IfSome result (λ best. best.number < limit_of self.now.config.now task) }
    {
        self.pass().choose_thread(&self.board, task)
    }

    /// The misses of all threads of a task since the pass before.
    pub fn misses(&self, task: usize) -> u128
        requires walk { IsWalk self.now }
        requires task { task < length self.now.config.now.tasks }
        ensures { (h : Begun) → Walks self.now h →
            result ≡ bandwidth.task_misses (setting_of self.now h) task }
    {
        self.pass().task_misses(&self.board, task)
    }

    /// The core that the task would lose for bandwidth: the highest that it holds by a thread whose
    /// ring has room.
    pub fn core_to_lose(&self, task: usize) -> Option<u8>
        requires walk { IsWalk self.now }
        requires task { task < length self.now.config.now.tasks }
        ensures { (h : Begun) → Walks self.now h → result
            ≡ bandwidth.core_to_lose (setting_of self.now h) (actions_so_far self.now h) task }
    {
        self.pass().core_to_lose(&self.board, task)
    }

    /// The task that a figure above the limit costs a core, and its misses.
    pub fn victim(&self) -> Option<Candidate<u128>>
        requires walk { IsWalk self.now }
        ensures victim { (h : Begun) → Walks self.now h → result
            ≡ bandwidth.victim_of (setting_of self.now h) (actions_so_far self.now h) }
        ensures task { IfSome result (λ best. best.number < length self.now.config.now.tasks) }
    {
        self.pass().victim_choice(&self.board)
    }
}
