//! Which thread of a task is to have the core.

ghost use Rattle.std.specs.Prelude.{◌≡◌, ◌<◌, length};
ghost use Rattle.std.specs.Option.{IfSome, is_some};
ghost use Rattle.cal_machine.specs.TableTasks.{threads_of_table, limit_of};
ghost use Rattle.cal_policy.specs.Setting.{so_far};
ghost use Rattle.cal_policy.specs.Pass.Grants as grants;
ghost use Rattle.cal_policy.specs.State.{IsOfTable};
ghost use Rattle.cal_policy.specs.Pass.AtHand.{Within};

use crate::board::Board;
use crate::board::survey::survey_of;
use crate::pass::Pass;
use crate::pass::choice::{Candidate, greater};

impl Pass<'_> {
    /// The thread's delay, where it may be granted a core: it holds and leaves none, and its ring
    /// has room.
    pub fn thread_rank(&self, board: &Board, thread: usize) -> Option<u128>
        requires at_hand { IsOfTable self.now.config.now board.now }
        requires thread { thread < threads_of_table self.now.config.now }
        ensures { Within self.now board.now (λ s acts. result ≡ grants.thread_rank s (so_far s acts) thread) }
    {
        let survey = survey_of(self.config, board);
        let has_none = survey.placed[thread] == 0;
        if has_none && self.has_room(thread) {
            Some(u128::from(self.thread_delay(board, thread)))
        } else {
            None
        }
    }

    /// Whether the task has a thread that may be granted a core.
    pub fn has_thread(&self, board: &Board, task: usize) -> bool
        requires at_hand { IsOfTable self.now.config.now board.now }
        requires task { task < length self.now.config.now.tasks }
        ensures { Within self.now board.now (λ s acts. result ≡ is_some (grants.thread_choice s (so_far s acts) task)) }
    {
        let (first, _) = self.config.threads_of(task);
        for j in 0..self.config.task(task).limit {
            if let Some(_) = self.thread_rank(board, first + j as usize) {
                return true;
            }
        }
        false
    }

    /// The task's thread with the greatest delay, of those that may be granted a core; of those
    /// with as great a delay the first. It is counted from the task's first thread.
    pub fn choose_thread(&self, board: &Board, task: usize) -> Option<Candidate<u128>>
        requires at_hand { IsOfTable self.now.config.now board.now }
        requires task { task < length self.now.config.now.tasks }
        ensures choice { Within self.now board.now (λ s acts. result ≡ grants.thread_choice s (so_far s acts) task) }
        ensures below { IfSome result (λ best. best.number < limit_of self.now.config.now task) }
    {
        let (first, _) = self.config.threads_of(task);
        let mut best: Option<Candidate<u128>> = None;
        for j in 0..self.config.task(task).limit {
            let rank = self.thread_rank(board, first + j as usize);
            best = greater(best, rank, j);
        }
        best
    }
}
