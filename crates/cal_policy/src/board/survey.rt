//! What is counted of the cores, kept up with each change of a holder.

ghost use Rattle.std.specs.Prelude.{◌≡◌, ◌==◌, true, ℕ, ◌+◌, ◌<◌, List, slice_index, if◌then◌else◌};
ghost use Rattle.std.specs.Option.{IfSome};
ghost use Rattle.cal_machine.specs.Table.{IsTable};
ghost use Rattle.cal_machine.specs.declared.task_table.TheConstants.{MOST_TASKS};
ghost use Rattle.cal_machine.specs.declared.numbering.TheConstants.{MOST_THREADS};
ghost use Rattle.cal_machine.specs.TableTasks.{threads_of_table};
ghost use Rattle.cal_policy.specs.declared.history.action.Action.{Action};
ghost use Rattle.cal_policy.specs.History.{holder_of};
ghost use Rattle.cal_policy.specs.Pass.Grants.{is_for};
ghost use Rattle.cal_policy.specs.Board.{placement_of};
ghost use Rattle.cal_policy.specs.State.{IsReady, Agrees};
ghost use Rattle.cal_policy.specs.Board.Survey.{Surveys, CountsAtMost, IsCounted, CountsOneMore};

use crate::board::Board;
use crate::board::holders::{Holder, Placement};
use crate::history::action::Cause;
use cal_machine::{Config, MOST_TASKS, MOST_THREADS};

/// How many cores tasks and threads have.
#[derive(Drop)]
pub struct Survey {
    /// How many cores the threads of each task hold.
    pub held: [u8; MOST_TASKS],
    /// How many cores the threads of each task hold or leave.
    pub booked: [u8; MOST_TASKS],
    /// How many cores each thread holds or leaves.
    pub placed: [u8; MOST_THREADS],
    /// How many cores are being left for each task.
    pub awaited: [u8; MOST_TASKS],
}

/// One more core for the task or thread of this number.
fn count_one<const N: usize>(counts: &mut [u8; N], number: usize)
    requires number { number < N }
    requires few { slice_index counts.old number < 255 }
    ensures { (i : ℕ) → i < N →
        slice_index counts.new i ≡ slice_index counts.old i + (if number == i then 1 else 0) }
{
    counts[number] += 1;
}

/// One core fewer for the task or thread of this number.
fn uncount_one<const N: usize>(counts: &mut [u8; N], number: usize)
    requires number { number < N }
    requires some { 0 < slice_index counts.old number }
    ensures { (i : ℕ) → i < N →
        slice_index counts.old i ≡ slice_index counts.new i + (if number == i then 1 else 0) }
{
    counts[number] -= 1;
}

/// One more core that is being left, where it is for a task.
fn count_awaited(counts: &mut [u8; MOST_TASKS], cause: Cause)
    requires few { (t : ℕ) → t < MOST_TASKS → slice_index counts.old t < 255 }
    ensures { (t : ℕ) → t < MOST_TASKS →
        slice_index counts.new t ≡ slice_index counts.old t + (if is_for t cause then 1 else 0) }
{
    if let Cause::Preempt { task } = cause {
        if (task as usize) < MOST_TASKS {
            counts[task as usize] += 1;
        }
    }
}

/// One core fewer that is being left, where it is for a task.
fn uncount_awaited(counts: &mut [u8; MOST_TASKS], cause: Cause)
    requires some { (t : ℕ) → t < MOST_TASKS → is_for t cause ≡ true →
        0 < slice_index counts.old t }
    ensures { (t : ℕ) → t < MOST_TASKS →
        slice_index counts.old t ≡ slice_index counts.new t + (if is_for t cause then 1 else 0) }
{
    if let Cause::Preempt { task } = cause {
        if (task as usize) < MOST_TASKS {
            counts[task as usize] -= 1;
        }
    }
}

impl Survey {
    /// The counts where every core is free.
    pub fn new() -> Survey
        ensures held { (t : ℕ) → slice_index result.held t ≡ 0 }
        ensures booked { (t : ℕ) → slice_index result.booked t ≡ 0 }
        ensures placed { (k : ℕ) → slice_index result.placed k ≡ 0 }
        ensures awaited { (t : ℕ) → slice_index result.awaited t ≡ 0 }
    {
        Survey {
            held: [0; MOST_TASKS],
            booked: [0; MOST_TASKS],
            placed: [0; MOST_THREADS],
            awaited: [0; MOST_TASKS],
        }
    }

    /// Counts a core that is held.
    fn add_held(&mut self, config: &Config, placement: Placement)
        requires table { IsTable config.now }
        requires thread { placement.thread < threads_of_table config.now }
        requires few { CountsAtMost 254 self.old }
        ensures counted { CountsOneMore config.now (Holder.Held placement) self.old self.new }
    {
        let task = config.task_of(placement.thread as usize);
        count_one(&mut self.held, task);
        count_one(&mut self.booked, task);
        count_one(&mut self.placed, placement.thread as usize);
    }

    /// Counts a core that is being left.
    fn add_leaving(&mut self, config: &Config, placement: Placement, cause: Cause)
        requires table { IsTable config.now }
        requires thread { placement.thread < threads_of_table config.now }
        requires few { CountsAtMost 254 self.old }
        ensures counted { let holder = Holder.Leaving placement cause in
            CountsOneMore config.now holder self.old self.new }
    {
        count_one(&mut self.booked, config.task_of(placement.thread as usize));
        count_one(&mut self.placed, placement.thread as usize);
        count_awaited(&mut self.awaited, cause);
    }

    /// Counts one more core, by who has it.
    pub fn add(&mut self, config: &Config, holder: Holder)
        requires table { IsTable config.now }
        requires thread { IfSome (placement_of holder)
            (λ placement. placement.thread < threads_of_table config.now) }
        requires few { CountsAtMost 254 self.old }
        ensures counted { CountsOneMore config.now holder self.old self.new }
    {
        match holder {
            Holder::Free => {}
            Holder::Held(placement) => self.add_held(config, placement),
            Holder::Leaving(placement, cause) => self.add_leaving(config, placement, cause),
        }
    }

    /// Counts one core fewer, which was held.
    fn remove_held(&mut self, config: &Config, placement: Placement)
        requires table { IsTable config.now }
        requires thread { placement.thread < threads_of_table config.now }
        requires counted { IsCounted config.now (Holder.Held placement) self.old }
        ensures counted { CountsOneMore config.now (Holder.Held placement) self.new self.old }
    {
        let task = config.task_of(placement.thread as usize);
        uncount_one(&mut self.held, task);
        uncount_one(&mut self.booked, task);
        uncount_one(&mut self.placed, placement.thread as usize);
    }

    /// Counts one core fewer, which was being left.
    fn remove_leaving(&mut self, config: &Config, placement: Placement, cause: Cause)
        requires table { IsTable config.now }
        requires thread { placement.thread < threads_of_table config.now }
        requires counted { IsCounted config.now (Holder.Leaving placement cause) self.old }
        ensures counted { let holder = Holder.Leaving placement cause in
            CountsOneMore config.now holder self.new self.old }
    {
        uncount_one(&mut self.booked, config.task_of(placement.thread as usize));
        uncount_one(&mut self.placed, placement.thread as usize);
        uncount_awaited(&mut self.awaited, cause);
    }

    /// Counts one core fewer, by who had it.
    pub fn remove(&mut self, config: &Config, holder: Holder)
        requires table { IsTable config.now }
        requires thread { IfSome (placement_of holder)
            (λ placement. placement.thread < threads_of_table config.now) }
        requires counted { IsCounted config.now holder self.old }
        ensures counted { CountsOneMore config.now holder self.new self.old }
    {
        match holder {
            Holder::Free => {}
            Holder::Held(placement) => self.remove_held(config, placement),
            Holder::Leaving(placement, cause) => self.remove_leaving(config, placement, cause),
        }
    }
}

/// What is counted of all cores.
pub fn survey_of<'a>(config: &Config, board: &'a Board) -> &'a Survey
    requires ready { IsReady config.now board.now }
    ensures { (x : List Action) → Agrees board.now x → Surveys config.now (holder_of x) result.now }
{
    config.limits();
    &board.survey
}
