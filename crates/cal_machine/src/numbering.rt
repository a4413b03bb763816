//! Kernel threads numbered from 0 in task order.

ghost use Rattle.std.specs.Prelude.{◌≡◌, ◌+◌, ◌≤◌, ℕ, length, slice_index};
ghost use Rattle.std.specs.Prelude.{if◌then◌else◌, nat_le, nat_lt, ◌&&◌};
ghost use Rattle.cal_machine.specs.Tasks.{threads_in, guaranteed_in};
ghost use Rattle.cal_machine.specs.Numbering.{AreFirsts, AreOwners};

use crate::task::Task;
use crate::task_table::MOST_TASKS;

/// The most kernel threads of all tasks together.
pub const MOST_THREADS: usize = 128;

/// The first thread of each task.
pub fn firsts_of(tasks: &[Task]) -> [u8; MOST_TASKS]
    requires few { length tasks.now ≤ MOST_TASKS }
    requires threads { threads_in tasks.now ≤ MOST_THREADS }
    ensures { AreFirsts tasks.now result }
{
    let mut firsts = [0; MOST_TASKS];
    let mut next = 0;
    for t in 0..tasks.len() {
        firsts[t] = next;
        next += tasks[t].limit;
    }
    firsts
}

/// The task of each thread.
pub fn owners_of(tasks: &[Task]) -> [u8; MOST_THREADS]
    requires few { length tasks.now ≤ MOST_TASKS }
    requires threads { threads_in tasks.now ≤ MOST_THREADS }
    ensures { AreOwners tasks.now result }
{
    let mut owners = [0; MOST_THREADS];
    let mut next = 0;
    for t in 0..tasks.len() {
        let end = next + tasks[t].limit as usize;
        give(&mut owners, next, end, t as u8);
        next = end;
    }
    owners
}

/// Gives the threads from `first` up to `end` to a task.
fn give(owners: &mut [u8; MOST_THREADS], first: usize, end: usize, task: u8)
    requires order { first ≤ end }
    requires end { end ≤ MOST_THREADS }
    ensures { (k : ℕ) → slice_index owners.new k
        ≡ (if nat_le first k && nat_lt k end then task else slice_index owners.old k) }
{
    for k in first..end {
        owners[k] = task;
    }
}

/// How many kernel threads the tasks have in all.
pub fn threads_in(tasks: &[Task]) -> usize
    requires { length tasks.now ≤ MOST_TASKS }
    ensures { result ≡ threads_in tasks.now }
{
    let mut threads = 0;
    for task in tasks {
        threads += task.limit as usize;
    }
    threads
}

/// How many cores the tasks are guaranteed in all.
pub fn guaranteed_in(tasks: &[Task]) -> usize
    requires { length tasks.now ≤ MOST_TASKS }
    ensures { result ≡ guaranteed_in tasks.now }
{
    let mut cores = 0;
    for task in tasks {
        cores += task.guaranteed as usize;
    }
    cores
}
