//! What the table says, and what was sent to a thread, as C is told.

ghost use Rattle.std.specs.Prelude.{◌≡◌, ◌<◌, List, length, nat_lt};
ghost use Rattle.std.specs.Option.{is_some, IfSome};
ghost use Rattle.cal_machine.specs.TableTasks.{threads_of_table};
ghost use Rattle.cal_policy.specs.declared.history.entry.PassEntry.{PassEntry};
ghost use Rattle.cal_policy.specs.State.{IsStateAfter};
ghost use Rattle.cal_policy.specs.History.{looks_of};
ghost use Rattle.cal_policy.specs.History.Looks.{kept_by};
ghost use Rattle.caladan_c.specs.Facts.{machine_of, row_of, state_of, kind_number};
ghost use Rattle.caladan_c.specs.Facts.{found_kept, found_shown};

use crate::found::Found;
use cal_machine::{Config, Kind};
use cal_policy::Shown;
use cal_policy::state::Board;

/// What the table says of the machine.
#[repr(C)]
#[derive(Clone, Copy)]
pub struct MachineFacts {
    /// How many cores there are, 2 to `MOST_CORES`.
    pub cores: u8,
    /// How many tasks, 1 to 16.
    pub tasks: u8,
    /// How many kernel threads, 1 to `MOST_THREADS`.
    pub threads: u8,
    /// The bandwidth figure above which a best-effort task loses a core.
    pub bandwidth_limit: u64,
}

/// What the table says of a task.
#[repr(C)]
#[derive(Clone, Copy)]
pub struct TaskRow {
    /// 1 latency-critical, 2 best-effort.
    pub kind: u8,
    /// Cores that it may keep.
    pub guaranteed: u8,
    /// The most cores that it can have, and its number of threads.
    pub limit: u8,
    /// Its first thread; the others follow.
    pub first_thread: u8,
    /// The delay above which it is congested.
    pub delay: u64,
    /// The age of a request above which its core's sibling is banned.
    pub request: u64,
}

/// A thread after the passes so far.
#[repr(C)]
#[derive(Clone, Copy)]
pub struct ThreadState {
    /// Its task.
    pub task: u8,
    /// Commands sent to it.
    pub sent: u64,
    /// Those that its kept record acknowledges.
    pub taken: u64,
}

/// A kind, as a number.
fn tell_kind(kind: Kind) -> u8
    ensures { result ≡ kind_number kind }
{
    match kind {
        Kind::LatencyCritical => 1,
        Kind::BestEffort => 2,
    }
}

/// The machine, in numbers.
pub fn tell_machine(config: &Config) -> MachineFacts
    ensures { result ≡ machine_of config.now }
{
    config.limits();
    MachineFacts {
        cores: config.machine().cores(),
        tasks: config.tasks() as u8,
        threads: config.threads() as u8,
        bandwidth_limit: config.bandwidth_limit(),
    }
}

/// A task of the table, in numbers.
fn tell_task(config: &Config, task: usize) -> TaskRow
    requires { task < length config.now.tasks }
    ensures { result ≡ row_of config.now task }
{
    config.limits();
    let row = config.task(task);
    let (first, _) = config.threads_of(task);
    TaskRow {
        kind: tell_kind(row.kind),
        guaranteed: row.guaranteed,
        limit: row.limit,
        first_thread: first as u8,
        delay: row.delay,
        request: row.request,
    }
}

/// What the table says of a task, where it has it.
pub fn row_of_task(config: &Config, task: usize) -> Option<TaskRow>
    ensures there { is_some result ≡ nat_lt task (length config.now.tasks) }
    ensures row { IfSome result (λ row. row ≡ row_of config.now task) }
{
    if task < config.tasks() {
        Some(tell_task(config, task))
    } else {
        None
    }
}

/// A thread's task, how many commands were sent to it, and how many of them its kept record
/// acknowledges, where the table has the thread.
pub fn state_of_thread(config: &Config, board: &Board, thread: usize) -> Option<ThreadState>
    ensures there { is_some result ≡ nat_lt thread (threads_of_table config.now) }
    ensures state { IfSome result (λ state. (h : List PassEntry) → IsStateAfter board.now h →
        state ≡ state_of config.now h thread) }
{
    if thread < config.threads() {
        config.limits();
        Some(ThreadState {
            task: config.task_of(thread) as u8,
            sent: board.sent(config, thread),
            taken: board.kept(config, thread).taken,
        })
    } else {
        None
    }
}

/// The kept record of a thread as a look, where the table has the thread. All but its words is 0.
pub fn kept_of_thread(config: &Config, board: &Board, thread: usize) -> Option<Found>
    ensures there { is_some result ≡ nat_lt thread (threads_of_table config.now) }
    ensures kept { IfSome result (λ found. (h : List PassEntry) → IsStateAfter board.now h →
        found ≡ found_kept (kept_by (looks_of h) thread)) }
{
    if thread < config.threads() {
        Some(Found {
            busy: 0,
            room: 0,
            number: 0,
            second: 0,
            rec: board.kept(config, thread),
        })
    } else {
        None
    }
}

/// A record and its place, as C hands a look in; there is no room, so that nothing is granted to its
/// thread.
pub fn tell_shown(shown: Shown) -> Found
    ensures { result ≡ found_shown shown }
{
    Found {
        busy: 0,
        room: 0,
        number: shown.number,
        second: 0,
        rec: shown.rec,
    }
}
