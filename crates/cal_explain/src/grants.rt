//! Why a task gets a core, or gets none.

ghost use Rattle.std.specs.Prelude.{◌<◌, ◌≤◌, ◌+◌, length};
ghost use Rattle.cal_machine.specs.TableTasks.{threads_of_table};
ghost use Rattle.cal_policy.specs.Explain.Walks.{IsWalk};

use crate::candidates::write_candidate;
use crate::scope::Scope;
use crate::telling::{above_word, kind_word};
use cal_policy::explain::{PassWalk, TaskState};
use cal_policy::{Holder, Policy};
use std::io;
use std::io::Write;

/// Writes how a task stands at its turn, its threads, and the cores that are candidates for it.
pub fn tell_grant<W: Write>(
    walk: &PassWalk<'_>,
    task: usize,
    scope: Scope,
    writer: &mut W,
) -> io::Result<()>
    requires walk { IsWalk walk.now }
    requires task { task < length walk.now.config.now.tasks }
{
    let state = walk.task(task);
    tell_task(walk, task, state, writer)?;
    tell_threads(walk, task, writer)?;
    if state.is_congested && state.may_book && walk.thread_choice(task).is_some() {
        tell_candidates(walk, task, scope, writer)
    } else {
        Ok(())
    }
}

/// Writes a task's delay and threshold, what it has, and what it may have.
pub fn tell_task<W: Write>(
    walk: &PassWalk<'_>,
    task: usize,
    state: TaskState,
    writer: &mut W,
) -> io::Result<()>
    requires walk { IsWalk walk.now }
    requires task { task < length walk.now.config.now.tasks }
{
    let own = walk.config().task(task);
    let kind = kind_word(own.kind);
    let above = above_word(state.is_congested);
    let (delay, threshold) = (state.delay, own.delay);
    write!(
        writer,
        "  task {task} {kind}: delay {delay}, {above} {threshold}; "
    )?;
    let (held, booked) = (state.held, state.booked);
    write!(writer, "holds {held}, books {booked}, ")?;
    let (limit, guaranteed) = (own.limit, own.guaranteed);
    if walk.config().is_latency_critical(task) {
        write!(writer, "limit {limit}, guarantee {guaranteed}")?;
    } else {
        write!(writer, "limit {limit}, cap {}", state.cap)?;
    }
    if state.may_book {
        writeln!(writer, ": may book one more")
    } else {
        writeln!(writer, ": may book no more")
    }
}

/// Writes for each thread of a task whether it may be granted a core.
pub fn tell_threads<W: Write>(walk: &PassWalk<'_>, task: usize, writer: &mut W) -> io::Result<()>
    requires walk { IsWalk walk.now }
    requires task { task < length walk.now.config.now.tasks }
{
    let (first, count) = walk.config().threads_of(task);
    let choice = walk.thread_choice(task);
    for j in 0..count {
        let is_chosen = match choice {
            Some(chosen) => chosen.number as usize == j,
            None => false,
        };
        tell_thread(walk, first + j, is_chosen, writer)?;
    }
    Ok(())
}

/// Writes whether a thread may be granted a core, and if not why.
fn tell_thread<W: Write>(
    walk: &PassWalk<'_>,
    thread: usize,
    is_chosen: bool,
    writer: &mut W,
) -> io::Result<()>
    requires walk { IsWalk walk.now }
    requires thread { thread < threads_of_table walk.now.config.now }
{
    let state = walk.thread(thread);
    write!(writer, "    thread {thread}: delay {}", state.delay)?;
    match walk.policy() {
        Policy::Caladan => {}
        Policy::Assured => write_lateness(walk, thread, writer)?,
    }
    write!(writer, "; ")?;
    if state.has_core {
        write_core_of(walk, thread, writer)?;
        writeln!(writer)
    } else if !state.has_room {
        writeln!(writer, "its ring has no room")
    } else if is_chosen {
        writeln!(writer, "may be granted a core, and waits longest")
    } else {
        writeln!(writer, "may be granted a core")
    }
}

/// Writes whether a thread is late, and whether it is in flight.
fn write_lateness<W: Write>(walk: &PassWalk<'_>, thread: usize, writer: &mut W) -> io::Result<()>
    requires walk { IsWalk walk.now }
    requires thread { thread < threads_of_table walk.now.config.now }
{
    let lateness = walk.lateness(thread);
    if lateness.is_late {
        write!(writer, ", late")?;
    }
    if lateness.is_in_flight {
        write!(writer, ", in flight")?;
    }
    Ok(())
}

/// Writes which core a thread has.
fn write_core_of<W: Write>(walk: &PassWalk<'_>, thread: usize, writer: &mut W) -> io::Result<()>
    requires { IsWalk walk.now }
{
    for core in 0..walk.config().machine().cores() {
        match walk.core(core).holder {
            Holder::Held(placement) if placement.thread as usize == thread => {
                return write!(writer, "holds core {core}");
            }
            Holder::Leaving(placement, _) if placement.thread as usize == thread => {
                return write!(writer, "is to leave core {core}");
            }
            _ => {}
        }
    }
    Ok(())
}

/// Writes the class for a task of each core in scope, and which is chosen.
fn tell_candidates<W: Write>(
    walk: &PassWalk<'_>,
    task: usize,
    scope: Scope,
    writer: &mut W,
) -> io::Result<()>
    requires walk { IsWalk walk.now }
    requires task { task < length walk.now.config.now.tasks }
{
    let choice = walk.core_choice(task);
    for core in 0..walk.config().machine().cores() {
        let is_chosen = match choice {
            Some(chosen) => chosen.number == core,
            None => false,
        };
        if scope.has_candidate(core) {
            write_candidate(walk, task, core, writer)?;
            writeln!(writer, "{}", if is_chosen { ", chosen" } else { "" })?;
        }
    }
    Ok(())
}
