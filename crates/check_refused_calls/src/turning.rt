//! Turns of kernel threads, and passes between them.

ghost use Rattle.std.specs.Prelude.{◌≡◌};

use crate::attempt::{Stop, Tried, answer, begin, twice};
use crate::scheduling::open;
use crate::table_and_trace::TableAndTrace;
use crate::texts::{write_each, write_passes};
use cal_kthread::{KernelThread, Request};
use cal_sched::Scheduler;

/// How many turns each thread makes.
const TURNS: u64 = 100;

/// How many passes are made.
const PASSES: u64 = 12;

/// Turns of each thread, before each pass.
pub fn turns(rt: &HostRuntime, given: &TableAndTrace) -> Tried<()> {
    let mut opened = open(rt.alloc(), given)?;
    for id in 0..TURNS {
        try_each(rt, opened.threads.as_mut_slice(), id)?;
        let now = 100 * id + 150;
        opened.scheduler.pass(now, 0).or(Err(Stop::Wrong))?;
    }
    write_journals(rt, opened.threads.as_slice())
}

fn try_each(rt: &HostRuntime, threads: &mut [KernelThread], id: u64) -> Tried<()> {
    for thread in threads {
        twice(|| turn(rt, thread, id))?;
    }
    Ok(())
}

fn write_journals(rt: &HostRuntime, threads: &[KernelThread]) -> Tried<()> {
    for thread in threads {
        write_each(rt, thread.journal())?;
    }
    Ok(())
}

fn turn(rt: &HostRuntime, thread: &mut KernelThread, id: u64) -> Tried<()> {
    let now = thread.clock().saturating_add(100);
    begin(rt)?;
    answer(rt, thread.turn(now, Some(request(id))))
}

/// Passes, each after a turn of each thread.
pub fn passes(rt: &HostRuntime, given: &TableAndTrace) -> Tried<()> {
    let mut opened = open(rt.alloc(), given)?;
    for id in 0..PASSES {
        turn_each(opened.threads.as_mut_slice(), id)?;
        let now = 100 * id + 150;
        twice(|| pass(rt, &mut opened.scheduler, now))?;
    }
    write_passes(rt, opened.scheduler.history())
}

fn pass(rt: &HostRuntime, scheduler: &mut Scheduler, now: u64) -> Tried<()> {
    begin(rt)?;
    answer(rt, scheduler.pass(now, 0))
}

/// A turn of each thread, 100 ticks after the one before.
fn turn_each(threads: &mut [KernelThread], id: u64) -> Tried<()> {
    for thread in threads {
        let now = thread.clock().saturating_add(100);
        thread.turn(now, Some(request(id))).or(Err(Stop::Wrong))?;
    }
    Ok(())
}

/// A request of this name.
fn request(id: u64) -> Request
    ensures { result.work ≡ 2 }
{
    Request {
        id,
        work: 2,
        misses: 3,
    }
}
