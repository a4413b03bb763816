//! Passes over the page and the ring of a kernel thread.

ghost use Rattle.std.specs.Prelude.{◌≡◌, ◌<◌, length, IfOk};

use crate::kernel_threads::turn;
use crate::one_thread::{ONE_THREAD, does, first_passes, grant, seen};
use crate::same::assert_same;
use cal_kthread::{KernelThread, Request, Team, open_threads};
use cal_machine::Config;
use cal_policy::{Action, Holder, PassEntry, Placement, Seen, Verdict, audit};
use cal_sched::Scheduler;
use std::alloc::Global;
use std::process::Abort;
use std::test::Fail;

/// A scheduler of one task of one thread on two cores, and the thread.
#[derive(Drop)]
pub struct Opened {
    pub scheduler: Scheduler,
    pub thread: KernelThread,
}

/// Nothing was done yet.
pub fn open(alloc: Global) -> Result<Opened, Fail>
    ensures task { IfOk result (λ opened. 0 < length opened.scheduler.table.tasks) }
    ensures core { IfOk result (λ opened. 0 < opened.scheduler.table.cores) }
{
    let config = Config::read(alloc, ONE_THREAD)?;
    if config.tasks() != 1 || config.machine().cores() != 2 {
        return Err(Fail::new("another table was read"));
    }
    open_over(alloc, &config)
}

/// The same, over this table.
fn open_over(alloc: Global, config: &Config) -> Result<Opened, Fail>
    ensures { IfOk result (λ opened. opened.scheduler.table ≡ config.now) }
{
    let Team {
        threads,
        observers,
        senders,
        ..
    } = open_threads(alloc, config)?;
    let config = config.copy(alloc)?;
    match Scheduler::new(alloc, config, observers, senders) {
        Ok(scheduler) => with_last(scheduler, threads),
        Err(_) => Err(Fail::new("no scheduler was made")),
    }
}

/// The scheduler, and the last of the threads.
fn with_last(scheduler: Scheduler, threads: Vec<KernelThread>) -> Result<Opened, Fail>
    ensures { IfOk result (λ opened. opened.scheduler ≡ scheduler) }
{
    let mut threads = threads;
    match threads.pop() {
        Some(thread) => Ok(Opened { scheduler, thread }),
        None => Err(Fail::new("there is no thread")),
    }
}

/// Whether a pass is made.
fn passes(scheduler: &mut Scheduler, now: u64) -> bool
    ensures { scheduler.new.table ≡ scheduler.old.table }
{
    scheduler.pass(now, 0) == Ok(())
}

/// How many cores the first task books, and who has the first core.
fn standing(scheduler: &Scheduler) -> (u8, Holder)
    requires task { 0 < length scheduler.now.table.tasks }
    requires core { 0 < scheduler.now.table.cores }
{
    (scheduler.booked(0), scheduler.holder(0))
}

/// Whether a turn is made.
fn turned(thread: &mut KernelThread, now: u64, arriving: Option<Request>) -> bool {
    turn(thread, now, arriving) == Ok(true)
}

/// A request comes to the thread, and a pass looks at it.
fn comes(scheduler: &mut Scheduler, thread: &mut KernelThread) -> bool
    ensures { scheduler.new.table ≡ scheduler.old.table }
{
    let request = Request {
        id: 1,
        work: 2,
        misses: 7,
    };
    turned(thread, 100, Some(request)) && passes(scheduler, 111)
}

/// The thread takes its core, serves the request and yields, with a pass after the first of these
/// turns and after the last.
fn is_served(scheduler: &mut Scheduler, thread: &mut KernelThread) -> bool
    ensures { scheduler.new.table ≡ scheduler.old.table }
{
    turned(thread, 120, None)
        && passes(scheduler, 130)
        && turned(thread, 140, None)
        && turned(thread, 150, None)
        && passes(scheduler, 160)
}

/// The place of the record that a pass read of the first thread.
fn place_read(entry: &PassEntry) -> Option<u64> {
    match seen(entry)? {
        Seen::Whole { number, .. } => Some(number),
        _ => None,
    }
}

/// The passes read the first record, the second and the fourth, and grant the core and free it.
fn assert_passed<R: Abort + AllocGlobal>(rt: &R, history: &[PassEntry]) -> Result<(), Fail> {
    let mut places = Vec::new(rt.alloc());
    for entry in history {
        places.push(place_read(entry))?;
    }
    assert_same(
        rt,
        places.as_slice(),
        [Some(1), Some(2), Some(4)].as_slice(),
    );
    let free = Some(Action::Free { core: 0 });
    let meant = [
        does(grant(0, 0, 3), None),
        does(None, None),
        does(free, None),
    ];
    let did = first_passes(rt.alloc(), history, 4)?;
    assert_same(rt, did.as_slice(), meant.as_slice());
    Ok(())
}

/// The thread is granted core 0 for the request that comes to it, and has left it at the end.
fn assert_granted_and_freed<R: Abort>(rt: &R, scheduler: &mut Scheduler, thread: &mut KernelThread)
    requires task { 0 < length scheduler.old.table.tasks }
    requires core { 0 < scheduler.old.table.cores }
{
    let held = Placement {
        thread: 0,
        number: 1,
    };
    assert!(rt; comes(scheduler, thread));
    assert_same(rt, standing(scheduler), (1, Holder::Held(held)));
    assert!(rt; is_served(scheduler, thread));
    assert_same(rt, standing(scheduler), (0, Holder::Free));
}

/// A thread has a request, is given a core, serves the request and yields.
#[test]
fn scheduler_and_thread(rt: HostRuntime) -> Result<(), Fail> {
    let Opened {
        mut scheduler,
        mut thread,
    } = open(rt.alloc())?;
    assert_granted_and_freed(&rt, &mut scheduler, &mut thread);
    assert_passed(&rt, scheduler.history())?;
    let config = Config::read(rt.alloc(), ONE_THREAD)?;
    let verdict = audit(rt.alloc(), &config, scheduler.history())?;
    assert_same(&rt, verdict, Verdict::Legal);
    Ok(())
}
