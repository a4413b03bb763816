//! cal_sched in use, as a small runtime: one scheduler over two pages and two rings, for the kernel
//! threads of a latency-critical and a best-effort task. What a kernel thread would do in a thread of
//! its own, where it never waits for the scheduler, is done here in turn by one thread: it publishes
//! a request that waits, takes its commands, and publishes what it does then. It prints what each
//! pass did and what each thread took.

ghost use Rattle.std.specs.Prelude.{◌≡◌, length, IfOk};
ghost use Rattle.cal_sched.specs.Scheduler.{HaveSeenNothing, HaveSentNothing};

mod runtime_thread;

use crate::runtime::runtime_thread::RuntimeThread;
use cal_command::{Sender, open_ring};
use cal_machine::Config;
use cal_sched::Scheduler;
use cal_signal::{Observer, open_page};
use std::alloc::{AllocError, Global};

/// Two cores, and two tasks of one kernel thread each.
const TABLE: &[u8] = b"cores = 2\nbandwidth_limit = 1000
[[task]]\nkind = \"lc\"\nguaranteed = 1\nlimit = 1\ndelay = 10\nrequest = 50
[[task]]\nkind = \"be\"\nguaranteed = 0\nlimit = 1\ndelay = 10\nrequest = 0\n";

/// The scheduler's ends of all pages and rings, in thread order, and the kernel threads at the
/// other ends.
#[derive(Drop)]
struct Ends {
    observers: Vec<Observer>,
    senders: Vec<Sender>,
    threads: Vec<RuntimeThread>,
}

/// A page and a ring for each of so many kernel threads.
fn open_ends(alloc: Global, count: usize) -> Result<Ends, AllocError>
    ensures pages { IfOk result (λ ends. length ends.observers.items ≡ count) }
    ensures rings { IfOk result (λ ends. length ends.senders.items ≡ count) }
    ensures unseen { IfOk result (λ ends. HaveSeenNothing ends.observers.items) }
    ensures unsent { IfOk result (λ ends. HaveSentNothing ends.senders.items) }
{
    let mut observers = Vec::new(alloc);
    let mut senders = Vec::new(alloc);
    let mut threads = Vec::new(alloc);
    for number in 0..count {
        let (publisher, observer) = open_page(alloc)?;
        let (sender, taker) = open_ring(alloc)?;
        observers.push(observer)?;
        senders.push(sender)?;
        threads.push(RuntimeThread::new(number, publisher, taker))?;
    }
    Ok(Ends {
        observers,
        senders,
        threads,
    })
}

// begin passes
/// Makes a pass at this clock, with a bandwidth figure of 0, and prints what it did.
fn pass(rt: &HostRuntime, scheduler: &mut Scheduler, now: u64) -> anyhow::Result<()> {
    scheduler.pass(now, 0)?;
    println!(rt; "  pass at {now}")?;
    if let Some(entry) = scheduler.history().last() {
        for action in entry.actions.as_slice() {
            println!(rt; "    {action:?}")?;
        }
    }
    Ok(())
}

/// The passes, and what the two threads do between them: the first one waits for a core and runs,
/// the second one waits in its turn, and gets its core as the first gives it up.
fn run(
    rt: &HostRuntime,
    scheduler: &mut Scheduler,
    first: &mut RuntimeThread,
    second: &mut RuntimeThread,
) -> anyhow::Result<()> {
    first.wait_from(100)?;
    pass(rt, scheduler, 111)?;
    first.obey(rt, 112)?;
    second.wait_from(113)?;
    pass(rt, scheduler, 124)?;
    second.obey(rt, 125)?;
    pass(rt, scheduler, 170)?;
    second.obey(rt, 171)?;
    first.give_up_core(172)?;
    pass(rt, scheduler, 180)?;
    second.obey(rt, 181)
}
// end

// begin show
pub fn show(rt: &HostRuntime) -> anyhow::Result<()> {
    let config = Config::read(rt.alloc(), TABLE)?;
    let Ends {
        observers,
        senders,
        mut threads,
    } = open_ends(rt.alloc(), config.threads())?;
    let Ok(mut scheduler) = Scheduler::new(rt.alloc(), config, observers, senders) else {
        return Err(anyhow::Error::from(AllocError));
    };
    let (Some(mut second), Some(mut first)) = (threads.pop(), threads.pop()) else {
        return Ok(());
    };
    run(rt, &mut scheduler, &mut first, &mut second)
}
// end
