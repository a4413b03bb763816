//! A scheduler and a watch over the kernel threads of a table.

ghost use Rattle.std.specs.Prelude.{◌≡◌, length};
ghost use Rattle.cal_machine.specs.TableTasks.{threads_of_table};
ghost use Rattle.cal_sched.specs.Scheduler.{HaveSeenNothing, HaveSentNothing};

use crate::attempt::{Stop, Tried, answer, begin, end};
use crate::table_and_trace::TableAndTrace;
use crate::texts::{write_lists, write_passes};
use cal_command::Sender;
use cal_kthread::{KernelThread, Team, open_threads};
use cal_machine::Config;
use cal_sched::{Scheduler, Watch};
use cal_signal::Observer;
use std::alloc::Global;
use std::io::Write;

/// How many rounds a watch makes.
const ROUNDS: u64 = 3;

/// What is written where a scheduler or a watch is refused, of which only memory can be the cause.
const REFUSED: &[u8] = b"refused: Memory\n";

/// The kernel threads of the table.
pub fn threads(rt: &HostRuntime, given: &TableAndTrace) -> Tried<()> {
    begin(rt)?;
    let team = answer(rt, open_threads(rt.alloc(), &given.config))?;
    writeln!(&mut rt.stdout(), "threads {}", team.threads.len())?;
    Ok(())
}

/// A scheduler and the kernel threads of a table, which did nothing yet.
#[derive(Drop)]
pub struct Opened {
    /// The scheduler.
    pub scheduler: Scheduler,
    /// The kernel threads, in thread order.
    pub threads: Vec<KernelThread>,
}

/// A scheduler and kernel threads that did nothing yet.
pub fn open(alloc: Global, given: &TableAndTrace) -> Tried<Opened> {
    let Team {
        threads,
        observers,
        senders,
        ..
    } = open_threads(alloc, &given.config)?;
    let config = given.config.copy(alloc)?;
    match Scheduler::new(alloc, config, observers, senders) {
        Ok(scheduler) => Ok(Opened { scheduler, threads }),
        Err(_) => Err(Stop::Wrong),
    }
}

/// A scheduler over the threads of a team, and a first pass of it.
pub fn scheduler(rt: &HostRuntime, given: &TableAndTrace) -> Tried<()> {
    let Team {
        observers,
        senders,
        ..
    } = open_threads(rt.alloc(), &given.config)?;
    let config = given.config.copy(rt.alloc())?;
    let mut scheduler = scheduler_of(rt, config, observers, senders)?;
    scheduler.pass(1000, 0).or(Err(Stop::Wrong))?;
    write_passes(rt, scheduler.history())
}

/// A scheduler. Where it is refused, it is made of what is handed back.
fn scheduler_of(
    rt: &HostRuntime,
    config: Config,
    observers: Vec<Observer>,
    senders: Vec<Sender>,
) -> Tried<Scheduler>
    requires pages { length observers.items ≡ threads_of_table config }
    requires rings { length senders.items ≡ threads_of_table config }
    requires unseen { HaveSeenNothing observers.items }
    requires unsent { HaveSentNothing senders.items }
{
    begin(rt)?;
    let made = Scheduler::new(rt.alloc(), config, observers, senders);
    end(rt)?;
    let back = match made {
        Ok(scheduler) => return Ok(scheduler),
        Err(back) => back,
    };
    rt.stdout().write_all(REFUSED)?;
    Scheduler::new(rt.alloc(), back.config, back.observers, back.senders).or(Err(Stop::Wrong))
}

/// A watch over the pages of a team, and its rounds.
pub fn watch(rt: &HostRuntime, given: &TableAndTrace) -> Tried<()> {
    let Team { watchers, .. } = open_threads(rt.alloc(), &given.config)?;
    let mut watch = watch_of(rt, watchers)?;
    for _ in 0..ROUNDS {
        let _ = watch.round();
    }
    write_lists(rt, watch.rounds())?;
    Ok(())
}

/// A watch. Where it is refused, it is made of what is handed back.
fn watch_of(rt: &HostRuntime, watchers: Vec<Observer>) -> Tried<Watch> {
    begin(rt)?;
    let made = Watch::new(rt.alloc(), watchers, ROUNDS);
    end(rt)?;
    let back = match made {
        Ok(watch) => return Ok(watch),
        Err(back) => back,
    };
    rt.stdout().write_all(REFUSED)?;
    Watch::new(rt.alloc(), back.observers, ROUNDS).or(Err(Stop::Wrong))
}
