//! A team of kernel threads is opened.

pub mod linking;
pub mod opening;

ghost use Rattle.std.specs.Prelude.{◌≡◌, ◌≤◌, map, length, IfOk};
ghost use Rattle.cal_machine.specs.Tasks.{threads_in};
ghost use Rattle.cal_machine.specs.declared.numbering.TheConstants.{MOST_THREADS};
ghost use Rattle.cal_kthread.specs.Team.Linking.{StoleNothing, unlinked};
ghost use Rattle.cal_kthread.specs.Team.Opening.{AreOpened, AreLinked};
ghost use Rattle.cal_kthread.specs.Places.{Each};
ghost use Rattle.cal_kthread.specs.Team.{IsTeam, place_of};
ghost use Rattle.cal_kthread.specs.Turn.Thread.{IsFresh};

use crate::bare_thread::BareThread;
use crate::kernel_thread::KernelThread;
use crate::team::linking::link_task;
use crate::team::opening::{Opened, open_thread};
use cal_command::Sender;
use cal_machine::Config;
use cal_signal::Observer;
use std::alloc::{AllocError, Global};

/// The kernel threads of a table, in thread order, with the other ends of their pages and rings in
/// the same order.
#[derive(Drop)]
pub struct Team {
    /// The kernel threads.
    pub threads: Vec<KernelThread>,
    /// The first observer of each thread's page.
    pub observers: Vec<Observer>,
    /// The end of each thread's ring that sends.
    pub senders: Vec<Sender>,
    /// The second observer of each thread's page.
    pub watchers: Vec<Observer>,
}

/// A team of kernel threads that keep no journals, with the other ends as of a `Team`.
#[derive(Drop)]
pub struct BareTeam {
    /// The kernel threads.
    pub threads: Vec<BareThread>,
    /// The first observer of each thread's page.
    pub observers: Vec<Observer>,
    /// The end of each thread's ring that sends.
    pub senders: Vec<Sender>,
    /// The second observer of each thread's page.
    pub watchers: Vec<Observer>,
}

/// A team of kernel threads, one for each of the table's: each with a page, a ring and a queue of
/// its own, and with one share of the queue of each other thread of its task. Fails only when out
/// of memory.
pub fn open_threads(alloc: Global, config: &Config) -> Result<Team, AllocError>
    ensures count { IfOk result (λ team. length team.threads.items ≡ threads_in config.now.tasks) }
    ensures opened { IfOk result (λ team.
        AreOpened team.threads.items team.observers.items team.senders.items team.watchers.items) }
    ensures team { IfOk result (λ team. IsTeam (map (λ k. place_of k.thread) team.threads.items)) }
    ensures thieves { IfOk result (λ team. AreLinked config.now.tasks team.threads.items) }
{
    let BareTeam {
        threads,
        observers,
        senders,
        watchers,
    } = open_bare_threads(alloc, config)?;
    let threads = with_journals(alloc, threads)?;
    Ok(Team {
        threads,
        observers,
        senders,
        watchers,
    })
}

/// The same team, of threads that keep no journals. Fails only when out of memory.
pub fn open_bare_threads(alloc: Global, config: &Config) -> Result<BareTeam, AllocError>
    ensures count { IfOk result (λ team. length team.threads.items ≡ threads_in config.now.tasks) }
    ensures opened { IfOk result (λ team.
        AreOpened team.threads.items team.observers.items team.senders.items team.watchers.items) }
    ensures team { IfOk result (λ team. IsTeam (map (λ k. place_of k.thread) team.threads.items)) }
    ensures thieves { IfOk result (λ team. AreLinked config.now.tasks team.threads.items) }
{
    let BareTeam {
        mut threads,
        observers,
        senders,
        watchers,
    } = open_each(alloc, config.threads())?;
    link_tasks(config, threads.as_mut_slice())?;
    Ok(BareTeam {
        threads,
        observers,
        senders,
        watchers,
    })
}

/// The same threads, in the same order, each with a journal. Fails only when out of memory.
fn with_journals(alloc: Global, threads: Vec<BareThread>) -> Result<Vec<KernelThread>, AllocError>
    requires fresh { Each (λ thread. IsFresh (unlinked thread)) threads.items }
    ensures same { IfOk result (λ kept. kept.items ≡ threads.items) }
{
    let mut kept = Vec::new(alloc);
    for thread in threads {
        kept.push(KernelThread::new(alloc, thread))?;
    }
    Ok(kept)
}

/// That many threads, which have no thieves yet.
fn open_each(alloc: Global, count: usize) -> Result<BareTeam, AllocError>
    requires { count ≤ MOST_THREADS }
    ensures count { IfOk result (λ team. length team.threads.items ≡ count) }
    ensures opened { IfOk result (λ team.
        AreOpened team.threads.items team.observers.items team.senders.items team.watchers.items) }
    ensures fresh { IfOk result (λ team. Each IsFresh team.threads.items) }
{
    let mut threads = Vec::new(alloc);
    let mut observers = Vec::new(alloc);
    let mut senders = Vec::new(alloc);
    let mut watchers = Vec::new(alloc);
    for number in 0..count {
        let Opened {
            thread,
            observer,
            watcher,
            sender,
        } = open_thread(alloc, number as u8)?;
        threads.push(thread)?;
        observers.push(observer)?;
        senders.push(sender)?;
        watchers.push(watcher)?;
    }
    Ok(BareTeam {
        threads,
        observers,
        senders,
        watchers,
    })
}

/// The threads of each task get their thieves.
fn link_tasks(config: &Config, threads: &mut [BareThread]) -> Result<(), AllocError>
    requires count { length threads.old ≡ threads_in config.now.tasks }
    requires fresh { Each IsFresh threads.old }
    ensures same { IfOk result (λ _. map unlinked threads.new ≡ map unlinked threads.old) }
    ensures idle { IfOk result (λ _. Each StoleNothing threads.new) }
    ensures team { IfOk result (λ _. IsTeam (map (λ k. place_of k.thread) threads.new)) }
    ensures thieves { IfOk result (λ _. AreLinked config.now.tasks threads.new) }
{
    config.limits();
    for t in 0..config.tasks() {
        let (first, count) = config.threads_of(t);
        link_task(threads, first, count)?;
    }
    Ok(())
}
