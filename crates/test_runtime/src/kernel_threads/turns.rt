//! Turns of one kernel thread.
ghost use Rattle.std.specs.Prelude.{◌≡◌, length, map};
ghost use Rattle.cal_kthread.specs.Team.{IsTeam, place_of};
ghost use Rattle.cal_machine.specs.Tasks.{threads_in};

use super::{Step, all_steps, request};
use crate::one_thread::{ONE_THREAD, record};
use crate::same::assert_same;
use cal_command::Command;
use cal_kthread::{Entry, KernelThread, Request, end_all, open_threads, settle};
use cal_machine::Config;
use std::alloc::Global;
use std::process::Abort;
use std::test::Fail;

/// The first thread did this.
fn assert_did<R: Abort>(rt: &R, threads: &[KernelThread], journal: &[Entry]) {
    let did = threads.first().map(|thread| thread.journal());
    assert_same(rt, did, Some(journal));
}

/// What the only thread has left, once its turns are over. None also where there is no request.
fn left_after(
    alloc: Global,
    config: &Config,
    threads: Vec<KernelThread>,
) -> Result<Option<Request>, Fail>
    requires count { length threads.items ≡ threads_in config.now.tasks }
    requires team { IsTeam (map (λ t. place_of t.thread) threads.items) }
{
    let mut ends = end_all(alloc, threads)?;
    settle(config, ends.as_mut_slice());
    match ends.pop() {
        Some(mut end) => Ok(end.left()),
        None => Err(Fail::new("there is no thread")),
    }
}

/// A request of two turns, which is served: nothing is left.
#[test]
fn one_request_served(rt: HostRuntime) -> Result<(), Fail> {
    let config = Config::read(rt.alloc(), ONE_THREAD)?;
    let mut team = open_threads(rt.alloc(), &config)?;
    let request = Request {
        id: 1,
        work: 2,
        misses: 7,
    };
    let steps = [
        Step::Arrive(0, 100, request),
        Step::Send(0, Command::Run(0)),
        Step::Turn(0, 120),
        Step::Turn(0, 140),
        Step::Turn(0, 150),
    ];
    assert!(rt; all_steps(&mut team.threads, &mut team.senders, &steps));
    let journal = [
        Entry::Arrived(request),
        Entry::Published(1, record([0, 0, 1, 100, 0, 0, 100, 0, 0])),
        Entry::Took(1, Command::Run(0)),
        Entry::Published(2, record([1, 1, 0, 0, 120, 7, 120, 0, 0])),
        Entry::Served { id: 1 },
        Entry::Published(3, record([1, 1, 0, 0, 0, 14, 140, 0, 0])),
        Entry::Yielded,
        Entry::Published(4, record([1, 0, 0, 0, 0, 14, 150, 0, 0])),
    ];
    assert_did(&rt, &team.threads, &journal);
    assert_same(&rt, left_after(rt.alloc(), &config, team.threads)?, None);
    Ok(())
}

/// A thread that yielded before it took its Park stays off when it takes it, and goes on a core by
/// the next Run.
#[test]
fn yield_before_park(rt: HostRuntime) -> Result<(), Fail> {
    let config = Config::read(rt.alloc(), ONE_THREAD)?;
    let mut team = open_threads(rt.alloc(), &config)?;
    let steps = [
        Step::Send(0, Command::Run(0)),
        Step::Turn(0, 205),
        Step::Send(0, Command::Park),
        Step::Send(0, Command::Run(0)),
        Step::Turn(0, 230),
        Step::Arrive(0, 240, request(5, 2)),
    ];
    assert!(rt; all_steps(&mut team.threads, &mut team.senders, &steps));
    let journal = [
        Entry::Took(1, Command::Run(0)),
        Entry::Yielded,
        Entry::Published(1, record([1, 0, 0, 0, 0, 0, 205, 0, 0])),
        Entry::Took(2, Command::Park),
        Entry::Published(2, record([2, 0, 0, 0, 0, 0, 230, 0, 0])),
        Entry::Arrived(request(5, 2)),
        Entry::Took(3, Command::Run(0)),
        Entry::Published(3, record([3, 1, 0, 0, 240, 3, 240, 0, 0])),
    ];
    assert_did(&rt, &team.threads, &journal);
    Ok(())
}
