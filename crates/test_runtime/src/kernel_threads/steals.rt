//! A turn's search for work: first in its own queue, then with each other thread of its task, from
//! the next one on.
ghost use Rattle.std.specs.Prelude.{map};
ghost use Rattle.cal_kthread.specs.Team.{IsTeam, place_of};

use super::{Step, THREE_THREADS, all_steps, request};
use crate::one_thread::record;
use cal_command::{Command, Sender};
use cal_kthread::{Entry, KernelThread, open_threads};
use cal_machine::Config;
use std::test::Fail;

/// What a thread publishes at its place that took one Run and has nothing left to do.
fn published(place: u64, running: u64, misses: u64, stamp: u64) -> Entry {
    Entry::Published(place, record([1, running, 0, 0, 0, misses, stamp, 0, 0]))
}

/// The steps of a team of three, of which the last steals.
fn are_made(threads: &mut Vec<KernelThread>, senders: &mut Vec<Sender>) -> bool
    requires { IsTeam (map (λ t. place_of t.thread) threads.old.items) }
{
    let steps = [
        // Of each, the first request becomes the front; the second one stays in the queue.
        Step::Arrive(0, 10, request(10, 1)),
        Step::Arrive(0, 20, request(11, 1)),
        Step::Arrive(1, 10, request(20, 1)),
        Step::Arrive(1, 20, request(21, 1)),
        // The next thread after the last of its task is the first.
        Step::Send(2, Command::Run(3)),
        Step::Turn(2, 30),
        Step::Turn(2, 40),
        // With a request of its own it steals none.
        Step::Arrive(0, 50, request(12, 1)),
        Step::Arrive(2, 60, request(30, 1)),
        Step::Turn(2, 70),
        Step::Turn(2, 80),
    ];
    all_steps(threads, senders, &steps)
}

/// Whether the last of three stole from the first, then from the second, and again from the first
/// once it had served its own.
fn last_stole_in_turn(threads: &[KernelThread]) -> bool {
    let journal = [
        Entry::Took(1, Command::Run(3)),
        Entry::Stole { from: 0, id: 11 },
        Entry::Served { id: 11 },
        published(1, 4, 3, 30),
        Entry::Stole { from: 1, id: 21 },
        Entry::Served { id: 21 },
        published(2, 4, 6, 40),
        Entry::Arrived(request(30, 1)),
        Entry::Served { id: 30 },
        published(3, 4, 9, 60),
        Entry::Stole { from: 0, id: 12 },
        Entry::Served { id: 12 },
        published(4, 4, 12, 70),
        Entry::Yielded,
        published(5, 0, 12, 80),
    ];
    match threads {
        [_, _, last] => last.journal()[..] == journal[..],
        _ => false,
    }
}

/// Bodies that are refused here: a thread that tries to steal before it looks into its own queue,
/// one that tries the last of the others first, and one that tries the first of them alone.
#[test]
fn own_queue_then_the_next_thread_first(rt: HostRuntime) -> Result<(), Fail> {
    let config = Config::read(rt.alloc(), THREE_THREADS)?;
    let mut team = open_threads(rt.alloc(), &config)?;
    assert!(rt; are_made(&mut team.threads, &mut team.senders));
    assert!(rt; last_stole_in_turn(team.threads.as_slice()));
    Ok(())
}
