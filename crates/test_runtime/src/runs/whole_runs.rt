//! Whole runs on one thread: the rounds of the watch, and a theft.

use crate::one_thread::{ONE_THREAD, does, first_passes, grant, record};
use crate::same::assert_same;
use cal_command::Command;
use cal_kthread::Entry;
use cal_machine::Config;
use cal_run::{Outcome, lockstep};
use cal_signal::Look;
use cal_trace::read_arrivals;
use std::alloc::Global;
use std::process::Abort;
use std::test::Fail;

/// Two passes, two turns, and one request before the first turn.
const ARRIVALS: &[u8] =
    b"caladan-arrivals,1\npass,100,0\npass,116,0\nturn,105\nturn,125\nrequest,0,0,7,1,3\nend,5\n";

/// The run of these arrivals.
fn run(alloc: Global, table: &[u8], rows: &[u8]) -> Result<Outcome, Fail> {
    let config = Config::read(alloc, table)?;
    let arrivals = read_arrivals(alloc, &config, rows)?;
    Ok(lockstep(alloc, &config, &arrivals)?)
}

/// The place of the record that a round of the watch found of the one thread, and since when a
/// request waits there.
fn found(outcome: &Outcome, round: usize) -> Option<(u64, u64)> {
    match outcome.watched.as_slice().get(round)?.as_slice() {
        [Look::Whole { number, rec }] => Some((*number, rec.oldest)),
        _ => None,
    }
}

// Each round ends with a look: round 0 finds the first turn's record, round 1 the second's. Refused
// here: a second observer that gives the zero record and forgets what it loaded
// (`second_observer_gives_zero`).
#[test]
fn watched_rounds(rt: HostRuntime) -> Result<(), Fail> {
    let outcome = run(rt.alloc(), ONE_THREAD, ARRIVALS)?;
    let rounds = [found(&outcome, 0), found(&outcome, 1), found(&outcome, 2)];
    assert_same(&rt, rounds, [Some((1, 105)), Some((2, 0)), None]);
    Ok(())
}

/// Two cores and one latency-critical task of two threads.
const TWO_THREADS: &[u8] =
    b"cores = 2\nbandwidth_limit = 1000\n[[task]]\nkind = \"lc\"\nguaranteed = 2\nlimit = 2\n\
    delay = 10\nrequest = 1000\n";

/// Three requests for thread 0, and none for thread 1.
const ONE_IS_BUSY: &[u8] = b"caladan-arrivals,1
pass,100,0
pass,200,0
pass,300,0
turn,150
turn,250
turn,350
request,0,0,1,9,0
request,0,1,2,9,0
request,0,2,3,1,0
end,9
";

/// What this thread did, where there is such a thread.
fn journal_of(outcome: &Outcome, k: usize) -> Option<&[Entry]> {
    Some(outcome.journals.as_slice().get(k)?.as_slice())
}

/// Each thread is granted a core, and the second one steals and serves in its third turn.
fn assert_stolen<R: Abort + AllocGlobal>(rt: &R, outcome: &Outcome) -> Result<(), Fail> {
    let passes = first_passes(rt.alloc(), outcome.history.as_slice(), 4)?;
    let meant = [
        does(None, None),
        does(grant(0, 0, 3), None),
        does(grant(1, 1, 1), None),
    ];
    assert_same(rt, passes.as_slice(), meant.as_slice());
    let journal = [
        Entry::Published(1, record([0, 0, 0, 0, 0, 0, 150, 0, 0])),
        Entry::Published(2, record([0, 0, 0, 0, 0, 0, 250, 0, 0])),
        Entry::Took(1, Command::Run(1)),
        Entry::Stole { from: 0, id: 3 },
        Entry::Served { id: 3 },
        Entry::Published(3, record([1, 2, 0, 0, 0, 0, 350, 0, 0])),
    ];
    assert_same(rt, journal_of(outcome, 1), Some(journal.as_slice()));
    Ok(())
}

// The thread that was granted a core last steals the newest request and serves it in one turn.
// Refused here: a thief that never steals (`never_steals`).
#[test]
fn steal_last_request(rt: HostRuntime) -> Result<(), Fail> {
    let outcome = run(rt.alloc(), TWO_THREADS, ONE_IS_BUSY)?;
    assert_stolen(&rt, &outcome)
}
