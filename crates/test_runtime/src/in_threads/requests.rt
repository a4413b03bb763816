//! Where the requests of a run in threads stand at its end.

use super::{PREEMPTION, PREEMPTION_TABLE, run};
use crate::same::assert_same;
use cal_kthread::Entry;
use cal_machine::Config;
use cal_policy::{PassEntry, Verdict, audit};
use cal_run::Outcome;
use cal_threads::FreeGate;
use std::alloc::{AllocError, Global};
use std::process::Abort;
use std::test::Fail;

/// How many entries of the journal tell that this request was served.
fn served_in(journal: &[Entry], wanted: u64) -> usize {
    journal
        .iter()
        .filter(|it| **it == (Entry::Served { id: wanted }))
        .count()
}

/// In how many places the id stands: entries that it was served, and requests that are left.
fn places_of(outcome: &Outcome, wanted: u64) -> usize {
    let mut places = 0_usize;
    for journal in outcome.journals.as_slice() {
        places = places.saturating_add(served_in(journal.as_slice(), wanted));
    }
    for left in outcome.left.as_slice() {
        let stand = left.as_slice().iter().filter(|it| it.id == wanted).count();
        places = places.saturating_add(stand);
    }
    places
}

/// Each id of these stands in one place.
fn assert_each_once<R: Abort>(rt: &R, outcome: &Outcome, first: u64, count: u64) {
    for id in first..first.saturating_add(count) {
        assert_same(rt, (id, places_of(outcome, id)), (id, 1));
    }
}

/// There are seven passes, and the audit says that they are legal.
fn assert_legal<R: Abort + AllocGlobal>(rt: &R, history: &[PassEntry]) -> Result<(), Fail> {
    let config = Config::read(rt.alloc(), PREEMPTION_TABLE)?;
    let verdict = audit(rt.alloc(), &config, history)?;
    assert_same(rt, (history.len(), verdict), (7, Verdict::Legal));
    Ok(())
}

/// What is so of each run in threads of the preemption: seven passes, legal ones, and each request
/// served once or left in one place.
#[test]
fn sim_is_legal(rt: HostRuntime) -> Result<(), Fail> {
    let outcome = run(&rt, PREEMPTION_TABLE, PREEMPTION, &FreeGate)??;
    assert_each_once(&rt, &outcome, 1, 3);
    assert_legal(&rt, outcome.history.as_slice())
}

/// Four cores and a latency-critical task of four threads.
const FOUR_THREADS: &[u8] =
    b"cores = 4\nbandwidth_limit = 1000\n[[task]]\nkind = \"lc\"\nguaranteed = 4\nlimit = 4\n\
    delay = 10\nrequest = 1000\n";

/// 100 passes at 100, 110, .. 1090; 200 turns at 105, 110, .. 1100; request `j` to thread 0 before
/// turn `j`, for each `j` below 100.
fn rows(alloc: Global) -> Result<String, AllocError> {
    let mut rows = String::new(alloc);
    writeln!(rows, "caladan-arrivals,1")?;
    for p in 0_u64..100 {
        writeln!(rows, "pass,{},0", 100 + 10 * p)?;
    }
    for j in 0_u64..200 {
        writeln!(rows, "turn,{}", 105 + 5 * j)?;
    }
    for j in 0_u64..100 {
        writeln!(rows, "request,0,{j},{j},2,0")?;
    }
    writeln!(rows, "end,400")?;
    Ok(rows)
}

/// Each of a hundred requests to one of four threads stands in one place at the end.
#[test]
fn hundred_requests(rt: HostRuntime) -> Result<(), Fail> {
    let rows = rows(rt.alloc())?;
    let outcome = run(&rt, FOUR_THREADS, rows.as_bytes(), &FreeGate)??;
    assert_each_once(&rt, &outcome, 0, 100);
    Ok(())
}
