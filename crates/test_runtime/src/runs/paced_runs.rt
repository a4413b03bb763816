//! Paced runs that were worked out by hand: two passes to a turn, a slowed sibling, and memory that
//! bears less than two threads would bring.

ghost use Rattle.cal_paced.specs.Paced.{IsPlan};

use crate::one_thread::{ONE_THREAD, first_passes};
use crate::same::assert_same;
use cal_kthread::Entry;
use cal_machine::Config;
use cal_paced::{Figure, Plan, WHOLE, paced_arrivals, paced_end_by};
use cal_policy::Policy;
use cal_run::{RunEnd, lockstep_end};
use cal_trace::read_arrivals;
use std::alloc::{AllocError, Global};
use std::process::Abort;
use std::test::Fail;

/// The end of the paced run of these arrivals, where there is memory.
fn run(alloc: Global, table: &[u8], rows: &[u8], plan: Plan) -> Option<RunEnd>
    requires { IsPlan plan }
{
    let Ok(config) = Config::read(alloc, table) else {
        return None;
    };
    let Ok(arrivals) = read_arrivals(alloc, &config, rows) else {
        return None;
    };
    let Ok(mut given) = paced_arrivals(alloc, arrivals, plan.pace) else {
        return None;
    };
    paced_end_by(alloc, &config, Policy::Caladan, &plan, &mut given).ok()
}

/// The clock and the figure of each pass.
fn passes(alloc: Global, end: &RunEnd) -> Result<Vec<[u64; 2]>, AllocError> {
    let mut passes = Vec::new(alloc);
    for entry in end.history.as_slice() {
        passes.push([entry.input.now, entry.input.bandwidth])?;
    }
    Ok(passes)
}

/// What each record of a thread shows: `running`, `queued`, `started` and `misses`.
fn records(alloc: Global, end: &RunEnd, k: usize) -> Result<Vec<[u64; 4]>, AllocError> {
    let mut records = Vec::new(alloc);
    let Some(journal) = end.journals.as_slice().get(k) else {
        return Ok(records);
    };
    for entry in journal.as_slice() {
        if let Entry::Published(_, shown) = entry {
            records.push([shown.running, shown.queued, shown.started, shown.misses])?;
        }
    }
    Ok(records)
}

/// In which of its turns, from 0, a thread served a request, and in which it gave up its core.
fn ends(alloc: Global, end: &RunEnd, k: usize) -> Result<Vec<(u64, Entry)>, AllocError> {
    let mut ends = Vec::new(alloc);
    let Some(journal) = end.journals.as_slice().get(k) else {
        return Ok(ends);
    };
    let mut turn: u64 = 0;
    for entry in journal.as_slice() {
        match entry {
            Entry::Published(_, _) => turn = turn.saturating_add(1),
            Entry::Served { .. } | Entry::Yielded => ends.push((turn, *entry))?,
            _ => {}
        }
    }
    Ok(ends)
}

/// Two passes and turns, and a request for one turn, with figures.
const TWO_TURNS: &[u8] = b"caladan-arrivals,1
pass,100,5
pass,200,7
turn,150
turn,250
request,0,0,7,1,3
end,5
";

// The turns are 100 apart; so the first one's passes are 66 and 33 before it, and the second one's
// too. The third pass sees the request that came with turn 0, and turn 1 serves it.
#[test]
fn two_passes_to_a_turn(rt: HostRuntime) -> Result<(), Fail> {
    let plan = Plan {
        pace: 2,
        ..Plan::NEUTRAL
    };
    let Some(end) = run(rt.alloc(), ONE_THREAD, TWO_TURNS, plan) else {
        return Err(Fail::new("there is memory"));
    };
    let meant = [[84, 5], [117, 5], [184, 7], [217, 7]];
    assert_same(&rt, passes(rt.alloc(), &end)?.as_slice(), meant.as_slice());
    let shown = [[0, 1, 0, 0], [1, 0, 0, 3]];
    assert_same(
        &rt,
        records(rt.alloc(), &end, 0)?.as_slice(),
        shown.as_slice(),
    );
    let served = [(1, Entry::Served { id: 7 })];
    assert_same(
        &rt,
        ends(rt.alloc(), &end, 0)?.as_slice(),
        served.as_slice(),
    );
    Ok(())
}

/// Two cores, which are siblings, and one latency-critical task of two threads.
const TWO_THREADS: &[u8] =
    b"cores = 2\nbandwidth_limit = 1000\n[[task]]\nkind = \"lc\"\nguaranteed = 2\nlimit = 2\n\
    delay = 10\nrequest = 10000\n";

/// Eight turns, and a request for each of two threads before turn 0: for four turns of 100 misses,
/// and for three of 60.
const TWO_REQUESTS: &[u8] = b"caladan-arrivals,1
pass,100,0
pass,200,0
pass,300,0
pass,400,0
pass,500,0
pass,600,0
pass,700,0
pass,800,0
turn,150
turn,250
turn,350
turn,450
turn,550
turn,650
turn,750
turn,850
request,0,0,1,4,100
request,1,0,2,3,60
end,18
";

// Beside a sibling at work a turn does half of its work. Thread 0 begins in turn 1, alone. Thread 1
// gets the core beside it in turn 2, and comes to a whole turn's work in turn 3, when it takes its
// request. So both show one from turn 3 on, and work in every second turn: in turn 5, where thread 0
// serves its request. From then on it is at work no more, though still slowed in turn 6, and thread 1
// is not slowed: it serves in turn 6. In turn 7 both find nothing.
#[test]
fn slowed_siblings(rt: HostRuntime) -> Result<(), Fail> {
    let plan = Plan {
        beside: WHOLE / 2,
        ..Plan::NEUTRAL
    };
    let Some(end) = run(rt.alloc(), TWO_THREADS, TWO_REQUESTS, plan) else {
        return Err(Fail::new("there is memory"));
    };
    let first = [
        [0, 1, 0, 0],
        [1, 0, 250, 100],
        [1, 0, 250, 200],
        [1, 0, 250, 300],
        [1, 0, 250, 300],
        [1, 0, 0, 400],
        [1, 0, 0, 400],
        [0, 0, 0, 400],
    ];
    assert_same(
        &rt,
        records(rt.alloc(), &end, 0)?.as_slice(),
        first.as_slice(),
    );
    let second = [
        [0, 1, 0, 0],
        [0, 1, 0, 0],
        [2, 1, 0, 0],
        [2, 0, 450, 60],
        [2, 0, 450, 60],
        [2, 0, 450, 120],
        [2, 0, 0, 180],
        [0, 0, 0, 180],
    ];
    assert_same(
        &rt,
        records(rt.alloc(), &end, 1)?.as_slice(),
        second.as_slice(),
    );
    let served = [(5, Entry::Served { id: 1 }), (7, Entry::Yielded)];
    assert_same(
        &rt,
        ends(rt.alloc(), &end, 0)?.as_slice(),
        served.as_slice(),
    );
    let served = [(6, Entry::Served { id: 2 }), (7, Entry::Yielded)];
    assert_same(
        &rt,
        ends(rt.alloc(), &end, 1)?.as_slice(),
        served.as_slice(),
    );
    Ok(())
}

// The memory bears 100 misses in a turn. Both at work would bring 160, so each does 625 thousandths:
// nothing in turn 3, with 1,250 a whole turn's work in turn 4, nothing with 875 in turn 5, and with
// 1,500 the last of both in turn 6. Each pass gets what the turn before showed.
#[test]
fn memory_bears_less(rt: HostRuntime) -> Result<(), Fail> {
    let plan = Plan {
        memory: Some(100),
        figure: Figure::Shown,
        ..Plan::NEUTRAL
    };
    let Some(end) = run(rt.alloc(), TWO_THREADS, TWO_REQUESTS, plan) else {
        return Err(Fail::new("there is memory"));
    };
    let first = [
        [0, 1, 0, 0],
        [1, 0, 250, 100],
        [1, 0, 250, 200],
        [1, 0, 250, 200],
        [1, 0, 250, 300],
        [1, 0, 250, 300],
        [1, 0, 0, 400],
        [0, 0, 0, 400],
    ];
    assert_same(
        &rt,
        records(rt.alloc(), &end, 0)?.as_slice(),
        first.as_slice(),
    );
    let second = [
        [0, 1, 0, 0],
        [0, 1, 0, 0],
        [2, 0, 350, 60],
        [2, 0, 350, 60],
        [2, 0, 350, 120],
        [2, 0, 350, 120],
        [2, 0, 0, 180],
        [0, 0, 0, 180],
    ];
    assert_same(
        &rt,
        records(rt.alloc(), &end, 1)?.as_slice(),
        second.as_slice(),
    );
    let meant = [
        [100, 0],
        [200, 0],
        [300, 100],
        [400, 160],
        [500, 0],
        [600, 160],
        [700, 0],
        [800, 160],
    ];
    assert_same(&rt, passes(rt.alloc(), &end)?.as_slice(), meant.as_slice());
    Ok(())
}

/// The run of lockstep on these arrivals, where there is memory.
fn in_lockstep(alloc: Global, table: &[u8], rows: &[u8]) -> Option<RunEnd> {
    let config = Config::read(alloc, table).ok()?;
    let arrivals = read_arrivals(alloc, &config, rows).ok()?;
    lockstep_end(alloc, &config, &arrivals).ok()
}

// The passes of the file stand in the middle between its turns. So at one pass to a turn, where nobody
// slows anybody, the run is that of lockstep: its passes, what they did, and each journal.
#[test]
fn neutral_is_lockstep(rt: HostRuntime) -> Result<(), Fail> {
    let paced = run(rt.alloc(), TWO_THREADS, TWO_REQUESTS, Plan::NEUTRAL);
    let plain = in_lockstep(rt.alloc(), TWO_THREADS, TWO_REQUESTS);
    let (Some(paced), Some(plain)) = (paced, plain) else {
        return Err(Fail::new("there is memory"));
    };
    let clocks = passes(rt.alloc(), &plain)?;
    assert_same(
        &rt,
        passes(rt.alloc(), &paced)?.as_slice(),
        clocks.as_slice(),
    );
    let did = first_passes(rt.alloc(), plain.history.as_slice(), 8)?;
    let does = first_passes(rt.alloc(), paced.history.as_slice(), 8)?;
    assert_same(&rt, does.as_slice(), did.as_slice());
    for (k, journal) in plain.journals.as_slice().iter().enumerate() {
        let same = paced.journals.as_slice().get(k).map(|kept| kept.as_slice());
        assert_same(&rt, same, Some(journal.as_slice()));
    }
    assert_same(
        &rt,
        paced.watched.as_slice().len(),
        plain.watched.as_slice().len(),
    );
    Ok(())
}
