//! All workers run at the same time and meet over their pages and rings; what the gate is asked.
//!
//! The gates show it: with the bodies `workers_on_one_thread` and `threads_share_nothing` their
//! questions come in another order, or not at all.

mod gates;
mod requests;

use cal_machine::Config;
use cal_run::{Outcome, SimFault};
use cal_threads::{Gate, simulate};
use cal_trace::read_arrivals;
use std::sync::Wait;
use std::test::Fail;
use std::thread::Threads;

/// Two cores, a latency-critical task of one thread and a best-effort task of two.
const PREEMPTION_TABLE: &[u8] =
    b"cores = 2\nbandwidth_limit = 1000\n[[task]]\nkind = \"lc\"\nguaranteed = 1\nlimit = 1\n\
    delay = 10\nrequest = 1000\n[[task]]\nkind = \"be\"\nguaranteed = 0\nlimit = 2\ndelay = 0\n\
    request = 0\n";

/// Seven passes and six turns, in which the latency-critical task takes a core from the other.
const PREEMPTION: &[u8] = b"caladan-arrivals,1
pass,100,0
pass,200,0
pass,300,0
pass,400,0
pass,500,0
pass,600,0
pass,700,0
turn,150
turn,250
turn,350
turn,450
turn,550
turn,650
request,0,2,3,1,0
request,1,0,1,9,0
request,2,0,2,9,0
end,16
";

/// What a run in threads of these arrivals answers.
fn run<R: Threads + Wait + Sync + AllocGlobal, G: Gate + Sync>(
    rt: &R,
    table: &[u8],
    rows: &[u8],
    gate: &G,
) -> Result<Result<Outcome, SimFault>, Fail> {
    let config = Config::read(rt.alloc(), table)?;
    let arrivals = read_arrivals(rt.alloc(), &config, rows)?;
    Ok(simulate(rt, rt.alloc(), &config, &arrivals, gate))
}
