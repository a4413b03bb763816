//! The scheduler over pages and rings of broken threads: publishers that stop in the midst of a
//! publication, rings from which nobody takes, records that acknowledge commands which were never
//! sent or show a core that is not there.
//!
//! It prints a line for the runs of each kind: what the looks came to, how many of them were not
//! what their page had, in how many runs the scheduler went on with the other threads, how many
//! histories are legal. All of it follows from the numbers of steps, passes and threads, so the
//! file `stdout` was written by hand.

mod broken;
mod counts;
mod run;
mod thread;

use crate::false_pages::broken::{Broken, STEPS};
use crate::false_pages::counts::Counts;
use crate::false_pages::run::run_once;
use std::alloc::Global;
use std::io;
use std::io::Write;

/// How many passes a run has.
const PASSES: u64 = 100;

/// Two cores; two threads of a latency-critical task, and two of a best-effort one.
const MIXED: &[u8] = b"cores = 2
bandwidth_limit = 1000
task = [
{ kind = \"lc\", guaranteed = 1, limit = 2, delay = 10, request = 50 },
{ kind = \"be\", guaranteed = 0, limit = 2, delay = 10, request = 0 },
]
";

/// Four latency-critical tasks of one thread, and a core for each.
const APART: &[u8] = b"cores = 4
bandwidth_limit = 1000
task = [
{ kind = \"lc\", guaranteed = 1, limit = 1, delay = 10, request = 50 },
{ kind = \"lc\", guaranteed = 1, limit = 1, delay = 10, request = 50 },
{ kind = \"lc\", guaranteed = 1, limit = 1, delay = 10, request = 50 },
{ kind = \"lc\", guaranteed = 1, limit = 1, delay = 10, request = 50 },
]
";

/// Makes the runs of each kind, and writes what came of them.
pub fn tell(rt: &HostRuntime) -> io::Result<()> {
    let alloc = rt.alloc();
    let sound = over(alloc, 1, |_| Broken::Nothing)?;
    write_line(rt, "all are sound", sound)?;
    // A run for each number of steps that a publication may have made as the pass comes.
    let one = over(
        alloc,
        u64::from(STEPS),
        |n| Broken::OneStops { steps: step(n) },
    )?;
    write_line(rt, "one stops for a pass", one)?;
    let all = over(
        alloc,
        u64::from(STEPS),
        |n| Broken::AllStop { steps: step(n) },
    )?;
    write_line(rt, "all stop for a pass", all)?;
    // For each of these, and each pass from which on no further step is made.
    let stays = over(
        alloc,
        PASSES * u64::from(STEPS),
        |n| Broken::OneStays {
            steps: step(n),
            from: n / u64::from(STEPS),
        },
    )?;
    write_line(rt, "one stops for ever", stays)?;
    // For each pass from which on one thread's records are false.
    let ahead = over(alloc, PASSES, |from| Broken::OneAhead { from })?;
    write_line(rt, "one acknowledges 2^64 - 1", ahead)?;
    let foreign = over(alloc, PASSES, |from| Broken::OneForeign { from })?;
    write_line(rt, "one shows a core that is not there", foreign)?;
    let mut full = Counts::default();
    let broken = Broken::TakeNothing { until: PASSES };
    run_once(alloc, APART, 2 * PASSES, broken, &mut full)?;
    write_line(rt, "rings are full", full)?;
    writeln!(&mut rt.stdout(), "rings are full: sent {}", full.sent)
}

fn write_line(rt: &HostRuntime, kind: &str, counts: Counts) -> io::Result<()> {
    writeln!(&mut rt.stdout(), "{kind}: {counts}")
}

/// What comes of so many runs, of which run `n` has the threads that are broken so.
fn over<F: Fn(u64) -> Broken>(alloc: Global, runs: u64, broken: F) -> io::Result<Counts>
    requires { F.IsAlwaysCallable broken }
{
    let mut counts = Counts::default();
    for n in 0..runs {
        run_once(alloc, MIXED, PASSES, broken(n), &mut counts)?;
    }
    Ok(counts)
}

/// The number of steps of run `n`, where each number has its turn.
fn step(n: u64) -> u8 {
    (n % u64::from(STEPS)) as u8
}
