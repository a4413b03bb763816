//! Calls that take memory, each made again where memory was refused to it.
//!
//! Its words name calls, which are made in their order on the input: a task table, the line `---`
//! and a trace. Before each try of a call it writes `(` to the standard error, and `)` after it, so
//! that whoever refuses memory can refuse it there alone. Where a call is refused, the line of its
//! fault is written and the same call is made again. Then its answer is written. tools/refusals
//! runs it with each allocation of each call refused.
#![tactic(auto)]

mod attempt;
mod copies;
mod engines;
mod full;
mod opening;
mod order;
mod policy;
mod reading;
mod runs;
mod scheduling;
mod table_and_trace;
mod texts;
mod turning;
mod worlds;
mod writing;

use attempt::{Stop, Tried, twice};
use std::env;
use std::io::Read;
use std::process::ExitCode;
use std::sync::Wait;
use std::thread::Threads;
use table_and_trace::TableAndTrace;

fn main(rt: HostRuntime) -> ExitCode {
    match call_each(&rt, &rt) {
        Ok(()) => ExitCode::from(0),
        Err(_) => ExitCode::from(2),
    }
}

/// Makes each call that the words name, and again where it was refused.
fn call_each<H: Threads + Wait + Sync>(host: &H, rt: &HostRuntime) -> Tried<()> {
    let mut text = Vec::new(rt.alloc());
    rt.stdin().read_to_end(&mut text)?;
    let given = TableAndTrace::of(rt.alloc(), text.as_slice())?;
    for word in env::args(rt)?.skip(1) {
        twice(|| call(host, rt, word.as_str(), &given))?;
    }
    Ok(())
}

/// Makes a call and writes its answer.
fn call<H: Threads + Wait + Sync>(
    host: &H,
    rt: &HostRuntime,
    word: &str,
    given: &TableAndTrace,
) -> Tried<()> {
    match word {
        "simulate" => runs::in_threads(host, rt, given),
        "run_sim" => engines::in_threads(host, rt, given),
        _ => call_reading(rt, word, given),
    }
}

/// Readings, copies and audits.
fn call_reading(rt: &HostRuntime, word: &str, given: &TableAndTrace) -> Tried<()> {
    match word {
        "read_table" => reading::table(rt, given),
        "read_arrivals" => reading::arrivals(rt, given),
        "read_history" => reading::history(rt, given),
        "read_signals" => reading::signals(rt, given),
        "signal_rows" => reading::signal_rows(rt, given),
        "copy_table" => copies::table(rt, given),
        "copy_entries" => copies::entries(rt, given),
        "copy_events" => copies::events(rt, given),
        "audit" => policy::audit_whole(rt, given),
        "auditor" => policy::audit_in_turn(rt, given),
        _ => call_opening(rt, word, given),
    }
}

/// Openings, turns, passes and worlds.
fn call_opening(rt: &HostRuntime, word: &str, given: &TableAndTrace) -> Tried<()> {
    match word {
        "open_page" => opening::page(rt),
        "open_watched" => opening::watched(rt),
        "open_ring" => opening::ring(rt),
        "open_book" => opening::book(rt, given),
        "open_guard" => opening::guard(rt, given),
        "open_threads" => scheduling::threads(rt, given),
        "scheduler" => scheduling::scheduler(rt, given),
        "watch" => scheduling::watch(rt, given),
        "pass" => turning::passes(rt, given),
        "turn" => turning::turns(rt, given),
        "start" => worlds::start(rt, given),
        "step" => worlds::steps(rt, given),
        "run_events" => worlds::whole(rt, given),
        _ => call_whole(rt, word, given),
    }
}

/// Whole runs, and what is written of them.
fn call_whole(rt: &HostRuntime, word: &str, given: &TableAndTrace) -> Tried<()> {
    match word {
        "linearise" => order::of_run(rt, given),
        "lockstep" => runs::on_one_thread(rt, given),
        "write_history" => writing::history(rt, given),
        "write_report" => writing::report(rt, given),
        "decide" => engines::decided(rt, given),
        "run_audit" => engines::audited(rt, given),
        "run_lockstep" => engines::on_one_thread(rt, given),
        "measure" => engines::measured(rt, given),
        "measure_replayed" => engines::replayed(rt, given),
        "move" => engines::moved(rt, given),
        "full_history" => full::full_history(rt, given),
        "full_journal" => full::full_journal(rt, given),
        _ => Err(Stop::Wrong),
    }
}
