//! A history to its last pass, and a journal to its last turn.

use crate::attempt::{Stop, Tried};
use crate::scheduling::open;
use crate::table_and_trace::TableAndTrace;
use cal_kthread::TurnFault;
use cal_sched::PassFault;
use std::io::Write;

/// More than the passes of a full history, and the turns of a full journal.
const MOST: u64 = 1_100_000;

/// Passes until one is refused.
pub fn full_history(rt: &HostRuntime, given: &TableAndTrace) -> Tried<()> {
    let mut scheduler = open(rt.alloc(), given)?.scheduler;
    for pass in 1..=MOST {
        if let Err(fault) = scheduler.pass(pass, 0) {
            let passes = scheduler.history().len();
            writeln!(
                &mut rt.stdout(),
                "pass {pass}: {fault}, after {passes} passes"
            )?;
            return match fault {
                PassFault::HistoryFull => Ok(()),
                PassFault::Memory => Err(Stop::Wrong),
            };
        }
    }
    Err(Stop::Wrong)
}

/// Turns of the first thread until one is refused.
pub fn full_journal(rt: &HostRuntime, given: &TableAndTrace) -> Tried<()> {
    let threads = open(rt.alloc(), given)?.threads;
    let mut thread = threads.into_iter().next().ok_or(Stop::Wrong)?;
    for turn in 1..=MOST {
        let now = thread.clock().saturating_add(1);
        if let Err(fault) = thread.turn(now, None) {
            let entries = thread.journal().len();
            writeln!(
                &mut rt.stdout(),
                "turn {turn}: {fault}, after {entries} entries"
            )?;
            return match fault {
                TurnFault::JournalFull => Ok(()),
                TurnFault::Memory => Err(Stop::Wrong),
            };
        }
    }
    Err(Stop::Wrong)
}
