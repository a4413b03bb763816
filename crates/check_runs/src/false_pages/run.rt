//! One run: passes over the pages and the rings of its threads.

use crate::false_pages::broken::Broken;
use crate::false_pages::counts::Counts;
use crate::false_pages::thread::Thread;
use cal_machine::Config;
use cal_policy::{Action, Auditor, PassEntry, Verdict};
use cal_run::{Parts, Worker, open_parts};
use cal_sched::BareScheduler;
use cal_trace::read_arrivals;
use std::alloc::{AllocError, Global};
use std::io;

#[derive(Drop)]
struct Run {
    config: Config,
    scheduler: BareScheduler,
    history: Vec<PassEntry>,
    threads: Vec<Thread>,
    broken: Broken,
}

/// Makes so many passes over the table's threads, each after a turn of each thread, and adds what
/// came of them to the counts.
pub fn run_once(
    alloc: Global,
    table: &[u8],
    passes: u64,
    broken: Broken,
    counts: &mut Counts,
) -> io::Result<()> {
    let mut run = open(alloc, table, broken)?;
    let half = passes / 2;
    run.pass_often(0, half, counts)?;
    let before = run.taken();
    run.pass_often(half, passes, counts)?;
    let went_on = run.taken() > before;
    let verdict = audit_in_turn(alloc, &run.config, run.history.as_slice())?;
    counts.note_run(went_on, verdict, sent_in(run.history.as_slice()));
    Ok(())
}

fn refused() -> io::Error {
    io::Error::from(io::ErrorKind::InvalidInput)
}

fn open(alloc: Global, table: &[u8], broken: Broken) -> io::Result<Run> {
    let config = Config::read(alloc, table).or(Err(refused()))?;
    let arrivals = b"caladan-arrivals,1\nend,0\n";
    let arrivals = read_arrivals(alloc, &config, arrivals).or(Err(refused()))?;
    let Parts {
        scheduler,
        workers,
        ..
    } = open_parts(alloc, &config, &arrivals).or(Err(refused()))?;
    Ok(Run {
        config,
        scheduler,
        history: Vec::new(alloc),
        threads: threads_of(alloc, workers)?,
        broken,
    })
}

fn threads_of(alloc: Global, workers: Vec<Worker>) -> Result<Vec<Thread>, AllocError> {
    let mut threads = Vec::new(alloc);
    for worker in workers {
        let end = worker.thread.end();
        threads.push(Thread::new(end.publisher, end.taker))?;
    }
    Ok(threads)
}

impl Run {
    /// The passes from one to another.
    fn pass_often(&mut self, from: u64, to: u64, counts: &mut Counts) -> io::Result<()> {
        for pass in from..to {
            let now = pass.saturating_mul(10).saturating_add(1000);
            self.turn_each(pass, now);
            let entry = self
                .scheduler
                .pass(now.saturating_add(5), 0)
                .or(Err(refused()))?;
            self.note_looks(&entry, counts);
            self.history.push(entry)?;
        }
        Ok(())
    }

    fn turn_each(&mut self, pass: u64, now: u64) {
        for k in 0..self.threads.len() {
            self.threads[k].turn(self.broken.plan(k as u64, pass), now);
        }
    }

    /// Counts this pass and its looks.
    fn note_looks(&self, entry: &PassEntry, counts: &mut Counts) {
        counts.passes = counts.passes.saturating_add(1);
        for (thread, seen) in self.threads.iter().zip(entry.input.seen.as_slice().iter()) {
            counts.note(*seen, thread.wanted());
        }
    }

    /// How many commands the threads took that are sound to the end.
    fn taken(&self) -> u64 {
        let mut taken = 0_u64;
        for (k, thread) in self.threads.iter().enumerate() {
            if self.broken.spares(k as u64) {
                taken = taken.saturating_add(thread.taken);
            }
        }
        taken
    }
}

/// What an auditor says of a history, which is handed to it one pass after the other.
fn audit_in_turn(
    alloc: Global,
    config: &Config,
    history: &[PassEntry],
) -> Result<Verdict, AllocError> {
    let mut auditor = Auditor::open(alloc, config)?;
    for entry in history {
        auditor.next(config, entry);
    }
    Ok(auditor.verdict())
}

/// How many commands the passes sent.
fn sent_in(history: &[PassEntry]) -> u64 {
    let mut sent = 0_u64;
    for entry in history {
        let commands = entry.actions.as_slice().iter().filter(|it| matches!(
            it,
            Action::Grant { .. } | Action::Revoke { .. }
        ));
        sent = sent.saturating_add(commands.count() as u64);
    }
    sent
}
