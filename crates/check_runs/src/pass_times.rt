//! Times passes of the scheduler over pages and rings whose threads take what they are sent, work,
//! yield and ask again, and beside each pass a bare reading of the same pages.
//!
//! Its own words: `history` for a scheduler that keeps the entry of each pass, or `bare` for the
//! steps of one that makes none; then passes, and the five rates of `Rates` in order. Its input: a
//! task table. It prints nanoseconds a pass: of a bare reading, of a pass, of a pass in the first
//! and in the last tenth; and how many records were published and actions made a pass. A pass that
//! is refused ends it with an error: bench/measure_passes runs it, and nothing is promised of what
//! it prints.

mod load;
mod random;
mod timed;

use crate::pass_times::load::{Load, Rates};
use crate::pass_times::random::Random;
use crate::pass_times::timed::Timed;
use anyhow::bail;
use cal_machine::Config;
use cal_run::{Worker, open_parts};
use cal_signal::Observer;
use cal_trace::read_arrivals;
use std::env;
use std::io::{Read, Write};
use std::time::Instant;

/// What is added up over passes.
#[derive(Clone, Copy)]
struct Sums {
    passes: u64,
    reading: u128,
    passing: u128,
    published: u64,
    actions: u64,
}

/// What is timed.
#[derive(Drop)]
struct Machine {
    scheduler: Timed,
    observers: Vec<Observer>,
    loads: Vec<Load>,
    random: Random,
}

/// Times passes, and writes what each took.
pub fn tell(rt: &HostRuntime) -> anyhow::Result<()> {
    let (keeps, words) = given(rt)?;
    let [passes, turns, yields, asks, begins, waits] = &words[..] else {
        bail!("its words are `history` or `bare`, and six numbers");
    };
    let rates = Rates {
        turns: *turns,
        yields: *yields,
        asks: *asks,
        begins: *begins,
        waits: *waits,
    };
    let passes = *passes;
    let mut machine = open(rt, keeps)?;
    let tenth = passes / 10;
    let first = machine.pass_often(rt, 0, tenth, rates)?;
    let middle = machine.pass_often(rt, tenth, passes.saturating_sub(tenth), rates)?;
    let last = machine.pass_often(rt, passes.saturating_sub(tenth), passes, rates)?;
    let all = first.with(middle).with(last);
    writeln!(
        &mut rt.stdout(),
        "{} {} {} {} {} {}",
        each(all.reading, all.passes),
        each(all.passing, all.passes),
        each(first.passing, first.passes),
        each(last.passing, last.passes),
        each(all.published as u128 * 100, all.passes),
        each(all.actions as u128 * 100, all.passes),
    )?;
    Ok(())
}

/// Whether the first word after `pass_times` is `history`, where `bare` is the other one, and the
/// words after it, as numbers.
fn given(rt: &HostRuntime) -> anyhow::Result<(bool, Vec<u64>)> {
    let mut words = env::args(rt)?.skip(2);
    let keeps = match words.next() {
        Some(word) if word.as_str() == "history" => true,
        Some(word) if word.as_str() == "bare" => false,
        _ => bail!("its first word is `history` or `bare`"),
    };
    let mut numbers = Vec::new(rt.alloc());
    for word in words {
        numbers.push(word.parse()?)?;
    }
    Ok((keeps, numbers))
}

fn each(sum: u128, count: u64) -> u128 {
    sum.checked_div(count as u128).unwrap_or(0)
}

impl Sums {
    fn new() -> Sums {
        Sums {
            passes: 0,
            reading: 0,
            passing: 0,
            published: 0,
            actions: 0,
        }
    }

    fn with(self, more: Sums) -> Sums {
        Sums {
            passes: self.passes.saturating_add(more.passes),
            reading: self.reading.saturating_add(more.reading),
            passing: self.passing.saturating_add(more.passing),
            published: self.published.saturating_add(more.published),
            actions: self.actions.saturating_add(more.actions),
        }
    }
}

/// A scheduler over the table on the standard input, a second observer of each page, and what
/// stands for each kernel thread.
fn open(rt: &HostRuntime, keeps: bool) -> anyhow::Result<Machine> {
    let mut text = Vec::new(rt.alloc());
    rt.stdin().read_to_end(&mut text)?;
    let config = Config::read(rt.alloc(), text.as_slice())?;
    let arrivals = read_arrivals(rt.alloc(), &config, b"caladan-arrivals,1\nend,0\n")?;
    let parts = open_parts(rt.alloc(), &config, &arrivals)?;
    let (observers, _) = parts.watch.end();
    Ok(Machine {
        scheduler: Timed::of(rt.alloc(), parts.scheduler, keeps)?,
        observers,
        loads: loads_of(rt, parts.workers)?,
        random: Random::new(),
    })
}

fn loads_of(rt: &HostRuntime, workers: Vec<Worker>) -> anyhow::Result<Vec<Load>> {
    let mut loads = Vec::new(rt.alloc());
    for worker in workers {
        let end = worker.thread.end();
        loads.push(Load {
            publisher: end.publisher,
            taker: end.taker,
        })?;
    }
    Ok(loads)
}

impl Machine {
    /// The passes from one to another, each after the threads' turns.
    fn pass_often(
        &mut self,
        rt: &HostRuntime,
        from: u64,
        to: u64,
        rates: Rates,
    ) -> anyhow::Result<Sums> {
        let mut sums = Sums::new();
        for p in from..to {
            let now = p.saturating_mul(10).saturating_add(1000);
            let published = self.turn_each(now, rates);
            let begun = Instant::now(rt)?;
            self.scheduler.pass(now.saturating_add(5))?;
            let passed = Instant::now(rt)?;
            self.read_each();
            let read = Instant::now(rt)?;
            sums = sums.with(Sums {
                passes: 1,
                reading: read.duration_since(passed).as_nanos(),
                passing: passed.duration_since(begun).as_nanos(),
                published,
                actions: self.scheduler.last_actions(),
            });
        }
        Ok(sums)
    }

    /// Some of the threads have a turn. How many of them published a record.
    fn turn_each(&mut self, now: u64, rates: Rates) -> u64 {
        let mut published = 0_u64;
        for k in 0..self.loads.len() {
            if self.random.one_in(rates.turns) && self.loads[k].turn(now, rates, &mut self.random) {
                published = published.saturating_add(1);
            }
        }
        published
    }

    /// Looks once at each page.
    fn read_each(&mut self) {
        for k in 0..self.observers.len() {
            let _ = self.observers[k].observe();
        }
    }
}
