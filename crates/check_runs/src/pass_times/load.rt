//! What stands for a kernel thread: its ends of its page and its ring, and what it does between two
//! passes.

use crate::pass_times::random::Random;
use cal_command::{Command, Taker};
use cal_signal::{Publisher, Record, running_word};

/// How often what happens: one in so many, 0 is never.
#[derive(Clone, Copy)]
pub struct Rates {
    /// A thread has a turn.
    pub turns: u64,
    /// In a turn on a core it gives its core up.
    pub yields: u64,
    /// In a turn off a core a request comes.
    pub asks: u64,
    /// In a turn on a core the next request is begun.
    pub begins: u64,
    /// In a turn on a core another request comes to wait.
    pub waits: u64,
}

/// A thread by its ends; all else that it knows is its last record.
#[derive(Drop)]
pub struct Load {
    pub publisher: Publisher,
    pub taker: Taker,
}

impl Load {
    /// One turn. True where a record was published.
    pub fn turn(&mut self, now: u64, rates: Rates, random: &mut Random) -> bool {
        let (_, before) = self.publisher.last();
        let mut rec = match self.taker.take() {
            Some((taken, command)) => after_command(before, taken, command, now),
            None if before.running == 0 => off_core(before, now, rates, random),
            None => on_core(before, now, rates, random),
        };
        if rec == before {
            return false;
        }
        rec.misses = rec.misses.saturating_add(random.below(100));
        rec.stamp = now;
        self.publisher.publish(rec).is_ok()
    }
}

fn after_command(before: Record, taken: u64, command: Command, now: u64) -> Record {
    let mut rec = before;
    rec.taken = taken;
    match command {
        Command::Run(core) => {
            rec.running = running_word(Some(core));
            rec.started = now;
            rec.queued = 0;
            rec.oldest = 0;
        }
        Command::Park => {
            rec.running = 0;
            rec.started = 0;
        }
    }
    rec
}

fn off_core(before: Record, now: u64, rates: Rates, random: &mut Random) -> Record {
    let mut rec = before;
    if random.one_in(rates.asks) {
        rec.queued = 1;
        rec.oldest = now.saturating_sub(11);
    }
    rec
}

fn on_core(before: Record, now: u64, rates: Rates, random: &mut Random) -> Record {
    let mut rec = before;
    if random.one_in(rates.yields) {
        rec.running = 0;
        rec.started = 0;
        rec.queued = 0;
        rec.oldest = 0;
    } else if random.one_in(rates.begins) {
        rec.started = now;
    } else if random.one_in(rates.waits) {
        rec.queued = 1;
        rec.oldest = now;
    }
    rec
}
