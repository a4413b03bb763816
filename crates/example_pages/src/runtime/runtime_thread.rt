//! What a runtime's kernel thread does at its ends of its page and its ring.

use cal_command::{Command, Taker};
use cal_signal::{PublishFault, Publisher, Record, running_word};

/// A kernel thread of such a runtime, with one request at a time.
#[derive(Drop)]
pub struct RuntimeThread {
    number: usize,
    publisher: Publisher,
    taker: Taker,
    /// When its request came.
    arrived: u64,
}

impl RuntimeThread {
    /// The kernel thread of these ends, to which no request came yet.
    pub fn new(number: usize, publisher: Publisher, taker: Taker) -> RuntimeThread {
        RuntimeThread {
            number,
            publisher,
            taker,
            arrived: 0,
        }
    }

    /// A request comes, and waits.
    pub fn wait_from(&mut self, now: u64) -> Result<(), PublishFault> {
        self.arrived = now;
        let (_, last) = self.publisher.last();
        self.publisher.publish(Record {
            queued: 1,
            oldest: now,
            stamp: now,
            ..last
        })?;
        Ok(())
    }

    /// Takes a command, if one came, and publishes what it then does: on a core it begins or
    /// resumes its request; off it the request is suspended.
    pub fn obey(&mut self, rt: &HostRuntime, now: u64) -> anyhow::Result<()> {
        let Some((taken, command)) = self.taker.take() else {
            return Ok(());
        };
        println!(rt;
            "  thread {} at {now}: command {taken}, {command:?}",
            self.number
        )?;
        let (_, last) = self.publisher.last();
        let told = match command {
            Command::Run(core) => Record {
                running: running_word(Some(core)),
                queued: 0,
                oldest: 0,
                started: now,
                paused: 0,
                since: 0,
                ..last
            },
            Command::Park => Record {
                running: 0,
                started: 0,
                paused: 1,
                since: self.arrived,
                ..last
            },
        };
        self.publisher.publish(Record {
            taken,
            stamp: now,
            ..told
        })?;
        Ok(())
    }

    /// Its request is served, and it gives up its core without having been told to.
    pub fn give_up_core(&mut self, now: u64) -> Result<(), PublishFault> {
        let (_, last) = self.publisher.last();
        self.publisher.publish(Record {
            running: 0,
            started: 0,
            stamp: now,
            ..last
        })?;
        Ok(())
    }
}
