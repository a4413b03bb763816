//! What the steps of a turn did, each in a type of its own: none has the room of a whole entry.

use cal_command::Command;
use cal_signal::Record;

/// A command that was taken.
#[derive(Clone, Copy, Debug, PartialEq, Eq)]
pub struct Taken {
    /// Its number, from 1.
    pub number: u64,
    /// The command.
    pub command: Command,
}

/// A request that was stolen.
#[derive(Clone, Copy, Debug, PartialEq, Eq)]
pub struct Theft {
    /// The number of the thread whose queue it was in.
    pub from: u8,
    /// The request's name.
    pub id: u64,
}

/// What came of a turn's work, where an entry tells of it.
#[derive(Clone, Copy, Debug, PartialEq, Eq)]
pub enum Worked {
    /// It did the last of this request's work.
    Served {
        /// The request's name.
        id: u64,
    },
    /// It found no work, and gave up its core.
    Yielded,
}

/// A record that was published.
#[derive(Clone, Copy, Debug, PartialEq, Eq)]
pub struct Publication {
    /// Its place on the page, from 1.
    pub place: u64,
    /// The record.
    pub shown: Record,
}
