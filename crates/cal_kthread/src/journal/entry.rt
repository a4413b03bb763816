//! The entries of a kernel thread's journal.

use cal_command::Command;
use cal_machine::Request;
use cal_signal::Record;

/// One thing that a kernel thread did. Numbers of commands and places of records count from 1.
#[derive(Clone, Copy, Debug, PartialEq, Eq)]
pub enum Entry {
    /// This request came to its queue.
    Arrived(Request),
    /// It took this command, the one with this number.
    Took(u64, Command),
    /// It stole the request `id` from the queue of the thread `from`.
    Stole {
        /// The number of the thread whose queue it was.
        from: u8,
        /// The request's name.
        id: u64,
    },
    /// It did the last of this request's work.
    Served {
        /// The request's name.
        id: u64,
    },
    /// It gave up its core.
    Yielded,
    /// It published this record, at this place of its page.
    Published(u64, Record),
}
