//! The made looks: what three kernel threads would show over seven passes.

use cal_policy::{FoundLook, Look, Record};

/// Two cores; a latency-critical task of one thread, guaranteed a core, and a best-effort one of
/// two.
pub const TABLE: &[u8] =
    b"cores = 2\nbandwidth_limit = 1000\n[[task]]\nkind = \"lc\"\nguaranteed = 1\nlimit = 1\n\
    delay = 10\nrequest = 50\n[[task]]\nkind = \"be\"\nguaranteed = 0\nlimit = 2\ndelay = 10\n\
    request = 50\n";

/// What a pass finds.
pub struct Made {
    /// The clock.
    pub now: u64,
    /// The thread whose ring is full, if one is.
    pub full: Option<usize>,
    /// Of each thread: the place of its last record, and then what `record` makes of the others.
    pub shown: [[u64; 5]; 3],
}

/// The record that was published then, with so many commands taken, of the thread on this core plus
/// one, with a request that waits since then; 0 for none.
pub fn record(words: [u64; 4]) -> Record {
    let [stamp, taken, running, oldest] = words;
    Record {
        stamp,
        taken,
        running,
        queued: u64::from(oldest > 0),
        oldest,
        ..Record::ZERO
    }
}

impl Made {
    /// The look at thread `k`'s page.
    fn look(&self, k: usize) -> Look {
        let [number, stamp, taken, running, oldest] = self.shown.get(k).copied().unwrap_or([0; 5]);
        Look::Whole {
            number,
            rec: record([stamp, taken, running, oldest]),
        }
    }

    /// What is found of thread `k`.
    pub fn found(&self, k: usize) -> FoundLook {
        FoundLook {
            look: self.look(k),
            room: self.full != Some(k),
        }
    }
}

/// Threads 1 and 2 wait first, then thread 0; thread 1 takes its first Run late.
pub const PASSES: [Made; 7] = [
    Made {
        now: 100,
        full: None,
        shown: [[0; 5], [1, 90, 0, 0, 60], [1, 90, 0, 0, 80]],
    },
    Made {
        now: 110,
        full: None,
        shown: [[1, 105, 0, 0, 104], [1, 90, 0, 0, 60], [2, 106, 1, 2, 0]],
    },
    Made {
        now: 120,
        full: None,
        shown: [[1, 105, 0, 0, 104], [2, 113, 1, 1, 0], [2, 106, 1, 2, 0]],
    },
    Made {
        now: 130,
        full: None,
        shown: [[1, 105, 0, 0, 104], [3, 125, 2, 0, 0], [2, 106, 1, 2, 0]],
    },
    Made {
        now: 140,
        full: None,
        shown: [[2, 133, 1, 1, 0], [4, 136, 2, 0, 135], [2, 106, 1, 2, 0]],
    },
    Made {
        now: 150,
        full: Some(1),
        shown: [[2, 133, 1, 1, 0], [4, 136, 2, 0, 135], [3, 145, 1, 0, 0]],
    },
    Made {
        now: 160,
        full: None,
        shown: [[2, 133, 1, 1, 0], [4, 136, 2, 0, 135], [3, 145, 1, 0, 0]],
    },
];
