//! Which threads of a run are broken, and how.

use cal_signal::WORDS;

/// How the threads of a run are broken. A thread that stops has made so many steps of a publication
/// as the pass comes, and fewer than all of its `STEPS`.
#[derive(Clone, Copy)]
pub enum Broken {
    /// No thread is.
    Nothing,
    /// In each pass another one has stopped, and it goes on after the pass.
    OneStops { steps: u8 },
    /// In each pass all have stopped, and go on after it.
    AllStop { steps: u8 },
    /// One stops before a pass, and for ever.
    OneStays { steps: u8, from: u64 },
    /// From a pass on one acknowledges as many commands as a word can say.
    OneAhead { from: u64 },
    /// From a pass on one shows core 127.
    OneForeign { from: u64 },
    /// None takes a command. Each acknowledges one command more in each pass and shows no core, up
    /// to four; from a pass on five, of which the fifth was never sent.
    TakeNothing { until: u64 },
}

/// What a thread does before a pass.
#[derive(Clone, Copy)]
pub enum Plan {
    /// Its turn, and so many steps of the publication that comes with it.
    Work { steps: u8 },
    /// Nothing.
    Stand,
    /// It publishes that it took so many commands, which were sent, and has a request.
    Acknowledge { taken: u64 },
    /// The same of commands that were not sent.
    Exceed { taken: u64 },
    /// It publishes that it runs on core 127.
    Intrude,
}

/// How many steps a publication has: the odd version, each word, the even version.
pub const STEPS: u8 = WORDS as u8 + 2;

/// How many threads a run has.
const THREADS: u64 = 4;

/// How many commands a ring has room for.
const ROOM: u64 = 4;

impl Broken {
    /// What a thread does before a pass.
    pub fn plan(self, thread: u64, pass: u64) -> Plan {
        let sound = Plan::Work { steps: STEPS };
        match self {
            Broken::Nothing => sound,
            Broken::OneStops { steps } if pass % THREADS == thread => Plan::Work { steps },
            Broken::OneStops { .. } => sound,
            Broken::AllStop { steps } => Plan::Work { steps },
            Broken::OneStays { steps, from } => stay(thread, pass, steps, from),
            Broken::OneAhead { from } if is_from(thread, pass, from) => {
                Plan::Exceed { taken: u64::MAX }
            }
            Broken::OneForeign { from } if is_from(thread, pass, from) => Plan::Intrude,
            Broken::OneAhead { .. } | Broken::OneForeign { .. } => sound,
            Broken::TakeNothing { until } if pass < until => Plan::Acknowledge {
                taken: pass.min(ROOM),
            },
            Broken::TakeNothing { .. } => Plan::Exceed { taken: ROOM + 1 },
        }
    }

    /// Whether a thread is sound to the end of its run.
    pub fn spares(self, thread: u64) -> bool {
        match self {
            Broken::Nothing | Broken::OneStops { .. } | Broken::AllStop { .. } => true,
            Broken::OneStays { from, .. }
            | Broken::OneAhead { from }
            | Broken::OneForeign { from } => from % THREADS != thread,
            Broken::TakeNothing { .. } => false,
        }
    }
}

/// Whether it is the thread that breaks, and the pass or a later one.
fn is_from(thread: u64, pass: u64, from: u64) -> bool {
    from % THREADS == thread && pass >= from
}

fn stay(thread: u64, pass: u64, steps: u8, from: u64) -> Plan {
    if !is_from(thread, pass, from) {
        Plan::Work { steps: STEPS }
    } else if pass == from {
        Plan::Work { steps }
    } else {
        Plan::Stand
    }
}
