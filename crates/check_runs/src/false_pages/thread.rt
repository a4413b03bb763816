//! What stands for a kernel thread: its ends of its page and its ring.

use crate::false_pages::broken::{Plan, STEPS};
use cal_command::{Command, Taker};
use cal_policy::Seen;
use cal_signal::{OpenPage, Publisher, Record, WORDS, running_word};

/// A page between two publications, or in the midst of one.
#[derive(Drop)]
enum Page {
    Closed(Publisher),
    Open(OpenPage),
}

/// What is to be judged of the record that was published last.
#[derive(Clone, Copy)]
enum Judged {
    Whole,
    Ahead,
    Foreign,
}

/// A thread that publishes and takes as it is told, and may stop within a publication.
#[derive(Drop)]
pub struct Thread {
    page: Option<Page>,
    taker: Taker,
    /// The last place of the page, and the record there.
    place: u64,
    last: Record,
    judged: Judged,
    /// The record that is to be published next.
    pending: Option<Record>,
    /// How many commands it took.
    pub taken: u64,
}

impl Thread {
    /// The thread of these ends, which did nothing yet.
    pub fn new(publisher: Publisher, taker: Taker) -> Thread {
        Thread {
            page: Some(Page::Closed(publisher)),
            taker,
            place: 0,
            last: Record::ZERO,
            judged: Judged::Whole,
            pending: None,
            taken: 0,
        }
    }

    /// What it does before a pass. It first finishes an interrupted publication, unless it stands.
    pub fn turn(&mut self, plan: Plan, now: u64) {
        match plan {
            Plan::Stand => {}
            Plan::Work { steps } => {
                self.publish(STEPS);
                let rec = self.work(now);
                self.pending = Some(Record { stamp: now, ..rec });
                self.publish(steps);
            }
            Plan::Acknowledge { taken } => self.claim(taken, now),
            Plan::Exceed { taken } => {
                self.judged = Judged::Ahead;
                self.claim(taken, now);
            }
            Plan::Intrude => {
                self.judged = Judged::Foreign;
                self.pending = Some(Record {
                    running: 128,
                    stamp: now,
                    ..self.last
                });
                self.publish(STEPS);
            }
        }
    }

    /// Publishes that it took so many commands, none of which it took, and has a request.
    fn claim(&mut self, taken: u64, now: u64) {
        self.pending = Some(Record {
            taken,
            stamp: now,
            ..waiting(self.last, now)
        });
        self.publish(STEPS);
    }

    /// The record after a turn of a sound thread, which takes a command if there is one, else gives
    /// up its core or has a request that waits for one.
    fn work(&mut self, now: u64) -> Record {
        match self.taker.take() {
            Some((taken, command)) => {
                self.taken = taken;
                after_command(self.last, taken, command, now)
            }
            None if self.last.running == 0 => waiting(self.last, now),
            None => idle(self.last),
        }
    }

    /// Makes the pending publication's steps up to so many in all.
    fn publish(&mut self, steps: u8) {
        let Some(rec) = self.pending else {
            return;
        };
        if steps == 0 {
            return;
        }
        match self.page.take() {
            Some(Page::Closed(publisher)) => match publisher.begin(rec) {
                Ok(open) => self.store(open, rec, steps),
                Err((_, publisher)) => self.page = Some(Page::Closed(publisher)),
            },
            Some(Page::Open(open)) => self.store(open, rec, steps),
            None => {}
        }
    }

    /// Stores words up to so many steps in all, of which the first one was made, and with the last
    /// step the version.
    fn store(&mut self, open: OpenPage, rec: Record, steps: u8) {
        let open = with_words(open, steps.saturating_sub(1));
        if steps == STEPS && open.stored() as usize == WORDS {
            self.page = Some(Page::Closed(open.finish()));
            self.place = self.place.saturating_add(1);
            self.last = rec;
            self.pending = None;
        } else {
            self.page = Some(Page::Open(open));
        }
    }

    /// What a pass must make of a look at its page.
    pub fn wanted(&self) -> Seen {
        let (number, rec) = (self.place, self.last);
        match (&self.page, self.judged) {
            (Some(Page::Closed(_)), Judged::Whole) => Seen::Whole { number, rec },
            (Some(Page::Closed(_)), Judged::Ahead) => Seen::Ahead { number, rec },
            (Some(Page::Closed(_)), Judged::Foreign) => Seen::Foreign { number, rec },
            _ => {
                let version = number.saturating_mul(2).saturating_add(1);
                Seen::Busy {
                    first: version,
                    second: version,
                }
            }
        }
    }
}

/// The page with so many of its words stored, all of them at most.
fn with_words(open: OpenPage, words: u8) -> OpenPage {
    let mut open = open;
    for _ in 0..WORDS {
        if (open.stored() as usize) < WORDS && open.stored() < words {
            open.store_next();
        }
    }
    open
}

fn after_command(before: Record, taken: u64, command: Command, now: u64) -> Record {
    match command {
        Command::Run(core) => Record {
            taken,
            running: running_word(Some(core)),
            started: now,
            queued: 0,
            ..before
        },
        Command::Park => Record {
            taken,
            ..idle(before)
        },
    }
}

/// Off every core, with nothing to do.
fn idle(before: Record) -> Record {
    Record {
        running: 0,
        started: 0,
        queued: 0,
        ..before
    }
}

/// Off every core, with a request that waits since it came or, where there was none, for 20 ticks.
fn waiting(before: Record, now: u64) -> Record {
    let oldest = if before.queued == 0 {
        now.saturating_sub(20)
    } else {
        before.oldest
    };
    Record {
        queued: 1,
        oldest,
        ..before
    }
}
