//! The record that a kernel thread publishes.
ghost use Rattle.std.specs.Prelude.{◌≡◌, ◌↔◌, IsTrue};
ghost use Rattle.cal_signal.specs.Records as records;
ghost use Rattle.cal_signal.specs.Records.{IsLater, IsShaped, record_of, shows_on, words_of};
ghost use Rattle.cal_signal.specs.Tests.{is_later, is_shaped};

use cal_machine::MOST_CORES;

/// The most cache misses that a record may count, so that those of all threads of a task have a
/// sum.
pub const MOST_MISSES: u64 = 1 << 56;

/// How many words a record has. A page has them after its version word; signals and histories have
/// them in this order.
pub const WORDS: usize = 9;

/// What a kernel thread shows of itself, `WORDS` words in this order.
///
/// Times are clock ticks as given.
#[repr(C)]
#[derive(Clone, Copy, Debug, PartialEq, Eq)]
pub struct Record {
    /// Commands taken so far.
    pub taken: u64,
    /// 0 off a core, else the core's number plus one.
    pub running: u64,
    /// 0 without a queued request.
    pub queued: u64,
    /// When the oldest queued request came. Counts only where `queued` is not 0.
    pub oldest: u64,
    /// When the current request was begun or resumed, or 0.
    pub started: u64,
    /// Cache misses so far.
    pub misses: u64,
    /// When the record was published.
    pub stamp: u64,
    /// 0 without a suspended request.
    pub paused: u64,
    /// When the suspended request came. Counts only where `paused` is not 0.
    pub since: u64,
}

impl Record {
    /// The record at place 0 of every page: all words 0.
    pub const ZERO: Record = Record {
        taken: 0,
        running: 0,
        queued: 0,
        oldest: 0,
        started: 0,
        misses: 0,
        stamp: 0,
        paused: 0,
        since: 0,
    };

    /// The record's words, in order.
    pub fn words(&self) -> [u64; WORDS]
        ensures { result ≡ words_of self.now }
    {
        [
            self.taken,
            self.running,
            self.queued,
            self.oldest,
            self.started,
            self.misses,
            self.stamp,
            self.paused,
            self.since,
        ]
    }

    /// The record of these words, in their order.
    pub fn from_words(words: [u64; WORDS]) -> Record
        ensures { result ≡ record_of words }
    {
        Record {
            taken: words[0],
            running: words[1],
            queued: words[2],
            oldest: words[3],
            started: words[4],
            misses: words[5],
            stamp: words[6],
            paused: words[7],
            since: words[8],
        }
    }

    /// Whether it shows its thread on this core.
    pub fn shows(&self, core: u8) -> bool
        ensures { result ≡ shows_on self.now core }
    {
        self.running == running_word(Some(core))
    }
}

/// The word that shows a thread on this core, or on none.
pub fn running_word(core: Option<u8>) -> u64
    ensures { result ≡ records.running_word core }
{
    match core {
        Some(core) => u64::from(core) + 1,
        None => 0,
    }
}

/// Whether `next` may stand after `last`: its `taken`, `misses` and `stamp` are not below those of
/// `last`. The other words may be any numbers.
pub fn later(last: &Record, next: &Record) -> bool
    ensures rule { IsTrue result ↔ IsLater last.now next.now }
    ensures test { result ≡ is_later last.now next.now }
{
    last.taken <= next.taken && last.misses <= next.misses && last.stamp <= next.stamp
}

/// Whether the record has the right shape: `running` is at most `MOST_CORES` and `misses` at most
/// `MOST_MISSES`. The other words may be any numbers.
pub fn shaped(rec: &Record) -> bool
    ensures rule { IsTrue result ↔ IsShaped rec.now }
    ensures test { result ≡ is_shaped rec.now }
{
    rec.running <= MOST_CORES as u64 && rec.misses <= MOST_MISSES
}
