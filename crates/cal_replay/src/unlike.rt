//! What a history has otherwise than it was.

ghost use Rattle.std.specs.Prelude.{◌≡◌, ℕ, None, true, IfErr, IfOk, IfSome};
ghost use Rattle.cal_policy.specs.History.Looks.{look_of};
ghost use Rattle.cal_signal.specs.declared.look.Look.TheVariants as found;
ghost use Rattle.cal_signal.specs.declared.shown.Shown.{Shown as ShownOf};
ghost use Rattle.cal_replay.specs.Unlike.{IsUnlike, IsUnlikeLook, IsUnlikeRoom, IsUnlikeWhole};
ghost use Rattle.cal_replay.specs.Unlike.{IsUnlikeWord, is_whole, word_of};

use cal_policy::Seen;
use cal_signal::{Look, Record, Shown};
use std::fmt;
use thiserror::Error;

/// A word of a look: the place of its record, or one of the record's nine words.
#[derive(Clone, Copy, Debug, PartialEq, Eq)]
pub enum Word {
    /// The place of the record on its page.
    Number,
    /// `Record::taken`.
    Taken,
    /// `Record::running`.
    Running,
    /// `Record::queued`.
    Queued,
    /// `Record::oldest`.
    Oldest,
    /// `Record::started`.
    Started,
    /// `Record::misses`.
    Misses,
    /// `Record::stamp`.
    Stamp,
    /// `Record::paused`.
    Paused,
    /// `Record::since`.
    Since,
}

impl fmt::Display for Word {
    fn fmt<W: fmt::Write>(&self, f: &mut fmt::Formatter<W>) -> fmt::Result {
        f.write_str(match *self {
            Word::Number => "number",
            Word::Taken => "taken",
            Word::Running => "running",
            Word::Queued => "queued",
            Word::Oldest => "oldest",
            Word::Started => "started",
            Word::Misses => "misses",
            Word::Stamp => "stamp",
            Word::Paused => "paused",
            Word::Since => "since",
        })
    }
}

/// What a history has otherwise than it was.
#[derive(Clone, Copy, Debug, PartialEq, Eq, Error)]
pub enum Unlike {
    /// The look met a publication half way.
    #[error("the look is busy, and in a replay each look is whole")]
    Busy,
    /// The look acknowledges more commands than were sent.
    #[error("the look is ahead, and in a replay each look is whole")]
    Ahead,
    /// The look shows its thread on a core that the thread was not given.
    #[error("the look is foreign, and in a replay each look is whole")]
    Foreign,
    /// The page of the thread gave no record.
    #[error("its page gave no record")]
    NoRecord,
    /// A word of the look.
    #[error("{word} is {told}, and the thread published {published}")]
    Word {
        /// Which.
        word: Word,
        /// What the history has.
        told: u64,
        /// What the thread published.
        published: u64,
    },
    /// The history has no room where there is some.
    #[error("room is 0, and its ring has room")]
    HasRoom,
    /// The history has room where there is none.
    #[error("room is 1, and its ring has none")]
    HasNoRoom,
}

/// This word, where it is not what was published.
fn unlike_word(word: Word, told: u64, published: u64) -> Option<Unlike>
    ensures none { result ≡ None → told ≡ published }
    ensures some { (a b : ShownOf) → told ≡ word_of word a → published ≡ word_of word b →
        IfSome result (IsUnlikeWord a b) }
{
    if told == published {
        None
    } else {
        Some(Unlike::Word {
            word,
            told,
            published,
        })
    }
}

/// The first of the last words of a record that is not what was published.
fn unlike_last_words(told: &Record, published: &Record) -> Option<Unlike>
    ensures none { result ≡ None → (told.now.started ≡ published.now.started)
        × (told.now.misses ≡ published.now.misses) × (told.now.stamp ≡ published.now.stamp)
        × (told.now.paused ≡ published.now.paused) × (told.now.since ≡ published.now.since) }
    ensures some { (m n : ℕ) → IfSome result (IsUnlikeWord
        (record { number = m; rec = told.now }) (record { number = n; rec = published.now })) }
{
    unlike_word(Word::Started, told.started, published.started)
        .or(unlike_word(Word::Misses, told.misses, published.misses))
        .or(unlike_word(Word::Stamp, told.stamp, published.stamp))
        .or(unlike_word(Word::Paused, told.paused, published.paused))
        .or(unlike_word(Word::Since, told.since, published.since))
}

/// The first word of a record that is not what was published.
fn unlike_words(told: &Record, published: &Record) -> Option<Unlike>
    ensures none { result ≡ None → told.now ≡ published.now }
    ensures some { (m n : ℕ) → IfSome result (IsUnlikeWord
        (record { number = m; rec = told.now }) (record { number = n; rec = published.now })) }
{
    unlike_word(Word::Taken, told.taken, published.taken)
        .or(unlike_word(Word::Running, told.running, published.running))
        .or(unlike_word(Word::Queued, told.queued, published.queued))
        .or(unlike_word(Word::Oldest, told.oldest, published.oldest))
        .or(unlike_last_words(told, published))
}

/// Sees that a whole look is the one that a thread's page gave.
fn check_whole(told: Shown, look: Look) -> Result<(), Unlike>
    ensures same { IfOk result (λ _. look ≡ found.Whole told.number told.rec) }
    ensures unlike { IfErr result (IsUnlikeWhole told look) }
{
    let Look::Whole { number, rec } = look else {
        return Err(Unlike::NoRecord);
    };
    let apart = unlike_word(Word::Number, told.number, number).or(unlike_words(&told.rec, &rec));
    match apart {
        None => Ok(()),
        Some(unlike) => Err(unlike),
    }
}

/// Sees that a look is the one that a thread's page gave.
fn check_look(told: Seen, look: Look) -> Result<(), Unlike>
    ensures same { IfOk result (λ _. look ≡ look_of told) }
    ensures whole { IfOk result (λ _. is_whole told ≡ true) }
    ensures unlike { IfErr result (IsUnlikeLook told look) }
{
    match told {
        Seen::Whole { number, rec } => check_whole(Shown { number, rec }, look),
        Seen::Busy { .. } => Err(Unlike::Busy),
        Seen::Ahead { .. } => Err(Unlike::Ahead),
        Seen::Foreign { .. } => Err(Unlike::Foreign),
    }
}

/// Sees that an answer on room is the one that a thread's ring gave.
fn check_room(told: bool, room: bool) -> Result<(), Unlike>
    ensures same { IfOk result (λ _. room ≡ told) }
    ensures unlike { IfErr result (IsUnlikeRoom told room) }
{
    if told == room {
        Ok(())
    } else if room {
        Err(Unlike::HasRoom)
    } else {
        Err(Unlike::HasNoRoom)
    }
}

/// Sees that a look and an answer on room are those that a thread's page and ring gave.
pub(crate) fn check_found(told: Seen, has_room: bool, look: Look, room: bool) -> Result<(), Unlike>
    ensures look { IfOk result (λ _. look ≡ look_of told) }
    ensures whole { IfOk result (λ _. is_whole told ≡ true) }
    ensures room { IfOk result (λ _. room ≡ has_room) }
    ensures unlike { IfErr result (IsUnlike told has_room look room) }
{
    check_look(told, look)?;
    check_room(has_room, room)
}
