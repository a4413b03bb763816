//! Why no arrivals were made.

ghost use Rattle.std.specs.Prelude.{◌≡◌};

use cal_trace::MOST_REQUEST_MISSES;
use std::alloc::{AllocError, AllocFailed};
use std::fmt;

/// What is wrong with a word.
#[derive(Clone, Copy, Debug, PartialEq, Eq)]
pub enum Why<'a> {
    /// It is no load: a number above 0 and at most 10, with up to three digits after the point.
    NotALoad,
    /// It is no load in cores: a number above 0 and at most this, with up to three digits after the
    /// point.
    NotCores(u8),
    /// A load of a limit is given too.
    LoadToo,
    /// It is more than so many threads can do.
    TooFewThreads(u64),
    /// Several loads do not rise, or `..` does not stand between two loads and a last one.
    NotRising,
    /// It is no list of turns with their shares.
    NotAService,
    /// The shares make another sum than 100%: so many thousandths of a percent.
    NotAHundred(u64),
    /// It is no way in which requests come.
    NotAPattern,
    /// It is no number of a request's misses.
    NotMisses,
    /// It is no task of the table, which has so many.
    NotATask(u64),
    /// It is neither a number nor one of these names, with commas between; of no names a number.
    NotNamed(Option<&'a str>),
    /// The task was named before.
    Twice,
    /// It is given so often, and there are so many tasks.
    NotOneEach(u64, u64),
    /// Several loads, where one is asked for.
    Several,
    /// More requests would come than arrivals are made of.
    TooMany(u64),
    /// With a log, one task at most is named.
    OneTask,
    /// The standard input is the table already.
    IsTheTable,
    /// It is no unit of a log's numbers: `ns`, `us`, `ms` or `s`.
    NotAUnit,
    /// It is no length: a number above 0, with up to nine digits after the point, and a unit.
    NotALength,
}

/// The reason in words.
impl<'a> fmt::Display for Why<'a> {
    fn fmt<W: fmt::Write>(&self, f: &mut fmt::Formatter<W>) -> fmt::Result {
        match self {
            Why::NotALoad => f.write_str(
                "a load is a number above 0 and at most 10, with up to three digits after the \
point",
            ),
            Why::NotCores(most) => write!(
                f,
                "cores are a number above 0 and at most {most}, with up to three digits after the \
point"
            ),
            Why::LoadToo => f.write_str("--load is given too, and one of the two is asked for"),
            Why::TooFewThreads(threads) => {
                write!(
                    f,
                    "a task may get as many cores as it has threads, here {threads}"
                )
            }
            Why::NotRising => f.write_str(
                "several loads rise, and .. stands between two and the last",
            ),
            Why::NotAService => f.write_str(
                "what a request takes is a number of turns, 1 to 1000000, or several with their \
shares, as 90%:1,10%:20",
            ),
            Why::NotAHundred(sum) => {
                let (ones, rest) = (sum / 1000, sum % 1000);
                write!(f, "the shares make {ones}.{rest:03}%, not 100%")
            }
            Why::NotAPattern => f.write_str(
                "requests come poisson, even or in bursts:N, N from 2 to 10000",
            ),
            Why::NotMisses => write!(
                f,
                "a request's misses are a number up to {MOST_REQUEST_MISSES}"
            ),
            Why::NotATask(tasks) => write!(f, "the table has {tasks} tasks, numbered from 0"),
            Why::NotNamed(Some(names)) => write!(f, "the tasks are called {names}"),
            Why::NotNamed(None) => f.write_str("a task is a number, or a name that --names gives"),
            Why::Twice => f.write_str("this task has a load already"),
            Why::NotOneEach(times, tasks) => {
                write!(
                    f,
                    "given {times} times for {tasks} tasks: once, or once for each --task"
                )
            }
            Why::Several => f.write_str("one load is asked for, and not several"),
            Why::TooMany(most) => write!(f, "more than {most} requests would come"),
            Why::OneTask => f.write_str("with --log one task at most is named"),
            Why::IsTheTable => f.write_str(
                "the standard input is the table: name the file of the table or of the log",
            ),
            Why::NotAUnit => f.write_str("a unit is ns, us, ms or s"),
            Why::NotALength => f.write_str(
                "a length is a number above 0, with up to nine digits after the point, and ns, \
us, ms or s, as 10us",
            ),
        }
    }
}

/// A word of a command line, the flag before it, and what is wrong with it.
#[derive(Clone, Copy, Debug, PartialEq, Eq)]
pub struct WordFault<'a> {
    /// The flag, as `--load`.
    pub flag: &'a str,
    /// The word as it was given.
    pub word: &'a str,
    /// What is wrong.
    pub why: Why<'a>,
}

/// The word with its flag, and the reason.
impl<'a> fmt::Display for WordFault<'a> {
    fn fmt<W: fmt::Write>(&self, f: &mut fmt::Formatter<W>) -> fmt::Result {
        let WordFault { flag, word, why } = *self;
        write!(f, "{flag} {word}: {why}")
    }
}

/// Why no arrivals were made: a word's fault, or memory was refused.
#[derive(Clone, Copy, Debug, PartialEq, Eq)]
pub enum LoadFault<'a> {
    /// A word is refused.
    Word(WordFault<'a>),
    /// Memory was refused.
    Memory,
}

impl<'a> From<AllocError> for LoadFault<'a> {
    ghost use Rattle.cal_load.specs.declared.fault.LoadFault.TheVariants.{Memory};

    ghost from_gives = { λ _ e. e ≡ Memory };

    fn from(_e: AllocError) -> LoadFault<'a> {
        LoadFault::Memory
    }
}

impl<'a, T: Drop> From<AllocFailed<T>> for LoadFault<'a> {
    ghost use Rattle.cal_load.specs.declared.fault.LoadFault.TheVariants.{Memory};

    ghost from_gives = { λ _ e. e ≡ Memory };

    fn from(_e: AllocFailed<T>) -> LoadFault<'a> {
        LoadFault::Memory
    }
}

/// The fault of a word.
pub fn refused<'a>(flag: &'a str, word: &'a str, why: Why<'a>) -> LoadFault<'a>
    ensures { result ≡ LoadFault.Word
        (record { flag = flag.entry; word = word.entry; why = why.entry }) }
{
    LoadFault::Word(WordFault { flag, word, why })
}
