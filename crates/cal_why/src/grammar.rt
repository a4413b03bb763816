//! What a trace and a task table may have, as words: the rows of each trace, the keys of a table,
//! and the range of each number. The rows and the limits are those that cal_trace, cal_signal and
//! cal_machine hand out.

use cal_machine::{MOST_CORES, MOST_LIMIT, MOST_TASKS, MOST_TICKS};
use cal_signal::MOST_MISSES;
use cal_trace::{ARRIVAL_ROWS, HISTORY_ROWS, MOST_REQUEST_MISSES, MOST_WORK, SIGNAL_ROWS};
use std::alloc::AllocError;
use std::fmt::Write;

/// What a trace is, as its header names it.
#[derive(Clone, Copy, Debug, PartialEq, Eq)]
pub enum TraceKind {
    /// Signals.
    Signals,
    /// Arrivals.
    Arrivals,
    /// A history.
    History,
}

/// The words of the headers, with a blank between them.
pub const HEADER_WORDS: &str = "caladan-signals caladan-arrivals caladan-history";

/// What is told of a trace.
#[derive(Clone, Copy)]
pub struct Grammar {
    /// The word of its header.
    pub header: &'static str,
    /// The headers that it may have.
    pub headers: &'static str,
    /// What reads it.
    pub readers: &'static str,
    /// The words of its rows after the header, with a blank between them.
    pub words: &'static str,
    /// These rows, a line each: the word, and the names of the fields. Of a revocation the third is
    /// the cause. In version 1 a record has not the last two.
    rows: &'static str,
}

const SIGNALS: Grammar = Grammar {
    header: "caladan-signals",
    headers: "`caladan-signals,2` or `caladan-signals,1`",
    readers: "`caladan_sim decide`, `caladan_view history` and `explain`",
    words: "pass whole busy end",
    rows: SIGNAL_ROWS,
};

const ARRIVALS: Grammar = Grammar {
    header: "caladan-arrivals",
    headers: "`caladan-arrivals,1`",
    readers: "`caladan_sim lockstep` and `sim`, `caladan_view measure`, `spans`, `series`, \
              `requests`, `turns` and `move`, and `caladan_lab compare` and `timeline`",
    words: "pass turn request end",
    rows: ARRIVAL_ROWS,
};

const HISTORY: Grammar = Grammar {
    header: "caladan-history",
    headers: "`caladan-history,2` or `caladan-history,1`",
    readers: "`caladan_sim audit`, `caladan_view measure`, `spans`, `series` and `explain`, and \
              `caladan_lab timeline`",
    words: "pass whole busy ahead foreign free unban ban revoke cap grant end",
    rows: HISTORY_ROWS,
};

impl TraceKind {
    /// The kind whose header has this word.
    pub fn named(word: &[u8]) -> Option<TraceKind> {
        let kinds = [TraceKind::Signals, TraceKind::Arrivals, TraceKind::History];
        kinds
            .into_iter()
            .find(|kind| kind.grammar().header.as_bytes() == word)
    }

    /// What is told of it.
    pub fn grammar(self) -> Grammar {
        match self {
            TraceKind::Signals => SIGNALS,
            TraceKind::Arrivals => ARRIVALS,
            TraceKind::History => HISTORY,
        }
    }
}

impl Grammar {
    /// The row of this word, of a revocation of this cause.
    pub fn form(self, is_first_version: bool, word: &[u8], cause: &[u8]) -> Option<&'static str> {
        for form in self.rows.lines() {
            let is_of_cause = word != b"revoke".as_slice() || name_at(form, 2).as_bytes() == cause;
            if name_at(form, 0).as_bytes() == word && is_of_cause {
                return match form.strip_suffix(",paused,since") {
                    Some(front) if is_first_version => Some(front),
                    _ => Some(form),
                };
            }
        }
        None
    }
}

/// The name of a field of a row; nothing where there is none.
pub fn name_at(form: &str, place: usize) -> &str {
    form.split(',').nth(place).unwrap_or("")
}

/// The numbers from the least to the most, and what says so.
#[derive(Clone, Copy)]
pub struct Range {
    pub least: u64,
    pub most: u64,
    pub by: &'static str,
}

impl Range {
    fn new(least: u64, most: u64, by: &'static str) -> Range {
        Range { least, most, by }
    }

    /// The numbers below the end; none where that is 0.
    fn below(end: u64, by: &'static str) -> Range {
        match end.checked_sub(1) {
            Some(most) => Range::new(0, most, by),
            None => Range::new(1, 0, by),
        }
    }

    /// Whether a number is one of them.
    pub fn has(self, number: u64) -> bool {
        self.least <= number && number <= self.most
    }
}

/// How many there are of what a row names by its number: by the table, and turns by the rows above.
#[derive(Clone, Copy)]
pub struct Extent {
    pub cores: u64,
    pub threads: u64,
    pub tasks: u64,
    pub turns: u64,
}

/// The numbers that a field of this name may have, where not all are.
pub fn range_of(kind: TraceKind, name: &str, extent: Extent) -> Option<Range> {
    let range = match name {
        "core" | "by" => Range::below(extent.cores, "the table's cores"),
        "thread" => Range::below(extent.threads, "the table's threads"),
        "task" => Range::below(extent.tasks, "the table's tasks"),
        "turn" => Range::below(extent.turns, "the turns above"),
        "room" => Range::new(0, 1, "1 where the ring has room"),
        "running" => Range::new(0, MOST_CORES as u64, "MOST_CORES; 1 more than the core"),
        "misses" if kind == TraceKind::Arrivals => {
            Range::new(0, MOST_REQUEST_MISSES, "MOST_REQUEST_MISSES")
        }
        "misses" => Range::new(0, MOST_MISSES, "MOST_MISSES"),
        "work" => Range::new(1, MOST_WORK, "MOST_WORK"),
        "class" => Range::new(1, 5, "the classes of a core"),
        "cap" => Range::new(0, MOST_LIMIT as u64, "MOST_LIMIT"),
        _ => return None,
    };
    Some(range)
}

/// The keys of the top of a table.
pub const TOP_KEYS: &str = "cores bandwidth_limit task";

/// The keys of a task.
pub const TASK_KEYS: &str = "kind guaranteed limit delay request";

/// The numbers that may stand at a key of a table; those at `guaranteed` go by the task's limit.
pub fn numbers_at(key: &str, limit: u64) -> Range {
    match key {
        "cores" => Range::new(2, MOST_CORES as u64, "MOST_CORES"),
        "limit" => Range::new(1, MOST_LIMIT as u64, "MOST_LIMIT"),
        "guaranteed" => Range::new(0, limit, "the task's limit"),
        _ => Range::new(0, MOST_TICKS, "MOST_TICKS"),
    }
}

/// Puts a line that says what is wanted at a key of a table.
pub fn tell_wanted_at(told: &mut String, key: &str) -> Result<(), AllocError> {
    let Range { least, most, by } = numbers_at(key, 0);
    told.push_str("  wanted: ")?;
    match key {
        "kind" => told.push_str("\"lc\" (latency-critical) or \"be\" (best-effort), in quotes\n"),
        "task" => writeln!(
            told,
            "1 to {MOST_TASKS} (MOST_TASKS) tasks, each below a line [[task]]"
        ),
        "cores" => writeln!(told, "an even number from {least} to {most} ({by})"),
        "guaranteed" => writeln!(told, "a number from {least} to {by}"),
        _ => writeln!(told, "a number from {least} to {most} ({by})"),
    }
}

/// Whether a word is among these, which have a blank between them.
pub fn is_among(word: &str, words: &str) -> bool {
    words.split(' ').any(|known| known == word)
}
