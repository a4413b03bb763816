//! A table of one thread, records, and what passes see and do.

use cal_policy::{Action, PassEntry, Seen};
use cal_signal::Record;
use std::alloc::{AllocError, Global};

/// Two cores and one latency-critical task of one thread, congested at a delay above 10.
pub const ONE_THREAD: &[u8] = b"cores = 2
bandwidth_limit = 1000
[[task]]
kind = \"lc\"
guaranteed = 1
limit = 1
delay = 10
request = 50
";

/// A record of these words, in their order.
pub fn record(words: [u64; 9]) -> Record {
    Record::from_words(words)
}

/// A grant, as one of the actions that are asked for.
pub fn grant(core: u8, thread: u8, class: u8) -> Option<Action> {
    Some(Action::Grant {
        core,
        thread,
        class,
    })
}

/// How many actions a pass has, and its first two.
pub type Did = (usize, Option<Action>, Option<Action>);

/// The pass that does this first, then that, and no more.
pub fn does(first: Option<Action>, second: Option<Action>) -> Did {
    let count = match (first, second) {
        (None, None) => 0,
        (_, None) => 1,
        _ => 2,
    };
    (count, first, second)
}

/// What a pass did.
fn did(actions: &[Action]) -> Did {
    (
        actions.len(),
        actions.first().copied(),
        actions.get(1).copied(),
    )
}

/// What the first passes did, at most so many.
pub fn first_passes(
    alloc: Global,
    history: &[PassEntry],
    most: usize,
) -> Result<Vec<Did>, AllocError> {
    let mut passes = Vec::new(alloc);
    for entry in history.iter().take(most) {
        passes.push(did(entry.actions.as_slice()))?;
    }
    Ok(passes)
}

/// What a pass saw of the first thread.
pub fn seen(entry: &PassEntry) -> Option<Seen> {
    entry.input.seen.as_slice().first().copied()
}
