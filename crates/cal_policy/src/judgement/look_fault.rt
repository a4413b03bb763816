//! Why a look is refused where looks are taken one by one.

/// Why a look is refused.
#[derive(Clone, Copy, Debug, PartialEq, Eq)]
pub enum LookFault {
    /// A busy look whose two versions are no busy pair.
    NoPair,
    /// A record whose `running` is above `MOST_CORES` or whose `misses` are above `MOST_MISSES`.
    Misshapen,
    /// The record's place is lower than that of the last one shown.
    PlaceFell,
    /// Another record than the last one shown, at the same place.
    Changed,
    /// The record's place is higher, and its `taken`, `misses` or `stamp` is lower.
    WordFell,
    /// The record acknowledges more commands than were sent.
    Ahead,
    /// The record shows its thread on a core that the thread was not given.
    Foreign,
}
