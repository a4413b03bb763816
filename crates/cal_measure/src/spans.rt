//! Who had which core from which pass to which, and which cores were banned: the spans of a history
//! and its bans, by one walk over its passes.
//!
//! What the spans tell of every history, and of every orderly one, is in `laws`. A `Tracker` and a
//! `BanTracker` walk along a history as it comes, and keep nothing of what has ended.

pub mod bans;
pub mod laws;
pub mod span;
pub mod tracking;
