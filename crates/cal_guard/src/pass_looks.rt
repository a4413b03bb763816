//! The looks of a pass, in either of their two forms.

use cal_policy::{OpenPass, Seen};

/// The looks of a pass.
#[derive(Clone, Copy)]
pub enum PassLooks<'a> {
    /// All of them, thread 0's first.
    Listed(&'a [Seen]),
    /// Those that came in one by one, where only what is news was noted.
    Noted(&'a OpenPass),
}
