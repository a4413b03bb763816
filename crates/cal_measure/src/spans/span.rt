//! A span: a stretch of passes through which one thread has one core.

use cal_policy::Cause;

/// How a thread was told to leave a core.
#[derive(Clone, Copy, Debug, PartialEq, Eq)]
pub struct Left {
    /// The pass that revoked the core.
    pub pass: usize,
    /// Why it did.
    pub cause: Cause,
}

/// A thread on a core, from the grant that put it there to the Free that ended it, or to the next
/// grant of the core in a history that is not legal.
///
/// Passes are numbered from 0. A span that begins in pass p shows after that pass; one that ends in
/// pass q shows until before it.
#[derive(Clone, Copy, Debug, PartialEq, Eq)]
pub struct Span {
    /// The core.
    pub core: u8,
    /// The thread that has it.
    pub thread: u8,
    /// The class of the grant as it was recorded: 1 to 3 in a legal history.
    pub class: u8,
    /// The pass of the grant.
    pub from: usize,
    /// Since when and why the core is being left; none while it is held.
    pub left: Option<Left>,
    /// The pass that ended the span; none where it goes on at the end of the history.
    pub to: Option<usize>,
}
