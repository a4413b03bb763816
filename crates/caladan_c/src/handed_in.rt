//! What C hands in of a pass.

use crate::found::Found;

/// What a pass is given.
#[derive(Clone, Copy)]
pub struct HandedIn<'a> {
    /// The clock when it begins.
    pub now: u64,
    /// The bandwidth figure.
    pub bandwidth: u64,
    /// What was found of each thread, in thread order.
    pub looks: &'a [Found],
}
