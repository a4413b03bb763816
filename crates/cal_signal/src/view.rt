//! What one seat at a page knows.
use std::collections::LinkedList;

/// What one seat at a page knows, and which parts it has. No value of it is ever made.
pub struct View<T> {
    /// It has the publisher's part: the next three fields.
    pub publishes: bool,
    /// The version that it stored last.
    pub version: u64,
    /// The records that it published, in order, without the zero record.
    pub published: LinkedList<T>,
    /// The words of the next record that it stored so far.
    pub stored: LinkedList<u64>,
    /// It has the first observer's part: the last four fields.
    pub observes: bool,
    /// It has the second observer's part: the last four fields.
    pub watches: bool,
    /// Each version that it loaded.
    pub loads: LinkedList<u64>,
    /// The first version of the look that it began last.
    pub first: u64,
    /// The words that it read since.
    pub read: LinkedList<u64>,
    /// Its successful looks: the place and the record.
    pub looks: LinkedList<(u64, T)>,
}
