//! What stands for the journal of a kernel thread whose turns are over.

ghost use Rattle.std.specs.Prelude.{List};
ghost use Rattle.cal_kthread.specs.declared.journal.entry.Entry.{Entry as EntryOf};

use crate::journal::Journal;
use crate::journal::entry::Entry;
use cal_machine::Past;

/// What stands for the journal of a kernel thread whose turns are over: a `Journal`, or a past,
/// which contracts alone see.
pub trait Kept: Drop {
    /// What the thread did, in order.
    ghost entries: { Self → List EntryOf };
}

impl Kept for Journal {
    ghost entries = { λ journal. journal };
}

impl Kept for Past<Entry> {
    ghost entries = { λ past. past };
}
