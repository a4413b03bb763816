//! Looks as a pass takes them: with the scheduler's judgement of what they showed.

use cal_machine::Listed;
use cal_signal::Record;

/// What a look at a thread's page came to, once it was judged by the commands sent so far.
#[derive(Clone, Copy, Debug, PartialEq, Eq)]
pub enum Seen {
    /// A whole record, the one at place `number`, that the commands sent allow.
    Whole { number: u64, rec: Record },
    /// No record: the two versions that the look loaded show a publication under way.
    Busy { first: u64, second: u64 },
    /// A whole record that acknowledges more commands than were sent. It is not kept.
    Ahead { number: u64, rec: Record },
    /// A whole record that shows its thread on a core that it was not given. It is not kept.
    Foreign { number: u64, rec: Record },
}

/// The judged looks of one pass, one for each thread, in thread order.
pub type SeenList = Listed<Seen>;
