//! What a pass is given.

use crate::history::look::SeenList;
use cal_machine::Listed;

/// For each thread, in thread order, whether its command ring had room.
pub type Rooms = Listed<bool>;

/// What a pass is given: a clock (in ticks, as given), a bandwidth figure (in the unit of the
/// table's limit, as given), and for each thread its judged look and whether its ring has room.
#[derive(Drop)]
pub struct Input {
    /// The clock, in ticks.
    pub now: u64,
    /// The bandwidth figure; more than the table's limit takes a core from a best-effort task.
    pub bandwidth: u64,
    /// What the look at each thread's page came to.
    pub seen: SeenList,
    /// Whether each thread's ring has room for a command.
    pub rooms: Rooms,
}
