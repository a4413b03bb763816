//! What a handle keeps.

use crate::audit::Audit;
use crate::scheduler::Scheduler;
use crate::table_guard::TableGuard;

/// One of what C can open. A call of one kind finds nothing in a handle of another.
#[derive(Drop)]
pub enum Kept {
    /// It makes passes by the policy.
    Scheduler(Scheduler),
    /// It lets passes through whose actions somebody else chose.
    Guard(TableGuard),
    /// It is handed recorded passes.
    Audit(Audit),
}
