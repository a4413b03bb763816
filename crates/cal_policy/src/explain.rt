//! A pass turn by turn, and why each turn makes what it makes: for whoever explains a pass, which
//! itself needs none of this.

pub mod bans;
pub mod claims;
pub mod cores;
pub mod due;
pub mod keeping;
pub mod order;
pub mod tasks;
pub mod turn;
pub mod walk;

pub use crate::board::bans::BannedFor;
pub use crate::explain::bans::BanReason;
pub use crate::explain::claims::{Claim, Lateness, Shortage};
pub use crate::explain::cores::CoreState;
pub use crate::explain::keeping::Keeping;
pub use crate::explain::tasks::{TaskState, ThreadState};
pub use crate::explain::turn::{Part, Turn, part_of};
pub use crate::explain::walk::PassWalk;
pub use crate::pass::choice::Candidate;
