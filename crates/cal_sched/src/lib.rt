//! The scheduler beside the kernel threads: each of its passes is one of its policy, on what it found
//! on their pages, and its commands are sent on their rings. A watch looks at the same pages and
//! decides nothing.
//!
//! A scheduler has one observer and one sender for each kernel thread of its table. A pass looks
//! once at each page, asks each ring for room, judges what it found, decides, and sends each
//! command. The history records what was found and what was decided. No call waits, and there are
//! no locks. A `BareScheduler` makes the same passes and keeps no history.
//!
//! That a scheduler on a core of its own polls the threads' signals and moves cores between tasks
//! is Caladan's. The commands, their rings and the history are Doranjei's.
//!
//! Not promised: that a look succeeds beside a publisher, or that a ring has room beside a taker.
#![tactic(auto)]

mod bare_scheduler;
mod fault;
mod found_pass;
mod looking;
mod news;
mod scheduler;
mod sending;
mod watch;

pub use bare_scheduler::{BareEnd, BareScheduler, NotMade};
pub use cal_policy::MOST_PASSES;
pub use fault::PassFault;
pub use scheduler::{Scheduler, SchedulerEnd};
pub use watch::{NotWatched, Watch};
