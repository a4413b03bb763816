//! What no clause says: the worked passes over a bare page and ring, and a watch that is refused.

mod passes;
mod watches;

use crate::runs::passes::{Opened, open};
use cal_command::Taker;
use cal_sched::Scheduler;
use cal_signal::Publisher;
use std::alloc::Global;
use std::test::Fail;

/// A scheduler that made no pass yet, and the other ends of its page and its ring.
fn bare(alloc: Global) -> Result<(Scheduler, Publisher, Taker), Fail> {
    let Opened { scheduler, thread } = open(alloc)?;
    let end = thread.end();
    Ok((scheduler, end.publisher, end.taker))
}
