//! What no clause says: that in a run the scheduler, the kernel threads and the watch meet, and
//! worked passes over a thread's own page.

mod paced_runs;
pub mod passes;
mod whole_runs;
