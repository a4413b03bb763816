//! What a kernel thread has, and the steps of its turns.

pub mod current;
pub mod done;
pub mod entries;
pub mod sources;
pub mod steps;
pub mod thread;
