//! What the words of the program ask for: a history decided, run or audited, and its answer.

pub mod accepted;
pub mod answer;
pub mod auditing;
pub mod deciding;
pub mod front;
pub mod run_text;
pub mod running;
pub mod simulating;
pub mod telling;
