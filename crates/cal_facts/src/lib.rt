//! The facts of a run or of a recorded history, as rows of CSV: who had which core from when to
//! when, what each pass found of each task and left it with, what came of each request, and in which
//! turns the threads worked at which; and how many passes a recorded history has.
//!
//! What is written is exactly the text of these facts (`specs/`), over the definitions of
//! cal_measure and cal_policy; or the fault is the input's first. What is written, and in which
//! columns, is Doranjei's.
#![tactic(auto)]

mod cells;
mod counting;
mod histories;
mod replayed;
mod requests;
mod series;
mod spans;
mod turns;

pub use counting::count_passes;
pub use histories::{RunHistory, run_history};
pub use replayed::{
    replayed_history, write_replayed_requests, write_replayed_series, write_replayed_spans,
    write_replayed_turns,
};
pub use requests::served::{Served, ServedRequests};
pub use requests::write_requests;
pub use series::point::Point;
pub use series::write_series;
pub use spans::facts::SpanFacts;
pub use spans::stretch::{State, Stretch};
pub use spans::write_spans;
pub use turns::work::WorkTurn;
pub use turns::write_turns;
