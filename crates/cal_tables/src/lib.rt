//! What a task table makes of arrivals, in numbers: a run on one thread, measured; and what a
//! recorded history comes to. And arrivals that were given for one table, as another gets them.
//!
//! Which numbers these are is proved (`counted_run`, `counted_by`), and which arrivals
//! (`moved_input`); how numbers are written is only tested.
#![tactic(auto)]

mod asked_fault;
mod asking;
mod collecting;
mod core_rows;
mod crowding;
mod figures;
mod joining;
mod labels;
mod laws;
mod measuring;
mod moved;
mod planned;
mod recorded;
mod replayed;
mod replayed_fault;
mod sheet;
mod style;
mod writing;

pub use asked_fault::AskedFault;
pub use asking::{Asked, read_asked};
pub use joining::table_part;
pub use labels::{Labels, letters};
pub use laws::{none_waits_where_none_meet, same_limits_move_nothing};
pub use measuring::{MeasuredInput, RunNumbers, counted_run, measure, measured_run};
pub use moved::arrivals::{MovedArrivals, moved_arrivals};
pub use moved::fault::MoveFault;
pub use moved::placing::Placed;
pub use moved::{MoveAsked, MovedInput, moved_input};
pub use planned::{PlannedFault, collected_by, counted_by, planned_for};
pub use recorded::{HistoryNumbers, Recorded, history_numbers, measured};
pub use replayed::{ReplayedInput, measure_replayed, read_replayed, replayed_by, replayed_numbers};
pub use replayed_fault::ReplayedFault;
pub use sheet::NumberForm;
pub use style::NumberStyle;
