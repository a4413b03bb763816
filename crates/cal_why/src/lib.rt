//! Why an input was refused, in words: where, what stands there, what may stand there, and what to do
//! about it where that is plain; and the words of caladan_sim, which say it with `--explain`.
//!
//! It is given the bytes of the input and the fault that the refusing call answered. So which fault
//! it is, and in which row, is that call's; what is said of it is only tested. Nothing here decides
//! whether an input is refused. What caladan_sim does with its words is proved to be what they ask
//! for, with the option too.
#![tactic(auto)]

mod ending;
mod explaining;
mod grammar;
mod nearest;
mod places;
mod running;
mod separator;
mod table;
mod trace;

pub use ending::{end_explained, explain_fault};
pub use explaining::{RefusedInput, explanation};
pub use grammar::TraceKind;
pub use running::run_explained;
pub use separator::is_table_alone;
pub use trace::place_of_field;
