//! Tasks that ask for too much together.

use crate::explaining::Part;
use crate::table::keys::{number_at, tasks_of};
use crate::table::tell_key;
use std::alloc::AllocError;
use std::fmt::Write;
use toml::Table;

/// Puts that what the tasks have at a key, their limits or their guarantees, comes to more than the
/// most together, where the task stands with which it does.
pub fn tell_sum(
    told: &mut String,
    part: Part<'_>,
    table: &Table,
    key: &str,
    most: i64,
) -> Result<(), AllocError> {
    let mut sum = 0i64;
    let mut passing = None;
    for (task, item) in tasks_of(table).iter().enumerate() {
        if let Some(own) = item.as_table() {
            sum = sum.saturating_add(number_at(own, key));
        }
        if most < sum && passing.is_none() {
            passing = Some(task);
        }
    }
    tell_key(told, part, passing, key)?;
    write!(told, "  the tasks' `{key}` add up to {sum}")?;
    if key == "limit" {
        told.push_str(": a kernel thread for each\n")?;
        writeln!(told, "  wanted: at most {most} (MOST_THREADS) together")
    } else {
        writeln!(told, ", and there are {most} cores")?;
        writeln!(told, "  wanted: at most {most} together")
    }
}
