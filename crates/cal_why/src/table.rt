//! A table that was refused.

mod finding;
mod keys;
mod no_toml;
mod sum;

use crate::explaining::Part;
use crate::grammar::{TASK_KEYS, TOP_KEYS, tell_wanted_at};
use crate::nearest::nearest;
use crate::places::are_digits;
use crate::table::finding::find_key;
use crate::table::keys::{Spot, first_spot, number_at};
use crate::table::no_toml::{tell_no_text, tell_no_toml};
use crate::table::sum::tell_sum;
use cal_machine::{ConfigFault, MOST_THREADS};
use std::alloc::{AllocError, Global};
use std::fmt::Write;
use toml::Value;

/// Puts why a table was refused.
pub fn tell_table(
    alloc: Global,
    told: &mut String,
    part: Part<'_>,
    fault: ConfigFault,
) -> Result<(), AllocError> {
    let read = match str::from_utf8(part.bytes) {
        Ok(read) => read,
        Err(error) => return tell_no_text(told, part, error.valid_up_to()),
    };
    let table = match toml::table_from_str(alloc, read) {
        Ok(table) => table,
        Err(error) if error.is_memory() => return Err(AllocError),
        Err(error) => return tell_no_toml(told, part, &error),
    };
    match fault {
        ConfigFault::GuaranteesExceedCores => {
            tell_sum(told, part, &table, "guaranteed", number_at(&table, "cores"))
        }
        ConfigFault::TooManyThreads => {
            tell_sum(told, part, &table, "limit", MOST_THREADS as i64)
        }
        _ => match first_spot(&table, fault) {
            Some(spot) => tell_spot(told, part, spot, fault),
            None => Ok(()),
        },
    }
}

/// Puts where a key of a table stands, or else its task, if that is found.
fn tell_key(
    told: &mut String,
    part: Part<'_>,
    task: Option<usize>,
    key: &str,
) -> Result<(), AllocError> {
    match find_key(part.bytes, task, key).or(find_key(part.bytes, None, "task")) {
        Some(at) => part.tell_place(told, at),
        None => Ok(()),
    }
}

/// Puts the key, whose it is, what is wrong there, and what is wanted.
fn tell_spot(
    told: &mut String,
    part: Part<'_>,
    spot: Spot<'_>,
    fault: ConfigFault,
) -> Result<(), AllocError> {
    let Spot { task, key, value } = spot;
    tell_key(told, part, task, key)?;
    match task {
        Some(task) => write!(told, "  `{key}` of task {task}")?,
        None => write!(told, "  `{key}`")?,
    }
    match fault {
        ConfigFault::UnknownKey => return tell_unknown(told, spot),
        ConfigFault::BestEffortGuarantee => {
            told.push_str(" is not 0, and the task is best-effort\n")?;
            return told.push_str("  wanted: guaranteed = 0, or kind = \"lc\"\n");
        }
        ConfigFault::MissingKey => told.push_str(" is missing\n")?,
        ConfigFault::WrongType => {
            let kind = value.map_or("no table", |value| value.type_str());
            writeln!(told, " is of the wrong type: {kind}")?
        }
        _ => told.push_str(" is out of its range\n")?,
    }
    tell_wanted_at(told, key)?;
    match value {
        Some(value) => tell_remedy(told, key, value),
        None => Ok(()),
    }
}

/// Puts that a key means nothing where it stands, and which was meant.
fn tell_unknown(told: &mut String, spot: Spot<'_>) -> Result<(), AllocError> {
    let key = spot.key.as_bytes();
    let (own, other, place) = match spot.task {
        Some(_) => (
            TASK_KEYS,
            TOP_KEYS,
            "the top of the table: put it above the first [[task]]",
        ),
        None => (TOP_KEYS, TASK_KEYS, "a task: put it below a line [[task]]"),
    };
    writeln!(told, " is no key here; there are: {own}")?;
    if let Some(meant) = nearest(key, own) {
        writeln!(told, "  did you mean `{meant}`?")
    } else if nearest(key, other).is_some() {
        writeln!(told, "  it belongs to {place}")
    } else if nearest(key, "name").is_some() {
        told.push_str("  tasks have numbers, from 0; `caladan_view` calls them by names that\n")?;
        told.push_str("  --names gives, as `measure --names web,batch`\n")
    } else {
        Ok(())
    }
}

/// Puts what is to be done about a value of the wrong type or out of its range, where that is plain.
fn tell_remedy(told: &mut String, key: &str, value: &Value) -> Result<(), AllocError> {
    match value {
        Value::Float(..) => told.push_str("  write it without a fraction\n"),
        Value::Table(..) => told.push_str("  write [[task]], in two brackets\n"),
        Value::String(..) if key != "kind" => {
            told.push_str("  write it without quotes\n")?;
            match value.as_str() {
                Some(text) if !are_digits(text.as_bytes()) => told.push_str(NO_UNIT),
                _ => Ok(()),
            }
        }
        _ => match nearest(value.as_str().unwrap_or("").as_bytes(), "lc be") {
            Some(meant) => writeln!(told, "  did you mean \"{meant}\"?"),
            None => Ok(()),
        },
    }
}

/// That a number has no unit beside it.
pub const NO_UNIT: &str = "  \
a number is digits alone, below 2^63, with no unit: times are in clock ticks
";
