//! Which is the first key of a table that has a fault.

use crate::grammar::{TASK_KEYS, TOP_KEYS, is_among, numbers_at};
use cal_machine::{ConfigFault, MOST_TASKS};
use toml::{Table, Value};

/// A key of a table: of a task, or of the top.
#[derive(Clone, Copy)]
pub struct Spot<'a> {
    /// The task, from 0; none at the top.
    pub task: Option<usize>,
    /// The key.
    pub key: &'a str,
    /// What stands at it, if something does.
    pub value: Option<&'a Value>,
}

/// The tasks of a table, as its text has them.
pub fn tasks_of(table: &Table) -> &[Value] {
    match table.get("task") {
        Some(Value::Array(items)) => items.as_slice(),
        _ => &[],
    }
}

/// The number at a key; 0 where there is none.
pub fn number_at(table: &Table, key: &str) -> i64 {
    table
        .get(key)
        .map_or(0, |value| value.as_integer().unwrap_or(0))
}

/// The first key of a table that has this fault.
pub fn first_spot<'a>(table: &'a Table, fault: ConfigFault) -> Option<Spot<'a>> {
    if let Some(key) = key_with(table, TOP_KEYS, fault) {
        return Some(Spot {
            task: None,
            key,
            value: table.get(key),
        });
    }
    for (task, item) in tasks_of(table).iter().enumerate() {
        let (key, value) = match item.as_table() {
            Some(own) => match key_with(own, TASK_KEYS, fault) {
                Some(key) => (key, own.get(key)),
                None => continue,
            },
            None if fault == ConfigFault::WrongType => ("task", None),
            None => continue,
        };
        let task = Some(task);
        return Some(Spot { task, key, value });
    }
    None
}

/// The first key that has this fault: an unknown one of those that are there, else one of those
/// that are to be.
fn key_with<'a>(table: &'a Table, keys: &'a str, fault: ConfigFault) -> Option<&'a str> {
    if fault == ConfigFault::UnknownKey {
        for key in table.keys() {
            if !is_among(key.as_str(), keys) {
                return Some(key.as_str());
            }
        }
        return None;
    }
    keys.split(' ')
        .find(|key| fault_at(table, *key) == Some(fault))
}

/// The fault of a key that is to be there.
fn fault_at(table: &Table, key: &str) -> Option<ConfigFault> {
    let Some(value) = table.get(key) else {
        return Some(ConfigFault::MissingKey);
    };
    let is_in_range = match key {
        "kind" => value.as_str().map(|kind| kind == "lc" || kind == "be"),
        "task" => match value.as_array() {
            Some(tasks) => Some(1 <= tasks.len() && tasks.len() <= MOST_TASKS),
            None => None,
        },
        _ => match value.as_integer() {
            Some(number) => Some(is_number_at(table, key, number)),
            None => None,
        },
    };
    match is_in_range {
        None => Some(ConfigFault::WrongType),
        Some(false) => Some(ConfigFault::OutOfRange),
        Some(true) if key == "guaranteed" && is_best_effort(table) => {
            Some(ConfigFault::BestEffortGuarantee)
        }
        Some(true) => None,
    }
}

/// Whether a number may stand at a key. Where the limit of a task has a fault, that is the one, and
/// its guarantee has none.
fn is_number_at(table: &Table, key: &str, number: i64) -> bool {
    let limit = u64::try_from(number_at(table, "limit")).unwrap_or(0);
    if key == "guaranteed" && !numbers_at("limit", 0).has(limit) {
        return true;
    }
    match u64::try_from(number) {
        Ok(number) => numbers_at(key, limit).has(number) && (key != "cores" || number % 2 == 0),
        Err(_) => false,
    }
}

/// Whether a task is best-effort and has a guarantee.
fn is_best_effort(task: &Table) -> bool {
    match task.get("kind") {
        Some(kind) => kind.as_str() == Some("be") && number_at(task, "guaranteed") != 0,
        None => false,
    }
}
