//! Reading the task table.

ghost use Rattle.std.specs.Prelude.{◌≡◌, option_copied};
ghost use Rattle.toml.specs.View.{table_view, items_view};
ghost use Rattle.cal_machine.specs.Outcome.{Gives};
ghost use Rattle.cal_machine.specs.Reading.{top_fields, top_within, tasks_from};
ghost use Rattle.cal_machine.specs.Reading.{table_from, table_in, text_of, few_in};

use crate::config::Config;
use crate::fault::ConfigFault;
use crate::fields::{has_only, integer_of, items_of, machine_in, number_in, value_at};
use crate::machine::Machine;
use crate::numbering::{MOST_THREADS, guaranteed_in, threads_in};
use crate::task::Task;
use crate::task_table::{MOST_TASKS, MOST_TICKS, task_from};
use std::alloc::Global;
use toml::{Table, Value};

/// The table that a text spells, or the first check that fails.
pub fn read(alloc: Global, text: &[u8]) -> Result<Config, ConfigFault>
    ensures { Gives (λ config. config) result (table_in text.now) }
{
    let Some(text) = as_text(text) else {
        return Err(ConfigFault::NotToml);
    };
    match toml::table_from_str(alloc, text) {
        Ok(table) => table_from(alloc, &table),
        Err(e) if e.is_memory() => Err(ConfigFault::Memory),
        Err(_) => Err(ConfigFault::NotToml),
    }
}

/// The bytes as text, if they are UTF-8.
fn as_text(bytes: &[u8]) -> Option<&str>
    ensures { option_copied result ≡ text_of bytes.now }
{
    match str::from_utf8(bytes) {
        Ok(text) => Some(text),
        Err(_) => None,
    }
}

/// The numbers of the top table, and its tasks as the text has them.
#[derive(Clone, Copy)]
struct TopFields<'a> {
    cores: i64,
    bandwidth_limit: i64,
    tasks: &'a [Value],
}

/// The top table within its ranges, its tasks not looked at yet.
#[derive(Clone, Copy)]
struct Top<'a> {
    machine: Machine,
    bandwidth_limit: u64,
    tasks: &'a [Value],
}

/// The keys: none is unknown, none is missing. Then the types.
#[tactic(auto, unfolding(crate::specs::Reading::top_fields))]
fn top_fields(table: &Table) -> Result<TopFields<'_>, ConfigFault>
    ensures { Gives (λ f. record {
      cores = f.cores;
      bandwidth_limit = f.bandwidth_limit;
      tasks = items_view f.tasks.now;
    })
        result (top_fields (table_view table.now)) }
{
    if !has_only(table, &["cores", "bandwidth_limit", "task"]) {
        return Err(ConfigFault::UnknownKey);
    }
    let cores = value_at(table, "cores")?;
    let bandwidth_limit = value_at(table, "bandwidth_limit")?;
    let tasks = value_at(table, "task")?;
    let cores = integer_of(cores)?;
    let bandwidth_limit = integer_of(bandwidth_limit)?;
    let tasks = items_of(tasks)?;
    Ok(TopFields {
        cores,
        bandwidth_limit,
        tasks,
    })
}

/// The ranges.
#[tactic(auto, unfolding(crate::specs::Reading::top_within))]
fn top_within<'a>(fields: TopFields<'a>) -> Result<Top<'a>, ConfigFault>
    ensures { Gives (λ t. record {
      cores = t.machine;
      bandwidth_limit = t.bandwidth_limit;
      tasks = items_view t.tasks.now;
    })
        result (top_within (record {
          cores = fields.entry.cores;
          bandwidth_limit = fields.entry.bandwidth_limit;
          tasks =
              items_view fields.entry.tasks.now;
        })) }
{
    let machine = machine_in(fields.cores)?;
    let bandwidth_limit = number_in(fields.bandwidth_limit, 0, MOST_TICKS)?;
    let tasks = few_in(fields.tasks)?;
    Ok(Top {
        machine,
        bandwidth_limit,
        tasks,
    })
}

/// As many tasks as a table may have.
fn few_in(tasks: &[Value]) -> Result<&[Value], ConfigFault>
    ensures { Gives (λ t. items_view t.now) result (few_in (items_view tasks.now)) }
{
    if tasks.is_empty() || MOST_TASKS < tasks.len() {
        return Err(ConfigFault::OutOfRange);
    }
    Ok(tasks)
}

fn tasks_from(alloc: Global, items: &[Value]) -> Result<Vec<Task>, ConfigFault>
    ensures { Gives (λ tasks. tasks.items) result (tasks_from (items_view items.now)) }
{
    let mut tasks = Vec::new(alloc);
    for item in items {
        let task = task_from(item)?;
        tasks.push(task)?;
    }
    Ok(tasks)
}

/// The table of the parts, if they do not ask too much together.
#[tactic(auto, unfolding(crate::specs::Reading::table_from))]
fn table_from(alloc: Global, table: &Table) -> Result<Config, ConfigFault>
    ensures { Gives (λ config. config) result (table_from (table_view table.now)) }
{
    let fields = top_fields(table)?;
    let top = match top_within(fields) {
        Ok(top) => top,
        Err(fault) => return Err(fault),
    };
    let tasks = tasks_from(alloc, top.tasks)?;
    if (top.machine.cores() as usize) < guaranteed_in(tasks.as_slice()) {
        return Err(ConfigFault::GuaranteesExceedCores);
    }
    if MOST_THREADS < threads_in(tasks.as_slice()) {
        return Err(ConfigFault::TooManyThreads);
    }
    Ok(Config::new(top.machine, top.bandwidth_limit, tasks))
}
