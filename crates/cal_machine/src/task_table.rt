//! Reading one task of the table.

ghost use Rattle.toml.specs.View.{view, table_view};
ghost use Rattle.cal_machine.specs.Outcome.{Gives};
ghost use Rattle.cal_machine.specs.Reading.{task_values, task_fields, fair, task_within, task_from};

use crate::fault::ConfigFault;
use crate::fields::{
    has_only, integer_of, kind_in, number_in, small_in, string_of, table_of, value_at,
};
use crate::task::{Kind, Task};
use toml::{Table, Value};

/// The most tasks of a table.
pub const MOST_TASKS: usize = 16;

/// The greatest limit of a task.
pub const MOST_LIMIT: u8 = 16;

/// The greatest delay, request age and bandwidth limit.
pub const MOST_TICKS: u64 = 1_000_000_000_000;

/// What stands at the keys of a task.
#[derive(Clone, Copy)]
pub struct TaskValues<'a> {
    kind: &'a Value,
    guaranteed: &'a Value,
    limit: &'a Value,
    delay: &'a Value,
    request: &'a Value,
}

/// The text and the numbers of a task.
#[derive(Clone, Copy)]
pub struct TaskFields<'a> {
    kind: &'a str,
    guaranteed: i64,
    limit: i64,
    delay: i64,
    request: i64,
}

/// The keys: none is unknown, none is missing.
#[tactic(auto, unfolding(crate::specs::Reading::task_values))]
fn task_values(table: &Table) -> Result<TaskValues<'_>, ConfigFault>
    ensures { Gives (λ v. record {
      kind = view v.kind.now;
      guaranteed = view v.guaranteed.now;
      limit = view v.limit.now;
      delay = view v.delay.now;
      request = view v.request.now;
    })
        result (task_values (table_view table.now)) }
{
    if !has_only(table, &["kind", "guaranteed", "limit", "delay", "request"]) {
        return Err(ConfigFault::UnknownKey);
    }
    let kind = value_at(table, "kind")?;
    let guaranteed = value_at(table, "guaranteed")?;
    let limit = value_at(table, "limit")?;
    let delay = value_at(table, "delay")?;
    let request = value_at(table, "request")?;
    Ok(TaskValues {
        kind,
        guaranteed,
        limit,
        delay,
        request,
    })
}

/// The types.
#[tactic(auto, unfolding(crate::specs::Reading::task_fields))]
fn task_fields<'a>(values: TaskValues<'a>) -> Result<TaskFields<'a>, ConfigFault>
    ensures { Gives (λ f. record {
      kind = f.kind.now;
      guaranteed = f.guaranteed;
      limit = f.limit;
      delay = f.delay;
      request = f.request;
    })
        result (task_fields (record {
          kind = view values.entry.kind.now;
          guaranteed = view values.entry.guaranteed.now;
          limit = view values.entry.limit.now;
          delay =
              view values.entry.delay.now;
          request = view values.entry.request.now;
        })) }
{
    let kind = string_of(values.kind)?;
    let guaranteed = integer_of(values.guaranteed)?;
    let limit = integer_of(values.limit)?;
    let delay = integer_of(values.delay)?;
    let request = integer_of(values.request)?;
    Ok(TaskFields {
        kind,
        guaranteed,
        limit,
        delay,
        request,
    })
}

/// A task of which no core is guaranteed where it is best-effort.
fn fair(task: Task) -> Result<Task, ConfigFault>
    ensures { Gives (λ t. t) result (fair task) }
{
    match task.kind {
        Kind::BestEffort if task.guaranteed != 0 => Err(ConfigFault::BestEffortGuarantee),
        _ => Ok(task),
    }
}

/// The ranges, and then the guarantee of a best-effort task.
#[tactic(auto, unfolding(crate::specs::Reading::task_within))]
fn task_within<'a>(fields: TaskFields<'a>) -> Result<Task, ConfigFault>
    ensures { Gives (λ t. t) result
        (task_within (record {
          kind = fields.entry.kind.now;
          guaranteed = fields.entry.guaranteed;
          limit = fields.entry.limit;
          delay = fields.entry.delay;
          request = fields.entry.request;
        })) }
{
    let kind = kind_in(fields.kind)?;
    let limit = small_in(fields.limit, 1, MOST_LIMIT)?;
    let guaranteed = small_in(fields.guaranteed, 0, limit)?;
    let delay = number_in(fields.delay, 0, MOST_TICKS)?;
    let request = number_in(fields.request, 0, MOST_TICKS)?;
    fair(Task {
        kind,
        guaranteed,
        limit,
        delay,
        request,
    })
}

/// The task that a value is.
#[tactic(auto, unfolding(crate::specs::Reading::task_from))]
pub fn task_from(value: &Value) -> Result<Task, ConfigFault>
    ensures { Gives (λ t. t) result (task_from (view value.now)) }
{
    let table = table_of(value)?;
    let values = task_values(table)?;
    let fields = task_fields(values)?;
    task_within(fields)
}
