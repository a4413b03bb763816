//! The columns of a log, and what its fields say.

ghost use Rattle.std.specs.Prelude.{◌<◌, IfSome};

use crate::decimal::number_of;
use crate::log::length::LogScale;
use crate::log::row_fault::{LogFault, LogWhy, row_fault};
use csv::ByteRecord;

/// How a log is to be read.
#[derive(Clone, Copy)]
pub struct LogTerms<'a> {
    /// How its numbers become turns.
    pub scale: LogScale,
    /// How many tasks the table has.
    pub tasks: usize,
    /// What they are called, where they have names.
    pub names: &'a [&'a str],
    /// The task of all rows, where a word says it.
    pub task: Option<usize>,
}

/// The places of the columns of a log, from 0.
#[derive(Clone, Copy)]
pub(crate) struct Columns {
    /// How many fields the header has.
    pub(crate) fields: usize,
    /// Where the times are.
    pub(crate) time: usize,
    /// Where the services are.
    pub(crate) service: usize,
    /// Where the tasks are, if there are any.
    pub(crate) task: Option<usize>,
}

/// The place of the column of this name, which at most one has.
fn place_of(header: &ByteRecord, name: &'static str) -> Result<Option<usize>, LogFault> {
    let mut found = None;
    for place in 0..header.len() {
        if header.get(place) == Some(name.as_bytes()) {
            if found.is_some() {
                return Err(row_fault(1, place, LogWhy::TwoColumns(name)));
            }
            found = Some(place);
        }
    }
    Ok(found)
}

/// What seems to separate the fields of a header in place of commas, by which it is one field.
fn other_separator(header: &ByteRecord) -> Option<&'static str> {
    if header.len() != 1 {
        return None;
    }
    let field = header.get(0)?;
    if field.contains(&b';') {
        Some("semicolons")
    } else if field.contains(&b'\t') {
        Some("tabs")
    } else {
        None
    }
}

/// The place of the column of this name, which one has.
fn needed_place(header: &ByteRecord, name: &'static str) -> Result<usize, LogFault> {
    match place_of(header, name)? {
        Some(place) => Ok(place),
        None => match other_separator(header) {
            Some(by) => Err(row_fault(1, 0, LogWhy::Separated(by))),
            None => Err(row_fault(1, 0, LogWhy::NoColumn(name))),
        },
    }
}

impl Columns {
    /// Those that a header names, by which a log is read; other columns are not read.
    pub(crate) fn of(header: &ByteRecord, terms: &LogTerms<'_>) -> Result<Columns, LogFault> {
        let time = needed_place(header, "time")?;
        let service = needed_place(header, "service")?;
        let task = place_of(header, "task")?;
        match task {
            Some(place) if terms.task.is_some() => Err(row_fault(1, place, LogWhy::TwoTasks)),
            _ => Ok(Columns {
                fields: header.len(),
                time,
                service,
                task,
            }),
        }
    }
}

impl LogTerms<'_> {
    /// The task that a field names: by its name, or by its number.
    fn task_named(&self, field: &[u8]) -> Option<usize> {
        for place in 0..self.names.len() {
            if self.names[place].as_bytes() == field {
                return Some(place);
            }
        }
        let number = str::from_utf8(field).ok()?;
        number_of(number).map(|number| number as usize)
    }

    /// The task of a row: the one that its field names, or else that of all rows.
    pub(crate) fn task_in(&self, row: &ByteRecord, columns: Columns) -> Option<usize>
        ensures { IfSome result (λ task. task < self.now.tasks) }
    {
        let task = match columns.task {
            Some(place) => self.task_named(row.get(place)?)?,
            None => self.task.unwrap_or(0),
        };
        if task < self.tasks { Some(task) } else { None }
    }
}
