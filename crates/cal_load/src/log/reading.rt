//! A log, read row by row.

ghost use Rattle.std.specs.Prelude.{◌<◌, IfOk, OnOk, length};
ghost use Rattle.cal_load.specs.Logs.{AreLogged, HasOneMore, IsLogRow, IsScale};

use crate::log::LogRow;
use crate::log::columns::{Columns, LogTerms};
use crate::log::row_fault::{LogFault, LogWhy, row_fault};
use crate::made::MOST_REQUESTS;
use cal_trace::{MOST_TURNS, MOST_WORK};
use csv::{ByteRecord, ErrorKind, Reader, ReaderBuilder};
use std::alloc::Global;

/// The rows of a log, each read into the same record.
#[derive(Drop)]
struct LogRows<'a> {
    reader: Reader<&'a [u8]>,
    record: ByteRecord,
    /// The number of the row at hand, from 1.
    number: u64,
}

impl<'a> LogRows<'a> {
    /// Those of a text, before the first.
    fn open(alloc: Global, text: &'a [u8]) -> LogRows<'a> {
        let reader = ReaderBuilder::new()
            .has_headers(false)
            .flexible(true)
            .from_reader(alloc, text);
        LogRows {
            reader,
            record: ByteRecord::new(alloc),
            number: 0,
        }
    }

    /// Goes to the next row, and says whether there is one.
    fn step(&mut self) -> Result<bool, LogFault> {
        self.number = self.number.saturating_add(1);
        match self.reader.read_byte_record(&mut self.record) {
            Ok(found) => Ok(found),
            Err(error) => match error.kind() {
                ErrorKind::OutOfMemory => Err(LogFault::Memory),
                _ => Err(self.fault(0, LogWhy::Unread)),
            },
        }
    }

    /// The fault of a field of the row at hand.
    fn fault(&self, field: usize, why: LogWhy) -> LogFault {
        row_fault(self.number, field, why)
    }

    /// The time that a field of the row at hand names, which is of the column of this name.
    fn time_at(
        &self,
        terms: &LogTerms<'_>,
        place: usize,
        name: &'static str,
    ) -> Result<u128, LogFault> {
        match terms
            .scale
            .time_of(self.record.get(place).unwrap_or(b"".as_slice()))
        {
            Some(time) => Ok(time),
            None => Err(self.fault(place, LogWhy::NotANumber(name))),
        }
    }
}

/// What the rows so far have given.
#[derive(Drop)]
struct LogReading {
    columns: Columns,
    /// The times of the first row and of the last one.
    first: Option<u128>,
    last: u128,
    requests: Vec<LogRow>,
}

impl LogReading {
    /// The time of the row at hand, which is not before the last one.
    fn time_in(&self, rows: &LogRows<'_>, terms: &LogTerms<'_>) -> Result<u128, LogFault> {
        let Columns { fields, time, .. } = self.columns;
        let count = rows.record.len();
        if count != fields {
            return Err(rows.fault(0, LogWhy::Fields(count as u64, fields as u64)));
        }
        let now = rows.time_at(terms, time, "time")?;
        if now < self.last {
            return Err(rows.fault(time, LogWhy::Backwards));
        }
        Ok(now)
    }

    /// The request of the row at hand, whose time is this.
    fn request_in(
        &self,
        rows: &LogRows<'_>,
        terms: &LogTerms<'_>,
        now: u128,
    ) -> Result<LogRow, LogFault>
        requires { IsScale terms.now.scale }
        ensures { IfOk result (IsLogRow terms.now.tasks) }
    {
        let Columns { time, service, .. } = self.columns;
        let took = rows.time_at(terms, service, "service")?;
        let Some(task) = terms.task_in(&rows.record, self.columns) else {
            let place = self.columns.task.unwrap_or(0);
            return Err(rows.fault(place, LogWhy::NotATask(terms.tasks as u64)));
        };
        let since = now.saturating_sub(self.first.unwrap_or(now));
        let turn = terms.scale.turn_at(since);
        if turn >= MOST_TURNS as u128 {
            return Err(rows.fault(time, LogWhy::TooLate(MOST_TURNS as u64)));
        }
        let work = terms.scale.turns_over(took);
        if work > u128::from(MOST_WORK) {
            return Err(rows.fault(service, LogWhy::TooLong(MOST_WORK)));
        }
        Ok(LogRow {
            task,
            turn: turn as u64,
            work: work as u64,
        })
    }

    /// Takes the row at hand.
    fn take(&mut self, rows: &LogRows<'_>, terms: &LogTerms<'_>) -> Result<(), LogFault>
        requires { IsScale terms.now.scale }
        ensures { OnOk result (HasOneMore terms.now.tasks self.old.requests.items
            self.new.requests.items) }
    {
        let now = self.time_in(rows, terms)?;
        let request = self.request_in(rows, terms, now)?;
        self.first = self.first.or(Some(now));
        self.last = now;
        self.requests.push(request)?;
        Ok(())
    }
}

/// The requests of the rows after the header.
fn requests_of(
    alloc: Global,
    rows: &mut LogRows<'_>,
    terms: &LogTerms<'_>,
    columns: Columns,
) -> Result<Vec<LogRow>, LogFault>
    requires { IsScale terms.now.scale }
    ensures { IfOk result (λ rows. AreLogged terms.now.tasks rows.items) }
{
    let mut reading = LogReading {
        columns,
        first: None,
        last: 0,
        requests: Vec::new(alloc),
    };
    for _k in 0..MOST_REQUESTS {
        if !rows.step()? {
            return Ok(reading.requests);
        }
        reading.take(rows, terms)?;
    }
    if rows.step()? {
        return Err(rows.fault(0, LogWhy::TooMany(MOST_REQUESTS)));
    }
    Ok(reading.requests)
}

/// The requests of a log, in its order: CSV with a header that names the columns `time` and
/// `service`, and maybe `task`. A request comes in the turn in which its time falls, counted from
/// that of the first, and takes its service in turns, rounded up, at least one. No time is before
/// that of the row before.
///
/// The fault is that of the first row that has one; of a log without requests that of the row after
/// the header.
pub fn read_log(alloc: Global, text: &[u8], terms: &LogTerms<'_>) -> Result<Vec<LogRow>, LogFault>
    requires { IsScale terms.now.scale }
    ensures logged { IfOk result (λ rows. AreLogged terms.now.tasks rows.items) }
    ensures some { IfOk result (λ rows. 0 < length rows.items) }
{
    let mut rows = LogRows::open(alloc, text);
    rows.step()?;
    let columns = Columns::of(&rows.record, terms)?;
    let requests = requests_of(alloc, &mut rows, terms, columns)?;
    if requests.is_empty() {
        return Err(row_fault(2, 0, LogWhy::NoRequest));
    }
    Ok(requests)
}
