//! Reading comings, row by row.

ghost use Rattle.std.specs.Prelude.{◌≡◌, Option};
ghost use Rattle.cal_trace.specs.Comings.{coming_row, form_of, is_header, is_later, left_out_row};
ghost use Rattle.csv.specs.Records.{fields_of};

use crate::arrivals::Arrival;
use crate::arrivals::reading::last_of;
use crate::comings::{Coming, Comings, LeftOut};
use crate::fault::FaultKind;
use crate::rows::fields::{has_numbers, is_number_at, is_row, is_word_at, number_at};
use crate::rows::reading::Reading;
use cal_machine::Listed;
use csv::ByteRecord;
use std::alloc::Global;

/// What a row of a file of comings is.
#[derive(Clone, Copy)]
pub(crate) enum Form {
    /// To which turn a request came.
    Coming,
    /// How many requests of a task are left out.
    LeftOut,
}

/// Whether a row is the header.
pub(crate) fn is_header(row: &ByteRecord) -> bool
    ensures { result ≡ is_header (fields_of row.now) }
{
    is_row(row, b"id".as_slice(), 2) && is_word_at(row, 1, b"turn".as_slice())
}

fn form_of(row: &ByteRecord) -> Option<Form>
    ensures { result ≡ form_of (fields_of row.now) }
{
    if is_row(row, b"left out".as_slice(), 3) {
        Some(Form::LeftOut)
    } else if row.len() == 2 {
        Some(Form::Coming)
    } else {
        None
    }
}

/// Reads the row of this request. `Number` where a field is none, then `Order` where it is another
/// request, then `Range` where it came after its turn.
fn coming_row(row: &ByteRecord, next: &Arrival) -> Result<Coming, FaultKind>
    ensures { result ≡ coming_row next.now (fields_of row.now) }
{
    if !is_number_at(row, 0) || !is_number_at(row, 1) {
        return Err(FaultKind::Number);
    }
    let turn = number_at(row, 1);
    if number_at(row, 0) != next.request.id {
        return Err(FaultKind::Order);
    }
    if turn > next.turn {
        return Err(FaultKind::Range);
    }
    Ok(Coming {
        arrival: *next,
        turn,
    })
}

/// Whether a task comes after the one of the last row.
fn is_later(last: Option<LeftOut>, task: u64) -> bool
    ensures { result ≡ is_later last task }
{
    match last {
        None => true,
        Some(last) => last.task < task,
    }
}

/// Reads a row of requests that are left out, which comes after this one, where there are so many
/// tasks. `Number` where a field is none, then `Order` where its task does not come after that of
/// the last, then `Range`.
fn left_out_row(row: &ByteRecord, tasks: u64, last: Option<LeftOut>) -> Result<LeftOut, FaultKind>
    ensures { result ≡ left_out_row tasks last (fields_of row.now) }
{
    if !has_numbers(row) {
        return Err(FaultKind::Number);
    }
    let task = number_at(row, 1);
    let count = number_at(row, 2);
    if !is_later(last, task) {
        return Err(FaultKind::Order);
    }
    if task >= tasks || count < 1 {
        return Err(FaultKind::Range);
    }
    Ok(LeftOut { task, count })
}

/// What the rows so far have given.
#[derive(Drop)]
pub(crate) struct ComingReading<'a> {
    tasks: u64,
    // The requests whose rows are still to come.
    to_come: &'a [Arrival],
    requests: Vec<Coming>,
    left_out: Vec<LeftOut>,
}

impl<'a> ComingReading<'a> {
    ghost use Rattle.std.specs.Prelude.{◌≡◌, Some};
    ghost use Rattle.csv.specs.Records.{fields_of};
    ghost use Rattle.cal_trace.specs.Rows.Answers.{Takes};
    ghost use Rattle.cal_trace.specs.Comings.{at_start, take_form};
    ghost use Rattle.cal_trace.specs.Comings.Reading.{so_far};
    ghost use Rattle.cal_trace.specs.declared.comings.reading.Form.TheVariants as form;

    /// Before the first row after the header of a file for these requests, of so many tasks.
    pub(crate) fn new(alloc: Global, tasks: u64, requests: &'a [Arrival]) -> ComingReading<'a>
        ensures start { so_far result ≡ at_start requests.now }
        ensures tasks { result.tasks ≡ tasks }
    {
        ComingReading {
            tasks,
            to_come: requests,
            requests: Vec::new(alloc),
            left_out: Vec::new(alloc),
        }
    }

    fn take_coming(&mut self, row: &ByteRecord) -> Result<(), FaultKind>
        ensures takes { Takes (λ _. so_far self.new) result
            (take_form self.old.tasks (so_far self.old) (Some form.Coming) (fields_of row.now)) }
        ensures file { self.new.tasks ≡ self.old.tasks }
    {
        let Some((next, to_come)) = self.to_come.split_first() else {
            return Err(FaultKind::Order);
        };
        let coming = coming_row(row, next)?;
        self.requests.push(coming)?;
        self.to_come = to_come;
        Ok(())
    }

    fn take_left_out(&mut self, row: &ByteRecord) -> Result<(), FaultKind>
        ensures takes { Takes (λ _. so_far self.new) result
            (take_form self.old.tasks (so_far self.old) (Some form.LeftOut) (fields_of row.now)) }
        ensures file { self.new.tasks ≡ self.old.tasks }
    {
        if !self.to_come.is_empty() {
            return Err(FaultKind::Order);
        }
        let left_out = left_out_row(row, self.tasks, last_of(&self.left_out))?;
        self.left_out.push(left_out)?;
        Ok(())
    }
}

impl Reading for ComingReading<'_> {
    ghost use Rattle.std.specs.Prelude.{⊤};
    ghost use Rattle.cal_trace.specs.Comings.{SoFar, take_row, whole};
    ghost use Rattle.cal_trace.specs.Comings.Reading.{so_far};

    type Value = Comings;

    ghost SoFar = { SoFar };

    ghost so_far = { so_far };

    ghost take = { λ reading. take_row reading.tasks };

    ghost whole = { whole };

    ghost KeepsRows = { λ _. ⊤ };

    fn take_row(&mut self, row: &ByteRecord) -> Result<(), FaultKind> {
        match form_of(row) {
            None => Err(FaultKind::Fields),
            Some(Form::Coming) => self.take_coming(row),
            Some(Form::LeftOut) => self.take_left_out(row),
        }
    }

    fn end(self) -> Option<Comings> {
        if self.to_come.is_empty() {
            Some(Comings {
                requests: Listed::new(self.requests),
                left_out: Listed::new(self.left_out),
            })
        } else {
            None
        }
    }
}
