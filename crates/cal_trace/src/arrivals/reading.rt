//! Reading arrivals, row by row.

ghost use Rattle.std.specs.Prelude.{◌≡◌, Option};
ghost use Rattle.cal_trace.specs.Arrivals.{form_of, last_in, turn_row, arrival_row, comes_after};
ghost use Rattle.csv.specs.Records.{fields_of};

use crate::arrivals::ids::Ids;
use crate::arrivals::{Arrival, Arrivals, GivenPass};
use crate::fault::FaultKind;
use crate::rows::fields::{has_numbers, is_row, number_at};
use crate::rows::look_rows::{end_row, pass_row};
use crate::rows::reading::Reading;
use cal_machine::{Listed, Request};
use csv::ByteRecord;
use std::alloc::Global;

/// The most turns that a file may have: few enough that no thread's journal is ever full.
/// Doranjei's own limit.
pub const MOST_TURNS: usize = 174_762;

/// The most work that a request may have, in turns. Doranjei's own limit.
pub const MOST_WORK: u64 = 1_000_000;

/// The most cache misses that a request may have: 2^32 - 1. Doranjei's own limit.
pub const MOST_REQUEST_MISSES: u64 = 4_294_967_295;

/// What a row of a file of arrivals is, by its first field and its number of fields.
#[derive(Clone, Copy)]
pub(crate) enum Form {
    /// The header once more, which may not come here.
    Header,
    /// A pass.
    Pass,
    /// A turn.
    Turn,
    /// A request.
    Arrival,
    /// The file ends.
    End,
}

fn form_of(row: &ByteRecord) -> Option<Form>
    ensures { result ≡ form_of (fields_of row.now) }
{
    if is_row(row, b"pass".as_slice(), 3) {
        Some(Form::Pass)
    } else if is_row(row, b"turn".as_slice(), 2) {
        Some(Form::Turn)
    } else if is_row(row, b"request".as_slice(), 6) {
        Some(Form::Arrival)
    } else if is_row(row, b"end".as_slice(), 2) {
        Some(Form::End)
    } else if is_row(row, b"caladan-arrivals".as_slice(), 2) {
        Some(Form::Header)
    } else {
        None
    }
}

/// The last of these, if there is one.
pub(crate) fn last_of<T: Copy>(list: &[T]) -> Option<T>
    ensures { result ≡ last_in list.now }
{
    list.last().copied()
}

/// Reads a turn row that comes after these turns. `Number` where its clock is none, then `Range`
/// where it is one turn too many, or its clock is 0 or below that of the turn before.
fn turn_row(row: &ByteRecord, turns: &[u64]) -> Result<u64, FaultKind>
    ensures { result ≡ turn_row turns.now (fields_of row.now) }
{
    if !has_numbers(row) {
        return Err(FaultKind::Number);
    }
    let now = number_at(row, 1);
    if turns.len() >= MOST_TURNS || now < 1 || now < last_of(turns).unwrap_or(0) {
        return Err(FaultKind::Range);
    }
    Ok(now)
}

/// Whether a request for this thread before this turn comes after the last one.
fn comes_after(last: Option<Arrival>, thread: u64, turn: u64) -> bool
    ensures { result ≡ comes_after last thread turn }
{
    match last {
        None => true,
        Some(last) => {
            let of = last.thread as u64;
            of < thread || (of == thread && last.turn < turn)
        }
    }
}

/// Reads a request row that comes after this request, where there are so many threads and turns.
/// `Number` where a field is none, then `Order` where its thread and turn do not come after those
/// of the last, then `Range`.
fn arrival_row(
    row: &ByteRecord,
    threads: u8,
    turns: usize,
    last: Option<Arrival>,
) -> Result<Arrival, FaultKind>
    ensures { result ≡ arrival_row threads turns last (fields_of row.now) }
{
    if !has_numbers(row) {
        return Err(FaultKind::Number);
    }
    let thread = number_at(row, 1);
    let turn = number_at(row, 2);
    if !comes_after(last, thread, turn) {
        return Err(FaultKind::Order);
    }
    let request = Request {
        id: number_at(row, 3),
        work: number_at(row, 4),
        misses: number_at(row, 5),
    };
    if thread >= threads as u64 || turn >= turns as u64 || !is_size(&request) {
        return Err(FaultKind::Range);
    }
    Ok(Arrival {
        thread: thread as u8,
        turn,
        request,
    })
}

/// Whether a request has its work and its misses in their ranges.
fn is_size(request: &Request) -> bool
    ensures { result ≡ is_size request.now.work request.now.misses }
{
    1 <= request.work && request.work <= MOST_WORK && request.misses <= MOST_REQUEST_MISSES
}

ghost use Rattle.cal_trace.specs.Arrivals.{is_size};

/// What the rows so far have given.
#[derive(Drop)]
pub(crate) struct ArrivalReading {
    threads: u8,
    passes: Vec<GivenPass>,
    turns: Vec<u64>,
    requests: Vec<Arrival>,
    // The ids of these requests.
    ids: Ids,
    ended: bool,
}

impl ArrivalReading {
    ghost use Rattle.std.specs.Prelude.{◌≡◌, Ok, OnOk, Some};
    ghost use Rattle.csv.specs.Records.{fields_of};
    ghost use Rattle.cal_trace.specs.Rows.Answers.{Takes};
    ghost use Rattle.cal_trace.specs.Arrivals.{add_arrival, at_start, take_form};
    ghost use Rattle.cal_trace.specs.Arrivals.Reading.{so_far, KeepsArrivals};
    ghost use Rattle.cal_trace.specs.declared.arrivals.reading.Form.TheVariants as form;

    /// Before the first row after the header of a file for so many threads.
    pub(crate) fn new(alloc: Global, threads: u8) -> ArrivalReading
        ensures start { so_far result ≡ at_start }
        ensures kept { KeepsArrivals result }
        ensures threads { result.threads ≡ threads }
    {
        ArrivalReading {
            threads,
            passes: Vec::new(alloc),
            turns: Vec::new(alloc),
            requests: Vec::new(alloc),
            ids: Ids::new(alloc),
            ended: false,
        }
    }

    fn take_pass(&mut self, row: &ByteRecord) -> Result<(), FaultKind>
        requires { KeepsArrivals self.old }
        ensures takes { Takes (λ _. so_far self.new) result
            (take_form self.old.threads (so_far self.old) (Some form.Pass) (fields_of row.now)) }
        ensures kept { OnOk result (KeepsArrivals self.new) }
        ensures file { self.new.threads ≡ self.old.threads }
    {
        if self.ended || !self.turns.is_empty() || !self.requests.is_empty() {
            return Err(FaultKind::Order);
        }
        let pass = pass_row(row, self.passes.len())?;
        self.passes.push(pass)?;
        Ok(())
    }

    fn take_turn(&mut self, row: &ByteRecord) -> Result<(), FaultKind>
        requires { KeepsArrivals self.old }
        ensures takes { Takes (λ _. so_far self.new) result
            (take_form self.old.threads (so_far self.old) (Some form.Turn) (fields_of row.now)) }
        ensures kept { OnOk result (KeepsArrivals self.new) }
        ensures file { self.new.threads ≡ self.old.threads }
    {
        if self.ended || !self.requests.is_empty() {
            return Err(FaultKind::Order);
        }
        let now = turn_row(row, &self.turns)?;
        self.turns.push(now)?;
        Ok(())
    }

    fn take_arrival(&mut self, row: &ByteRecord) -> Result<(), FaultKind>
        requires { KeepsArrivals self.old }
        ensures takes { Takes (λ _. so_far self.new) result
            (take_form self.old.threads (so_far self.old) (Some form.Arrival) (fields_of row.now)) }
        ensures kept { OnOk result (KeepsArrivals self.new) }
        ensures file { self.new.threads ≡ self.old.threads }
    {
        if self.ended {
            return Err(FaultKind::Order);
        }
        let last = last_of(&self.requests);
        let arrival = arrival_row(row, self.threads, self.turns.len(), last)?;
        self.add_arrival(arrival)
    }

    fn add_arrival(&mut self, arrival: Arrival) -> Result<(), FaultKind>
        requires { KeepsArrivals self.old }
        ensures takes { Takes (λ _. so_far self.new) result
            (add_arrival (so_far self.old) (Ok arrival)) }
        ensures kept { OnOk result (KeepsArrivals self.new) }
        ensures file { self.new.threads ≡ self.old.threads }
    {
        let requests = self.requests.as_slice();
        if !self.ids.insert(requests, arrival.request.id)? {
            return Err(FaultKind::Repeated);
        }
        self.requests.push(arrival)?;
        Ok(())
    }

    fn take_end(&mut self, row: &ByteRecord) -> Result<(), FaultKind>
        requires { KeepsArrivals self.old }
        ensures takes { Takes (λ _. so_far self.new) result
            (take_form self.old.threads (so_far self.old) (Some form.End) (fields_of row.now)) }
        ensures kept { OnOk result (KeepsArrivals self.new) }
        ensures file { self.new.threads ≡ self.old.threads }
    {
        if self.ended {
            return Err(FaultKind::Order);
        }
        end_row(
            row,
            self.passes.len() + self.turns.len() + self.requests.len(),
        )?;
        self.ended = true;
        Ok(())
    }
}

impl Reading for ArrivalReading {
    ghost use Rattle.cal_trace.specs.Arrivals.{SoFar, take_row, whole};
    ghost use Rattle.cal_trace.specs.Arrivals.Reading.{so_far, KeepsArrivals};

    type Value = Arrivals;

    ghost SoFar = { SoFar };

    ghost so_far = { so_far };

    ghost take = { λ reading. take_row reading.threads };

    ghost whole = { whole };

    ghost KeepsRows = { KeepsArrivals };

    fn take_row(&mut self, row: &ByteRecord) -> Result<(), FaultKind> {
        match form_of(row) {
            None => Err(FaultKind::Fields),
            Some(Form::Header) => Err(FaultKind::Order),
            Some(Form::Pass) => self.take_pass(row),
            Some(Form::Turn) => self.take_turn(row),
            Some(Form::Arrival) => self.take_arrival(row),
            Some(Form::End) => self.take_end(row),
        }
    }

    fn end(self) -> Option<Arrivals> {
        if self.ended {
            Some(Arrivals {
                passes: Listed::new(self.passes),
                turns: Listed::new(self.turns),
                requests: Listed::new(self.requests),
            })
        } else {
            None
        }
    }
}
