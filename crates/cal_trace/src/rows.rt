//! The rows of a text, one at a time.

pub mod fields;
pub mod header;
pub mod look_rows;
pub mod number;
pub mod passes;
pub mod reading;
pub mod shown;
pub mod so_far;
pub mod version;

ghost use Rattle.std.specs.Prelude.{◌≡◌, ◌+◌, IfOk, IfErr, OnErr};
ghost use Rattle.csv.specs.Reading.{error_kind};
ghost use Rattle.cal_trace.specs.Rows.Answers.{IsRefused, kind_of};
ghost use Rattle.cal_trace.specs.Rows.{rows_of, rest_of, IsReading, HasStopped, StepsOn};

use crate::fault::{FaultKind, TraceFault};
use csv::{ByteRecord, ErrorKind, Reader, ReaderBuilder};
use std::alloc::Global;

/// What an error of `csv` is: out of memory by its name, else the reader's.
fn kind_of(error: &csv::Error) -> FaultKind
    ensures { result ≡ kind_of (error_kind error.now) }
{
    match error.kind() {
        ErrorKind::OutOfMemory => FaultKind::Memory,
        _ => FaultKind::Read,
    }
}

/// The rows of a text, each read into the same record.
#[derive(Drop)]
pub(crate) struct Rows<'a> {
    reader: Reader<&'a [u8]>,
    record: ByteRecord,
    number: u64,
}

impl<'a> Rows<'a> {
    /// The rows of a text, before the first.
    pub(crate) fn open(alloc: Global, text: &'a [u8]) -> Rows<'a>
        ensures reading { IsReading result }
        ensures rest { rest_of result ≡ rows_of text.now }
        ensures number { result.number ≡ 0 }
    {
        let reader = ReaderBuilder::new()
            .has_headers(false)
            .flexible(true)
            .from_reader(alloc, text);
        Rows {
            reader,
            record: ByteRecord::new(alloc),
            number: 0,
        }
    }

    /// Goes to the next row, and says whether there is one. Fails when out of memory, or with
    /// `Read` where `csv` answered any other; its row is the next one.
    pub(crate) fn step(&mut self) -> Result<bool, TraceFault>
        requires { IsReading self.old }
        ensures steps { IfOk result (λ found. StepsOn self.old self.new found) }
        ensures refused { IfErr result (λ fault. IsRefused fault.kind) }
        ensures row { IfErr result (λ fault. fault.row ≡ self.old.number + 1) }
        ensures stopped { OnErr result (HasStopped self.new) }
    {
        match self.reader.read_byte_record(&mut self.record) {
            Ok(found) => {
                if found {
                    self.number += 1;
                }
                Ok(found)
            }
            Err(e) => {
                Err(TraceFault {
                    row: self.number + 1,
                    kind: kind_of(&e),
                })
            }
        }
    }

    /// The row at hand.
    pub(crate) fn row(&self) -> &ByteRecord
        ensures { result.now ≡ self.now.«record» }
    {
        &self.record
    }

    /// Its number, from 1: 0 before the first.
    pub(crate) fn number(&self) -> u64
        ensures { result ≡ self.now.number }
    {
        self.number
    }
}
