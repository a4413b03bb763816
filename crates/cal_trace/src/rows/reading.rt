//! Reading a file row by row, whatever its rows are.

ghost use Rattle.std.specs.Prelude.{◌≡◌, Result, Option, OnOk};
ghost use Rattle.csv.specs.Records.{fields_of};
ghost use Rattle.cal_trace.specs.Rows.Answers.{IsWhatRowsSay, Takes};
ghost use Rattle.cal_trace.specs.Rows.Reading.{read_on};
ghost use Rattle.cal_trace.specs.Rows.{Fields, IsReading};
ghost use Rattle.cal_trace.specs.declared.fault.FaultKind.{FaultKind};

use crate::fault::{FaultKind, TraceFault};
use crate::rows::Rows;
use csv::ByteRecord;

/// What the rows of a file so far have given.
pub(crate) trait Reading: Sized + Drop {
    /// What a whole file gives.
    type Value;

    // What the rows so far have given, as the file's definition has it.
    ghost SoFar: { Type 0 };

    ghost so_far: { Self → SoFar };

    // One more row, by the file's table and version; they stay the same.
    ghost take: { Self → SoFar → Fields → Result SoFar FaultKind };

    // What the file gives after its last row: nothing without its end row.
    ghost whole: { SoFar → Option Self.Value };

    // What the reader keeps beside is as the rows so far have it.
    ghost KeepsRows: { Self → Type 0 };

    /// Takes one more row.
    fn take_row(&mut self, row: &ByteRecord) -> Result<(), FaultKind>
        requires { KeepsRows self.old }
        ensures takes { Takes (λ _. so_far self.new) result
            (take self.old (so_far self.old) (fields_of row.now)) }
        ensures kept { OnOk result (KeepsRows self.new) }
        ensures same { take self.new ≡ take self.old };

    /// What the file gives, after the last row: none without an end row.
    fn end(self) -> Option<Self::Value>
        ensures { result ≡ whole (so_far self) };
}

/// What the rows so far and those still to come give.
pub(crate) fn take_rows<R: Reading>(rows: &mut Rows, mut reading: R) -> Result<R::Value, TraceFault>
    requires rows { IsReading rows.old }
    requires kept { R.KeepsRows reading }
    ensures { IsWhatRowsSay (λ value. value) result
        (read_on (R.take reading) R.whole (R.so_far reading) rows.old) }
{
    while rows.step()? {
        if let Err(kind) = reading.take_row(rows.row()) {
            return Err(TraceFault {
                row: rows.number(),
                kind,
            });
        }
    }
    match reading.end() {
        Some(value) => Ok(value),
        None => {
            Err(TraceFault {
                row: rows.number() + 1,
                kind: FaultKind::Order,
            })
        }
    }
}
