//! Reading a file of passes row by row, whatever its rows are: each pass is handed out when its
//! rows have come.

ghost use Rattle.std.specs.Prelude.{◌≡◌, ◌<◌, List, [], length, Option, Some, None, Result};
ghost use Rattle.std.specs.Prelude.{OnOk, IfOk, IfSome, if◌then◌else◌};
ghost use Rattle.csv.specs.Records.{fields_of};
ghost use Rattle.cal_trace.specs.Rows.Answers.{IsWhatRowsSay, Takes};
ghost use Rattle.cal_trace.specs.Rows.Passes.{GivesNext, with_closed};
ghost use Rattle.cal_trace.specs.Rows.Reading.{read_on};
ghost use Rattle.cal_trace.specs.Rows.SoFar.{SoFar, whole};
ghost use Rattle.cal_trace.specs.Rows.{Fields, IsReading, rest_of};
ghost use Rattle.cal_trace.specs.declared.fault.FaultKind.{FaultKind};

use crate::fault::{FaultKind, TraceFault};
use crate::rows::Rows;
use csv::ByteRecord;
use std::alloc::Global;

/// What the rows of a file of passes so far have given, except the passes that were given out.
pub(crate) trait PassReading: Sized + Drop {
    /// A pass of the file.
    type Pass: Drop;

    // What the rows so far have given, where these passes were handed out.
    ghost so_far: { List Self.Pass → Self → SoFar Self.Pass };

    // What the rows are read by, which stays the same.
    ghost File: { Type 0 };

    ghost file: { Self → File };

    // One more row.
    ghost take: { File → SoFar Self.Pass → Fields → Result (SoFar Self.Pass) FaultKind };

    // More rows can be taken.
    ghost IsReady: { Self → Type 0 };

    // What the reader keeps of the passes that were handed out is as they have it.
    ghost KeepsPasses: { List Self.Pass → Self → Type 0 };

    /// Takes one more row, and hands out the pass that it ends, if it ends one.
    fn take_row(&mut self, row: &ByteRecord) -> Result<Option<Self::Pass>, FaultKind>
        requires { IsReady self.old }
        ensures takes { (given : List Self.Pass) → KeepsPasses given self.old →
            Takes (λ closed. so_far (with_closed given closed) self.new) result
            (take (file self.old) (so_far given self.old) (fields_of row.now)) }
        ensures kept { (given : List Self.Pass) → KeepsPasses given self.old →
            IfOk result (λ closed. KeepsPasses (with_closed given closed) self.new) }
        ensures ready { OnOk result (IsReady self.new) }
        ensures file { file self.new ≡ file self.old };

    /// Whether the end row came.
    fn has_ended(&self) -> bool
        ensures { (given : List Self.Pass) →
            whole (so_far given self.now) ≡ if result then Some given else None };
}

/// The next pass, or `None` where the file ended as it must. The error is the first check that
/// fails. Must not be called again after `None` or an error.
pub(crate) fn next_pass<R: PassReading>(
    rows: &mut Rows,
    reading: &mut R,
) -> Result<Option<R::Pass>, TraceFault>
    requires rows { IsReading rows.old }
    requires ready { R.IsReady reading.old }
    // The passes handed out so far and those still to come are those of the rows, or their fault is
    // the one.
    ensures gives { (given : List R.Pass) → R.KeepsPasses given reading.old →
        let file = read_on (R.take (R.file reading.old)) whole
        (R.so_far given reading.old) rows.old in
        GivesNext (λ all. R.KeepsPasses all reading.new ×
        (read_on (R.take (R.file reading.new)) whole (R.so_far all reading.new) rows.new ≡
        file)) file given result }
    ensures file { R.file reading.new ≡ R.file reading.old }
    ensures rows { IfOk result (λ pass. IfSome pass (λ _. IsReading rows.new)) }
    ensures ready { IfOk result (λ pass. IfSome pass (λ _. R.IsReady reading.new)) }
    ensures fewer { IfOk result (λ pass.
        IfSome pass (λ _. length (rest_of rows.new) < length (rest_of rows.old))) }
{
    while rows.step()? {
        match reading.take_row(rows.row()) {
            Ok(Some(pass)) => return Ok(Some(pass)),
            Ok(None) => {}
            Err(kind) => {
                return Err(TraceFault {
                    row: rows.number(),
                    kind,
                });
            }
        }
    }
    if reading.has_ended() {
        Ok(None)
    } else {
        Err(TraceFault {
            row: rows.number() + 1,
            kind: FaultKind::Order,
        })
    }
}

/// All passes of a file of which none was handed out. The error is the first check that fails, or
/// `Memory`.
pub(crate) fn all_passes<R: PassReading>(
    alloc: Global,
    rows: &mut Rows,
    reading: &mut R,
) -> Result<Vec<R::Pass>, TraceFault>
    requires rows { IsReading rows.old }
    requires ready { R.IsReady reading.old }
    requires kept { R.KeepsPasses [] reading.old }
    ensures { IsWhatRowsSay (λ all. all.items) result
        (read_on (R.take (R.file reading.old)) whole (R.so_far [] reading.old) rows.old) }
{
    let mut passes = Vec::new(alloc);
    while let Some(pass) = next_pass(rows, reading)? {
        let Ok(()) = passes.push(pass) else {
            return Err(TraceFault {
                row: rows.number(),
                kind: FaultKind::Memory,
            });
        };
    }
    Ok(passes)
}
