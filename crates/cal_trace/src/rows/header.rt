//! The header row of a file.

ghost use Rattle.std.specs.Prelude.{◌≡◌, IfOk, OnOk};
ghost use Rattle.cal_trace.specs.Rows.Answers.{IsWhatRowsSay};
ghost use Rattle.cal_trace.specs.Rows.Header.{header_of, in_version_one};
ghost use Rattle.cal_trace.specs.Rows.{IsReading, rest_of, rows_of};

use crate::fault::{FaultKind, TraceFault};
use crate::rows::Rows;
use crate::rows::version::Version;
use std::alloc::Global;

/// Takes the header row of a file of this name, and gives its version.
pub(crate) fn take_header(rows: &mut Rows, name: &[u8]) -> Result<Version, TraceFault>
    requires reading { IsReading rows.old }
    requires first { rows.old.number ≡ 0 }
    ensures gives { IsWhatRowsSay (λ version. (version, rest_of rows.new)) result
        (header_of name.now (rest_of rows.old)) }
    ensures reading { OnOk result (IsReading rows.new) }
    ensures number { OnOk result (rows.new.number ≡ 1) }
{
    let missing = TraceFault {
        row: 1,
        kind: FaultKind::Header,
    };
    if !rows.step()? {
        return Err(missing);
    }
    match Version::of_header(rows.row(), name) {
        Some(version) => Ok(version),
        None => Err(missing),
    }
}

/// The rows of a text after the header row of a file of this name, and its version.
pub(crate) fn open_under<'a>(
    alloc: Global,
    text: &'a [u8],
    name: &[u8],
) -> Result<(Rows<'a>, Version), TraceFault>
    ensures gives { IsWhatRowsSay (λ file. (file.1, rest_of file.0)) result
        (header_of name.now (rows_of text.now)) }
    ensures reading { IfOk result (λ file. IsReading file.0) }
    ensures number { IfOk result (λ file. file.0.number ≡ 1) }
{
    let mut rows = Rows::open(alloc, text);
    match take_header(&mut rows, name) {
        Ok(version) => Ok((rows, version)),
        Err(fault) => Err(fault),
    }
}

/// Takes the header row of a file of this name that has version 1 alone: another version is no
/// header of it.
pub(crate) fn take_first_header(rows: &mut Rows, name: &[u8]) -> Result<Version, TraceFault>
    requires reading { IsReading rows.old }
    requires first { rows.old.number ≡ 0 }
    ensures gives { IsWhatRowsSay (λ version. (version, rest_of rows.new)) result
        (in_version_one (header_of name.now (rest_of rows.old))) }
    ensures reading { OnOk result (IsReading rows.new) }
    ensures number { OnOk result (rows.new.number ≡ 1) }
{
    match take_header(rows, name)? {
        Version::One => Ok(Version::One),
        _ => {
            Err(TraceFault {
                row: 1,
                kind: FaultKind::Header,
            })
        }
    }
}
