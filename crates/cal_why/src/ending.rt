//! The end after a fault of an input, explained.

ghost use Rattle.std.specs.Prelude.{◌≡◌};
ghost use Rattle.cal_input.specs.Faults.{status_of};

use crate::explaining::{RefusedInput, explanation};
use cal_engine::end_with;
use cal_input::RunFault;
use std::alloc::Global;
use std::io::Write;

/// Writes the line that a program of this name says of a fault of an input, and below it why, where
/// the fault is a refusal of a part of it; and answers the exit status after it. Where memory is
/// refused the line stands alone.
pub fn end_explained<W: Write>(
    alloc: Global,
    program: &str,
    refused: RefusedInput<'_>,
    fault: &RunFault,
    errors: &mut W,
) -> u8
    ensures { result ≡ status_of fault.now }
{
    let status = end_with(program, fault, errors);
    explain_fault(alloc, refused, fault, errors);
    status
}

/// Writes why an input was refused that has this fault. Where memory is refused, or the fault is no
/// refusal of a part of it, nothing is written.
pub fn explain_fault<W: Write>(
    alloc: Global,
    refused: RefusedInput<'_>,
    fault: &RunFault,
    errors: &mut W,
) {
    if let Ok(told) = explanation(alloc, &refused, fault) {
        let _ = errors.write_all(told.as_bytes());
    }
}
