//! Pass rows, look rows and end rows, as signals and histories have them.

ghost use Rattle.std.specs.Prelude.{◌≡◌, ◌<◌, ◌≤◌, ℕ, slice_index};
ghost use Rattle.cal_trace.specs.Rows.LookRows.{end_row, is_possible, look_of, look_row, pass_row};
ghost use Rattle.cal_trace.specs.Rows.RowFields.{number_at};
ghost use Rattle.cal_trace.specs.Rows.{Fields};
ghost use Rattle.csv.specs.Records.{fields_of};

use crate::arrivals::GivenPass;
use crate::fault::FaultKind;
use crate::rows::fields::{RECORD_FIELDS, has_numbers, number_at, numbers_of};
use crate::rows::shown::record_of;
use cal_policy::{FoundLook, MOST_PASSES};
use cal_signal::{Look, is_busy_pair, shaped};
use csv::ByteRecord;

/// What a look row is, by its first field and its number of fields. Signals have the first two.
#[derive(Clone, Copy)]
pub(crate) enum LookForm {
    /// A record, in a history one that was kept.
    Whole,
    /// No record: a busy pair.
    Busy,
    /// A record that acknowledges more than was sent.
    Ahead,
    /// A record that shows a core which its thread has not.
    Foreign,
}

/// Reads a pass row that comes after so many passes. `Number` where a field is none, then `Range`
/// where it is one pass too many.
pub(crate) fn pass_row(row: &ByteRecord, passes: usize) -> Result<GivenPass, FaultKind>
    ensures { result ≡ pass_row passes (fields_of row.now) }
{
    if !has_numbers(row) {
        return Err(FaultKind::Number);
    }
    if passes >= MOST_PASSES {
        return Err(FaultKind::Range);
    }
    Ok(GivenPass {
        now: number_at(row, 1),
        bandwidth: number_at(row, 2),
    })
}

/// The look of a row of this form, by the numbers of the row.
fn look_of(numbers: &[u64; RECORD_FIELDS], form: LookForm) -> Look
    ensures { (fields : Fields) → ((k : ℕ) → 1 ≤ k → k < RECORD_FIELDS →
        slice_index numbers.now k ≡ number_at fields k) → result ≡ look_of form fields }
{
    match form {
        LookForm::Busy => Look::Busy {
            first: numbers[3],
            second: numbers[4],
        },
        LookForm::Whole | LookForm::Ahead | LookForm::Foreign => Look::Whole {
            number: numbers[3],
            rec: record_of(numbers),
        },
    }
}

/// Whether a page can give this look.
fn is_possible(look: &Look) -> bool
    ensures { result ≡ is_possible look.now }
{
    match look {
        Look::Whole { rec, .. } => shaped(rec),
        Look::Busy { first, second } => is_busy_pair(*first, *second),
    }
}

/// Reads a look row of this form, where the next look is this thread's. `Number` where a field is
/// none, then `Order` where it is another thread's, then `Range`.
pub(crate) fn look_row(
    row: &ByteRecord,
    form: LookForm,
    thread: usize,
) -> Result<FoundLook, FaultKind>
    ensures { result ≡ look_row form thread (fields_of row.now) }
{
    let Some(numbers) = numbers_of(row) else {
        return Err(FaultKind::Number);
    };
    if numbers[1] != thread as u64 {
        return Err(FaultKind::Order);
    }
    let look = look_of(&numbers, form);
    if numbers[2] >= 2 || !is_possible(&look) {
        return Err(FaultKind::Range);
    }
    Ok(FoundLook {
        look,
        room: numbers[2] == 1,
    })
}

/// Reads an end row that comes after so many passes. `Number` where its count is none, then `Order`
/// where it counts wrongly.
pub(crate) fn end_row(row: &ByteRecord, passes: usize) -> Result<usize, FaultKind>
    ensures { result ≡ end_row passes (fields_of row.now) }
{
    if !has_numbers(row) {
        return Err(FaultKind::Number);
    }
    if number_at(row, 1) != passes as u64 {
        return Err(FaultKind::Order);
    }
    Ok(passes)
}
