//! Records as rows give them.

ghost use Rattle.std.specs.Prelude.{◌≡◌, ◌≤◌, ◌<◌, ℕ, slice_index};
ghost use Rattle.cal_trace.specs.Rows.Shown.{record_of};
ghost use Rattle.cal_trace.specs.Rows.RowFields.{number_at};
ghost use Rattle.cal_trace.specs.Rows.{Fields};

use crate::rows::fields::{FIRST_WORD, RECORD_FIELDS};
use cal_signal::{Record, WORDS};

/// The record of a row by its numbers, from the fifth field on; words that the row lacks are 0.
pub(crate) fn record_of(numbers: &[u64; RECORD_FIELDS]) -> Record
    ensures { (fields : Fields) → ((k : ℕ) → 1 ≤ k → k < RECORD_FIELDS →
        slice_index numbers.now k ≡ number_at fields k) → result ≡ record_of fields }
{
    let mut words = [0; WORDS];
    words.copy_from_slice(&numbers[FIRST_WORD..]);
    Record::from_words(words)
}
