//! The fields of a row.

ghost use Rattle.std.specs.Prelude.{◌≡◌, ◌==◌, ◌≤◌, ◌<◌, ℕ, slice_index, if◌then◌else◌};
ghost use Rattle.std.specs.Option.{is_some, IfSome};
ghost use Rattle.cal_trace.specs.Rows.RowFields.{number_in, number_at, is_number_at, has_numbers};
ghost use Rattle.cal_trace.specs.Rows.RowFields.{is_word, is_row};
ghost use Rattle.csv.specs.Records.{field_at, fields_of};

use crate::rows::number::number;
use cal_signal::WORDS;
use csv::ByteRecord;

/// Whether the field at a place is this word.
pub(crate) fn is_word_at(row: &ByteRecord, place: usize, word: &[u8]) -> bool
    ensures { result ≡ is_word (field_at (fields_of row.now) place) word.now }
{
    match row.get(place) {
        Some(field) => field == word,
        None => false,
    }
}

/// Whether a row begins with this word and has so many fields.
pub(crate) fn is_row(row: &ByteRecord, word: &[u8], count: usize) -> bool
    ensures { result ≡ is_row word.now count (fields_of row.now) }
{
    row.len() == count && is_word_at(row, 0, word)
}

fn number_in(row: &ByteRecord, place: usize) -> Option<u64>
    ensures { result ≡ number_in (fields_of row.now) place }
{
    match row.get(place) {
        Some(field) => number(field),
        None => None,
    }
}

/// Whether the field at a place is a number.
pub(crate) fn is_number_at(row: &ByteRecord, place: usize) -> bool
    ensures { result ≡ is_number_at (fields_of row.now) place }
{
    number_in(row, place).is_some()
}

/// The number at a place, 0 where there is none.
pub(crate) fn number_at(row: &ByteRecord, place: usize) -> u64
    ensures { result ≡ number_at (fields_of row.now) place }
{
    number_in(row, place).unwrap_or(0)
}

/// Whether all fields after the first are numbers.
pub(crate) fn has_numbers(row: &ByteRecord) -> bool
    ensures { result ≡ has_numbers (fields_of row.now) }
{
    for place in 1..row.len() {
        if !is_number_at(row, place) {
            return false;
        }
    }
    true
}

/// The place of a record's first word in its row, after a word, a thread, a room and a number.
pub(crate) const FIRST_WORD: usize = 4;

/// How many fields a row has that has all words of a record.
pub(crate) const RECORD_FIELDS: usize = FIRST_WORD + WORDS;

/// Puts a number at its place, where there is one.
fn put(numbers: &mut [u64; RECORD_FIELDS], place: usize, number: u64)
    ensures { (k : ℕ) → k < RECORD_FIELDS → slice_index numbers.new k ≡
        (if place == k then number else slice_index numbers.old k) }
{
    if place < RECORD_FIELDS {
        numbers[place] = number;
    }
}

/// The numbers of a row by place, each read once; none where a field after the first is no number.
/// Places past the row's end have 0. A row of a record has no more than `RECORD_FIELDS` fields.
pub(crate) fn numbers_of(row: &ByteRecord) -> Option<[u64; RECORD_FIELDS]>
    ensures all { is_some result ≡ has_numbers (fields_of row.now) }
    ensures each { IfSome result (λ numbers. (k : ℕ) → 1 ≤ k → k < RECORD_FIELDS →
        slice_index numbers k ≡ number_at (fields_of row.now) k) }
{
    let mut numbers = [0u64; RECORD_FIELDS];
    for place in 1..row.len() {
        match number_in(row, place) {
            None => return None,
            Some(number) => put(&mut numbers, place, number),
        }
    }
    Some(numbers)
}
