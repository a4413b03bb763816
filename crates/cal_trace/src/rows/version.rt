//! The versions of a file, which its header row names.

ghost use Rattle.std.specs.Prelude.{◌≡◌};
ghost use Rattle.cal_trace.specs.Rows.Version.{is_header, record_fields, version_of, version_word};
ghost use Rattle.csv.specs.Records.{fields_of};

use crate::rows::fields::{is_row, is_word_at};
use csv::ByteRecord;

/// The version of a file of signals or of a history.
#[derive(Clone, Copy)]
pub enum Version {
    /// Records have seven words, and `paused` and `since` are 0. It is read, and not written.
    One,
    /// Records have all nine words.
    Two,
}

impl Version {
    /// The version that is written.
    pub(crate) const WRITTEN: Version = Version::Two;

    /// The word by which a header row names it.
    pub(crate) fn word(self) -> &'static str
        ensures { result.now ≡ version_word self }
    {
        match self {
            Version::One => "1",
            Version::Two => "2",
        }
    }

    /// Whether a row is the header of a file of this name and version.
    fn has_header(self, row: &ByteRecord, name: &[u8]) -> bool
        ensures { result ≡ is_header name.now self (fields_of row.now) }
    {
        is_row(row, name, 2) && is_word_at(row, 1, self.word().as_bytes())
    }

    /// The version that the header row of a file of this name states.
    pub(crate) fn of_header(row: &ByteRecord, name: &[u8]) -> Option<Version>
        ensures { result ≡ version_of name.now (fields_of row.now) }
    {
        if Version::One.has_header(row, name) {
            Some(Version::One)
        } else if Version::Two.has_header(row, name) {
            Some(Version::Two)
        } else {
            None
        }
    }

    /// How many fields a row with a record has.
    pub(crate) fn record_fields(self) -> usize
        ensures { result ≡ record_fields self }
    {
        match self {
            Version::One => 11,
            Version::Two => 13,
        }
    }
}
