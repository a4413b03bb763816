//! The text of a row, made from its end.

ghost use Rattle.std.specs.Prelude.{◌≡◌, ◌+◌, ◌≤◌, ◌++◌, ◌∷◌, codes, decimal, length};
ghost use Rattle.cal_trace.specs.declared.history.row_text.TheConstants.{ROW_BYTES};

use itoa::write_digits;
use std::marker::Model;

/// The most bytes of a row's text: 12 numbers of 20 digits, a comma before each, and a line feed.
pub(crate) const ROW_BYTES: usize = 253;

/// The end of a row's line, to which numbers are put in front. It takes no memory but its own.
///
/// A contract sees its bytes.
#[derive(Drop)]
pub(crate) struct RowText {
    bytes: [u8; ROW_BYTES],
    // where the text begins
    start: usize,
}

impl Model for RowText {
    ghost use Rattle.std.specs.Prelude.{List, ℕ, ◌≤◌, drop};
    ghost use Rattle.cal_trace.specs.declared.history.row_text.TheConstants.{ROW_BYTES};

    ghost Value = { List ℕ };

    ghost view = { λ row. drop row.start row.bytes };

    ghost invariant = { λ row. row.start ≤ ROW_BYTES };
}

impl RowText {
    /// The end of a line, without any number.
    pub(crate) fn new() -> RowText
        ensures { result ≡ codes "\n" }
    {
        let mut bytes = [0; ROW_BYTES];
        bytes[ROW_BYTES - 1] = b'\n';
        RowText {
            bytes,
            start: ROW_BYTES - 1,
        }
    }

    /// Puts a comma and a number in front. Asks for room for 20 digits.
    pub(crate) fn put(&mut self, number: u64)
        requires { length self.old + 21 ≤ ROW_BYTES }
        ensures text { self.new ≡ 44 ∷ (decimal number ++ self.old) }
        ensures short { length self.new ≤ length self.old + 21 }
    {
        let digits = write_digits(number, &mut self.bytes, self.start);
        self.start = digits - 1;
        self.bytes[self.start] = b',';
    }

    /// The text.
    pub(crate) fn text(&self) -> &[u8]
        ensures { result.now ≡ self.now }
    {
        &self.bytes[self.start..]
    }
}
