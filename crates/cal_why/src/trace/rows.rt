//! The rows of a trace, one at a time, each with its place and what came before it.

use crate::places::{after, are_digits};
use csv::{ByteRecord, ErrorKind, Reader, ReaderBuilder};
use std::alloc::{AllocError, Global};

/// The rows of a text from a place on, as `csv` gives them.
#[derive(Drop)]
pub struct Rows<'a> {
    text: &'a [u8],
    from: usize,
    reader: Reader<&'a [u8]>,
    row: ByteRecord,
    /// What the rows before the one at hand have given.
    pub before: Before,
}

/// What the rows before one have given.
#[derive(Clone, Copy, Default)]
pub struct Before {
    /// How many passes and turns there were, and looks of the last pass.
    pub passes: u64,
    pub turns: u64,
    pub looks: u64,
    /// The first two numbers of the row before, and whether that was an end row.
    pub first: u64,
    pub second: u64,
    pub ended: bool,
}

impl<'a> Rows<'a> {
    /// The rows of a text from a place on, before the first.
    pub fn open(alloc: Global, text: &'a [u8], from: usize) -> Rows<'a> {
        let reader = ReaderBuilder::new()
            .has_headers(false)
            .flexible(true)
            .from_reader(alloc, after(text, from));
        Rows {
            text,
            from,
            reader,
            row: ByteRecord::new(alloc),
            before: Before::default(),
        }
    }

    /// Goes to the next row, and says whether there is one. Fails only when out of memory.
    pub fn step(&mut self) -> Result<bool, AllocError> {
        self.before = self.given();
        match self.reader.read_byte_record(&mut self.row) {
            Ok(found) => Ok(found),
            Err(error) => match error.kind() {
                ErrorKind::OutOfMemory => Err(AllocError),
                _ => Ok(false),
            },
        }
    }

    /// What the rows up to the one at hand have given.
    fn given(&self) -> Before {
        let mut given = self.before;
        if self.is("pass") {
            given.passes = given.passes.saturating_add(1);
            given.looks = 0;
        } else if self.is("turn") {
            given.turns = given.turns.saturating_add(1);
        } else if self.is_look() {
            given.looks = given.looks.saturating_add(1);
        }
        given.first = self.number_or_zero(1);
        given.second = self.number_or_zero(2);
        given.ended = self.is("end");
        given
    }

    /// Where the row at hand begins in the text: behind a byte order mark and the ends of lines.
    pub fn start(&self) -> usize {
        let Some(position) = self.row.position() else {
            return self.text.len();
        };
        let from = self.from.saturating_add(position.byte() as usize);
        let rest = after(self.text, from);
        let mark = if rest.starts_with(b"\xEF\xBB\xBF") {
            3
        } else {
            0
        };
        let ends = after(rest, mark)
            .iter()
            .take_while(|byte| **byte == b'\n' || **byte == b'\r')
            .count();
        from.saturating_add(mark).saturating_add(ends)
    }

    /// Where a field of the row at hand begins: behind so many commas that no quotes enclose, or
    /// where the row begins, where it has fewer.
    pub fn field_start(&self, place: usize) -> usize {
        let start = self.start();
        let mut left = place;
        let mut is_quoted = false;
        for (offset, byte) in after(self.text, start).iter().enumerate() {
            if left == 0 || (*byte == b'\n' && !is_quoted) {
                return start;
            }
            if *byte == b'"' {
                is_quoted = !is_quoted;
            } else if *byte == b',' && !is_quoted {
                left = left.saturating_sub(1);
                if left == 0 {
                    return start.saturating_add(offset).saturating_add(1);
                }
            }
        }
        start
    }

    /// The field at a place; nothing where there is none.
    pub fn field(&self, place: usize) -> &[u8] {
        self.row.get(place).unwrap_or(b"".as_slice())
    }

    /// The first field.
    pub fn word(&self) -> &[u8] {
        self.field(0)
    }

    /// Whether the first field is this word.
    pub fn is(&self, word: &str) -> bool {
        self.word() == word.as_bytes()
    }

    /// Whether it is a look.
    pub fn is_look(&self) -> bool {
        self.is("whole") || self.is("busy") || self.is("ahead") || self.is("foreign")
    }

    /// How many fields there are; none behind the last row.
    pub fn fields(&self) -> usize {
        self.row.len()
    }

    /// The number at a place, where one is there: `0`, or digits with no zero in front, below 2^64.
    pub fn number(&self, place: usize) -> Option<u64> {
        let field = self.field(place);
        if !are_digits(field) || (field.len() != 1 && field.starts_with(b"0")) {
            return None;
        }
        str::from_utf8(field).ok()?.parse::<u64>().ok()
    }

    /// The number at a place, 0 where none is there.
    pub fn number_or_zero(&self, place: usize) -> u64 {
        self.number(place).unwrap_or(0)
    }
}
