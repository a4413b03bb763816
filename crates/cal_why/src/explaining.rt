//! An input that was refused, explained.

use crate::grammar::TraceKind;
use crate::places::tell_place;
use crate::separator::tell_separator;
use crate::table::tell_table;
use crate::trace::tell_trace;
use cal_input::{INPUT_LIMIT, RunFault};
use std::alloc::{AllocError, Global};

/// An input that was refused.
#[derive(Clone, Copy)]
pub struct RefusedInput<'a> {
    /// Its bytes.
    pub input: &'a [u8],
    /// The traces that the word which refused it reads.
    pub wanted: &'a [TraceKind],
}

/// A part of an input between its separators.
#[derive(Clone, Copy)]
pub struct Part<'a> {
    /// The input, in which its lines are counted.
    pub text: &'a [u8],
    /// Where it begins there.
    pub start: usize,
    /// Its bytes, up to the next separator.
    pub bytes: &'a [u8],
}

impl<'a> Part<'a> {
    /// Puts where a place of it is, and the line that stands there.
    pub fn tell_place(&self, told: &mut String, at: usize) -> Result<(), AllocError> {
        tell_place(told, self.text, self.start.saturating_add(at))
    }
}

impl<'a> RefusedInput<'a> {
    /// The part after so many separators, or after the last one where there are fewer.
    pub fn part(&self, separators: usize) -> Part<'a> {
        let mut start = 0usize;
        let mut end = 0usize;
        let mut left = separators;
        for line in self.input.split_inclusive(|byte| *byte == b'\n') {
            let is_separator = line == b"---\n".as_slice() || line == b"---\r\n".as_slice();
            if is_separator && left == 0 {
                break;
            }
            end = end.saturating_add(line.len());
            if is_separator {
                left = left.saturating_sub(1);
                start = end;
            }
        }
        let bytes = self.input.get(start..end).unwrap_or(b"".as_slice());
        let text = self.input;
        Part { text, start, bytes }
    }
}

/// Why an input was refused that has this fault: lines that each begin with two blanks and end in a
/// line feed, of where it is, what stands there, what is wanted, and what to do about it where that is
/// plain. Nothing where the fault is no refusal of a part of the input. Fails only when out of memory.
pub fn explanation(
    alloc: Global,
    refused: &RefusedInput<'_>,
    fault: &RunFault,
) -> Result<String, AllocError> {
    let mut told = String::new(alloc);
    match *fault {
        RunFault::Separator => tell_separator(&mut told, refused.input, refused.wanted)?,
        RunFault::Config(fault) => tell_table(alloc, &mut told, refused.part(0), fault)?,
        RunFault::Trace(fault) => tell_trace(alloc, &mut told, refused, fault)?,
        RunFault::Length => {
            told = format!(in alloc; "  an input has at most {INPUT_LIMIT} bytes\n")?;
        }
        _ => {}
    }
    Ok(told)
}
