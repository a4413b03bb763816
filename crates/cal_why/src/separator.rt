//! An input in which no line is the separator.

use crate::grammar::TraceKind;
use crate::places::tell_place;
use std::alloc::AllocError;
use std::fmt::Write;

/// Why no line of an input is the separator.
#[derive(Clone, Copy)]
struct Missing {
    /// The line that shows it, if one does.
    at: Option<usize>,
    /// What is said of it.
    says: &'static str,
    /// Whether that is what to do about it; else what an input is to be is said below.
    is_remedy: bool,
}

/// Whether an input without a separator looks like a task table alone: nothing in it looks like a
/// separator that is not quite one, or like a trace.
pub fn is_table_alone(input: &[u8]) -> bool {
    missing_in(input).is_none()
}

fn missing_in(input: &[u8]) -> Option<Missing> {
    let (says, is_remedy) = if input.trim_ascii().is_empty() {
        ("  the input is empty\n", false)
    } else if is_utf16(input) {
        ("  the input is UTF-16: write it as UTF-8\n", true)
    } else if input.contains(&0) {
        ("  the input is no text: it has zero bytes\n", false)
    } else if input.contains(&b'\r') && !input.contains(&b'\n') {
        (
            "  its lines end in carriage returns alone: end them in line feeds\n",
            true,
        )
    } else {
        return missing_by_lines(input);
    };
    Some(Missing {
        at: None,
        says,
        is_remedy,
    })
}

/// Whether a text has the mark of UTF-16, or begins with two letters of it.
pub fn is_utf16(input: &[u8]) -> bool {
    input.starts_with(&[0xFF, 0xFE])
        || input.starts_with(&[0xFE, 0xFF])
        || (input.get(1) == Some(&0) && input.get(3) == Some(&0))
}

fn missing_by_lines(input: &[u8]) -> Option<Missing> {
    let mut at = 0usize;
    for line in input.split_inclusive(|byte| *byte == b'\n') {
        if let Some(says) = said_of(line, at) {
            return Some(Missing {
                at: Some(at),
                says,
                is_remedy: line != b"---".as_slice(),
            });
        }
        at = at.saturating_add(line.len());
    }
    None
}

/// What a line that is no separator says of the missing one.
fn said_of(line: &[u8], at: usize) -> Option<&'static str> {
    let shown = line.trim_ascii();
    if line == b"---".as_slice() {
        Some("  this line has no line feed, and no trace comes after it\n")
    } else if shown.starts_with(b"--") && shown.iter().all(|byte| *byte == b'-') {
        Some(SPOILED)
    } else if shown.ends_with(b"---") && !shown.contains(&b'#') {
        Some(JOINED)
    } else if begins_trace(shown) {
        Some(if at == 0 { NO_TABLE } else { TRACE_BEGINS })
    } else {
        None
    }
}

/// Whether a line begins a trace, behind a byte order mark or without.
pub fn begins_trace(line: &[u8]) -> bool {
    line.starts_with(b"caladan-") || line.starts_with(b"\xEF\xBB\xBFcaladan-")
}

const SPOILED: &str = "  \
this is no separator: wanted are three dashes and the end of the line,
  with no blank before or behind them, and no second carriage return
";

const NO_TABLE: &str = "  \
the input begins with its trace: put its task table and a line --- before it
  (`lockstep --table` and `sim --table` write a history so)
";

/// That the table's last line has no line feed.
pub const JOINED: &str = "  \
the table's last line has no line feed before ---: end it, so that --- is
  a line of its own
";

/// That the line before a trace is missing.
pub const TRACE_BEGINS: &str = "  the trace begins here: put a line --- before it\n";

/// Puts why no line is the separator.
pub fn tell_separator(
    told: &mut String,
    input: &[u8],
    wanted: &[TraceKind],
) -> Result<(), AllocError> {
    let Missing {
        at,
        says,
        is_remedy,
    } = missing_in(input).unwrap_or(Missing {
        at: None,
        says: "  no line is ---\n",
        is_remedy: false,
    });
    if let Some(at) = at {
        tell_place(told, input, at)?;
    }
    told.push_str(says)?;
    if is_remedy {
        return Ok(());
    }
    told.push_str("  wanted: a task table, a line ---, and a trace that begins with\n")?;
    tell_headers(told, wanted)
}

/// Puts the headers of these traces, a line for each kind.
pub fn tell_headers(told: &mut String, wanted: &[TraceKind]) -> Result<(), AllocError> {
    for kind in wanted {
        let headers = kind.grammar().headers;
        writeln!(told, "    {headers}")?;
    }
    Ok(())
}
