//! A table whose text is no TOML.

use crate::explaining::Part;
use crate::places::line_at;
use crate::separator::{JOINED, TRACE_BEGINS, begins_trace, is_utf16};
use crate::table::NO_UNIT;
use std::alloc::AllocError;
use std::fmt::Write;
use toml::de::Error;

/// Puts that the text of a table is no UTF-8 from a place on.
pub fn tell_no_text(told: &mut String, part: Part<'_>, valid: usize) -> Result<(), AllocError> {
    if is_utf16(part.bytes) {
        return told.push_str("  the table is UTF-16: write it as UTF-8\n");
    }
    part.tell_place(told, valid)?;
    told.push_str("  here is a byte that is no UTF-8: write the table as UTF-8\n")
}

/// Puts where the text of a table is no TOML, and why.
pub fn tell_no_toml(told: &mut String, part: Part<'_>, error: &Error) -> Result<(), AllocError> {
    let Some(span) = error.span() else {
        return Ok(());
    };
    let line = line_at(part.bytes, span.start).trim_ascii();
    part.tell_place(told, span.start)?;
    if line.ends_with(b"---") && !line.starts_with(b"#") {
        return told.push_str(JOINED);
    }
    let message = error.message();
    writeln!(told, "  {message}")?;
    if begins_trace(line) {
        return told.push_str(TRACE_BEGINS);
    }
    told.push_str(remedy_of(str::from_utf8(line).unwrap_or(""), message))
}

/// What is to be done about a line of which TOML says this, where that is plain.
fn remedy_of(line: &str, message: &str) -> &'static str {
    if line.starts_with('[') {
        return "  each task has the head [[task]], in two brackets\n";
    }
    if message == "duplicate key" {
        return "  this key stands above already, in the same table: take one of them out\n";
    }
    match line.split_once('=') {
        _ if has_other_quote(line) => OTHER_QUOTE,
        Some((_, value)) => remedy_of_value(value.trim_ascii()),
        None if line.contains(':') => "  a key and its value have = between them\n",
        None => "",
    }
}

/// That a quote is none of TOML's.
const OTHER_QUOTE: &str = "  this quote is none of TOML's, which are straight: kind = \"lc\"\n";

/// Whether a text begins with a quote that TOML has not: a typographic one, or a backquote.
fn has_other_quote(text: &str) -> bool {
    match text.chars().next() {
        Some(letter) => "`\u{201C}\u{201D}\u{201E}\u{2018}\u{2019}\u{AB}".contains(letter),
        None => false,
    }
}

fn remedy_of_value(value: &str) -> &'static str {
    let Some(first) = value.bytes().next() else {
        return "";
    };
    if first == b'=' {
        "  a key and its value have one = between them\n"
    } else if has_other_quote(value) {
        OTHER_QUOTE
    } else if value.ends_with(';') || value.ends_with(',') {
        "  a value has nothing behind it in its line: take out the last `,` or `;`\n"
    } else if first.is_ascii_alphabetic() {
        "  a text has quotes: kind = \"lc\"\n"
    } else if !first.is_ascii_digit() {
        ""
    } else if first == b'0' {
        "  a number has no zero in front\n"
    } else if value.contains(',') {
        "  a number has no commas: 1000 or 1_000\n"
    } else {
        NO_UNIT
    }
}
