//! Places of a text, and what stands there.

use std::alloc::AllocError;
use std::fmt::Write;

/// What stands before a place.
pub fn before(text: &[u8], at: usize) -> &[u8] {
    text.get(..at).unwrap_or(text)
}

/// What stands from a place on.
pub fn after(text: &[u8], at: usize) -> &[u8] {
    text.get(at..).unwrap_or(b"".as_slice())
}

/// Whether a text is digits, at least one.
pub fn are_digits(text: &[u8]) -> bool {
    !text.is_empty() && text.iter().all(|byte| byte.is_ascii_digit())
}

/// Where the line of a place begins.
fn line_start(text: &[u8], at: usize) -> usize {
    let front = before(text, at);
    match front.iter().rposition(|byte| *byte == b'\n') {
        Some(end) => end.saturating_add(1),
        None => 0,
    }
}

/// The line of a place, without blanks and its end behind it.
pub fn line_at(text: &[u8], at: usize) -> &[u8] {
    let rest = after(text, line_start(text, at));
    let end = rest.iter().position(|byte| *byte == b'\n');
    before(rest, end.unwrap_or(rest.len())).trim_ascii_end()
}

/// How many bytes of a line are shown.
const MOST_SHOWN: usize = 72;

/// Puts bytes of an input, the first of them where they are many, without what moves the cursor.
pub fn put_bytes(told: &mut String, bytes: &[u8]) -> Result<(), AllocError> {
    for chunk in before(bytes, MOST_SHOWN).utf8_chunks() {
        for letter in chunk.valid().chars() {
            let shown = match letter {
                '\t' => ' ',
                _ if letter.is_control() => '?',
                _ => letter,
            };
            told.push(shown)?;
        }
        if !chunk.invalid().is_empty() {
            told.push('?')?;
        }
    }
    if MOST_SHOWN < bytes.len() {
        told.push_str("..")?;
    }
    Ok(())
}

/// Puts where a place is, the line and the column as an editor counts, both from 1, a column for
/// each character; and the line that stands there.
pub fn tell_place(told: &mut String, text: &[u8], at: usize) -> Result<(), AllocError> {
    let front = before(text, at);
    let own = after(front, line_start(text, at));
    let lines = front.iter().filter(|byte| **byte == b'\n').count();
    let characters = own.iter().filter(|byte| **byte & 0xC0 != 0x80).count();
    let line = lines.saturating_add(1);
    let column = characters.saturating_add(1);
    write!(told, "  line {line}, column {column}: ")?;
    match line_at(text, at) {
        [] => told.push_str("the input ends here")?,
        shown => put_bytes(told, shown)?,
    }
    told.push('\n')
}
