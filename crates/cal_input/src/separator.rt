//! The line between the two parts of an input.

ghost use Rattle.std.specs.Prelude.{◌≡◌, option_map};
ghost use Rattle.cal_input.specs.Input.{input_parts, is_separator};

/// The task table and the trace of an input: the parts before and after its first separator line.
/// None where there is no such line.
pub fn split_input(text: &[u8]) -> Option<(&[u8], &[u8])>
    ensures { option_map (λ parts. (parts.0.now, parts.1.now)) result ≡ input_parts text.now }
{
    let mut start = 0;
    for at in 0..text.len() {
        if text[at] == b'\n' {
            let end = at + 1;
            if is_separator(&text[start..end]) {
                return Some((&text[..start], &text[end..]));
            }
            start = end;
        }
    }
    None
}

/// Whether a line is exactly `---` and ends in a line feed, with a carriage return before it or
/// without.
fn is_separator(line: &[u8]) -> bool
    ensures { result ≡ is_separator line.now }
{
    line == b"---\n".as_slice() || line == b"---\r\n".as_slice()
}
