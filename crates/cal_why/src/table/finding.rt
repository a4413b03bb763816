//! Where a key stands in the text of a table.

use crate::places::before;

/// Where a key of a task or of the top stands, else the first head of the task, or at the top that of
/// its name; else nothing: tasks within brackets have neither.
pub fn find_key(text: &[u8], task: Option<usize>, key: &str) -> Option<usize> {
    let wanted = task.map_or(0, |task| task.saturating_add(1));
    let mut tasks = 0usize;
    let mut is_own = task.is_none();
    let mut head = None;
    let mut at = 0usize;
    for line in text.split_inclusive(|byte| *byte == b'\n') {
        let shown = line.trim_ascii();
        let blanks = line.len().saturating_sub(line.trim_ascii_start().len());
        let place = at.saturating_add(blanks);
        let is_named = name_in(shown) == key.as_bytes();
        if shown.starts_with(b"[") {
            let is_task = shown.starts_with(b"[[") && name_in(shown) == b"task".as_slice();
            if is_task {
                tasks = tasks.saturating_add(1);
            }
            is_own = is_task && tasks == wanted;
            if head.is_none() && (is_own || (wanted == 0 && is_named)) {
                head = Some(place);
            }
        } else if is_own && is_named {
            return Some(place);
        }
        at = at.saturating_add(line.len());
    }
    head
}

/// The name that a line has in its brackets, or before the first `=`, without quotes; nothing where
/// it has none.
fn name_in(shown: &[u8]) -> &[u8] {
    let front = shown.iter().position(|byte| *byte == b'=' || *byte == b']');
    let mut name = before(shown, front.unwrap_or(0)).trim_ascii();
    for mark in [b"[".as_slice(), b"[".as_slice(), b"\"".as_slice()] {
        name = name.strip_prefix(mark).unwrap_or(name).trim_ascii();
    }
    name.strip_suffix(b"\"").unwrap_or(name)
}
