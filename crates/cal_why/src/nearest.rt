//! Words that are within one edit of each other.

use crate::places::after;

/// The first of these words, which blanks separate, that is within one edit of a word.
pub fn nearest<'a>(word: &[u8], words: &'a str) -> Option<&'a str> {
    for known in words.split(' ') {
        if is_near(word, known.as_bytes()) {
            return Some(known);
        }
    }
    None
}

/// Whether two words are within one edit: an insertion, a deletion or a substitution of a letter, a
/// swap of two letters, or another case.
fn is_near(one: &[u8], other: &[u8]) -> bool {
    if one.eq_ignore_ascii_case(other) {
        return true;
    }
    let same = one.iter().zip(other.iter());
    let same = same.take_while(|pair| pair.0 == pair.1).count();
    let one = after(one, same);
    let other = after(other, same);
    let same = one.iter().rev().zip(other.iter().rev());
    let same = same.take_while(|pair| pair.0 == pair.1).count();
    let more = one.len().saturating_sub(same);
    let less = other.len().saturating_sub(same);
    let are_swapped = one.first() == other.get(1) && one.get(1) == other.first();
    (more <= 1 && less <= 1) || (more == 2 && less == 2 && are_swapped)
}
