//! What the words say of the input: the file that is one, and that a refusal is explained.

use cal_engine::{asked_by, words_after_first};
use std::alloc::{AllocError, Global};

/// Takes the last word from the others where it names the input: there is a subcommand before it, and
/// without it, and not with it, these are words of the program. An option is never a name; `./-x` is
/// one.
pub fn taken_name(alloc: Global, words: &mut Vec<String>) -> Result<Option<String>, AllocError> {
    if names_input(alloc, words.as_slice())? {
        Ok(words.pop())
    } else {
        Ok(None)
    }
}

/// Whether the last word names the input.
fn names_input(alloc: Global, words: &[String]) -> Result<bool, AllocError> {
    let given = words_after_first(alloc, words)?;
    let given = given.as_slice();
    match given.split_last() {
        Some((last, before)) => Ok(
            !before.is_empty()
                && !last.starts_with("-")
                && asked_by(alloc, given).is_err()
                && asked_by(alloc, before).is_ok(),
        ),
        None => Ok(false),
    }
}

/// Adds `--explain` to words of the program that do not have it, after `decide` where there are none.
pub fn ask_why(alloc: Global, words: &mut Vec<String>) -> Result<(), AllocError> {
    let Some(is_first) = lacks_explain(alloc, words.as_slice())? else {
        return Ok(());
    };
    if is_first {
        words.push(String::from_str(alloc, "decide")?)?;
    }
    words.push(String::from_str(alloc, "--explain")?)?;
    Ok(())
}

/// Whether words of the program that do not have `--explain` lack a subcommand too; nothing of others.
fn lacks_explain(alloc: Global, words: &[String]) -> Result<Option<bool>, AllocError> {
    let given = words_after_first(alloc, words)?;
    match asked_by(alloc, given.as_slice()) {
        Ok(asked) if !asked.explained => Ok(Some(given.is_empty())),
        _ => Ok(None),
    }
}
