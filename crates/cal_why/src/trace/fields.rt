//! A row with the wrong fields, a field that is no number, and a number that is out of its range.

use crate::grammar::{Range, TraceKind};
use crate::places::{are_digits, put_bytes};
use crate::trace::rows::Before;
use crate::trace::{Case, tell_word};
use cal_policy::{MOST_ACTIONS, MOST_PASSES};
use cal_trace::MOST_TURNS;
use std::alloc::AllocError;
use std::fmt::Write;

/// Puts why a row has the wrong fields.
pub fn tell_fields(told: &mut String, case: &Case<'_>) -> Result<(), AllocError> {
    case.tell_field(told, 0)?;
    if let Some(form) = case.form() {
        return tell_count(told, case, form);
    }
    let word = case.rows.word();
    if case.rows.is("revoke") {
        told.push_str("  wanted: revoke,core,ban,by or revoke,core,bandwidth or\n")?;
        return told.push_str("  revoke,core,preempt,task\n");
    }
    if case.rows.is("---") {
        return told.push_str("  a second separator: an input has one, before its trace\n");
    }
    if word.trim_ascii().is_empty() {
        return told.push_str("  a row without a word: take it out\n");
    }
    let words = case.kind.grammar().words;
    told.push_str("  `")?;
    put_bytes(told, word)?;
    writeln!(told, "` is no row of this trace; there are: {words}")?;
    for kind in [TraceKind::Arrivals, TraceKind::History] {
        let grammar = kind.grammar();
        if grammar.form(false, word, b"ban".as_slice()).is_some() {
            let header = grammar.header;
            return writeln!(told, "  it is a row of `{header}`");
        }
    }
    tell_word(told, word, words)
}

/// Puts that a row has more or fewer fields than its word takes.
fn tell_count(told: &mut String, case: &Case<'_>, form: &str) -> Result<(), AllocError> {
    let count = case.rows.fields();
    let wanted = form.split(',').count();
    writeln!(told, "  fields in this row: {count}")?;
    writeln!(told, "  wanted: {wanted}, {form}")?;
    if (wanted == 11 && count == 13) || (wanted == 13 && count == 11) {
        told.push_str("  its record is of another version than the header names\n")?;
    }
    Ok(())
}

/// Puts which field of a row is no number, and why.
pub fn tell_number(told: &mut String, case: &Case<'_>) -> Result<(), AllocError> {
    for place in 1..case.rows.fields() {
        let is_cause = place == 2 && case.rows.is("revoke");
        if case.rows.number(place).is_none() && !is_cause {
            return tell_no_number(told, case, place);
        }
    }
    Ok(())
}

fn tell_no_number(told: &mut String, case: &Case<'_>, place: usize) -> Result<(), AllocError> {
    let field = case.rows.field(place);
    let name = case.name(place);
    let reason = reason_of(field);
    case.tell_field(told, place)?;
    write!(told, "  `{name}` is `")?;
    put_bytes(told, field)?;
    writeln!(told, "`: {reason}")?;
    told.push_str("  wanted: digits alone, with no zero in front, ")?;
    match case.range(place) {
        Some(Range { least, most, by }) if least <= most && !are_digits(field.trim_ascii()) => {
            writeln!(told, "from {least} to {most} ({by})")
        }
        _ => told.push_str("at most 2^64 - 1\n"),
    }
}

/// Why a field is no number.
fn reason_of(field: &[u8]) -> &'static str {
    if field.is_empty() {
        "nothing stands there"
    } else if field.trim_ascii().len() != field.len() {
        "a blank stands beside it"
    } else if field.starts_with(b"-") {
        "it is below 0"
    } else if field.contains(&b'.') {
        "it has a fraction"
    } else if !are_digits(field) {
        "it has other letters than digits"
    } else if field.starts_with(b"0") {
        "it has a zero in front"
    } else {
        "it is too great"
    }
}

/// Puts which number of a row is out of its range, or of what there is one too many.
pub fn tell_range(told: &mut String, case: &Case<'_>) -> Result<(), AllocError> {
    for place in 1..case.rows.fields() {
        let number = case.rows.number_or_zero(place);
        match case.range(place) {
            Some(range) if !range.has(number) => {
                case.tell_field(told, place)?;
                return tell_out_of_range(told, case.name(place), number, range);
            }
            _ => {}
        }
    }
    case.tell_field(told, if case.rows.is("turn") { 1 } else { 0 })?;
    tell_row(told, case)
}

/// Puts that a field is out of its range.
fn tell_out_of_range(
    told: &mut String,
    name: &str,
    number: u64,
    range: Range,
) -> Result<(), AllocError> {
    let Range { least, most, by } = range;
    writeln!(told, "  `{name}` is out of its range: {number}")?;
    if most < least {
        writeln!(told, "  wanted: none at all ({by})")
    } else {
        writeln!(told, "  wanted: a number from {least} to {most} ({by})")
    }
}

/// Puts what else is out of range in a row.
fn tell_row(told: &mut String, case: &Case<'_>) -> Result<(), AllocError> {
    if case.rows.is("busy") {
        told.push_str("  `first` and `second` are no versions of a busy page\n")?;
        told.push_str("  wanted: an odd one and the same again, or an even one and a greater one\n")
    } else if case.rows.is("pass") {
        writeln!(told, "  wanted: at most {MOST_PASSES} (MOST_PASSES) passes")
    } else if case.rows.is("turn") && MOST_TURNS as u64 <= case.rows.before.turns {
        writeln!(told, "  wanted: at most {MOST_TURNS} (MOST_TURNS) turns")
    } else if case.rows.is("turn") {
        let Before { turns, first, .. } = case.rows.before;
        if turns != 0 {
            writeln!(told, "  the clock of the turn before it is {first}")?;
        }
        told.push_str("  wanted: turns in the order of their clocks, none of which is 0\n")
    } else if case.rows.is_look() {
        Ok(())
    } else {
        writeln!(
            told,
            "  wanted: at most {MOST_ACTIONS} (MOST_ACTIONS) actions of a pass"
        )
    }
}
