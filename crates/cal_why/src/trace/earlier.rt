//! A row that does not go with an earlier one.

use crate::places::tell_place;
use crate::trace::Case;
use crate::trace::rows::Rows;
use std::alloc::{AllocError, Global};
use std::fmt::Write;

/// The rows at the last one before that with the fault which has its word and the same field at a
/// place; where there is none, before the first row.
fn last_like<'a>(alloc: Global, case: &Case<'a>, place: usize) -> Result<Rows<'a>, AllocError> {
    let text = case.trace.text;
    let mut rows = Rows::open(alloc, text, case.trace.start);
    let mut found = None;
    for _ in 1..case.number {
        let is_there = rows.step()?;
        let is_like = rows.word() == case.rows.word();
        if is_there && is_like && rows.field(place) == case.rows.field(place) {
            found = Some(rows.start());
        }
    }
    let mut last = Rows::open(alloc, text, found.unwrap_or(0));
    if found.is_some() {
        last.step()?;
    }
    Ok(last)
}

/// Puts where an earlier row stands.
fn tell_earlier(told: &mut String, case: &Case<'_>, last: &Rows<'_>) -> Result<(), AllocError> {
    told.push_str("  the row before it:\n")?;
    tell_place(told, case.trace.text, last.start())
}

/// Puts why a look does not follow the one before at its thread: which number fell, or differs where
/// none may.
pub fn tell_backwards(alloc: Global, told: &mut String, case: &Case<'_>) -> Result<(), AllocError> {
    let last = last_like(alloc, case, 1)?;
    let place = fallen_place(case, &last);
    let name = case.name(place);
    let was = last.number_or_zero(place);
    let is = case.rows.number_or_zero(place);
    case.tell_field(told, place)?;
    if is_same_number(case, &last) {
        writeln!(
            told,
            "  `{name}` was {was} and is {is}, at the same `number`"
        )?;
        told.push_str("  wanted: the same record at the same `number`, or a greater `number`\n")?;
    } else {
        writeln!(told, "  `{name}` falls from {was} to {is}")?;
        told.push_str("  wanted: `number`, `taken`, `misses` and `stamp` never fall\n")?;
    }
    if last.fields() != 0 {
        return tell_earlier(told, case, &last);
    }
    let thread = case.rows.number_or_zero(1);
    writeln!(
        told,
        "  thread {thread} showed nothing before: number 0, and all words 0"
    )
}

fn is_same_number(case: &Case<'_>, last: &Rows<'_>) -> bool {
    case.rows.number_or_zero(3) == last.number_or_zero(3)
}

/// The place of the first number that fell, or that differs in a record at the same place.
fn fallen_place(case: &Case<'_>, last: &Rows<'_>) -> usize {
    for place in 3..case.rows.fields() {
        let was = last.number_or_zero(place);
        let is = case.rows.number_or_zero(place);
        // `number`, `taken`, `misses` and `stamp` may not fall.
        let may_fall = place != 3 && place != 4 && place != 9 && place != 10;
        if (is != was && is_same_number(case, last)) || (is < was && !may_fall) {
            return place;
        }
    }
    3
}

/// Puts where the id of a request came before.
pub fn tell_repeated(alloc: Global, told: &mut String, case: &Case<'_>) -> Result<(), AllocError> {
    let id = case.rows.number_or_zero(3);
    case.tell_field(told, 3)?;
    writeln!(told, "  the id {id} came before")?;
    told.push_str("  wanted: another id for each request\n")?;
    let last = last_like(alloc, case, 3)?;
    tell_earlier(told, case, &last)
}
