//! A row that may not come where it stands, or is missing.

use crate::grammar::TraceKind;
use crate::trace::Case;
use crate::trace::rows::Before;
use std::alloc::AllocError;
use std::fmt::Write;

/// Puts why a row may not come here, or which one is missing.
pub fn tell_order(told: &mut String, case: &Case<'_>) -> Result<(), AllocError> {
    let before = case.rows.before;
    let is_missing = case.rows.fields() == 0;
    case.tell_field(told, 0)?;
    if is_missing {
        told.push_str("  the trace ends without an end row: is it whole?\n")?;
    } else if before.ended {
        return told.push_str("  a row after the end row: take it out, or the end row before it\n");
    } else if TraceKind::named(case.rows.word()).is_some() {
        return told.push_str("  a second header: a trace has one, in its first row\n");
    } else if case.rows.is_look() {
        return tell_look(told, case);
    }
    let lacks_looks = before.passes != 0 && before.looks < case.extent.threads;
    if lacks_looks && case.kind != TraceKind::Arrivals {
        tell_looks(told, case)
    } else if is_missing || case.rows.is("end") {
        tell_end(told, case)
    } else if case.rows.is("request") {
        let Before { first, second, .. } = before;
        writeln!(
            told,
            "  the request before it is for thread {first} and turn {second}"
        )?;
        told.push_str("  wanted: requests by thread and, of a thread, by turn, one at most for ")?;
        told.push_str("each turn\n")
    } else if case.kind == TraceKind::Arrivals {
        told.push_str("  wanted: first all passes, then all turns, then all requests\n")
    } else {
        told.push_str("  an action before the first pass row\n")
    }
}

/// Puts which end row is wanted.
fn tell_end(told: &mut String, case: &Case<'_>) -> Result<(), AllocError> {
    let (count, what) = match case.kind {
        TraceKind::Arrivals => (case.number.saturating_sub(2), "rows after the header"),
        TraceKind::Signals | TraceKind::History => (case.rows.before.passes, "passes"),
    };
    writeln!(told, "  wanted: end,{count}, the number of {what}")
}

/// Puts that the last pass lacks looks.
fn tell_looks(told: &mut String, case: &Case<'_>) -> Result<(), AllocError> {
    let Before { passes, looks, .. } = case.rows.before;
    let pass = passes.saturating_sub(1);
    let threads = case.extent.threads;
    let whole = case
        .kind
        .grammar()
        .form(case.is_first_version, b"whole", b"");
    let form = whole.unwrap_or("");
    write!(
        told,
        "  looks of pass {pass}: {looks}; threads of the table: {threads}\n  \
         wanted: a look of thread {looks} before this, as `busy`, or as\n    `{form}`\n"
    )?;
    if passes != 1 || looks == 0 {
        return Ok(());
    }
    write!(
        told,
        "  or, if there is no thread {looks}, a table whose limits make {looks}\n"
    )
}

/// Puts why a look may not come here.
fn tell_look(told: &mut String, case: &Case<'_>) -> Result<(), AllocError> {
    let Before { passes, looks, .. } = case.rows.before;
    let threads = case.extent.threads;
    if passes == 0 {
        return told.push_str("  a look before the first pass row\n");
    }
    if looks < threads {
        return writeln!(
            told,
            "  wanted: the look of thread {looks}, in the order of the threads"
        );
    }
    let pass = passes.saturating_sub(1);
    let actions = match case.kind {
        TraceKind::History => "its actions, ",
        TraceKind::Signals | TraceKind::Arrivals => "",
    };
    write!(
        told,
        "  pass {pass} has a look of each thread of the table; threads: {threads}\n  \
         wanted: {actions}a pass row before further looks, or the end row\n"
    )
}
