//! A trace that was refused.

mod earlier;
mod fields;
mod order;
mod rows;

use crate::explaining::{Part, RefusedInput};
use crate::grammar::{Extent, Grammar, HEADER_WORDS, Range, TraceKind, name_at, range_of};
use crate::nearest::nearest;
use crate::places::{after, tell_place};
use crate::separator::{is_utf16, tell_headers};
use crate::trace::earlier::{tell_backwards, tell_repeated};
use crate::trace::fields::{tell_fields, tell_number, tell_range};
use crate::trace::order::tell_order;
use crate::trace::rows::Rows;
use cal_machine::{Config, ConfigFault};
use cal_trace::{FaultKind, TraceFault};
use std::alloc::{AllocError, Global};
use std::fmt::Write;

/// The row with the fault, and what came before it.
#[derive(Drop)]
struct Case<'a> {
    trace: Part<'a>,
    kind: TraceKind,
    /// Whether the header names version 1.
    is_first_version: bool,
    extent: Extent,
    /// The number of the row, from 1.
    number: u64,
    /// The rows, at the one with the fault, or behind the last one.
    rows: Rows<'a>,
}

impl<'a> Case<'a> {
    /// The form of the row, where its word and its cause have one.
    fn form(&self) -> Option<&'static str> {
        let cause = self.rows.field(2);
        let grammar = self.kind.grammar();
        grammar.form(self.is_first_version, self.rows.word(), cause)
    }

    /// The name of a field of it.
    fn name(&self, place: usize) -> &'static str {
        name_at(self.form().unwrap_or(""), place)
    }

    /// The numbers that a field of it may have, where not all are.
    fn range(&self, place: usize) -> Option<Range> {
        range_of(self.kind, self.name(place), self.extent)
    }

    /// Puts where a field of it begins, of which the word is the first; or where the input ends.
    fn tell_field(&self, told: &mut String, place: usize) -> Result<(), AllocError> {
        tell_place(told, self.trace.text, self.rows.field_start(place))
    }
}

/// Puts why the trace of an input was refused, which was read for a table of it.
pub fn tell_trace(
    alloc: Global,
    told: &mut String,
    refused: &RefusedInput<'_>,
    fault: TraceFault,
) -> Result<(), AllocError> {
    let trace = refused.part(1);
    if fault.kind == FaultKind::Header {
        return tell_header(alloc, told, trace, refused.wanted);
    }
    let config = match Config::read(alloc, refused.part(0).bytes) {
        Ok(config) => config,
        Err(ConfigFault::Memory) => return Err(AllocError),
        Err(_) => return Ok(()),
    };
    let Some(case) = case_of(alloc, trace, &config, fault.row)? else {
        return Ok(());
    };
    match fault.kind {
        FaultKind::Fields => tell_fields(told, &case),
        FaultKind::Number => tell_number(told, &case),
        FaultKind::Order => tell_order(told, &case),
        FaultKind::Range => tell_range(told, &case),
        FaultKind::Backwards => tell_backwards(alloc, told, &case),
        FaultKind::Repeated => tell_repeated(alloc, told, &case),
        FaultKind::Read | FaultKind::Header | FaultKind::Memory => Ok(()),
    }
}

/// Where a field of a row of a text begins, both counted as `csv` gives them, the row from 1 and the
/// field from 0: a line that begins with two blanks and ends in a line feed, with what stands there.
/// Fails only when out of memory.
pub fn place_of_field(
    alloc: Global,
    text: &[u8],
    row: u64,
    field: usize,
) -> Result<String, AllocError> {
    let mut rows = Rows::open(alloc, text, 0);
    for _ in 0..row {
        rows.step()?;
    }
    let mut told = String::new(alloc);
    tell_place(&mut told, text, rows.field_start(field))?;
    Ok(told)
}

/// The row with the fault, where the trace has a header.
fn case_of<'a>(
    alloc: Global,
    trace: Part<'a>,
    config: &Config,
    number: u64,
) -> Result<Option<Case<'a>>, AllocError> {
    let mut rows = Rows::open(alloc, trace.text, trace.start);
    if !rows.step()? {
        return Ok(None);
    }
    let Some(kind) = TraceKind::named(rows.word()) else {
        return Ok(None);
    };
    let is_first_version = rows.field(1) == b"1".as_slice();
    for _ in 1..number {
        rows.step()?;
    }
    let extent = Extent {
        cores: config.machine().cores() as u64,
        threads: config.threads() as u64,
        tasks: config.tasks() as u64,
        turns: rows.before.turns,
    };
    Ok(Some(Case {
        trace,
        kind,
        is_first_version,
        extent,
        number,
        rows,
    }))
}

/// Puts why the first row of a trace is no header of one that is wanted.
fn tell_header(
    alloc: Global,
    told: &mut String,
    trace: Part<'_>,
    wanted: &[TraceKind],
) -> Result<(), AllocError> {
    if is_utf16(after(trace.text, trace.start)) {
        return told.push_str("  the trace is UTF-16: write it as UTF-8\n");
    }
    let mut rows = Rows::open(alloc, trace.text, trace.start);
    let is_there = rows.step()?;
    tell_place(told, trace.text, rows.start())?;
    if !is_there {
        told.push_str("  the trace is empty\n")?;
        return tell_wanted(told, wanted);
    }
    match TraceKind::named(rows.word()) {
        Some(kind) => tell_kind(told, kind, wanted),
        None => {
            told.push_str("  this is no header\n")?;
            tell_wanted(told, wanted)?;
            tell_word(told, rows.word(), HEADER_WORDS)
        }
    }
}

/// Puts what a trace is to begin with.
fn tell_wanted(told: &mut String, wanted: &[TraceKind]) -> Result<(), AllocError> {
    told.push_str("  wanted: a trace that begins with\n")?;
    tell_headers(told, wanted)
}

/// Puts why a header of this kind is refused.
fn tell_kind(told: &mut String, kind: TraceKind, wanted: &[TraceKind]) -> Result<(), AllocError> {
    let Grammar {
        header,
        headers,
        readers,
        ..
    } = kind.grammar();
    if wanted.contains(&kind) {
        writeln!(told, "  this is no version of `{header}`")?;
        return writeln!(told, "  wanted: {headers}");
    }
    writeln!(told, "  `{header}` is a trace of another kind")?;
    tell_wanted(told, wanted)?;
    writeln!(told, "  this one is read by {readers}")
}

/// Puts what a first field that is none of these words may have been meant to be.
fn tell_word(told: &mut String, word: &[u8], words: &str) -> Result<(), AllocError> {
    if word.contains(&b';') || word.contains(&b'\t') {
        told.push_str("  fields have commas between them, and no semicolons or tabs\n")
    } else if let Some(meant) = nearest(word, words) {
        writeln!(told, "  did you mean `{meant}`?")
    } else {
        Ok(())
    }
}
