//! The rows of spans and bans.

ghost use Rattle.std.specs.Prelude.{◌≡◌, OnOk};
ghost use Rattle.std.specs.Io.KnownBytes.{Appends};
ghost use Rattle.std.specs.List.{flat_map};
ghost use Rattle.cal_facts.specs.Stretches.{ban_line, clock_of, place_text, span_columns};
ghost use Rattle.cal_facts.specs.Stretches.{span_lines, stretch_line, text_of_facts, time_text};

use crate::cells::{Cell, task_in};
use crate::spans::facts::SpanFacts;
use crate::spans::stretch::{State, Stretch, banned_stretch, stretch_of};
use cal_machine::Config;
use cal_measure::{BanSpan, Span};
use std::io;
use std::io::Write;

/// Writes the columns and all rows of these spans and bans.
pub(crate) fn write_facts<W: Write>(
    config: &Config,
    facts: &SpanFacts,
    writer: &mut W,
) -> io::Result<()>
    ensures { OnOk result (Appends (W.contents writer.old) (W.contents writer.new)
        (text_of_facts config.now facts.now)) }
{
    let clocks = facts.clocks.as_slice();
    write_columns(writer)?;
    write_each_span(config, clocks, facts.spans.as_slice(), writer)?;
    write_each_ban(config, clocks, facts.bans.as_slice(), writer)
}

fn write_columns<W: Write>(writer: &mut W) -> io::Result<()>
    ensures { OnOk result (Appends (W.contents writer.old) (W.contents writer.new)
        span_columns) }
{
    writeln!(
        writer,
        "core,thread,task,class,state,cause,by core,for task,started [ticks],\
         from pass,to pass,from clock [ticks],to clock [ticks]"
    )
}

fn write_each_span<W: Write>(
    config: &Config,
    clocks: &[u64],
    spans: &[Span],
    writer: &mut W,
) -> io::Result<()>
    ensures { OnOk result (Appends (W.contents writer.old) (W.contents writer.new)
        (flat_map (span_lines config.now clocks.now) spans.now)) }
{
    for span in spans {
        write_span(config, clocks, span, writer)?;
    }
    Ok(())
}

fn write_each_ban<W: Write>(
    config: &Config,
    clocks: &[u64],
    bans: &[BanSpan],
    writer: &mut W,
) -> io::Result<()>
    ensures { OnOk result (Appends (W.contents writer.old) (W.contents writer.new)
        (flat_map (ban_line config.now clocks.now) bans.now)) }
{
    for ban in bans {
        write_ban(config, clocks, ban, writer)?;
    }
    Ok(())
}

/// Writes the row of a ban.
fn write_ban<W: Write>(
    config: &Config,
    clocks: &[u64],
    ban: &BanSpan,
    writer: &mut W,
) -> io::Result<()>
    ensures { OnOk result (Appends (W.contents writer.old) (W.contents writer.new)
        (ban_line config.now clocks.now ban.now)) }
{
    write_stretch(config, clocks, banned_stretch(ban), writer)
}

/// Writes the rows of a span: while its thread holds the core, and while it leaves it.
fn write_span<W: Write>(
    config: &Config,
    clocks: &[u64],
    span: &Span,
    writer: &mut W,
) -> io::Result<()>
    ensures { OnOk result (Appends (W.contents writer.old) (W.contents writer.new)
        (span_lines config.now clocks.now span.now)) }
{
    let class = span.class;
    let held = State::Held { class };
    match span.left {
        None => {
            let all = stretch_of(span, held, span.from, span.to);
            write_stretch(config, clocks, all, writer)
        }
        Some(left) => {
            let before = stretch_of(span, held, span.from, Some(left.pass));
            write_stretch(config, clocks, before, writer)?;
            let cause = left.cause;
            let leaving = State::Leaving { class, cause };
            let after = stretch_of(span, leaving, left.pass, span.to);
            write_stretch(config, clocks, after, writer)
        }
    }
}

/// Writes the row of a stretch.
fn write_stretch<W: Write>(
    config: &Config,
    clocks: &[u64],
    stretch: Stretch,
    writer: &mut W,
) -> io::Result<()>
    ensures { OnOk result (Appends (W.contents writer.old) (W.contents writer.new)
        (stretch_line config.now clocks.now stretch)) }
{
    write_place(config, stretch, writer)?;
    write_time(clocks, stretch, writer)
}

fn write_place<W: Write>(config: &Config, stretch: Stretch, writer: &mut W) -> io::Result<()>
    ensures { OnOk result (Appends (W.contents writer.old) (W.contents writer.new)
        (place_text config.now stretch)) }
{
    let (core, thread, state) = (stretch.core, stretch.thread, stretch.state);
    let task = Cell {
        number: task_in(config, thread),
    };
    write!(writer, "{core},{thread},{task},{state}")
}

fn write_time<W: Write>(clocks: &[u64], stretch: Stretch, writer: &mut W) -> io::Result<()>
    ensures { OnOk result (Appends (W.contents writer.old) (W.contents writer.new)
        (time_text clocks.now stretch)) }
{
    let from = stretch.from;
    let to = Cell {
        number: stretch.to.map(|pass| pass as u64),
    };
    let begun = clock_of(clocks, from);
    let ended = Cell {
        number: stretch.to.map(|pass| clock_of(clocks, pass)),
    };
    writeln!(writer, ",{from},{to},{begun},{ended}")
}

/// The clock of a pass.
fn clock_of(clocks: &[u64], pass: usize) -> u64
    ensures { result ≡ clock_of clocks.now pass }
{
    match clocks.get(pass) {
        Some(clock) => *clock,
        None => 0,
    }
}
