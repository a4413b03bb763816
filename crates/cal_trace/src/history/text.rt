//! The text of a history.

ghost use Rattle.std.specs.Prelude.{◌≡◌, ◌≤◌, OnOk, decimal, false, length, map};
ghost use Rattle.std.specs.Prelude.{slice_index_or};
ghost use Rattle.cal_signal.specs.Records.{words_of};
ghost use Rattle.std.specs.List.{flat_map};
ghost use Rattle.std.specs.Io.KnownBytes.{Appends};
ghost use Rattle.cal_trace.specs.History.Text.{record_fields, look_fields, revocation_fields};
ghost use Rattle.cal_trace.specs.History.Text.{action_fields, look_rows, entry_rows, lines_of};
ghost use Rattle.cal_trace.specs.History.Text.{end_fields, header_row, history_text};
ghost use Rattle.cal_trace.specs.Rows.Text.{after_first, line_of};

use crate::history::row_text::RowText;
use crate::rows::version::Version;
use crate::write_fault::WriteFault;
use cal_policy::{Action, Cause, PassEntry, Record, Seen};
use std::io;
use std::io::Write;

/// Writes a history, in the newest version of its format.
///
/// A look for which the entry says nothing of its thread's ring is written with room 0. The error
/// is what the writer returned; how much was written is unspecified. It takes no memory of its own.
pub fn write_history<W: Write>(history: &[PassEntry], writer: &mut W) -> Result<(), WriteFault>
    ensures { OnOk result (Appends (W.contents writer.old) (W.contents writer.new)
        (history_text history.now)) }
{
    write_rows(history, writer)?;
    Ok(())
}

/// Writes the first row of a history, for a caller that writes it pass by pass: then come the rows
/// of each pass, and then the last row.
///
/// Of errors and of memory the same holds as for `write_history`, here and in the two calls below.
pub fn write_history_header<W: Write>(writer: &mut W) -> Result<(), WriteFault>
    ensures { OnOk result (Appends (W.contents writer.old) (W.contents writer.new)
        (line_of header_row)) }
{
    write_header(writer)?;
    Ok(())
}

/// Writes the rows of one pass of a history.
pub fn write_history_pass<W: Write>(entry: &PassEntry, writer: &mut W) -> Result<(), WriteFault>
    ensures { OnOk result (Appends (W.contents writer.old) (W.contents writer.new)
        (lines_of (entry_rows entry.now))) }
{
    write_entry(entry, writer)?;
    Ok(())
}

/// Writes the last row of a history of so many passes.
pub fn write_history_end<W: Write>(passes: usize, writer: &mut W) -> Result<(), WriteFault>
    ensures { OnOk result (Appends (W.contents writer.old) (W.contents writer.new)
        (line_of (end_fields passes))) }
{
    write_end(passes, writer)?;
    Ok(())
}

fn write_rows<W: Write>(history: &[PassEntry], writer: &mut W) -> io::Result<()>
    ensures { OnOk result (Appends (W.contents writer.old) (W.contents writer.new)
        (history_text history.now)) }
{
    write_header(writer)?;
    write_entries(history, writer)?;
    write_end(history.len(), writer)
}

fn write_header<W: Write>(writer: &mut W) -> io::Result<()>
    ensures { OnOk result (Appends (W.contents writer.old) (W.contents writer.new)
        (line_of header_row)) }
{
    let version = Version::WRITTEN.word();
    writeln!(writer, "caladan-history,{version}")
}

fn write_end<W: Write>(passes: usize, writer: &mut W) -> io::Result<()>
    ensures { OnOk result (Appends (W.contents writer.old) (W.contents writer.new)
        (line_of (end_fields passes))) }
{
    writeln!(writer, "end,{passes}")
}

fn write_entries<W: Write>(history: &[PassEntry], writer: &mut W) -> io::Result<()>
    ensures { OnOk result (Appends (W.contents writer.old) (W.contents writer.new)
        (lines_of (flat_map entry_rows history.now))) }
{
    for entry in history {
        write_entry(entry, writer)?;
    }
    Ok(())
}

fn write_entry<W: Write>(entry: &PassEntry, writer: &mut W) -> io::Result<()>
    ensures { OnOk result (Appends (W.contents writer.old) (W.contents writer.new)
        (lines_of (entry_rows entry.now))) }
{
    let now = entry.input.now;
    let bandwidth = entry.input.bandwidth;
    writeln!(writer, "pass,{now},{bandwidth}")?;
    write_looks(
        entry.input.seen.as_slice(),
        entry.input.rooms.as_slice(),
        writer,
    )?;
    write_actions(entry.actions.as_slice(), writer)
}

fn write_looks<W: Write>(seen: &[Seen], rooms: &[bool], writer: &mut W) -> io::Result<()>
    ensures { OnOk result (Appends (W.contents writer.old) (W.contents writer.new)
        (lines_of (look_rows rooms.now seen.now))) }
{
    for thread in 0..seen.len() {
        write_look(thread, room_at(rooms, thread), seen[thread], writer)?;
    }
    Ok(())
}

fn room_at(rooms: &[bool], thread: usize) -> bool
    ensures { result ≡ slice_index_or rooms.now thread false }
{
    thread < rooms.len() && rooms[thread]
}

fn write_look<W: Write>(thread: usize, room: bool, look: Seen, writer: &mut W) -> io::Result<()>
    ensures { OnOk result (Appends (W.contents writer.old) (W.contents writer.new)
        (line_of (look_fields thread room look))) }
{
    match look {
        Seen::Whole { number, rec } => write_record("whole", thread, room, number, rec, writer),
        Seen::Ahead { number, rec } => write_record("ahead", thread, room, number, rec, writer),
        Seen::Foreign { number, rec } => write_record("foreign", thread, room, number, rec, writer),
        Seen::Busy { first, second } => {
            let room = u8::from(room);
            writeln!(writer, "busy,{thread},{room},{first},{second}")
        }
    }
}

/// Writes the row of a look that found a record: its first field, and by one call the numbers after
/// it.
fn write_record<W: Write>(
    word: &str,
    thread: usize,
    room: bool,
    number: u64,
    rec: Record,
    writer: &mut W,
) -> io::Result<()>
    ensures { OnOk result (Appends (W.contents writer.old) (W.contents writer.new)
        (line_of (record_fields word.now thread room number rec))) }
{
    let mut row = record_text(rec);
    row.put(number);
    row.put(u64::from(room));
    row.put(thread as u64);
    writer.write_all(word.as_bytes())?;
    writer.write_all(row.text())
}

/// The words of a record, with a comma before each, and the end of their line.
fn record_text(rec: Record) -> RowText
    ensures text { result ≡ after_first (map decimal (words_of rec)) }
    ensures short { length result ≤ 190 }
{
    let mut row = RowText::new();
    row.put(rec.since);
    row.put(rec.paused);
    row.put(rec.stamp);
    row.put(rec.misses);
    row.put(rec.started);
    row.put(rec.oldest);
    row.put(rec.queued);
    row.put(rec.running);
    row.put(rec.taken);
    row
}

fn write_actions<W: Write>(actions: &[Action], writer: &mut W) -> io::Result<()>
    ensures { OnOk result (Appends (W.contents writer.old) (W.contents writer.new)
        (lines_of (map action_fields actions.now))) }
{
    for action in actions {
        write_action(*action, writer)?;
    }
    Ok(())
}

fn write_action<W: Write>(action: Action, writer: &mut W) -> io::Result<()>
    ensures { OnOk result (Appends (W.contents writer.old) (W.contents writer.new)
        (line_of (action_fields action))) }
{
    match action {
        Action::Free { core } => writeln!(writer, "free,{core}"),
        Action::Unban { core } => writeln!(writer, "unban,{core}"),
        Action::Ban {
            core,
            thread,
            started,
        } => writeln!(writer, "ban,{core},{thread},{started}"),
        Action::Revoke { core, cause } => write_revocation(core, cause, writer),
        Action::Cap { task, cap } => writeln!(writer, "cap,{task},{cap}"),
        Action::Grant {
            core,
            thread,
            class,
        } => writeln!(writer, "grant,{core},{thread},{class}"),
    }
}

fn write_revocation<W: Write>(core: u8, cause: Cause, writer: &mut W) -> io::Result<()>
    ensures { OnOk result (Appends (W.contents writer.old) (W.contents writer.new)
        (line_of (revocation_fields core cause))) }
{
    match cause {
        Cause::Ban { by } => writeln!(writer, "revoke,{core},ban,{by}"),
        Cause::Bandwidth => writeln!(writer, "revoke,{core},bandwidth"),
        Cause::Preempt { task } => writeln!(writer, "revoke,{core},preempt,{task}"),
    }
}
