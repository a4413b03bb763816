//! The rows of turns at work.

ghost use Rattle.std.specs.Prelude.{OnOk};
ghost use Rattle.std.specs.Io.KnownBytes.{Appends};
ghost use Rattle.std.specs.List.{flat_map};
ghost use Rattle.cal_facts.specs.WorkTurns.{text_of_turns, turn_columns, turn_line};

use crate::cells::{Cell, task_in};
use crate::turns::work::WorkTurn;
use cal_machine::Config;
use std::io;
use std::io::Write;

/// Writes the columns and all rows of these turns at work.
pub(crate) fn write_turn_rows<W: Write>(
    config: &Config,
    works: &[WorkTurn],
    writer: &mut W,
) -> io::Result<()>
    ensures { OnOk result (Appends (W.contents writer.old) (W.contents writer.new)
        (text_of_turns config.now works.now)) }
{
    write_columns(writer)?;
    write_each_turn(config, works, writer)
}

fn write_columns<W: Write>(writer: &mut W) -> io::Result<()>
    ensures { OnOk result (Appends (W.contents writer.old) (W.contents writer.new)
        turn_columns) }
{
    writeln!(
        writer,
        "thread,task,request,from clock [ticks],to clock [ticks],served"
    )
}

fn write_each_turn<W: Write>(config: &Config, works: &[WorkTurn], writer: &mut W) -> io::Result<()>
    ensures { OnOk result (Appends (W.contents writer.old) (W.contents writer.new)
        (flat_map (turn_line config.now) works.now)) }
{
    for work in works {
        write_turn(config, *work, writer)?;
    }
    Ok(())
}

/// Writes the row of a turn at work.
fn write_turn<W: Write>(config: &Config, work: WorkTurn, writer: &mut W) -> io::Result<()>
    ensures { OnOk result (Appends (W.contents writer.old) (W.contents writer.new)
        (turn_line config.now work)) }
{
    let (thread, request, from, to) = (work.thread, work.request, work.from, work.to);
    let task = Cell {
        number: task_in(config, thread),
    };
    let served = u8::from(work.served);
    writeln!(writer, "{thread},{task},{request},{from},{to},{served}")
}
