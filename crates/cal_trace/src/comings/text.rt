//! The text of comings.

ghost use Rattle.std.specs.Prelude.{◌≡◌, OnOk, map};
ghost use Rattle.std.specs.Io.KnownBytes.{Appends};
ghost use Rattle.cal_trace.specs.Comings.Text.{coming_fields, comings_text, header_row};
ghost use Rattle.cal_trace.specs.Comings.Text.{left_out_fields};
ghost use Rattle.cal_trace.specs.History.Text.{lines_of};
ghost use Rattle.cal_trace.specs.Rows.Text.{line_of};

use crate::comings::{Coming, Comings, LeftOut};
use crate::write_fault::WriteFault;
use std::io;
use std::io::Write;

/// Writes comings as a file, row by row.
///
/// The error is what the writer returned; how much was written is unspecified. It takes no memory
/// of its own, and each row goes to the writer at once: a `BufWriter` gathers them.
pub fn write_comings<W: Write>(comings: &Comings, writer: &mut W) -> Result<(), WriteFault>
    ensures { OnOk result (Appends (W.contents writer.old) (W.contents writer.new)
        (comings_text comings.now)) }
{
    write_rows(comings, writer)?;
    Ok(())
}

fn write_rows<W: Write>(comings: &Comings, writer: &mut W) -> io::Result<()>
    ensures { OnOk result (Appends (W.contents writer.old) (W.contents writer.new)
        (comings_text comings.now)) }
{
    write_header(writer)?;
    write_requests(comings.requests.as_slice(), writer)?;
    write_left_out(comings.left_out.as_slice(), writer)
}

fn write_header<W: Write>(writer: &mut W) -> io::Result<()>
    ensures { OnOk result (Appends (W.contents writer.old) (W.contents writer.new)
        (line_of header_row)) }
{
    writeln!(writer, "id,turn")
}

fn write_requests<W: Write>(requests: &[Coming], writer: &mut W) -> io::Result<()>
    ensures { OnOk result (Appends (W.contents writer.old) (W.contents writer.new)
        (lines_of (map coming_fields requests.now))) }
{
    for coming in requests {
        write_coming(*coming, writer)?;
    }
    Ok(())
}

fn write_coming<W: Write>(coming: Coming, writer: &mut W) -> io::Result<()>
    ensures { OnOk result (Appends (W.contents writer.old) (W.contents writer.new)
        (line_of (coming_fields coming))) }
{
    let (id, turn) = (coming.arrival.request.id, coming.turn);
    writeln!(writer, "{id},{turn}")
}

fn write_left_out<W: Write>(left_out: &[LeftOut], writer: &mut W) -> io::Result<()>
    ensures { OnOk result (Appends (W.contents writer.old) (W.contents writer.new)
        (lines_of (map left_out_fields left_out.now))) }
{
    for of_task in left_out {
        write_left_out_row(*of_task, writer)?;
    }
    Ok(())
}

fn write_left_out_row<W: Write>(left_out: LeftOut, writer: &mut W) -> io::Result<()>
    ensures { OnOk result (Appends (W.contents writer.old) (W.contents writer.new)
        (line_of (left_out_fields left_out))) }
{
    let (task, count) = (left_out.task, left_out.count);
    writeln!(writer, "left out,{task},{count}")
}
