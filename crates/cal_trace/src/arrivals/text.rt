//! The text of arrivals.

ghost use Rattle.std.specs.Prelude.{◌≡◌, OnOk, map};
ghost use Rattle.std.specs.Io.KnownBytes.{Appends};
ghost use Rattle.cal_trace.specs.Arrivals.Text.{arrivals_text, header_row, pass_fields};
ghost use Rattle.cal_trace.specs.Arrivals.Text.{request_fields, row_count, turn_fields};
ghost use Rattle.cal_trace.specs.History.Text.{end_fields, lines_of};
ghost use Rattle.cal_trace.specs.Rows.Text.{line_of};

use crate::arrivals::{Arrival, Arrivals, GivenPass};
use crate::write_fault::WriteFault;
use std::io;
use std::io::Write;

/// Writes arrivals as a file of version 1, row by row.
///
/// The error is what the writer returned; how much was written is unspecified. It takes no memory
/// of its own, and each row goes to the writer at once: a `BufWriter` gathers them.
pub fn write_arrivals<W: Write>(arrivals: &Arrivals, writer: &mut W) -> Result<(), WriteFault>
    ensures { OnOk result (Appends (W.contents writer.old) (W.contents writer.new)
        (arrivals_text arrivals.now)) }
{
    write_rows(arrivals, writer)?;
    Ok(())
}

fn write_rows<W: Write>(arrivals: &Arrivals, writer: &mut W) -> io::Result<()>
    ensures { OnOk result (Appends (W.contents writer.old) (W.contents writer.new)
        (arrivals_text arrivals.now)) }
{
    let passes = arrivals.passes.as_slice();
    let turns = arrivals.turns.as_slice();
    let requests = arrivals.requests.as_slice();
    write_header(writer)?;
    write_passes(passes, writer)?;
    write_turns(turns, writer)?;
    write_requests(requests, writer)?;
    write_end(row_count(arrivals), writer)
}

/// How many rows there are between the header and the end row.
fn row_count(arrivals: &Arrivals) -> u128
    ensures { result ≡ row_count arrivals.now }
{
    let passes = arrivals.passes.as_slice().len() as u128;
    let turns = arrivals.turns.as_slice().len() as u128;
    let requests = arrivals.requests.as_slice().len() as u128;
    passes + turns + requests
}

fn write_header<W: Write>(writer: &mut W) -> io::Result<()>
    ensures { OnOk result (Appends (W.contents writer.old) (W.contents writer.new)
        (line_of header_row)) }
{
    writeln!(writer, "caladan-arrivals,1")
}

fn write_end<W: Write>(rows: u128, writer: &mut W) -> io::Result<()>
    ensures { OnOk result (Appends (W.contents writer.old) (W.contents writer.new)
        (line_of (end_fields rows))) }
{
    writeln!(writer, "end,{rows}")
}

fn write_passes<W: Write>(passes: &[GivenPass], writer: &mut W) -> io::Result<()>
    ensures { OnOk result (Appends (W.contents writer.old) (W.contents writer.new)
        (lines_of (map pass_fields passes.now))) }
{
    for pass in passes {
        write_pass(*pass, writer)?;
    }
    Ok(())
}

fn write_pass<W: Write>(pass: GivenPass, writer: &mut W) -> io::Result<()>
    ensures { OnOk result (Appends (W.contents writer.old) (W.contents writer.new)
        (line_of (pass_fields pass))) }
{
    let (now, bandwidth) = (pass.now, pass.bandwidth);
    writeln!(writer, "pass,{now},{bandwidth}")
}

fn write_turns<W: Write>(turns: &[u64], writer: &mut W) -> io::Result<()>
    ensures { OnOk result (Appends (W.contents writer.old) (W.contents writer.new)
        (lines_of (map turn_fields turns.now))) }
{
    for now in turns {
        write_turn(*now, writer)?;
    }
    Ok(())
}

fn write_turn<W: Write>(now: u64, writer: &mut W) -> io::Result<()>
    ensures { OnOk result (Appends (W.contents writer.old) (W.contents writer.new)
        (line_of (turn_fields now))) }
{
    writeln!(writer, "turn,{now}")
}

fn write_requests<W: Write>(requests: &[Arrival], writer: &mut W) -> io::Result<()>
    ensures { OnOk result (Appends (W.contents writer.old) (W.contents writer.new)
        (lines_of (map request_fields requests.now))) }
{
    for arrival in requests {
        write_request(*arrival, writer)?;
    }
    Ok(())
}

fn write_request<W: Write>(arrival: Arrival, writer: &mut W) -> io::Result<()>
    ensures { OnOk result (Appends (W.contents writer.old) (W.contents writer.new)
        (line_of (request_fields arrival))) }
{
    let (thread, turn) = (arrival.thread, arrival.turn);
    let request = arrival.request;
    let (id, work, misses) = (request.id, request.work, request.misses);
    writeln!(writer, "request,{thread},{turn},{id},{work},{misses}")
}
