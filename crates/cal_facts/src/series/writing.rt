//! The rows of a series.

ghost use Rattle.std.specs.Prelude.{OnOk};
ghost use Rattle.std.specs.Io.KnownBytes.{Appends};
ghost use Rattle.std.specs.List.{flat_map};
ghost use Rattle.cal_facts.specs.Series.{cores_text, delay_text, pass_text, point_line};
ghost use Rattle.cal_facts.specs.Series.{series_columns, text_of_series};

use crate::cells::Cell;
use crate::series::point::Point;
use cal_machine::Config;
use std::io;
use std::io::Write;

/// Writes the columns and all rows of these points.
pub(crate) fn write_series_rows<W: Write>(
    config: &Config,
    points: &[Point],
    writer: &mut W,
) -> io::Result<()>
    ensures { OnOk result (Appends (W.contents writer.old) (W.contents writer.new)
        (text_of_series config.now points.now)) }
{
    write_columns(writer)?;
    write_each_point(config, points, writer)
}

fn write_columns<W: Write>(writer: &mut W) -> io::Result<()>
    ensures { OnOk result (Appends (W.contents writer.old) (W.contents writer.new)
        series_columns) }
{
    writeln!(
        writer,
        "pass,clock [ticks],bandwidth,bandwidth limit,task,delay [ticks],congested,\
         held [cores],leaving [cores],booked [cores],cap [cores],limit [cores]"
    )
}

fn write_each_point<W: Write>(config: &Config, points: &[Point], writer: &mut W) -> io::Result<()>
    ensures { OnOk result (Appends (W.contents writer.old) (W.contents writer.new)
        (flat_map (point_line config.now) points.now)) }
{
    for point in points {
        write_point(config, *point, writer)?;
    }
    Ok(())
}

/// Writes the row of a point.
fn write_point<W: Write>(config: &Config, point: Point, writer: &mut W) -> io::Result<()>
    ensures { OnOk result (Appends (W.contents writer.old) (W.contents writer.new)
        (point_line config.now point)) }
{
    write_pass(config, point, writer)?;
    write_delay(point, writer)?;
    write_cores(point, writer)
}

fn write_pass<W: Write>(config: &Config, point: Point, writer: &mut W) -> io::Result<()>
    ensures { OnOk result (Appends (W.contents writer.old) (W.contents writer.new)
        (pass_text config.now point)) }
{
    let (pass, clock, bandwidth) = (point.pass, point.clock, point.bandwidth);
    let most = config.bandwidth_limit();
    write!(writer, "{pass},{clock},{bandwidth},{most}")
}

fn write_delay<W: Write>(point: Point, writer: &mut W) -> io::Result<()>
    ensures { OnOk result (Appends (W.contents writer.old) (W.contents writer.new)
        (delay_text point)) }
{
    let (task, delay) = (point.task, point.delay);
    let congested = u8::from(point.congested);
    write!(writer, ",{task},{delay},{congested}")
}

fn write_cores<W: Write>(point: Point, writer: &mut W) -> io::Result<()>
    ensures { OnOk result (Appends (W.contents writer.old) (W.contents writer.new)
        (cores_text point)) }
{
    let (held, booked, limit) = (point.held, point.booked, point.limit);
    let leaving = booked.saturating_sub(held);
    let cap = Cell {
        number: point.cap.map(u64::from),
    };
    writeln!(writer, ",{held},{leaving},{booked},{cap},{limit}")
}
