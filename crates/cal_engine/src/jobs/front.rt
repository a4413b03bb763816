//! What is written before a history: nothing, or what makes it an input again.

ghost use Rattle.std.specs.Prelude.{OnOk};
ghost use Rattle.std.specs.Io.KnownBytes.{Appends};
ghost use Rattle.cal_input.specs.Input.{input_parts};
ghost use Rattle.cal_engine.specs.Front.{front_of, table_text};

use cal_input::split_input;
use std::io;
use std::io::Write;

/// What is written before a history.
#[derive(Clone, Copy, Debug, PartialEq, Eq)]
pub enum Front {
    /// Nothing.
    Nothing,
    /// The task table and the line `---`, so that it is an input.
    Table,
}

/// Writes what stands before the history of an input. How much was written after an error is
/// unspecified.
pub fn write_front<W: Write>(front: Front, input: &[u8], writer: &mut W) -> io::Result<()>
    ensures { OnOk result (Appends (W.contents writer.old) (W.contents writer.new)
        (front_of front input.now)) }
{
    match front {
        Front::Nothing => Ok(()),
        Front::Table => write_table(input, writer),
    }
}

/// Writes the task table of an input as it is there and the line after it.
fn write_table<W: Write>(input: &[u8], writer: &mut W) -> io::Result<()>
    ensures { OnOk result (Appends (W.contents writer.old) (W.contents writer.new)
        (table_text (input_parts input.now))) }
{
    match split_input(input) {
        None => Ok(()),
        Some((table, _)) => {
            writer.write_all(table)?;
            writer.write_all(b"---\n")
        }
    }
}
