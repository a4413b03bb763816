//! Actions and looks in words, for the report and for whoever tells of them in lines of its own.

ghost use Rattle.std.specs.Prelude.{OnOk};
ghost use Rattle.std.specs.Io.KnownBytes.{Appends};
ghost use Rattle.cal_trace.specs.Report.Words.{action_text, cause_text, kept_line, kept_lines};

use cal_policy::{Action, Cause, Seen};
use std::io;
use std::io::Write;

/// Writes an action in words, as `cap task 1 at 3`, and no end of a line.
///
/// The error is the writer's; how much was written is unspecified. It takes no memory of its own.
/// The same holds of the two calls below.
pub fn write_action<W: Write>(action: Action, writer: &mut W) -> io::Result<()>
    ensures { OnOk result (Appends (W.contents writer.old) (W.contents writer.new)
        (action_text action)) }
{
    match action {
        Action::Free { core } => write!(writer, "free core {core}"),
        Action::Unban { core } => write!(writer, "unban core {core}"),
        Action::Ban {
            core,
            thread,
            started,
        } => {
            write!(
                writer,
                "ban core {core} for thread {thread} started {started}"
            )
        }
        Action::Revoke { core, cause } => {
            write!(writer, "revoke core {core} ")?;
            write_cause(cause, writer)
        }
        Action::Cap { task, cap } => write!(writer, "cap task {task} at {cap}"),
        Action::Grant {
            core,
            thread,
            class,
        } => { write!(writer, "grant core {core} to thread {thread} class {class}") }
    }
}

/// Writes why a core is revoked, as `for task 2`, and no end of a line.
pub fn write_cause<W: Write>(cause: Cause, writer: &mut W) -> io::Result<()>
    ensures { OnOk result (Appends (W.contents writer.old) (W.contents writer.new)
        (cause_text cause)) }
{
    match cause {
        Cause::Ban { by } => write!(writer, "for ban by core {by}"),
        Cause::Bandwidth => write!(writer, "for bandwidth"),
        Cause::Preempt { task } => write!(writer, "for task {task}"),
    }
}

/// Writes a line for each look that left the kept record as it was, in thread order: the thread, and
/// why, as `kept 3 busy` after two blanks.
pub fn write_kept<W: Write>(seen: &[Seen], writer: &mut W) -> io::Result<()>
    ensures { OnOk result (Appends (W.contents writer.old) (W.contents writer.new)
        (kept_lines seen.now)) }
{
    for thread in 0..seen.len() {
        write_look(thread, seen[thread], writer)?;
    }
    Ok(())
}

fn write_look<W: Write>(thread: usize, look: Seen, writer: &mut W) -> io::Result<()>
    ensures { OnOk result (Appends (W.contents writer.old) (W.contents writer.new)
        (kept_line thread look)) }
{
    match look {
        Seen::Whole { .. } => Ok(()),
        Seen::Busy { .. } => writeln!(writer, "  kept {thread} busy"),
        Seen::Ahead { .. } => writeln!(writer, "  kept {thread} ahead"),
        Seen::Foreign { .. } => writeln!(writer, "  kept {thread} foreign"),
    }
}
