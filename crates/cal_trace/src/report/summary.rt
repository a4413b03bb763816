//! The summary of a run: what each kernel thread did, counted.

ghost use Rattle.std.specs.Prelude.{◌≡◌, OnOk, List, [], length, slice_index_or};
ghost use Rattle.std.specs.Io.KnownBytes.{Appends};
ghost use Rattle.std.specs.List.{AllZip};
ghost use Rattle.cal_kthread.specs.declared.journal.entry.Entry.{Entry};
ghost use Rattle.cal_machine.specs.declared.request.Request.{Request as RequestOf};
ghost use Rattle.cal_trace.specs.Report.Summary.{IsTallyOf, summary_text};
ghost use Rattle.cal_trace.specs.Report.Summary.{thread_line, thread_lines};

use crate::report::tally::Tally;
use crate::write_fault::WriteFault;
use cal_kthread::Journal;
use cal_machine::{Listed, Request};
use std::io;
use std::io::Write;

/// Writes the summary of a run of so many passes and turns: a line for each kernel thread, with how
/// many commands it took, how many records it published, how many requests it served, and how many
/// were left with it.
///
/// A thread past the end of `left` was left nothing. The error is what the writer returned; how
/// much was written is unspecified. It takes no memory of its own.
pub fn write_summary<W: Write>(
    passes: usize,
    turns: usize,
    journals: &[Journal],
    left: &[Listed<Request>],
    writer: &mut W,
) -> Result<(), WriteFault>
    ensures { OnOk result (Appends (W.contents writer.old) (W.contents writer.new)
        (summary_text passes turns journals.now left.now)) }
{
    writeln!(writer, "passes {passes} turns {turns}")?;
    write_threads(journals, left, writer)?;
    Ok(())
}

/// Writes the same summary by the tallies of the threads' journals, in thread order.
pub fn write_tallied_summary<W: Write>(
    passes: usize,
    turns: usize,
    tallies: &[Tally],
    left: &[Listed<Request>],
    writer: &mut W,
) -> Result<(), WriteFault>
    ensures { (journals : List (List Entry)) → AllZip IsTallyOf journals tallies.now →
        OnOk result (Appends (W.contents writer.old) (W.contents writer.new)
        (summary_text passes turns journals left.now)) }
{
    writeln!(writer, "passes {passes} turns {turns}")?;
    write_tallies(tallies, left, writer)?;
    Ok(())
}

fn write_threads<W: Write>(
    journals: &[Journal],
    left: &[Listed<Request>],
    writer: &mut W,
) -> io::Result<()>
    ensures { OnOk result (Appends (W.contents writer.old) (W.contents writer.new)
        (thread_lines left.now journals.now)) }
{
    for thread in 0..journals.len() {
        let tally = Tally::of(journals[thread].as_slice());
        write_thread(thread, tally, left_with(left, thread), writer)?;
    }
    Ok(())
}

fn write_tallies<W: Write>(
    tallies: &[Tally],
    left: &[Listed<Request>],
    writer: &mut W,
) -> io::Result<()>
    ensures { (journals : List (List Entry)) → AllZip IsTallyOf journals tallies.now →
        OnOk result (Appends (W.contents writer.old) (W.contents writer.new)
        (thread_lines left.now journals)) }
{
    for thread in 0..tallies.len() {
        write_thread(thread, tallies[thread], left_with(left, thread), writer)?;
    }
    Ok(())
}

/// How many requests were left with a thread.
fn left_with(left: &[Listed<Request>], thread: usize) -> usize
    ensures { result ≡ length (slice_index_or left.now thread []) }
{
    match left.get(thread) {
        Some(requests) => requests.as_slice().len(),
        None => 0,
    }
}

fn write_thread<W: Write>(
    thread: usize,
    tally: Tally,
    left: usize,
    writer: &mut W,
) -> io::Result<()>
    ensures { (journal : List Entry) (requests : List RequestOf) → IsTallyOf journal tally →
        left ≡ length requests →
        OnOk result (Appends (W.contents writer.old) (W.contents writer.new)
        (thread_line thread journal requests)) }
{
    let (taken, published, served) = (tally.taken, tally.published, tally.served);
    writeln!(
        writer,
        "thread {thread} taken {taken} published {published} served {served} left {left}"
    )
}
