//! The journals of a run, as rows, for scripts that count in them.
//!
//! The input is that of `caladan_sim lockstep`, and the run is the one that it makes. For each
//! kernel thread come the entries of its journal, in order, and then the requests that were left
//! with it. tools/count_requests and tools/check_timeline read this.

use cal_input::{RunFault, fault_line, read_input, run_input, status};
use cal_kthread::Entry;
use cal_machine::{Command, Request};
use cal_run::{RunEnd, lockstep_end};
use std::alloc::Global;
use std::io;
use std::io::{BufWriter, Read, Write};

// begin
/// Makes the run of the input that it is given, and writes its journals. The exit status.
pub fn tell(rt: &HostRuntime) -> u8 {
    match tell_run(rt.alloc(), rt.stdin(), &mut rt.stdout()) {
        Ok(()) => 0,
        Err(fault) => {
            let _ = fault_line(&fault, &mut rt.stderr());
            status(&fault)
        }
    }
}

/// The same of any input. The faults are those of the word `lockstep`.
fn tell_run<R: Read + Drop, W: Write>(
    alloc: Global,
    mut reader: R,
    output: &mut W,
) -> Result<(), RunFault> {
    let input = read_input(alloc, &mut reader)?;
    let (config, arrivals) = run_input(alloc, input.as_slice())?;
    let end = lockstep_end(alloc, &config, &arrivals)?;
    let Ok(mut buffer) = BufWriter::new(alloc, output) else {
        return Err(RunFault::Memory);
    };
    match put_journals(&end, &mut buffer) {
        Ok(()) => Ok(()),
        Err(_) => Err(RunFault::Write),
    }
}
// end

/// Writes the rows of each thread.
fn put_journals<W: Write>(end: &RunEnd, writer: &mut W) -> io::Result<()> {
    for (thread, journal) in end.journals.as_slice().iter().enumerate() {
        put_entries(thread, journal.as_slice(), writer)?;
    }
    for (thread, left) in end.left.as_slice().iter().enumerate() {
        put_left(thread, left.as_slice(), writer)?;
    }
    writer.flush()
}

fn put_entries<W: Write>(thread: usize, journal: &[Entry], writer: &mut W) -> io::Result<()> {
    for entry in journal {
        put_entry(thread, entry, writer)?;
    }
    Ok(())
}

fn put_left<W: Write>(thread: usize, left: &[Request], writer: &mut W) -> io::Result<()> {
    for request in left {
        writeln!(writer, "left,{thread},{}", request.id)?;
    }
    Ok(())
}

/// Writes the row of an entry: what it is, the thread, and what the entry says.
fn put_entry<W: Write>(thread: usize, entry: &Entry, writer: &mut W) -> io::Result<()> {
    match *entry {
        Entry::Arrived(request) => {
            let (id, work, misses) = (request.id, request.work, request.misses);
            writeln!(writer, "arrived,{thread},{id},{work},{misses}")
        }
        Entry::Took(number, Command::Run(core)) => {
            writeln!(writer, "took,{thread},{number},run,{core}")
        }
        Entry::Took(number, Command::Park) => writeln!(writer, "took,{thread},{number},park"),
        Entry::Stole { from, id } => writeln!(writer, "stole,{thread},{from},{id}"),
        Entry::Served { id } => writeln!(writer, "served,{thread},{id}"),
        Entry::Yielded => writeln!(writer, "yielded,{thread}"),
        Entry::Published(place, rec) => {
            let (running, stamp) = (rec.running, rec.stamp);
            writeln!(writer, "published,{thread},{place},{running},{stamp}")
        }
    }
}
