//! A run on one thread whose history is written pass by pass.

ghost use Rattle.std.specs.Prelude.{◌≡◌, ◌⊎◌, ◌++◌, IfOk, IfErr, OnOk, false, true};
ghost use Rattle.std.specs.Io.KnownBytes.{Appends};
ghost use Rattle.cal_trace.specs.Arrivals.FitsTable.{FitsTable};
ghost use Rattle.cal_trace.specs.History.Text.{end_fields, entry_rows, header_row, lines_of};
ghost use Rattle.cal_trace.specs.Rows.Text.{line_of};
ghost use Rattle.cal_engine.specs.Front.{front_of};
ghost use Rattle.cal_engine.specs.Running.{IsBegunTold, IsTold};

use crate::jobs::accepted::AcceptedInput;
use crate::jobs::answer::write_answer;
use crate::jobs::front::{Front, write_front};
use cal_input::RunFault;
use cal_kthread::TurnEntries;
use cal_policy::PassEntry;
use cal_run::{Collector, lockstep_collected_by, pass_given};
use cal_sched::BareScheduler;
use cal_trace::{Arrivals, write_history_end, write_history_header, write_history_pass};
use std::alloc::{AllocError, Global};
use std::io::Write;

/// The passes of a history, written as they are made. None is kept.
#[derive(Drop)]
struct Telling<'a, W: Write> {
    writer: &'a mut W,
    /// Room for the rows of a pass.
    text: Vec<u8>,
    /// Whether the writer returned an error.
    failed: bool,
}

/// A history is told no further: memory was refused, or its writer failed, which its `Telling` says.
#[derive(Drop)]
struct Stopped;

impl From<AllocError> for Stopped {
    fn from(_e: AllocError) -> Stopped {
        Stopped
    }
}

impl<'a, W: Write> Telling<'a, W> {
    /// Writes the rows of a pass: first into memory, and then at once.
    fn tell(&mut self, entry: &PassEntry) -> Result<(), Stopped>
        ensures same { self.new.writer.ghost_name ≡ self.old.writer.ghost_name }
        ensures bytes { OnOk result ((self.new.failed ≡ self.old.failed)
            × Appends (W.contents self.old.writer.now) (W.contents self.new.writer.now)
            (lines_of (entry_rows entry.now))) }
        ensures unwritten { IfErr result (λ _. self.new.failed ≡ false →
            (self.old.failed ≡ false) × (self.new.writer.now ≡ self.old.writer.now)) }
    {
        self.text.clear();
        if write_history_pass(entry, &mut self.text).is_err() {
            return Err(Stopped);
        }
        if self.writer.write_all(self.text.as_slice()).is_err() {
            self.failed = true;
            return Err(Stopped);
        }
        Ok(())
    }
}

impl<'a, W: Write> Collector for Telling<'a, W> {
    ghost use Rattle.std.specs.Prelude.{◌≡◌, ⊤, false};
    ghost use Rattle.std.specs.Io.KnownBytes.{Appends};
    ghost use Rattle.std.specs.List.{flat_map};
    ghost use Rattle.cal_trace.specs.History.Text.{entry_rows, lines_of};

    type Fault = Stopped;

    ghost holds = { λ telling history journals. ⊤ };

    ghost suits = { λ telling table. ⊤ };

    ghost wrote = { λ first telling history. telling.failed ≡ false →
        Appends (W.contents first.writer.now) (W.contents telling.writer.now)
        (lines_of (flat_map entry_rows history)) };

    ghost same = { λ first telling. telling.writer.ghost_name ≡ first.writer.ghost_name };

    fn make_pass(
        &mut self,
        scheduler: &mut BareScheduler,
        arrivals: &Arrivals,
        p: usize,
    ) -> Result<(), Stopped> {
        let entry = pass_given(scheduler, arrivals, p)?;
        self.tell(&entry)
    }

    fn add_turn(&mut self, _k: usize, _entries: &TurnEntries) -> Result<(), Stopped> {
        Ok(())
    }
}

/// Makes a whole run on one thread on the arrivals of an accepted input, and writes its history as
/// a file, after what stands before it: the rows of each pass as soon as it was made. No pass is
/// kept.
///
/// `Memory` where memory was refused: then nothing was written, or what stands before the history,
/// its first row and whole passes. `Write` where the writer returned an error; then how much was
/// written is unspecified.
pub(crate) fn tell_lockstep<W: Write>(
    alloc: Global,
    front: Front,
    accepted: &AcceptedInput<'_>,
    writer: &mut W,
) -> Result<(), RunFault>
    requires fits { FitsTable accepted.now.config.now accepted.now.arrivals.now }
    ensures told { OnOk result (IsTold accepted.now.policy (front_of front accepted.now.input.now)
        (record { table = accepted.now.config.now; arrivals = accepted.now.arrivals.now })
        (W.contents writer.old) (W.contents writer.new)) }
    ensures begun { IfErr result (λ fault. fault ≡ RunFault.Memory →
        (writer.new ≡ writer.old)
        ⊎ IsBegunTold accepted.now.policy (front_of front accepted.now.input.now)
        (record { table = accepted.now.config.now; arrivals = accepted.now.arrivals.now })
        (W.contents writer.old) (W.contents writer.new)) }
    ensures kind { IfErr result (λ fault. (fault ≡ RunFault.Memory) ⊎ (fault ≡ RunFault.Write)) }
{
    let (config, arrivals) = (accepted.config, accepted.arrivals);
    let head = head_text(alloc, front, accepted.input)?;
    write_answer(head.as_slice(), writer)?;
    let mut telling = Telling {
        writer: &mut *writer,
        text: head,
        failed: false,
    };
    let made = lockstep_collected_by(
        alloc,
        config,
        accepted.policy,
        arrivals,
        &mut telling,
    ).is_ok();
    let Telling {
        writer: told,
        mut text,
        failed,
    } = telling;
    let passes = arrivals.passes.as_slice().len();
    tell_end(made, failed, passes, &mut text, told)
}

/// What stands before the passes of a history, in memory.
fn head_text(alloc: Global, front: Front, input: &[u8]) -> Result<Vec<u8>, RunFault>
    ensures text { IfOk result (λ text. text.items ≡ front_of front input.now
        ++ line_of header_row) }
    ensures kind { IfErr result (λ fault. fault ≡ RunFault.Memory) }
{
    let mut text = Vec::new(alloc);
    // A list in memory refuses nothing but memory.
    if write_front(front, input, &mut text).is_err() {
        return Err(RunFault::Memory);
    }
    match write_history_header(&mut text) {
        Ok(()) => Ok(text),
        Err(_) => Err(RunFault::Memory),
    }
}

/// Writes the last row of a history of so many passes, unless its run was not made to its end.
fn tell_end<W: Write>(
    made: bool,
    failed: bool,
    passes: usize,
    text: &mut Vec<u8>,
    writer: &mut W,
) -> Result<(), RunFault>
    ensures ended { OnOk result ((made ≡ true) × (failed ≡ false)
        × Appends (W.contents writer.old) (W.contents writer.new) (line_of (end_fields passes))) }
    ensures unwritten { IfErr result (λ fault. fault ≡ RunFault.Memory →
        (failed ≡ false) × (writer.new ≡ writer.old)) }
    ensures kind { IfErr result (λ fault. (fault ≡ RunFault.Memory) ⊎ (fault ≡ RunFault.Write)) }
{
    if failed {
        return Err(RunFault::Write);
    }
    text.clear();
    if !made || write_history_end(passes, text).is_err() {
        return Err(RunFault::Memory);
    }
    write_answer(text.as_slice(), writer)
}
