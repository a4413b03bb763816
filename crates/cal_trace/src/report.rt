//! The report of a history: its passes, what they did, and the tasks at its end.

pub mod summary;
pub mod tally;
pub mod words;

ghost use Rattle.std.specs.Prelude.{◌<◌, ◌+◌, ◌^◌, ◌++◌, ◌∷◌, [], ℕ, List, Option, length, OnOk};
ghost use Rattle.std.specs.List.{flat_map};
ghost use Rattle.std.specs.Io.KnownBytes.{Appends};
ghost use Rattle.cal_policy.specs.declared.history.action.Action.{Action};
ghost use Rattle.cal_policy.specs.declared.history.entry.PassEntry.{PassEntry};
ghost use Rattle.cal_policy.specs.State.{IsReady, Agrees};
ghost use Rattle.cal_policy.specs.History.{actions_of};
ghost use Rattle.cal_policy.specs.Judgement.Orderly.{IsOrderly};
ghost use Rattle.cal_trace.specs.Report.{action_line, pass_text, passes_text, report_text};
ghost use Rattle.cal_trace.specs.Report.{task_line, task_lines, IsReportOf};

use crate::report::words::{write_action, write_kept};
use crate::write_fault::WriteFault;
use cal_machine::{Config, Kind};
use cal_policy::state::{Board, board_of, booked_by, cap_of, held_by};
use cal_policy::{Action, PassEntry};
use std::io;
use std::io::Write;

/// The report of a history as it grows, one pass after the other: a line for each pass, for each
/// look that was not kept and for each action, and at its end how many passes there are and a line
/// for each task with the cores that it holds and leaves after the last pass.
///
/// It keeps only the number of passes written, and takes no memory of its own. The
/// error is what the writer returned; how much was written is unspecified.
#[derive(Drop)]
pub struct Report {
    passes: u64,
}

impl Report {
    /// The report of the empty history.
    pub fn new() -> Report
        ensures { IsReportOf [] result }
    {
        Report { passes: 0 }
    }

    /// Writes the lines of the next pass.
    pub fn write_pass<W: Write>(
        &mut self,
        entry: &PassEntry,
        writer: &mut W,
    ) -> Result<(), WriteFault>
        // After the lines of the passes so far stand those of one more.
        ensures text { (start : Option (List ℕ)) (h : List PassEntry) → IsReportOf h self.old →
            Appends start (W.contents writer.old) (passes_text h) →
            OnOk result (Appends start (W.contents writer.new)
            (passes_text (h ++ entry.now ∷ []))) }
        ensures of { (h : List PassEntry) → length h + 1 < 2 ^ 64 → IsReportOf h self.old →
            OnOk result (IsReportOf (h ++ entry.now ∷ []) self.new) }
    {
        write_pass(self.passes, entry, writer)?;
        self.passes = self.passes.saturating_add(1);
        Ok(())
    }

    /// Writes what stands after the lines of the passes, by the table of the history and the state
    /// that it leaves.
    pub fn write_end<W: Write>(
        &self,
        config: &Config,
        board: &Board,
        writer: &mut W,
    ) -> Result<(), WriteFault>
        requires { IsReady config.now board.now }
        // After the lines of all passes it makes the whole report.
        ensures { (start : Option (List ℕ)) (h : List PassEntry) → IsReportOf h self.now →
            Agrees board.now (actions_of h) →
            Appends start (W.contents writer.old) (passes_text h) →
            OnOk result (Appends start (W.contents writer.new) (report_text config.now h)) }
    {
        let passes = self.passes;
        writeln!(writer, "end {passes} passes")?;
        write_tasks(config, board, writer)?;
        Ok(())
    }
}

/// Writes the report of a whole history, as `Report` has it. The history is to be orderly, which
/// each legal one is.
///
/// The error is what the writer returned; how much was written is unspecified. It takes no memory
/// of its own.
pub fn write_report<W: Write>(
    config: &Config,
    history: &[PassEntry],
    writer: &mut W,
) -> Result<(), WriteFault>
    requires { IsOrderly config.now history.now }
    ensures { OnOk result (Appends (W.contents writer.old) (W.contents writer.new)
        (report_text config.now history.now)) }
{
    let mut report = Report::new();
    for pass in 0..history.len() {
        report.write_pass(&history[pass], writer)?;
    }
    report.write_end(config, &board_of(config, history), writer)
}

fn write_pass<W: Write>(pass: u64, entry: &PassEntry, writer: &mut W) -> io::Result<()>
    ensures { OnOk result (Appends (W.contents writer.old) (W.contents writer.new)
        (pass_text pass entry.now)) }
{
    let now = entry.input.now;
    let bandwidth = entry.input.bandwidth;
    writeln!(writer, "pass {pass} now {now} bandwidth {bandwidth}")?;
    write_kept(entry.input.seen.as_slice(), writer)?;
    write_actions(entry.actions.as_slice(), writer)
}

fn write_actions<W: Write>(actions: &[Action], writer: &mut W) -> io::Result<()>
    ensures { OnOk result (Appends (W.contents writer.old) (W.contents writer.new)
        (flat_map action_line actions.now)) }
{
    for action in actions {
        write_action_line(*action, writer)?;
    }
    Ok(())
}

fn write_action_line<W: Write>(action: Action, writer: &mut W) -> io::Result<()>
    ensures { OnOk result (Appends (W.contents writer.old) (W.contents writer.new)
        (action_line action)) }
{
    write!(writer, "  ")?;
    write_action(action, writer)?;
    writeln!(writer)
}

fn write_tasks<W: Write>(config: &Config, board: &Board, writer: &mut W) -> io::Result<()>
    requires { IsReady config.now board.now }
    ensures { (x : List Action) → Agrees board.now x →
        OnOk result (Appends (W.contents writer.old) (W.contents writer.new)
        (task_lines config.now x (length config.now.tasks))) }
{
    for task in 0..config.tasks() {
        write_task(config, board, task, writer)?;
    }
    Ok(())
}

fn write_task<W: Write>(
    config: &Config,
    board: &Board,
    task: usize,
    writer: &mut W,
) -> io::Result<()>
    requires ready { IsReady config.now board.now }
    requires task { task < length config.now.tasks }
    ensures { (x : List Action) → Agrees board.now x →
        OnOk result (Appends (W.contents writer.old) (W.contents writer.new)
        (task_line config.now x task)) }
{
    config.limits();
    let held = held_by(config, board, task);
    let leaving = booked_by(config, board, task).saturating_sub(held);
    match config.task(task).kind {
        Kind::LatencyCritical => {
            writeln!(writer, "task {task} lc held {held} leaving {leaving}")
        }
        Kind::BestEffort => {
            let cap = cap_of(config, board, task);
            writeln!(
                writer,
                "task {task} be held {held} leaving {leaving} cap {cap}"
            )
        }
    }
}
