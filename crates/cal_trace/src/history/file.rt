//! Files of histories, pass by pass or whole.

ghost use Rattle.std.specs.Prelude.{◌≡◌, ◌<◌, [], List, ℕ, IfOk, IfErr, IfSome};
ghost use Rattle.cal_policy.specs.declared.history.entry.PassEntry.{PassEntry};
ghost use Rattle.cal_trace.specs.Rows.Answers.{Decided, IsWhatRowsSay};
ghost use Rattle.cal_trace.specs.Rows.{rows_of};
ghost use Rattle.cal_trace.specs.History.Reading.{extent_of, rows_left, GivesNext, HasGiven};
ghost use Rattle.cal_trace.specs.History.Reading.{IsOpen};
ghost use Rattle.cal_trace.specs.History.{history_of};
ghost use Rattle.cal_trace.specs.declared.history.action_rows.Extent.{Extent};

use crate::fault::TraceFault;
use crate::history::action_rows::Extent;
use crate::history::reading::HistoryReading;
use crate::rows::Rows;
use crate::rows::header::open_under;
use crate::rows::passes::{all_passes, next_pass};
use cal_machine::Config;
use cal_policy::PassEntry;
use std::alloc::Global;

fn extent_of(config: &Config) -> Extent
    ensures { result ≡ extent_of config.now }
{
    Extent {
        cores: config.machine().cores(),
        threads: config.threads() as u8,
        tasks: config.tasks() as u8,
    }
}

/// The passes of a history, of version 1 or 2, one after the other as their rows are read. It keeps
/// nothing of a pass that it has given but how many there were.
///
/// A pass is given before the rows after it were read, so the file may still be refused: what is
/// made of its passes counts only once the end has come.
#[derive(Drop)]
pub struct HistoryRows<'a> {
    rows: Rows<'a>,
    reading: HistoryReading,
}

impl<'a> HistoryRows<'a> {
    /// The history of a text for a table, before the first pass. The error is the header's, or
    /// `Memory`.
    pub fn open(
        alloc: Global,
        config: &Config,
        text: &'a [u8],
    ) -> Result<HistoryRows<'a>, TraceFault>
        ensures ready { IfOk result IsOpen }
        ensures given { IfOk result (HasGiven (extent_of config.now) text.now []) }
        ensures fault { IfErr result
            (λ fault. Decided fault.kind
            (history_of (extent_of config.now) (rows_of text.now) ≡ Err fault)) }
    {
        let (rows, version) = open_under(alloc, text, b"caladan-history".as_slice())?;
        let reading = HistoryReading::new(alloc, version, extent_of(config));
        Ok(HistoryRows { rows, reading })
    }

    /// The next pass, or `None` where the file ended as it must. The error is the first check that
    /// fails, in the order of the rows and of the checks of a row: `Memory` and `Read` come as
    /// `read_history` says. Must not be called again after `None` or an error.
    pub fn next(&mut self) -> Result<Option<PassEntry>, TraceFault>
        requires { IsOpen self.old }
        // The passes given so far and those still to come are those of the text, or its fault is
        // the one.
        ensures gives { (extent : Extent) (text : List ℕ) (given : List PassEntry) →
            HasGiven extent text given self.old →
            GivesNext extent text given result self.new }
        ensures ready { IfOk result (λ pass. IfSome pass (λ _. IsOpen self.new)) }
        ensures fewer { IfOk result
            (λ pass. IfSome pass (λ _. rows_left self.new < rows_left self.old)) }
    {
        next_pass(&mut self.rows, &mut self.reading)
    }
}

/// Reads a history, of version 1 or 2, for a table.
///
/// The error is the first check that fails, in the order of the rows and of the checks of a row.
/// `Memory` comes only where memory was refused. `Read` comes only where `csv` fails to read, which
/// it does not on a text in memory. `Backwards` and `Repeated` never come: whether the history is
/// the policy's is for the audit to say.
pub fn read_history(
    alloc: Global,
    config: &Config,
    text: &[u8],
) -> Result<Vec<PassEntry>, TraceFault>
    ensures { IsWhatRowsSay (λ history. history.items) result
        (history_of (extent_of config.now) (rows_of text.now)) }
{
    let HistoryRows {
        mut rows,
        mut reading,
    } = HistoryRows::open(alloc, config, text)?;
    all_passes(alloc, &mut rows, &mut reading)
}
