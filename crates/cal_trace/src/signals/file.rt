//! Files of signals, pass by pass or whole.

ghost use Rattle.std.specs.Prelude.{◌≡◌, ◌<◌, ℕ, [], List, IfOk, IfErr, IfSome};
ghost use Rattle.cal_machine.specs.Tasks.{threads_in};
ghost use Rattle.cal_trace.specs.Rows.Answers.{Decided, IsWhatRowsSay};
ghost use Rattle.cal_trace.specs.Rows.{rows_of};
ghost use Rattle.cal_trace.specs.Signals.{signals_of};
ghost use Rattle.cal_trace.specs.Signals.Reading.{GivesNext, HasGiven, IsOpen, rows_left};
ghost use Rattle.cal_trace.specs.declared.signals.SignalPass.{SignalPass};

use crate::fault::TraceFault;
use crate::rows::Rows;
use crate::rows::header::open_under;
use crate::rows::passes::{all_passes, next_pass};
use crate::signals::reading::SignalReading;
use crate::signals::{SignalPass, SignalPasses, Signals};
use cal_machine::Config;
use std::alloc::Global;

/// The passes of a file of signals, of version 1 or 2, one after the other as their rows are read.
/// It keeps nothing of a pass that it has given but what each thread showed last.
///
/// A pass is given before the rows after it were read, so the file may still be refused: what is
/// made of its passes counts only once the end has come.
#[derive(Drop)]
pub struct SignalRows<'a> {
    rows: Rows<'a>,
    reading: SignalReading,
}

impl<'a> SignalRows<'a> {
    /// The signals of a text for the threads of a table, before the first pass. The error is the
    /// header's, or `Memory`.
    pub fn open(
        alloc: Global,
        config: &Config,
        text: &'a [u8],
    ) -> Result<SignalRows<'a>, TraceFault>
        ensures ready { IfOk result IsOpen }
        ensures given { IfOk result (HasGiven (threads_in config.now.tasks) text.now []) }
        ensures fault { IfErr result
            (λ fault. Decided fault.kind
            (signals_of (threads_in config.now.tasks) (rows_of text.now) ≡ Err fault)) }
    {
        let (rows, version) = open_under(alloc, text, b"caladan-signals".as_slice())?;
        match SignalReading::new(alloc, version, config.threads()) {
            Ok(reading) => Ok(SignalRows { rows, reading }),
            Err(kind) => Err(TraceFault { row: 1, kind }),
        }
    }

    /// The next pass, or `None` where the file ended as it must. The error is the first check that
    /// fails, in the order of the rows and of the checks of a row: `Memory` and `Read` come as
    /// `read_signals` says. Must not be called again after `None` or an error.
    pub fn next(&mut self) -> Result<Option<SignalPass>, TraceFault>
        requires { IsOpen self.old }
        // The passes given so far and those still to come are those of the text, or its fault is
        // the one.
        ensures gives { (threads : ℕ) (text : List ℕ) (given : List SignalPass) →
            HasGiven threads text given self.old →
            GivesNext threads text given result self.new }
        ensures ready { IfOk result (λ pass. IfSome pass (λ _. IsOpen self.new)) }
        ensures fewer { IfOk result
            (λ pass. IfSome pass (λ _. rows_left self.new < rows_left self.old)) }
    {
        next_pass(&mut self.rows, &mut self.reading)
    }
}

/// Reads a file of signals, of version 1 or 2, for the threads of a table.
///
/// The error is the first check that fails, in the order of the rows and of the checks of a row.
/// `Memory` comes only where memory was refused. `Read` comes only where `csv` fails to read, which
/// it does not on a text in memory. `Repeated` never comes.
pub fn read_signals(alloc: Global, config: &Config, text: &[u8]) -> Result<Signals, TraceFault>
    ensures { IsWhatRowsSay (λ signals. signals.passes) result
        (signals_of (threads_in config.now.tasks) (rows_of text.now)) }
{
    let SignalRows {
        mut rows,
        mut reading,
    } = SignalRows::open(alloc, config, text)?;
    let passes = all_passes(alloc, &mut rows, &mut reading)?;
    Ok(Signals {
        passes: SignalPasses::new(passes),
    })
}
