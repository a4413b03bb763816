//! The report of passes, whose lines are made as they are decided, or as a run makes them.

ghost use Rattle.std.specs.Prelude.{◌≡◌, [], List, IfOk, IfErr};
ghost use Rattle.cal_policy.specs.State.{IsReady, IsStateAfter};
ghost use Rattle.cal_policy.specs.declared.history.entry.PassEntry.{PassEntry as EntryOfPass};
ghost use Rattle.cal_trace.specs.Report.{report_text};
ghost use Rattle.cal_engine.specs.Deciding.{HasLines};

use crate::jobs::deciding::keeper::Keeper;
use cal_input::RunFault;
use cal_kthread::TurnEntries;
use cal_machine::Config;
use cal_policy::PassEntry;
use cal_policy::state::Board;
use cal_run::{Collector, pass_given};
use cal_sched::BareScheduler;
use cal_trace::{Arrivals, Report};
use std::alloc::{AllocError, Global};

/// The lines of the passes so far, in memory.
#[derive(Drop)]
pub(crate) struct ReportLines {
    report: Report,
    text: Vec<u8>,
}

impl ReportLines {
    /// Those of no pass. Takes no memory.
    pub(crate) fn new(alloc: Global) -> ReportLines
        ensures { HasLines [] result }
    {
        ReportLines {
            report: Report::new(),
            text: Vec::new(alloc),
        }
    }

    /// The whole report, by the state that the passes leave. The fault is `Memory`.
    pub(crate) fn end(mut self, config: &Config, board: &Board) -> Result<Vec<u8>, RunFault>
        requires { IsReady config.now board.now }
        ensures text { (h : List EntryOfPass) → HasLines h self → IsStateAfter board.now h →
            IfOk result (λ text. text.items ≡ report_text config.now h) }
        ensures kind { IfErr result (λ fault. fault ≡ RunFault.Memory) }
    {
        match self.report.write_end(config, board, &mut self.text) {
            Ok(()) => Ok(self.text),
            // A list in memory refuses nothing but memory.
            Err(_) => Err(RunFault::Memory),
        }
    }
}

impl Keeper for ReportLines {
    ghost keeps = { λ lines h. HasLines h lines };

    fn take(&mut self, entry: PassEntry) -> Result<(), RunFault> {
        match self.report.write_pass(&entry, &mut self.text) {
            Ok(()) => Ok(()),
            Err(_) => Err(RunFault::Memory),
        }
    }
}

impl Collector for ReportLines {
    ghost use Rattle.std.specs.Prelude.{⊤};

    type Fault = AllocError;

    ghost holds = { λ lines history journals. HasLines history lines };

    ghost suits = { λ lines table. ⊤ };

    fn make_pass(
        &mut self,
        scheduler: &mut BareScheduler,
        arrivals: &Arrivals,
        p: usize,
    ) -> Result<(), AllocError> {
        let entry = pass_given(scheduler, arrivals, p)?;
        // Lines in memory are refused nothing else.
        match self.take(entry) {
            Ok(()) => Ok(()),
            Err(_) => Err(AllocError),
        }
    }

    fn add_turn(&mut self, _k: usize, _entries: &TurnEntries) -> Result<(), AllocError> {
        Ok(())
    }
}
