//! A history as a file, whose rows are made as its passes are decided.

ghost use Rattle.std.specs.Prelude.{◌≡◌, [], List, IfOk, IfErr};
ghost use Rattle.cal_policy.specs.declared.history.entry.PassEntry.{PassEntry as EntryOfPass};
ghost use Rattle.cal_trace.specs.History.Text.{history_text};
ghost use Rattle.cal_engine.specs.Deciding.{HasRows};

use crate::jobs::deciding::keeper::Keeper;
use cal_input::RunFault;
use cal_policy::PassEntry;
use cal_trace::{write_history_end, write_history_header, write_history_pass};
use std::alloc::Global;

/// The first row of a history and the rows of its passes so far, in memory.
#[derive(Drop)]
pub(crate) struct HistoryText {
    passes: usize,
    text: Vec<u8>,
}

impl HistoryText {
    /// The first row. The fault is `Memory`.
    pub(crate) fn open(alloc: Global) -> Result<HistoryText, RunFault>
        ensures rows { IfOk result (HasRows []) }
        ensures kind { IfErr result (λ fault. fault ≡ RunFault.Memory) }
    {
        let mut text = Vec::new(alloc);
        match write_history_header(&mut text) {
            Ok(()) => Ok(HistoryText { passes: 0, text }),
            // A list in memory refuses nothing but memory.
            Err(_) => Err(RunFault::Memory),
        }
    }

    /// The whole file. The fault is `Memory`.
    pub(crate) fn end(mut self) -> Result<Vec<u8>, RunFault>
        ensures text { (h : List EntryOfPass) → HasRows h self →
            IfOk result (λ text. text.items ≡ history_text h) }
        ensures kind { IfErr result (λ fault. fault ≡ RunFault.Memory) }
    {
        match write_history_end(self.passes, &mut self.text) {
            Ok(()) => Ok(self.text),
            Err(_) => Err(RunFault::Memory),
        }
    }
}

impl Keeper for HistoryText {
    ghost keeps = { λ text h. HasRows h text };

    fn take(&mut self, entry: PassEntry) -> Result<(), RunFault> {
        self.passes = self.passes.saturating_add(1);
        match write_history_pass(&entry, &mut self.text) {
            Ok(()) => Ok(()),
            Err(_) => Err(RunFault::Memory),
        }
    }
}
