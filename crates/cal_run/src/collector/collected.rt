//! The history and the journals of a run, which are collected.

ghost use Rattle.std.specs.Prelude.{◌≡◌, List, [], IfOk, length, ⊤};
ghost use Rattle.cal_kthread.specs.declared.journal.entry.Entry.{Entry};
ghost use Rattle.cal_run.specs.Collecting.{AreEmpty};

use crate::collector::Collector;
use crate::collector::open_journal::OpenJournal;
use crate::rounds::passes::pass_given;
use cal_kthread::{Journal, TurnEntries};
use cal_policy::PassEntry;
use cal_sched::BareScheduler;
use cal_trace::Arrivals;
use std::alloc::{AllocError, Global};

/// The history and the journals of a run while it is made.
#[derive(Drop)]
pub struct OpenCollection {
    pub(crate) history: Vec<PassEntry>,
    pub(crate) journals: Vec<OpenJournal>,
}

/// The history and the journals of a run: what its passes and turns handed out.
#[derive(Drop)]
pub struct Collected {
    /// The entries of the passes, the first one first.
    pub history: Vec<PassEntry>,
    /// The journal of each kernel thread, in thread order.
    pub journals: Vec<Journal>,
}

impl OpenCollection {
    /// Nothing so far, of so many threads. Fails only when out of memory.
    pub fn new(alloc: Global, threads: usize) -> Result<OpenCollection, AllocError>
        ensures history { IfOk result (λ collection. collection.history.items ≡ []) }
        ensures count { IfOk result (λ collection. length collection.journals.items ≡ threads) }
        ensures empty { IfOk result (λ collection. AreEmpty collection.journals.items) }
    {
        let mut journals = Vec::new(alloc);
        for _ in 0..threads {
            journals.push(OpenJournal::new(alloc))?;
        }
        Ok(OpenCollection {
            history: Vec::new(alloc),
            journals,
        })
    }

    /// What was collected. Fails only when out of memory.
    pub fn close(self, alloc: Global) -> Result<Collected, AllocError>
        ensures history { IfOk result (λ collected. collected.history.items ≡ self.history.items) }
        ensures journals { IfOk result (λ collected.
            collected.journals.items ≡ self.journals.items) }
    {
        let OpenCollection { history, journals } = self;
        let journals = close_each(alloc, journals)?;
        Ok(Collected { history, journals })
    }
}

/// These journals, to which nothing comes any more. Fails only when out of memory.
fn close_each(alloc: Global, journals: Vec<OpenJournal>) -> Result<Vec<Journal>, AllocError>
    ensures { IfOk result (λ closed. closed.items ≡ journals.items) }
{
    let mut closed = Vec::new(alloc);
    for journal in journals {
        closed.push(journal.close())?;
    }
    Ok(closed)
}

impl Collector for OpenCollection {
    type Fault = AllocError;

    ghost holds = { λ collection history journals.
        (collection.history.items ≡ history) × (collection.journals.items ≡ journals) };

    ghost suits = { λ collection table. ⊤ };

    fn make_pass(
        &mut self,
        scheduler: &mut BareScheduler,
        arrivals: &Arrivals,
        p: usize,
    ) -> Result<(), AllocError> {
        let entry = pass_given(scheduler, arrivals, p)?;
        self.history.push(entry)?;
        Ok(())
    }

    fn add_turn(&mut self, k: usize, entries: &TurnEntries) -> Result<(), AllocError> {
        if k >= self.journals.len() {
            return Ok(());
        }
        self.journals[k].add_turn(entries)
    }
}
