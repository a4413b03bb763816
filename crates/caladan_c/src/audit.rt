//! An audit: its table, and the auditor of the passes so far.

ghost use Rattle.std.specs.Prelude.{IfOk, List, []};
ghost use Rattle.cal_machine.specs.Outcome.{Gives};
ghost use Rattle.cal_machine.specs.Reading.{table_in};
ghost use Rattle.cal_policy.specs.Policies.{IsVerdictBy};
ghost use Rattle.cal_policy.specs.declared.policy.Policy.{Policy as PolicyOf};
ghost use Rattle.cal_policy.specs.declared.history.entry.PassEntry.{PassEntry};

use cal_machine::{Config, ConfigFault};
use cal_policy::{Auditor, PassEntry, Policy, Verdict};
use std::alloc::Global;
use std::marker::Model;

/// A table, and the auditor of the passes so far.
#[derive(Drop)]
pub struct Audit {
    config: Config,
    auditor: Auditor,
}

impl Model for Audit {
    ghost use Rattle.cal_policy.specs.Auditor.{IsAuditorOf};
    ghost use Rattle.caladan_c.specs.AuditView.{AuditView};

    ghost Value = { AuditView };

    ghost view = { λ a. record { table = a.config; auditor = a.auditor } };

    ghost invariant = { λ a. IsAuditorOf a.config a.auditor };
}

ghost use Rattle.caladan_c.specs.AuditView.{HasAudited, TookNext};

impl Audit {
    /// An audit of this table by this policy that was handed no pass, or the table's fault.
    pub fn open(alloc: Global, table: &[u8], policy: Policy) -> Result<Audit, ConfigFault>
        ensures table { Gives (λ audit. audit.table) result (table_in table.now) }
        ensures new { IfOk result (λ audit. HasAudited policy audit []) }
    {
        let config = Config::read(alloc, table)?;
        let auditor = Auditor::open_by(alloc, &config, policy)?;
        Ok(Audit { config, auditor })
    }

    /// Takes the next pass of the history. Any entry may be given.
    pub fn next(&mut self, entry: &PassEntry)
        ensures { TookNext self.old entry.now self.new }
    {
        self.auditor.next(&self.config, entry);
    }

    /// What the audit says of the passes so far.
    pub fn verdict(&self) -> Verdict
        ensures { (policy : PolicyOf) (h : List PassEntry) → HasAudited policy self.now h →
            IsVerdictBy policy self.now.table h result }
    {
        self.auditor.verdict()
    }
}
