//! The spans and the bans of a history, or of a run.

ghost use Rattle.std.specs.Prelude.{◌≡◌, IfErr, IfOk};
ghost use Rattle.cal_tables.specs.Planned.{IsFaultBy};
ghost use Rattle.cal_trace.specs.Arrivals.FitsTable.{FitsTable};
ghost use Rattle.cal_facts.specs.Stretches.{AreSpanFacts, IsRunOfSpans};

use crate::cells::{clocks_given, clocks_of};
use crate::spans::collecting::OpenSpans;
use crate::spans::gathering::Gathering;
use cal_machine::Config;
use cal_measure::{BanSpan, Span};
use cal_paced::Plan;
use cal_policy::{PassEntry, Policy};
use cal_tables::{PlannedFault, collected_by, planned_for};
use cal_trace::Arrivals;
use std::alloc::{AllocError, Global};

/// The spans and the bans of a history: those that ended, in the order in which they did, and then
/// those that go on at its end, by core.
#[derive(Drop)]
pub struct SpanFacts {
    /// The spans.
    pub spans: Vec<Span>,
    /// The bans.
    pub bans: Vec<BanSpan>,
    /// The clock of each pass.
    pub clocks: Vec<u64>,
}

impl SpanFacts {
    /// Those of a history, whichever it is. Fails only when out of memory.
    pub fn of_history(
        alloc: Global,
        config: &Config,
        history: &[PassEntry],
    ) -> Result<SpanFacts, AllocError>
        ensures { IfOk result (AreSpanFacts config.now.cores history.now) }
    {
        let mut gathering = Gathering::new(alloc);
        for pass in 0..history.len() {
            gathering.note_pass(pass, history[pass].actions.as_slice())?;
        }
        let (spans, bans) = gathering.into_lists(config.machine().cores())?;
        let clocks = clocks_of(alloc, history)?;
        Ok(SpanFacts {
            spans,
            bans,
            clocks,
        })
    }

    /// Makes a whole run by this policy, and by this plan or in lockstep, on one thread on these
    /// arrivals, and gathers its spans and bans while it is made. The fault is `Memory`, or that of
    /// the plan on them.
    pub fn of_run(
        alloc: Global,
        config: &Config,
        policy: Policy,
        plan: Option<Plan>,
        arrivals: Arrivals,
    ) -> Result<SpanFacts, PlannedFault>
        requires fits { FitsTable config.now arrivals }
        ensures facts { IfOk result (IsRunOfSpans plan policy config.now arrivals) }
        ensures fault { IfErr result (IsFaultBy plan arrivals) }
    {
        let mut given = planned_for(alloc, plan, arrivals)?;
        let mut open = OpenSpans::open(alloc)?;
        collected_by(alloc, config, policy, plan, &mut given, &mut open)?;
        let OpenSpans { gathering, .. } = open;
        let (spans, bans) = gathering.into_lists(config.machine().cores())?;
        let clocks = clocks_given(alloc, given.passes.as_slice())?;
        Ok(SpanFacts {
            spans,
            bans,
            clocks,
        })
    }
}
