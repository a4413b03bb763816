//! The facts of a run whose passes are a history's.

ghost use Rattle.std.specs.Prelude.{◌≡◌, ◌≢◌, IfErr, IfOk};
ghost use Rattle.cal_facts.specs.Replayed.{IsReplayedHistory, IsReplayedRequests, IsReplayedRows};
ghost use Rattle.cal_facts.specs.Replayed.{IsReplayedText, IsReplayedTurns};
ghost use Rattle.cal_facts.specs.Series.{series_text};
ghost use Rattle.cal_facts.specs.Stretches.{spans_text};
ghost use Rattle.cal_facts.specs.Telling.{Wrote};
ghost use Rattle.cal_tables.specs.Replayed.{IsReplayOn};
ghost use Rattle.cal_trace.specs.Arrivals.FitsTable.{FitsTable};
ghost use Rattle.cal_trace.specs.History.Ranges.{IsInRange};
ghost use Rattle.cal_trace.specs.History.Reading.{extent_of};

use crate::histories::RunHistory;
use crate::requests::clocks_told;
use crate::requests::collecting::served_of_replay;
use crate::requests::writing::{RunRequests, write_request_rows};
use crate::series::replaying::series_of_history;
use crate::series::writing::write_series_rows;
use crate::spans::facts::SpanFacts;
use crate::spans::writing::write_facts;
use crate::turns::collecting::turns_of_replay;
use crate::turns::writing::write_turn_rows;
use cal_came::counted_requests;
use cal_input::RunFault;
use cal_kthread::TurnEntries;
use cal_machine::Config;
use cal_paced::Plan;
use cal_policy::{Actions, PassEntry};
use cal_run::{Collector, step_given};
use cal_sched::BareScheduler;
use cal_tables::{
    AskedFault, MeasuredInput, ReplayedFault, ReplayedInput, planned_for, read_replayed,
    replayed_by,
};
use cal_trace::Arrivals;
use std::alloc::{AllocError, Global};
use std::io::Write;

/// What takes nothing of a run.
#[derive(Drop)]
struct Nothing {
    /// Room for the actions of a pass.
    actions: Actions,
}

impl Collector for Nothing {
    ghost use Rattle.std.specs.Prelude.{⊤};

    type Fault = AllocError;

    ghost holds = { λ taken history journals. ⊤ };

    ghost suits = { λ taken table. ⊤ };

    fn make_pass(
        &mut self,
        scheduler: &mut BareScheduler,
        arrivals: &Arrivals,
        p: usize,
    ) -> Result<(), AllocError> {
        step_given(scheduler, arrivals, p, &mut self.actions);
        Ok(())
    }

    fn add_turn(&mut self, _k: usize, _entries: &TurnEntries) -> Result<(), AllocError> {
        Ok(())
    }
}

/// Replays a history in a run on these arrivals, by this plan or in lockstep.
fn see_replayed(
    alloc: Global,
    config: &Config,
    plan: Option<Plan>,
    arrivals: Arrivals,
    history: &[PassEntry],
) -> Result<(), ReplayedFault>
    requires fits { FitsTable config.now arrivals }
    requires range { IsInRange (extent_of config.now) history.now }
    ensures { IfOk result (λ _. IsReplayOn plan config.now arrivals history.now) }
{
    let mut given = planned_for(alloc, plan, arrivals)?;
    let actions = Actions::reserved(alloc)?;
    let mut nothing = Nothing { actions };
    replayed_by(alloc, config, plan, &mut given, history, &mut nothing)?;
    Ok(())
}

/// The history of the run that an input asks for, by this plan or in lockstep, on one thread, whose
/// passes are those of a history, whose rows are these.
///
/// The faults are those of the input, then those of the history's rows and of the plan, and then
/// those of the replay.
pub fn replayed_history(
    alloc: Global,
    plan: Option<Plan>,
    input: &[u8],
    history: &[u8],
) -> Result<RunHistory, ReplayedFault>
    ensures replay { IfOk result (IsReplayedHistory plan input.now history.now) }
    ensures range { IfOk result (λ run. IsInRange (extent_of run.config) run.passes.items) }
{
    let read = read_replayed(alloc, input, history)?;
    let ReplayedInput {
        config,
        arrivals,
        history: passes,
    } = read;
    see_replayed(alloc, &config, plan, arrivals, passes.as_slice())?;
    Ok(RunHistory { config, passes })
}

/// Writes the spans and the bans of the run of `replayed_history`, with its faults. Nothing is
/// written before the run was made.
pub fn write_replayed_spans<W: Write>(
    alloc: Global,
    plan: Option<Plan>,
    input: &[u8],
    history: &[u8],
    writer: &mut W,
) -> Result<(), ReplayedFault>
    // The text of the history of a replay was written, and nothing else.
    ensures exact { IfOk result (λ _. Wrote (IsReplayedText plan input.now history.now spans_text)
        (W.contents writer.old) (W.contents writer.new)) }
    ensures untouched { IfErr result (λ fault.
        fault ≢ ReplayedFault.Asked (AskedFault.Run RunFault.Write) → writer.new ≡ writer.old) }
{
    let made = replayed_history(alloc, plan, input, history)?;
    let facts = SpanFacts::of_history(alloc, &made.config, made.passes.as_slice())?;
    match write_facts(&made.config, &facts, writer) {
        Ok(()) => Ok(()),
        Err(_) => Err(ReplayedFault::Asked(AskedFault::Run(RunFault::Write))),
    }
}

/// Writes the series of the run of `replayed_history`, with its faults. Nothing is written before the
/// run was made.
pub fn write_replayed_series<W: Write>(
    alloc: Global,
    plan: Option<Plan>,
    input: &[u8],
    history: &[u8],
    writer: &mut W,
) -> Result<(), ReplayedFault>
    // The text of the history of a replay was written, and nothing else.
    ensures exact { IfOk result (λ _. Wrote (IsReplayedText plan input.now history.now series_text)
        (W.contents writer.old) (W.contents writer.new)) }
    ensures untouched { IfErr result (λ fault.
        fault ≢ ReplayedFault.Asked (AskedFault.Run RunFault.Write) → writer.new ≡ writer.old) }
{
    let made = replayed_history(alloc, plan, input, history)?;
    let points = series_of_history(alloc, &made.config, made.passes.as_slice())?;
    match write_series_rows(&made.config, points.as_slice(), writer) {
        Ok(()) => Ok(()),
        Err(_) => Err(ReplayedFault::Asked(AskedFault::Run(RunFault::Write))),
    }
}

/// Writes the turns at work of the run of `replayed_history`, with its faults. Nothing is written
/// before the run was made.
pub fn write_replayed_turns<W: Write>(
    alloc: Global,
    plan: Option<Plan>,
    input: &[u8],
    history: &[u8],
    writer: &mut W,
) -> Result<(), ReplayedFault>
    // The text of the turns of a replay was written, and nothing else.
    ensures exact { IfOk result (λ _. Wrote (IsReplayedTurns plan input.now history.now)
        (W.contents writer.old) (W.contents writer.new)) }
    ensures untouched { IfErr result (λ fault.
        fault ≢ ReplayedFault.Asked (AskedFault.Run RunFault.Write) → writer.new ≡ writer.old) }
{
    let read = read_replayed(alloc, input, history)?;
    let ReplayedInput {
        config,
        arrivals,
        history: passes,
    } = read;
    let works = turns_of_replay(alloc, &config, plan, arrivals, passes.as_slice())?;
    match write_turn_rows(&config, works.as_slice(), writer) {
        Ok(()) => Ok(()),
        Err(_) => Err(ReplayedFault::Asked(AskedFault::Run(RunFault::Write))),
    }
}

/// Writes what came of each request of the run of `replayed_history`, as `write_requests` does. The
/// faults of `counted_requests` come after those of the history's rows. Nothing is written before the
/// run was made.
pub fn write_replayed_requests<W: Write>(
    alloc: Global,
    asked: MeasuredInput<'_>,
    history: &[u8],
    writer: &mut W,
) -> Result<(), ReplayedFault>
    // The text of the requests of a replay was written, and nothing else.
    ensures exact { IfOk result (λ _. Wrote (IsReplayedRows asked.entry history.now)
        (W.contents writer.old) (W.contents writer.new)) }
    ensures untouched { IfErr result (λ fault.
        fault ≢ ReplayedFault.Asked (AskedFault.Run RunFault.Write) → writer.new ≡ writer.old) }
{
    let made = requests_replayed(alloc, asked, history)?;
    match write_request_rows(&made, writer) {
        Ok(()) => Ok(()),
        Err(_) => Err(ReplayedFault::Asked(AskedFault::Run(RunFault::Write))),
    }
}

/// The run of `replayed_history`, and what it served.
fn requests_replayed(
    alloc: Global,
    asked: MeasuredInput<'_>,
    history: &[u8],
) -> Result<RunRequests, ReplayedFault>
    ensures { IfOk result (IsReplayedRequests asked.entry history.now) }
{
    let read = read_replayed(alloc, asked.bytes, history)?;
    let ReplayedInput {
        config,
        arrivals,
        history: passes,
    } = read;
    let told = counted_requests(alloc, &config, &arrivals, asked.counting)?;
    let came = clocks_told(alloc, &told)?;
    let mut given = planned_for(alloc, asked.plan, arrivals)?;
    let served = served_of_replay(alloc, &config, asked.plan, &mut given, passes.as_slice())?;
    Ok(RunRequests {
        config,
        arrivals: given,
        came,
        served,
    })
}
