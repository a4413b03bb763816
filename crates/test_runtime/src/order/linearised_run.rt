//! `linearise` puts the worked run in order, and a world accepts the list, but not the Take before
//! what it takes was sent.
ghost use Rattle.std.specs.Prelude.{◌≡◌, ◌∷◌, [], IfOk, IsTrue};
ghost use Rattle.cal_linear.specs.Runs.{AreOfOneRun};
ghost use Rattle.test_runtime.specs.WorkedRow.{passes as worked_passes};
ghost use Rattle.test_runtime.specs.WorkedRow.{journal as worked_journal};

use super::worked_run::{at_work, journal, passes, served, waiting};
use crate::one_thread::{ONE_THREAD, grant};
use crate::same::assert_same;
use cal_linear::linearise;
use cal_machine::Config;
use cal_policy::{Action, PassEntry, Verdict, audit};
use cal_signal::Record;
use cal_world::{Event, Illegal, Stopped, run_events};
use std::alloc::{AllocError, Global};
use std::process::Abort;
use std::test::Fail;

/// Whether the table has one thread, and the passes are legal there.
#[tactic(auto, using(crate::proofs::WorkedRow::row_is_run))]
fn is_run(alloc: Global, config: &Config, history: &[PassEntry]) -> Result<bool, AllocError>
    requires { history.now ≡ worked_passes }
    ensures run { IfOk result (λ yes. IsTrue yes
        → AreOfOneRun config.now worked_passes (worked_journal ∷ [])) }
{
    if config.threads() != 1 {
        return Ok(false);
    }
    match audit(alloc, config, history)? {
        Verdict::Legal => Ok(true),
        Verdict::Illegal { .. } => Ok(false),
    }
}

/// The events of the run.
#[tactic(auto, using(crate::proofs::WorkedRow::none_watched))]
fn events(alloc: Global, config: &Config) -> Result<Vec<Event>, Fail> {
    let history = passes(alloc)?;
    let journals = [journal(alloc)?];
    if !is_run(alloc, config, &history)? {
        return Err(Fail::new("the passes are not legal"));
    }
    Ok(linearise(alloc, config, &history, &journals, &[])?)
}

/// An event of the one thread in short: its kind, its place or its clock, its record, and the first
/// action of a pass.
type Line = (&'static str, u64, Option<Record>, Option<Action>);

fn line(event: &Event) -> Line {
    match event {
        Event::Take(_) => ("take", 0, None, None),
        Event::Yield(_) => ("yield", 0, None, None),
        Event::Publish(_, rec) => ("publish", 0, Some(*rec), None),
        Event::Read(_, place) => ("read", *place, None, None),
        Event::Skip(_, _) => ("skip", 0, None, None),
        Event::Decide(entry) => {
            let action = entry.actions.as_slice().first().copied();
            ("decide", entry.input.now, None, action)
        }
        Event::Watch(_, place) => ("watch", *place, None, None),
    }
}

fn lines(alloc: Global, events: &[Event]) -> Result<Vec<Line>, AllocError> {
    let mut lines = Vec::new(alloc);
    for event in events {
        lines.push(line(event))?;
    }
    Ok(lines)
}

/// The core of the thread after these events, or where and why they are refused.
fn core_after(alloc: Global, config: &Config, events: &[Event]) -> Result<Option<u8>, Stopped> {
    let world = run_events(alloc, config, events)?;
    Ok(world.running(0))
}

/// The same events, the fourth one first.
fn fourth_first(events: Vec<Event>) -> Result<Vec<Event>, Fail> {
    let mut events = events;
    if events.len() < 4 {
        return Err(Fail::new("there are not four events"));
    }
    let fourth = events.remove(3);
    events.insert(0, fourth)?;
    Ok(events)
}

/// The order that was meant.
fn wanted() -> [Line; 8] {
    [
        ("publish", 0, Some(waiting()), None),
        ("read", 1, None, None),
        ("decide", 111, None, grant(0, 0, 3)),
        ("take", 0, None, None),
        ("publish", 0, Some(at_work()), None),
        ("read", 2, None, None),
        ("decide", 130, None, None),
        ("publish", 0, Some(served()), None),
    ]
}

/// The events are listed in that order.
fn assert_in_order<R: Abort + AllocGlobal>(rt: &R, listed: &[Event]) -> Result<(), Fail> {
    let lines = lines(rt.alloc(), listed)?;
    assert_same(rt, lines.as_slice(), wanted().as_slice());
    Ok(())
}

/// Whether two passes were given the same and did the same.
fn is_same_pass(one: &PassEntry, other: &PassEntry) -> bool {
    let (given, wanted) = (&one.input, &other.input);
    (given.now, given.bandwidth) == (wanted.now, wanted.bandwidth)
        && given.seen.as_slice() == wanted.seen.as_slice()
        && given.rooms.as_slice() == wanted.rooms.as_slice()
        && one.actions.as_slice() == other.actions.as_slice()
}

/// Whether the passes in the list are those of the history, each whole.
fn are_passes(listed: &[Event], history: &[PassEntry]) -> bool {
    let mut left = history.iter();
    for event in listed {
        if let Event::Decide(entry) = event {
            match left.next() {
                Some(meant) if is_same_pass(entry, meant) => {}
                _ => return false,
            }
        }
    }
    left.next().is_none()
}

#[test]
fn linearised_run(rt: HostRuntime) -> Result<(), Fail> {
    let config = Config::read(rt.alloc(), ONE_THREAD)?;
    let listed = events(rt.alloc(), &config)?;
    assert_in_order(&rt, &listed)?;
    let history = passes(rt.alloc())?;
    assert!(rt; are_passes(&listed, &history));
    assert_same(&rt, core_after(rt.alloc(), &config, &listed), Ok(Some(0)));
    let refused = Stopped {
        at: 0,
        why: Illegal::NothingSent,
    };
    let moved = fourth_first(listed)?;
    assert_same(&rt, core_after(rt.alloc(), &config, &moved), Err(refused));
    Ok(())
}
