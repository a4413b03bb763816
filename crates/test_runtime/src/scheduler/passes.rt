//! Passes over one bare page and ring.

use super::bare;
use crate::one_thread::{Did, ONE_THREAD, does, first_passes, grant, record, seen};
use crate::same::assert_same;
use cal_command::{Command, Taker};
use cal_machine::Config;
use cal_policy::{Action, PassEntry, Record, Seen, orderly};
use cal_sched::Scheduler;
use cal_signal::Publisher;
use cal_trace::write_report;
use std::alloc::{AllocError, Global};
use std::process::Abort;
use std::test::Fail;

const FREE: Option<Action> = Some(Action::Free { core: 0 });

/// The record at place `n`, 1 to 6: it acknowledges `n - 1` commands, though its thread took none.
fn false_record(n: u64) -> Record {
    let stamp = match n {
        1 => 100,
        6 => 120,
        _ => 108_u64.saturating_add(n.saturating_mul(2)),
    };
    record([n.saturating_sub(1), 0, 1, 100, 0, 0, stamp, 0, 0])
}

/// Publishes the record at this place, and makes a pass. False where one of them is refused.
fn shown_and_passed(
    scheduler: &mut Scheduler,
    publisher: &mut Publisher,
    place: u64,
    now: u64,
) -> bool {
    publisher.publish(false_record(place)) == Ok(place) && scheduler.pass(now, 0) == Ok(())
}

/// Six records, and a pass after each. False where one of them is refused.
fn all_shown(scheduler: &mut Scheduler, publisher: &mut Publisher) -> bool {
    for place in 1..7 {
        if !shown_and_passed(scheduler, publisher, place, 109 + 2 * place) {
            return false;
        }
    }
    true
}

/// What each pass saw of the thread.
fn all_seen(alloc: Global, history: &[PassEntry]) -> Result<Vec<Option<Seen>>, AllocError> {
    let mut looks = Vec::new(alloc);
    for entry in history {
        looks.push(seen(entry))?;
    }
    Ok(looks)
}

/// What they are to see: the last record is ahead of what was sent, until one more was.
fn wanted_looks() -> [Option<Seen>; 8] {
    let whole = |number: u64| {
        let rec = false_record(number);
        Some(Seen::Whole { number, rec })
    };
    let rec = false_record(6);
    let ahead = Some(Seen::Ahead { number: 6, rec });
    [
        whole(1),
        whole(2),
        whole(3),
        whole(4),
        whole(5),
        ahead,
        ahead,
        whole(6),
    ]
}

/// What they are to do: the ring is full after four Runs, and after the fifth.
fn wanted_passes() -> [Did; 8] {
    let again = does(FREE, grant(0, 0, 2));
    [
        does(grant(0, 0, 3), None),
        again,
        again,
        again,
        does(FREE, None),
        does(None, None),
        does(grant(0, 0, 2), None),
        does(FREE, None),
    ]
}

/// The passes saw and did what is meant.
fn assert_meant<R: Abort + AllocGlobal>(rt: &R, history: &[PassEntry]) -> Result<(), Fail> {
    let looks = all_seen(rt.alloc(), history)?;
    assert_same(rt, looks.as_slice(), wanted_looks().as_slice());
    let passes = first_passes(rt.alloc(), history, 9)?;
    assert_same(rt, passes.as_slice(), wanted_passes().as_slice());
    Ok(())
}

/// What a thread acknowledges that was sent is believed, until its ring is full and it acknowledges
/// a command that was not.
#[test]
fn false_records(rt: HostRuntime) -> Result<(), Fail> {
    let (mut scheduler, mut publisher, mut taker) = bare(rt.alloc())?;
    assert!(rt; all_shown(&mut scheduler, &mut publisher));
    assert_same(&rt, taker.take(), Some((1, Command::Run(0))));
    assert!(rt; scheduler.pass(123, 0) == Ok(()) && scheduler.pass(125, 0) == Ok(()));
    assert_meant(&rt, scheduler.history())
}

/// Copies of these passes.
fn copies_of(alloc: Global, history: &[PassEntry]) -> Result<Vec<PassEntry>, AllocError> {
    let mut copies = Vec::new(alloc);
    for entry in history {
        copies.push(entry.copy(alloc)?)?;
    }
    Ok(copies)
}

/// Whether the next commands on the ring are Runs of core 0, of these numbers.
fn takes_runs(taker: &mut Taker, first: u64, end: u64) -> bool {
    for number in first..end {
        if taker.take() != Some((number, Command::Run(0))) {
            return false;
        }
    }
    true
}

/// A scheduler that lets go of the list of its passes goes on where it was: it has made six, and
/// its next two are the worked ones. The Runs of passes 1 to 4 and of pass 7 are on its ring.
#[test]
fn goes_on_without_its_history(rt: HostRuntime) -> Result<(), Fail> {
    let (mut scheduler, mut publisher, mut taker) = bare(rt.alloc())?;
    assert!(rt; all_shown(&mut scheduler, &mut publisher));
    assert_same(&rt, taker.take(), Some((1, Command::Run(0))));
    let mut history = copies_of(rt.alloc(), scheduler.history())?;
    let mut scheduler = scheduler.bare();
    assert_same(&rt, scheduler.passes(), 6);
    for now in [123, 125] {
        let Ok(entry) = scheduler.pass(now, 0) else {
            return Err(Fail::new("a pass was refused"));
        };
        history.push(entry)?;
    }
    assert_same(&rt, scheduler.passes(), 8);
    assert_meant(&rt, history.as_slice())?;
    assert!(rt; takes_runs(&mut taker, 2, 6));
    assert_same(&rt, taker.take(), None);
    Ok(())
}

/// So many passes, with clocks from 0. False where one is refused.
fn pass_often(scheduler: &mut Scheduler, passes: u64) -> bool {
    for now in 0..passes {
        if scheduler.pass(now, 0) != Ok(()) {
            return false;
        }
    }
    true
}

/// The report of that many passes that found the page busy.
fn busy_report(alloc: Global, passes: u64) -> Result<String, AllocError> {
    let mut text = String::new(alloc);
    for pass in 0..passes {
        writeln!(text, "pass {pass} now {pass} bandwidth 0\n  kept 0 busy")?;
    }
    writeln!(text, "end {passes} passes\ntask 0 lc held 0 leaving 0")?;
    Ok(text)
}

/// The report of a history of the one thread.
fn report_of<R: Abort + AllocGlobal>(rt: &R, history: &[PassEntry]) -> Result<Vec<u8>, Fail> {
    let config = Config::read(rt.alloc(), ONE_THREAD)?;
    assert!(rt; orderly(&config, history));
    let mut text = Vec::new(rt.alloc());
    write_report(&config, history, &mut text)?;
    Ok(text)
}

/// Each pass found the page busy, with the odd version twice, and the report says so.
fn assert_busy<R: Abort + AllocGlobal>(rt: &R, history: &[PassEntry]) -> Result<(), Fail> {
    let (first, second) = (1, 1);
    for entry in history {
        assert_same(rt, seen(entry), Some(Seen::Busy { first, second }));
    }
    let report = report_of(rt, history)?;
    assert_same(
        rt,
        report.as_slice(),
        busy_report(rt.alloc(), 100)?.as_bytes(),
    );
    Ok(())
}

/// Each of a hundred passes over an open page finds it busy, with the odd version twice, and does
/// nothing, as the report says.
#[test]
fn open_page_is_busy(rt: HostRuntime) -> Result<(), Fail> {
    let (mut scheduler, publisher, _taker) = bare(rt.alloc())?;
    let Ok(_page) = publisher.begin(false_record(1)) else {
        return Err(Fail::new("the record was refused"));
    };
    assert!(rt; pass_often(&mut scheduler, 100));
    assert_busy(&rt, scheduler.history())
}
