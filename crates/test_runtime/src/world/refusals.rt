//! Which event a world refuses, and why.

use super::*;
use crate::one_thread::ONE_THREAD;
use crate::same::assert_same;
use cal_machine::Config;
use std::process::Abort;
use std::test::Fail;

/// A new world answers these events so, one after the other.
fn assert_answers<R: Abort + AllocGlobal>(
    rt: &R,
    rows: &[(Event, Result<(), Illegal>)],
) -> Result<(), Fail> {
    let config = Config::read(rt.alloc(), ONE_THREAD)?;
    let mut world = World::start(rt.alloc(), &config)?;
    for (at, (event, meant)) in rows.iter().enumerate() {
        assert_same(rt, (at, world.step(event)), (at, *meant));
    }
    Ok(())
}

/// Of a world in which nothing happened.
#[test]
fn world_refusals(rt: HostRuntime) -> Result<(), Fail> {
    let rows = [
        (Event::Take(0), Err(Illegal::NothingSent)),
        (Event::Yield(0), Err(Illegal::NotOn)),
        (Event::Read(0, 0), Ok(())),
    ];
    assert_answers(&rt, &rows)
}

/// Each other refusal once, up to the Take of what was sent.
#[test]
fn refusals_up_to_a_take(rt: HostRuntime) -> Result<(), Fail> {
    let taken = Record {
        taken: 1,
        ..WAITING
    };
    let (empty, other) = (decide(rt.alloc(), &[])?, decide(rt.alloc(), &[])?);
    let granting = decide(rt.alloc(), &[GRANT])?;
    let rows = [
        (Event::Watch(1, 0), Err(Illegal::NoThread)),
        (empty, Err(Illegal::OutOfTurn)),
        (Event::Publish(0, taken), Err(Illegal::NotItsState)),
        (Event::Publish(0, WAITING), Ok(())),
        (Event::Skip(0, SEEN), Err(Illegal::OutOfTurn)),
        (Event::Read(0, 2), Err(Illegal::NoSuchPlace)),
        (Event::Read(0, 1), Ok(())),
        (Event::Read(0, 1), Err(Illegal::OutOfTurn)),
        (other, Err(Illegal::NotThePass)),
        (granting, Ok(())),
        (Event::Take(0), Ok(())),
    ];
    assert_answers(&rt, &rows)
}

/// The watch's floor is not the scheduler's.
#[test]
fn watch_floor(rt: HostRuntime) -> Result<(), Fail> {
    let rows = [
        (Event::Publish(0, WAITING), Ok(())),
        (Event::Watch(0, 1), Ok(())),
        (Event::Watch(0, 0), Err(Illegal::NoSuchPlace)),
        (Event::Read(0, 0), Ok(())),
    ];
    assert_answers(&rt, &rows)
}
