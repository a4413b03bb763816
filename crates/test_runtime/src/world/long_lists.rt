//! A long list of events: a world that gives up on it is refused here (`gives_up_after_16_events`),
//! where no clause tells it from one for which memory was refused.

use super::*;
use crate::one_thread::ONE_THREAD;
use cal_machine::Config;
use cal_world::{Stopped, run_events};
use std::test::Fail;

/// So many records, each published and then watched, and a last look of the watch at this place.
fn published_and_watched(alloc: Global, records: u16, last: u64) -> Result<Vec<Event>, AllocError> {
    let mut events = Vec::new(alloc);
    for before in 0..records {
        let place = u64::from(before) + 1;
        let shown = Record {
            stamp: place,
            ..IDLE
        };
        events.push(Event::Publish(0, shown))?;
        events.push(Event::Watch(0, place))?;
    }
    events.push(Event::Watch(0, last))?;
    Ok(events)
}

/// Where a new world is stopped by those events of 1,000 records, and why, if it is.
fn stopped_by(alloc: Global, last: u64) -> Result<Option<Stopped>, Fail> {
    let config = Config::read(alloc, ONE_THREAD)?;
    let events = published_and_watched(alloc, 1_000, last)?;
    Ok(run_events(alloc, &config, events.as_slice()).err())
}

#[test]
fn two_thousand_events(rt: HostRuntime) -> Result<(), Fail> {
    assert_eq!(rt; stopped_by(rt.alloc(), 1_000)?, None);
    let (at, why) = (2_000, Illegal::NoSuchPlace);
    assert_eq!(rt; stopped_by(rt.alloc(), 1_001)?, Some(Stopped { at, why }));
    Ok(())
}
