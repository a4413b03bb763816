//! What no clause says: that pages open, that looks succeed, and threads that meet over a page.
ghost use Rattle.std.specs.Prelude.{◌≡◌};

mod rows;

use crate::same::assert_same;
use cal_signal::{
    Look, Observer, OpenLook, OpenPage, PublishFault, Publisher, Record, close_page, close_watched,
    look_open, open_page, open_watched, read_back,
};
use std::alloc::{AllocError, Global};
use std::sync::Wait;
use std::test::Fail;
use std::thread::{Threads, join};

fn record(misses: u64, stamp: u64) -> Record {
    Record {
        misses,
        stamp,
        ..Record::ZERO
    }
}

/// Loads that many words, at most all nine.
fn load(mut look: OpenLook, count: u8) -> OpenLook {
    for _ in 0..count {
        if look.loaded() < 9 {
            look.load_next();
        }
    }
    look
}

/// Stores that many words, at most all nine.
fn store(mut page: OpenPage, count: u8) -> OpenPage
    ensures { result.page ≡ page.page }
{
    for _ in 0..count {
        if page.stored() < 9 {
            page.store_next();
        }
    }
    page
}

/// The look that finds this record at this place.
fn whole(number: u64, rec: Record) -> Look {
    Look::Whole { number, rec }
}

/// The look that finds these two versions.
fn busy(first: u64, second: u64) -> Look {
    Look::Busy { first, second }
}

/// Whether the record is published at this place.
fn publishes(publisher: &mut Publisher, place: u64, rec: Record) -> bool
    ensures { publisher.new.page ≡ publisher.old.page }
{
    publisher.publish(rec) == Ok(place)
}

/// What a look finds.
fn found(observer: &mut Observer) -> Look
    ensures { observer.new.page ≡ observer.old.page }
{
    observer.observe()
}

#[test]
fn half_written_page(rt: HostRuntime) -> Result<(), Fail> {
    let (publisher, mut observer) = open_page(rt.alloc())?;
    let Ok(page) = publisher.begin(record(5, 10)) else {
        panic!(rt; "the record was refused")
    };
    let page = store(page, 3);
    assert_same(&rt, found(&mut observer), busy(1, 1));
    assert_same(&rt, observer.floor(), 0);
    let (page, observer, look) = look_open(page, observer);
    assert_same(&rt, look, busy(1, 1));
    let Err((look, mut observer)) = observer.start() else {
        panic!(rt; "an even version")
    };
    assert_same(&rt, look, busy(1, 1));
    let page = store(page, 6);
    assert!(rt; page.stored() == 9);
    let publisher = page.finish();
    assert_same(&rt, found(&mut observer), whole(1, record(5, 10)));
    let end = close_page(publisher, observer);
    assert!(rt; end.published == 1 && end.seen == 1);
    Ok(())
}

/// The record at a place of the pages below: each word tells the place.
fn record_at(place: u64) -> Record {
    if place == 0 || place > 1000 {
        return Record::ZERO;
    }
    Record {
        taken: place,
        running: place % 129,
        queued: place + 1,
        oldest: place + 2,
        started: place + 3,
        misses: place,
        stamp: place,
        paused: place + 4,
        since: place + 5,
    }
}

fn publish_all(mut publisher: Publisher) -> Publisher
    ensures { result.page ≡ publisher.page }
{
    for place in 1..1001 {
        let _ = publisher.publish(record_at(place));
    }
    publisher
}

/// An observer, and what it found.
#[derive(Drop)]
struct Looked {
    observer: Observer,
    looks: Vec<Look>,
}

fn observe_all(mut observer: Observer, mut looks: Vec<Look>) -> Looked
    ensures { result.observer.page ≡ observer.page }
{
    for _ in 0..1000 {
        let _ = looks.push(observer.observe());
    }
    Looked { observer, looks }
}

/// Whether there are 1,000 looks, each Whole one is the record of its place, and places never fall.
fn all_fit(looks: &[Look]) -> bool {
    let mut floor = 0;
    for look in looks {
        match look {
            Look::Whole { number, rec } => {
                if *number < floor || *rec != record_at(*number) {
                    return false;
                }
                floor = *number;
            }
            Look::Busy { first, second } => {
                let pair = if *first % 2 == 1 {
                    *second == *first
                } else {
                    *second > *first
                };
                if !pair {
                    return false;
                }
            }
        }
    }
    looks.len() == 1000
}

/// Both observe at the same time.
fn observe_both<H: Threads + Wait + Sync>(
    rt: &H,
    first: (Observer, Vec<Look>),
    second: (Observer, Vec<Look>),
) -> (Looked, Looked)
    ensures first { result.0.observer.page ≡ first.0.page }
    ensures second { result.1.observer.page ≡ second.0.page }
{
    let ((first, looks), (second, more)) = (first, second);
    join(
        rt,
        move || -> Looked
            ensures { result.observer.page ≡ first.page }
        { observe_all(first, looks) },
        move || -> Looked
            ensures { result.observer.page ≡ second.page }
        { observe_all(second, more) },
    )
}

#[test]
fn publisher_beside_two_observers(rt: HostRuntime) -> Result<(), Fail> {
    let (publisher, observer, watcher) = open_watched(rt.alloc())?;
    let looks = Vec::with_capacity(rt.alloc(), 1000)?;
    let more = Vec::with_capacity(rt.alloc(), 1000)?;
    let host = &rt;
    let (publisher, (seen, watched)) = join(
        host,
        move || -> Publisher
            ensures { result.page ≡ publisher.page }
        { publish_all(publisher) },
        move || -> (Looked, Looked)
            ensures { (result.0.observer.page ≡ observer.page)
                × (result.1.observer.page ≡ watcher.page) }
        { observe_both(host, (observer, looks), (watcher, more)) },
    );
    assert!(rt; all_fit(&seen.looks) && all_fit(&watched.looks));
    let (publisher, watcher, last) = read_back(publisher, watched.observer);
    assert!(rt; last == record_at(1000));
    let end = close_watched(publisher, watcher, seen.observer);
    assert!(rt; end.published == 1000 && end.first == 1000);
    Ok(())
}

// With `look_gives_opening_record` or `look_always_busy`, where they load and forget what they
// loaded, no look finds the record that was published.
#[test]
fn second_observer_sees_what_the_first_sees(rt: HostRuntime) -> Result<(), Fail> {
    let (mut publisher, mut observer, mut watcher) = open_watched(rt.alloc())?;
    assert_same(&rt, found(&mut watcher), whole(0, Record::ZERO));
    assert!(rt; publishes(&mut publisher, 1, record(5, 10)));
    assert_same(&rt, found(&mut watcher), whole(1, record(5, 10)));
    assert!(rt; publishes(&mut publisher, 2, record(6, 20)));
    assert!(rt; publishes(&mut publisher, 3, record(7, 30)));
    assert_same(&rt, found(&mut observer), whole(3, record(7, 30)));
    let end = close_watched(publisher, observer, watcher);
    assert!(rt; end.published == 3 && end.first == 3 && end.second == 1);
    Ok(())
}

/// Whether the fault has this number and this text.
fn is(alloc: Global, fault: PublishFault, number: u8, text: &str) -> Result<bool, AllocError> {
    let said = format!(in alloc; "{fault}")?;
    Ok(fault as u8 == number && said.as_str() == text)
}

#[test]
fn fault_numbers_and_texts(rt: HostRuntime) -> Result<(), Fail> {
    let rows = [
        (
            PublishFault::Backwards,
            1,
            "the record is not later than the last one",
        ),
        (
            PublishFault::BadShape,
            2,
            "the record has not the right shape",
        ),
        (PublishFault::Exhausted, 3, "the page has no place left"),
    ];
    for (fault, number, text) in rows {
        assert!(rt; is(rt.alloc(), fault, number, text)?, "{text}");
    }
    Ok(())
}
