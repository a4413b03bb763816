//! Pages, rings, books and guards of nothing yet.

use crate::attempt::{Tried, answer, begin};
use crate::table_and_trace::TableAndTrace;
use cal_command::open_ring;
use cal_guard::Guard;
use cal_machine::Command;
use cal_policy::Book;
use cal_signal::{Record, open_page, open_watched};
use std::io::Write;

/// A page, and the first record on it.
pub fn page(rt: &HostRuntime) -> Tried<()> {
    begin(rt)?;
    let (mut publisher, mut observer) = answer(rt, open_page(rt.alloc()))?;
    let place = publisher.publish(Record::ZERO);
    writeln!(&mut rt.stdout(), "{place:?} {:?}", observer.observe())?;
    Ok(())
}

/// A page with a watch, and the first record on it.
pub fn watched(rt: &HostRuntime) -> Tried<()> {
    begin(rt)?;
    let (mut publisher, mut observer, mut watcher) = answer(rt, open_watched(rt.alloc()))?;
    let place = publisher.publish(Record::ZERO);
    let (look, other) = (observer.observe(), watcher.observe());
    writeln!(&mut rt.stdout(), "{place:?} {look:?} {other:?}")?;
    Ok(())
}

/// A ring, and the first command through it.
pub fn ring(rt: &HostRuntime) -> Tried<()> {
    begin(rt)?;
    let (mut sender, mut taker) = answer(rt, open_ring(rt.alloc()))?;
    if sender.room() {
        sender.send(Command::Park);
    }
    writeln!(&mut rt.stdout(), "{:?}", taker.take())?;
    Ok(())
}

/// A book of no history.
pub fn book(rt: &HostRuntime, given: &TableAndTrace) -> Tried<()> {
    begin(rt)?;
    answer(rt, Book::open(rt.alloc(), &given.config))?;
    writeln!(&mut rt.stdout(), "a book")?;
    Ok(())
}

/// A guard of no history.
pub fn guard(rt: &HostRuntime, given: &TableAndTrace) -> Tried<()> {
    begin(rt)?;
    answer(rt, Guard::open(rt.alloc(), &given.config))?;
    writeln!(&mut rt.stdout(), "a guard")?;
    Ok(())
}
