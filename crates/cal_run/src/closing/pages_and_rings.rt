//! The pages and rings of a run are closed.

ghost use Rattle.std.specs.Prelude.{◌≡◌, IfOk, length, map};
ghost use Rattle.cal_kthread.specs.End.HandingOut.{run_of};
ghost use Rattle.cal_kthread.specs.Team.{IsTeam};
ghost use Rattle.cal_machine.specs.Tasks.{threads_in};
ghost use Rattle.cal_run.specs.Closing.{AreClosed, AreOtherEnds, HaveClosed, IsClosed};
ghost use Rattle.cal_run.specs.Closing.{pages_of_runs, rings_of_runs};
ghost use Rattle.cal_run.specs.Workers.{Seat, journals_of, pages_of_seats, rings_of_seats};
ghost use Rattle.cal_run.specs.Workers.{seats_of};

use crate::closing::thread_ends::{end_each, settle_and_hand_out};
use crate::workers::worker::Worker;
use cal_command::{Sender, close_ring};
use cal_kthread::{BareThreadEnd, RequestList, ThreadEnd};
use cal_machine::Config;
use cal_signal::{Observer, close_watched};
use std::alloc::{AllocError, Global};

/// Ends each thread, hands out what was left with them, and closes each page and ring. Asks for the
/// threads of one team and the other ends of each. Gives what each had left, in thread order.
pub fn close_threads(
    alloc: Global,
    config: &Config,
    workers: Vec<Worker>,
    observers: Vec<Observer>,
    watchers: Vec<Observer>,
    senders: Vec<Sender>,
) -> Result<Vec<RequestList>, AllocError>
    requires count { length workers.items ≡ threads_in config.now.tasks }
    requires team { IsTeam (map (λ (s : Seat). s.place) (seats_of workers.items)) }
    requires others { let seats = seats_of workers.items in
        AreOtherEnds (pages_of_seats seats) (rings_of_seats seats)
        observers.items watchers.items senders.items }
    ensures { IfOk result (λ left.
        HaveClosed workers.items observers.items watchers.items senders.items
        (journals_of workers.items) left.items) }
{
    let mut ends = end_each(alloc, workers)?;
    let left = settle_and_hand_out(alloc, config, ends.as_mut_slice())?;
    close_each(ends, observers, watchers, senders);
    Ok(left)
}

/// Closes the page and the ring of each thread. Asks for the other ends of each, in thread order
/// too.
pub(crate) fn close_each(
    ends: Vec<BareThreadEnd>,
    observers: Vec<Observer>,
    watchers: Vec<Observer>,
    senders: Vec<Sender>,
)
    requires { let runs = map run_of ends.items in
        AreOtherEnds (pages_of_runs runs) (rings_of_runs runs)
        observers.items watchers.items senders.items }
    ensures { AreClosed (map run_of ends.items) observers.items watchers.items senders.items }
{
    let mut observers = observers.into_iter();
    let mut watchers = watchers.into_iter();
    let mut senders = senders.into_iter();
    for end in ends {
        let Some(observer) = observers.next() else {
            unreachable!();
        };
        let Some(watcher) = watchers.next() else {
            unreachable!();
        };
        let Some(sender) = senders.next() else {
            unreachable!();
        };
        close_one(end, observer, watcher, sender);
    }
}

/// Closes the page and the ring of one thread.
fn close_one(end: BareThreadEnd, observer: Observer, watcher: Observer, sender: Sender)
    requires observed { end.publisher.page ≡ observer.page }
    requires watched { end.publisher.page ≡ watcher.page }
    requires ring { sender.ring ≡ end.taker.ring }
    ensures { IsClosed (run_of end) observer watcher sender }
{
    let ThreadEnd {
        publisher,
        taker,
        ..
    } = end;
    close_watched(publisher, observer, watcher);
    close_ring(sender, taker);
}
