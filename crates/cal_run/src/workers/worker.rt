//! A kernel thread with the turns that it is given.

ghost use Rattle.std.specs.Prelude.{◌≡◌, ◌+◌, ◌<◌, ◌≤◌, ◌++◌, length, IfOk, IfSome};
ghost use Rattle.std.specs.Prelude.{nat_lt, slice_index};
ghost use Rattle.cal_machine.specs.CoreSet.{has};
ghost use Rattle.cal_kthread.specs.Turn.OnCores.{turned_on, work_in_turn};
ghost use Rattle.cal_kthread.specs.Turn.{Answers, AreAnswers};
ghost use Rattle.cal_signal.specs.Pages.{last_published};
ghost use Rattle.cal_signal.specs.Records.{IsShaped};
ghost use Rattle.cal_kthread.specs.Turn.Entries.{entries_of, work};
ghost use Rattle.cal_trace.specs.Arrivals.FitsTable.{ComesBefore, EachLater};
ghost use Rattle.cal_trace.specs.History.Ranges.{Each};
ghost use Rattle.cal_run.specs.Workers.GivenTurns.{request_at};
ghost use Rattle.cal_trace.specs.declared.arrivals.Arrival.{Arrival};
ghost use Rattle.cal_run.specs.Workers.{FitSomeTable, HasMade, IsNext, MadeNoTurn, seat_of};

use cal_kthread::laws::{one_turn_more, turns_add_up};
use cal_kthread::{BareThread, Request, TurnEntries};
use cal_machine::CoreSet;
use cal_trace::{Arrival, Arrivals};
use std::alloc::AllocError;

/// A kernel thread that makes the turns that it is given. It may be moved to a thread of its own;
/// no call of it waits.
#[derive(Drop)]
pub struct Worker {
    /// The thread.
    pub thread: BareThread,
    /// Its number.
    pub(crate) number: u8,
    /// The place of the next request that comes to it, among all requests.
    pub(crate) next: usize,
}

impl Worker {
    /// A kernel thread of this number that made no turn yet.
    pub fn new(thread: BareThread, number: u8, arrivals: &Arrivals) -> Worker
        requires fits { FitSomeTable arrivals.now }
        requires fresh { MadeNoTurn thread }
        ensures thread { result.thread ≡ thread }
        ensures made { HasMade arrivals.now number 0 result }
    {
        Worker {
            thread,
            number,
            next: first_for(arrivals.requests.as_slice(), number),
        }
    }

    /// Its turn `j`, with the clock that is given for it and the request that comes to the thread
    /// before it, if one does. Gives what the turn adds to the thread's journal. Asks that the turns
    /// before were made. Fails only when out of memory. (Inlined, so that what a caller does not read
    /// of the answer is not made.)
    #[inline(always)]
    pub fn turn(&mut self, arrivals: &Arrivals, j: usize) -> Result<TurnEntries, AllocError>
        requires fits { FitSomeTable arrivals.now }
        requires given { j < length arrivals.now.turns }
        requires made { HasMade arrivals.now self.old.number j self.old }
        ensures made { IfOk result (λ _. HasMade arrivals.now self.old.number (j + 1) self.new) }
        ensures handed { IfOk result (λ entries.
            self.new.thread.journal ≡ self.old.thread.journal ++ entries_of entries) }
        ensures seat { seat_of self.new.thread ≡ seat_of self.old.thread }
    {
        one_turn_more();
        turns_add_up();
        let now = arrivals.turns.as_slice()[j];
        let requests = arrivals.requests.as_slice();
        let (request, next) = coming(requests, self.number, j, self.next);
        let entries = self.thread.turn(now, request)?;
        self.next = next;
        Ok(entries)
    }

    /// Its turn `j`, as `turn`, of a thread that works on these cores only: where it is on another
    /// one after its command is taken, it is a turn without work.
    #[inline(always)]
    pub fn turn_on(
        &mut self,
        arrivals: &Arrivals,
        j: usize,
        works: CoreSet,
    ) -> Result<TurnEntries, AllocError>
        requires fits { FitSomeTable arrivals.now }
        requires given { j < length arrivals.now.turns }
        requires made { HasMade arrivals.now self.old.number j self.old }
        ensures made { IfOk result (λ _. HasMade arrivals.now self.old.number (j + 1) self.new) }
        ensures turned { IfOk result (λ entries. let now = slice_index arrivals.now.turns j in
            let request = request_at arrivals.now.requests self.old.number j in
            (answers : Answers) × AreAnswers answers self.old.thread
            × (self.new.thread ≡ turned_on (has works) now request answers self.old.thread)
            × (work entries ≡ work_in_turn (has works) now request answers self.old.thread)) }
        ensures shows { IfOk result (λ entries. entries.published.shown
            ≡ last_published self.new.thread.thread.publisher.published) }
        ensures shaped { IfOk result (λ entries. IsShaped entries.published.shown) }
        ensures handed { IfOk result (λ entries.
            self.new.thread.journal ≡ self.old.thread.journal ++ entries_of entries) }
        ensures seat { seat_of self.new.thread ≡ seat_of self.old.thread }
    {
        one_turn_more();
        turns_add_up();
        let now = arrivals.turns.as_slice()[j];
        let requests = arrivals.requests.as_slice();
        let (request, next) = coming(requests, self.number, j, self.next);
        let entries = self.thread.turn_on(now, request, works)?;
        self.next = next;
        Ok(entries)
    }
}

/// The place of the first request for thread `k`, or for one after it.
fn first_for(requests: &[Arrival], k: u8) -> usize
    requires rising { EachLater ComesBefore requests.now }
    ensures { IsNext requests.now k 0 result }
{
    requests.partition_point(
        |arrival: &Arrival| -> bool
            ensures { result ≡ nat_lt arrival.now.thread k }
        { arrival.thread < k },
    )
}

/// The request that comes to thread `k` before its turn `j`, if one does, and the place of the next
/// one after it; `next` is the place of the next one before it.
fn coming(requests: &[Arrival], k: u8, j: usize, next: usize) -> (Option<Request>, usize)
    requires next { IsNext requests.now k j next }
    requires rising { EachLater ComesBefore requests.now }
    requires work { Each (λ (a : Arrival). 1 ≤ a.request.work) requests.now }
    ensures request { result.0 ≡ request_at requests.now k j }
    ensures next { IsNext requests.now k (j + 1) result.1 }
    ensures work { IfSome result.0 (λ request. 1 ≤ request.work) }
{
    if next >= requests.len() {
        return (None, next);
    }
    let arrival = requests[next];
    if arrival.thread != k || arrival.turn != j as u64 {
        return (None, next);
    }
    (Some(arrival.request), next + 1)
}
