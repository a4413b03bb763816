//! The five steps of a turn, the third in two parts. Each answers what it did, if it did anything
//! for which an entry stands in the journal.
ghost use Rattle.std.specs.Prelude.{◌≡◌, ℕ, ◌+◌, ◌<◌, ◌≤◌, min, Option, option_map};
ghost use Rattle.std.specs.Prelude.{Some, None, length, IfSome, MatchResult};
ghost use Rattle.cal_machine.specs.CoreSet.{has};
ghost use Rattle.cal_machine.specs.declared.command.Command.{Command};
ghost use Rattle.cal_signal.specs.Pages.{last_published};
ghost use Rattle.cal_signal.specs.Records.{MayFollow};
ghost use Rattle.cal_signal.specs.declared.publisher.TheConstants.{LAST_PLACE};
ghost use Rattle.cal_signal.specs.declared.record.TheConstants.{MOST_MISSES};
ghost use Rattle.cal_kthread.specs.declared.journal.entry.Entry.TheVariants.{Arrived};
ghost use Rattle.cal_kthread.specs.declared.queue.waiting.Waiting.{Waiting};
ghost use Rattle.cal_kthread.specs.Journal.{core_after as core_of};
ghost use Rattle.cal_kthread.specs.Turn as turn;
ghost use Rattle.cal_kthread.specs.Turn.OnCores.{does_work, misses_on, provided_if};
ghost use Rattle.cal_kthread.specs.Turn.OnCores.{worked_if};
ghost use Rattle.cal_kthread.specs.Turn.Entries.{entry_of_taken, entry_of_theft};
ghost use Rattle.cal_kthread.specs.Turn.Entries.{entry_of_work, entry_of_publication};

use crate::queue::OwnQueue;
use crate::queue::waiting::Waiting;
use crate::turn::current::Current;
use crate::turn::done::{Publication, Taken, Theft, Worked};
use crate::turn::sources::steal_first;
use crate::turn::thread::Thread;
use cal_command::Command;
use cal_machine::{CoreSet, Request};
use cal_signal::{MOST_MISSES, Record, running_word};
use std::alloc::AllocError;

impl Thread {
    /// 1. The request, if there is one, goes to the back of the thread's own queue. An error is
    ///    that the queue had no room for it; then nothing has changed.
    pub(crate) fn arrive(
        &mut self,
        now: u64,
        request: Option<Request>,
    ) -> Result<Option<Request>, AllocError>
        ensures arrived { MatchResult result
            (λ came. (self.new, option_map Arrived came) ≡ turn.arrived now request self.old)
            (λ _. self.new ≡ self.old) }
        ensures apart { (self.new.publisher ≡ self.old.publisher)
            × (self.new.sources ≡ self.old.sources) }
    {
        let Some(request) = request else {
            return Ok(None);
        };
        self.queue.push(Waiting {
            request,
            arrived: now,
        })?;
        Ok(Some(request))
    }

    /// 2. At most one command is taken. A Run puts the thread on its core, a Park takes it off.
    #[inline(always)]
    pub(crate) fn take(&mut self, now: u64) -> Option<Taken>
        ensures taken { (command : Option Command)
            × ((self.new, option_map entry_of_taken result)
            ≡ turn.taken now command self.old) }
        ensures apart { (self.new.publisher ≡ self.old.publisher)
            × (self.new.sources ≡ self.old.sources) }
    {
        let (number, command) = self.taker.take()?;
        let core = core_after(command);
        self.taken = number;
        self.current = current_after(now, core, self.core, self.current);
        self.core = core;
        Some(Taken { number, command })
    }

    /// 3. Work is found: on a core, a thread without a current request takes its front, else the
    ///    first of its own queue, else it tries to steal one.
    pub(crate) fn provide(&mut self, now: u64) -> Option<Theft>
        ensures provided { (own : Option Waiting) × (theft : Option (ℕ × Waiting))
            × IfSome theft (λ place. place.0 < length self.old.sources)
            × ((self.new, option_map entry_of_theft result)
            ≡ turn.provided now own theft self.old) }
        ensures apart { self.new.publisher ≡ self.old.publisher }
    {
        if self.core.is_none() || self.current.is_some() {
            return None;
        }
        if let Some(waiting) = next(&mut self.front, &mut self.queue) {
            self.current = Some(begin(now, waiting));
            return None;
        }
        let (place, waiting) = steal_first(&mut self.sources)?;
        self.current = Some(begin(now, waiting));
        Some(Theft {
            from: self.sources[place].number,
            id: waiting.request.id,
        })
    }

    /// And, still step 3, it is done: on a core, the current request loses one of its work; with no
    /// work left it is served. A thread that found none gives up its core.
    pub(crate) fn work(&mut self) -> Option<Worked>
        ensures worked { (self.new, option_map entry_of_work result) ≡ turn.worked self.old }
        ensures apart { self.new.publisher ≡ self.old.publisher }
    {
        self.core?;
        let Some(current) = self.current else {
            self.core = None;
            return Some(Worked::Yielded);
        };
        self.misses = misses_after(self.misses, current.waiting.request.misses);
        self.current = work_on(current);
        served(current)
    }

    /// Whether the thread, which has taken its command, does step 3 where that is done on these cores.
    pub(crate) fn does_work(&self, works: CoreSet) -> bool
        ensures { result ≡ does_work (has works) self.now.core }
    {
        let Some(core) = self.core else {
            return true;
        };
        works.has(core)
    }

    /// The first part of step 3, where it is done.
    pub(crate) fn provide_if(&mut self, does: bool, now: u64) -> Option<Theft>
        ensures provided { (own : Option Waiting) × (theft : Option (ℕ × Waiting))
            × IfSome theft (λ place. place.0 < length self.old.sources)
            × ((self.new, option_map entry_of_theft result)
            ≡ provided_if does now own theft self.old) }
        ensures apart { self.new.publisher ≡ self.old.publisher }
    {
        if !does {
            return None;
        }
        self.provide(now)
    }

    /// And the second part, where it is done.
    pub(crate) fn work_if(&mut self, does: bool) -> Option<Worked>
        ensures worked { (self.new, option_map entry_of_work result) ≡ worked_if does self.old }
        ensures apart { self.new.publisher ≡ self.old.publisher }
    {
        if !does {
            return None;
        }
        self.work()
    }

    /// 4. Without a front request the thread takes the first of its own queue as its front.
    pub(crate) fn fill_front(&mut self)
        ensures fronted { (answer : Option Waiting) × (self.new ≡ turn.fronted answer self.old) }
        ensures apart { self.new.publisher ≡ self.old.publisher }
    {
        if self.front.is_some() {
            return;
        }
        if let Some(waiting) = self.queue.pop() {
            self.front = Some(waiting);
        }
    }

    /// The record that shows the thread now, which step 5 publishes.
    fn record(&self, now: u64) -> Record
        ensures { result ≡ turn.shown now self.now }
    {
        let suspended = suspended(self.core, self.current);
        Record {
            taken: self.taken,
            running: running_word(self.core),
            queued: count(self.front),
            oldest: arrival(self.front),
            started: started(self.core, self.current),
            misses: self.misses,
            stamp: now,
            paused: count(suspended),
            since: arrival(suspended),
        }
    }

    /// 5. The record is published. (Inlined, as a turn is.)
    #[inline(always)]
    pub(crate) fn publish(&mut self, now: u64) -> Publication
        requires later { (last_published self.old.publisher.published).stamp ≤ now }
        requires room { length self.old.publisher.published < LAST_PLACE }
        ensures shown { (self.new, entry_of_publication result) ≡ turn.published now self.old }
        ensures follows { MayFollow (last_published self.old.publisher.published)
            (turn.shown now self.old) }
    {
        let shown = self.record(now);
        let place = self.publisher.put(shown);
        Publication { place, shown }
    }
}

/// The misses that a turn's work costs of the current request on a core, 0 where there is none.
pub(crate) fn misses_of(core: Option<u8>, current: Option<Current>) -> u64
    ensures { result ≡ misses_on core current }
{
    match (core, current) {
        (Some(_), Some(current)) => current.waiting.request.misses,
        _ => 0,
    }
}

/// The core of a thread that took this command.
fn core_after(command: Command) -> Option<u8>
    ensures { result ≡ core_of command }
{
    match command {
        Command::Run(core) => Some(core),
        Command::Park => None,
    }
}

/// The current request of a thread that went from one core to another, or on one or off it: one
/// that was suspended goes on now.
fn current_after(
    now: u64,
    core: Option<u8>,
    before: Option<u8>,
    current: Option<Current>,
) -> Option<Current>
    ensures { result ≡ turn.current_after now core before current }
{
    let current = current?;
    if core.is_none() || before.is_some() {
        return Some(current);
    }
    Some(Current {
        started: now,
        ..current
    })
}

/// The request that comes next, which is taken from the front or from the queue.
fn next(front: &mut Option<Waiting>, queue: &mut OwnQueue) -> Option<Waiting>
    ensures { (answer : Option Waiting) × (front.new ≡ None)
        × (queue.new ≡ turn.queue_after front.old answer queue.old)
        × (result ≡ turn.next_of front.old answer) }
{
    match front.take() {
        Some(waiting) => Some(waiting),
        None => queue.pop(),
    }
}

/// The request, begun now.
fn begin(now: u64, waiting: Waiting) -> Current
    ensures { result ≡ turn.begun now waiting }
{
    Current {
        waiting,
        remaining: waiting.request.work,
        started: now,
    }
}

/// The thread's misses and the request's, up to `MOST_MISSES`.
fn misses_after(misses: u64, more: u64) -> u64
    ensures { result ≡ min (misses + more) MOST_MISSES }
{
    misses.saturating_add(more).min(MOST_MISSES)
}

/// What is left of the current request after one turn of work.
fn work_on(current: Current) -> Option<Current>
    ensures { result ≡ turn.current_worked current }
{
    if current.remaining <= 1 {
        return None;
    }
    Some(Current {
        remaining: current.remaining - 1,
        ..current
    })
}

/// The current request is served where this is its last turn of work.
fn served(current: Current) -> Option<Worked>
    ensures { option_map entry_of_work result ≡ turn.served current }
{
    if current.remaining <= 1 {
        return Some(Worked::Served {
            id: current.waiting.request.id,
        });
    }
    None
}

/// 1 where there is a request, else 0.
fn count(waiting: Option<Waiting>) -> u64
    ensures { result ≡ turn.count_of waiting }
{
    match waiting {
        Some(_) => 1,
        None => 0,
    }
}

/// When the request came, 0 where there is none.
fn arrival(waiting: Option<Waiting>) -> u64
    ensures { result ≡ turn.arrival_of waiting }
{
    match waiting {
        Some(waiting) => waiting.arrived,
        None => 0,
    }
}

/// When the current request was begun or resumed, 0 off a core and where there is none.
fn started(core: Option<u8>, current: Option<Current>) -> u64
    ensures { result ≡ turn.started_of core current }
{
    match (core, current) {
        (Some(_), Some(current)) => current.started,
        _ => 0,
    }
}

/// The suspended request: the current one of a thread that is off its core.
fn suspended(core: Option<u8>, current: Option<Current>) -> Option<Waiting>
    ensures { result ≡ turn.suspended_of core current }
{
    match (core, current) {
        (None, Some(current)) => Some(current.waiting),
        _ => None,
    }
}
