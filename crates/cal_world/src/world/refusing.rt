//! Whether an event may come next, and if not, the least cause.

ghost use Rattle.std.specs.Prelude.{◌≡◌, ℕ, ◌<◌, ◌↔◌, List, IsTrue, IfOk, length, slice_get};
ghost use Rattle.cal_machine.specs.Table.{Table};
ghost use Rattle.cal_machine.specs.TableTasks.{threads_of_table};
ghost use Rattle.cal_policy.specs.declared.policy.Policy.{Policy as PolicyOf};
ghost use Rattle.cal_policy.specs.Policies.{IsPassBy, IsLegalBy};
ghost use Rattle.cal_policy.specs.History.{commands_to};
ghost use Rattle.cal_world.specs.Projections.{history_in, actions_in};
ghost use Rattle.cal_signal.specs.Pages as pages;
ghost use Rattle.cal_world.specs.Threads.{state_in, published_by, page_in};
ghost use Rattle.cal_world.specs.declared.event.Event.{Event};
ghost use Rattle.cal_world.specs.declared.event.Event.TheVariants.{Take, Yield, Publish};
ghost use Rattle.cal_world.specs.declared.event.Event.TheVariants.{Read, Skip, Decide, Watch};
ghost use Rattle.cal_world.specs.World.Standing.{IsOf};
ghost use Rattle.cal_world.specs.Looks.{looks_since};
ghost use Rattle.cal_world.specs.World.Present.{IsPresent, HasAll};
ghost use Rattle.cal_world.specs.World.{IsRefusalBy, NamesThread};

use crate::event::Event;
use crate::illegal::Illegal;
use crate::world::present::Present;
use crate::world::standing::Standing;
use cal_command::Command;
use cal_machine::Config;
use cal_policy::{Actions, PassEntry, Policy, Record, Seen, is_pass_by, later, shaped};
use cal_signal::running_word;
use std::alloc::{AllocError, Global};

/// Whether the event's thread is one of the table's.
fn names_thread(config: &Config, event: &Event) -> bool
    ensures { IsTrue result ↔ NamesThread config.now event.now }
{
    match event {
        Event::Take(k) => (*k as usize) < config.threads(),
        Event::Yield(k) => (*k as usize) < config.threads(),
        Event::Publish(k, _) => (*k as usize) < config.threads(),
        Event::Read(k, _) => (*k as usize) < config.threads(),
        Event::Skip(k, _) => (*k as usize) < config.threads(),
        Event::Decide(_) => true,
        Event::Watch(k, _) => (*k as usize) < config.threads(),
    }
}

/// Of a Take by a thread of the table, where this is the command that was sent to it after those
/// that it took.
fn refusal_of_take(next: Option<Command>) -> Option<Illegal>
    ensures { (policy : PolicyOf) (table : Table) (before : List Event) (k : ℕ) →
        k < threads_of_table table →
        next ≡ slice_get (commands_to (actions_in before) k) (state_in before k).taken →
        IsRefusalBy policy table before (Take k) result }
{
    if next.is_some() {
        None
    } else {
        Some(Illegal::NothingSent)
    }
}

/// Of a Yield by a thread of the table.
fn refusal_of_yield(standing: &Standing) -> Option<Illegal>
    ensures { (policy : PolicyOf) (table : Table) (before : List Event) (k : ℕ) →
        k < threads_of_table table →
        IsOf standing.now before k → IsRefusalBy policy table before (Yield k) result }
{
    if standing.core.is_some() {
        None
    } else {
        Some(Illegal::NotOn)
    }
}

/// Of a Publish by a thread of the table, after this last record on its page.
fn refusal_of_publish(standing: &Standing, last: &Record, rec: &Record) -> Option<Illegal>
    ensures { (policy : PolicyOf) (table : Table) (before : List Event) (k : ℕ) →
        k < threads_of_table table →
        IsOf standing.now before k → last.now ≡ pages.last_published (published_by before k) →
        IsRefusalBy policy table before (Publish k rec.now) result }
{
    if rec.taken == standing.taken as u64
        && rec.running == running_word(standing.core)
        && later(last, rec)
        && shaped(rec)
    {
        None
    } else {
        Some(Illegal::NotItsState)
    }
}

/// Of a Read of a page of the table's with so many places, after so many looks since the last
/// Decide.
fn refusal_of_read(
    standing: &Standing,
    places: usize,
    looks: usize,
    thread: u8,
    number: u64,
) -> Option<Illegal>
    ensures { (policy : PolicyOf) (table : Table) (before : List Event) →
        thread < threads_of_table table →
        IsOf standing.now before thread → places ≡ length (page_in before thread) →
        looks ≡ length (looks_since before) →
        IsRefusalBy policy table before (Read thread number) result }
{
    if number < standing.read_floor || number >= places as u64 {
        Some(Illegal::NoSuchPlace)
    } else if thread as usize != looks {
        Some(Illegal::OutOfTurn)
    } else {
        None
    }
}

/// Of a Watch of a page of the table's with so many places.
fn refusal_of_watch(standing: &Standing, places: usize, number: u64) -> Option<Illegal>
    ensures { (policy : PolicyOf) (table : Table) (before : List Event) (k : ℕ) →
        k < threads_of_table table →
        IsOf standing.now before k → places ≡ length (page_in before k) →
        IsRefusalBy policy table before (Watch k number) result }
{
    if number < standing.watch_floor || number >= places as u64 {
        Some(Illegal::NoSuchPlace)
    } else {
        None
    }
}

/// Of a Skip of a thread of the table, after so many looks since the last Decide.
fn refusal_of_skip(looks: usize, thread: u8, seen: Seen) -> Option<Illegal>
    ensures { (policy : PolicyOf) (table : Table) (before : List Event) →
        thread < threads_of_table table →
        looks ≡ length (looks_since before) →
        IsRefusalBy policy table before (Skip thread seen) result }
{
    if thread as usize != looks {
        return Some(Illegal::OutOfTurn);
    }
    match seen {
        Seen::Whole { .. } => Some(Illegal::OutOfTurn),
        Seen::Busy { .. } => None,
        Seen::Ahead { .. } => None,
        Seen::Foreign { .. } => None,
    }
}

/// Whether two lists of looks are equal.
fn same_looks(a: &[Seen], b: &[Seen]) -> bool
    ensures { IsTrue result ↔ a.now ≡ b.now }
{
    a == b
}

/// Whether the entry is the policy's pass after a history of the policy. Fails only when out of
/// memory.
fn is_next_pass(
    alloc: Global,
    config: &Config,
    policy: Policy,
    history: &[PassEntry],
    entry: &PassEntry,
) -> Result<bool, AllocError>
    requires { IsLegalBy policy config.now history.now }
    ensures { IfOk result (λ answer.
        IsTrue answer ↔ IsPassBy policy config.now history.now entry.now) }
{
    config.limits();
    let mut actions = Actions::reserved(alloc)?;
    Ok(is_pass_by(policy, config, history, entry, &mut actions))
}

/// Of a Decide after a history of the policy and these looks. Fails only when out of memory.
fn refusal_of_decide(
    alloc: Global,
    config: &Config,
    policy: Policy,
    history: &[PassEntry],
    looks: &[Seen],
    entry: &PassEntry,
) -> Result<Option<Illegal>, AllocError>
    requires { IsLegalBy policy config.now history.now }
    ensures { IfOk result (λ refusal. (before : List Event) →
        history.now ≡ history_in before → looks.now ≡ looks_since before →
        IsRefusalBy policy config.now before (Decide entry.now) refusal) }
{
    if looks.len() != config.threads() {
        return Ok(Some(Illegal::OutOfTurn));
    }
    if !same_looks(entry.input.seen.as_slice(), looks) {
        return Ok(Some(Illegal::NotThePass));
    }
    if is_next_pass(alloc, config, policy, history, entry)? {
        Ok(None)
    } else {
        Ok(Some(Illegal::NotThePass))
    }
}

impl Present {
    /// Why an event may not come next, the least cause; None where it may. Fails only when out of
    /// memory, at a Decide.
    pub fn refusal(
        &self,
        alloc: Global,
        config: &Config,
        policy: Policy,
        event: &Event,
    ) -> Result<Option<Illegal>, AllocError>
        requires all { HasAll config.now self.now }
        requires legal { IsLegalBy policy config.now self.now.history.items }
        ensures { IfOk result (λ refusal. (before : List Event) →
            IsPresent config.now before self.now →
            IsRefusalBy policy config.now before event.now refusal) }
    {
        if !names_thread(config, event) {
            return Ok(Some(Illegal::NoThread));
        }
        match event {
            Event::Take(k) => {
                let taken = self.standings[*k as usize].taken;
                Ok(refusal_of_take(self.sent[*k as usize].command(taken)))
            }
            Event::Yield(k) => Ok(refusal_of_yield(&self.standings[*k as usize])),
            Event::Publish(k, rec) => {
                let last = self.pages[*k as usize].last();
                Ok(refusal_of_publish(&self.standings[*k as usize], &last, rec))
            }
            Event::Read(k, number) => {
                let places = self.pages[*k as usize].places();
                let standing = &self.standings[*k as usize];
                Ok(refusal_of_read(standing, places, self.looks.len(), *k, *number))
            }
            Event::Skip(k, seen) => Ok(refusal_of_skip(self.looks.len(), *k, *seen)),
            Event::Decide(entry) => {
                refusal_of_decide(alloc, config, policy, &self.history, &self.looks, entry)
            }
            Event::Watch(k, number) => {
                let places = self.pages[*k as usize].places();
                Ok(refusal_of_watch(&self.standings[*k as usize], places, *number))
            }
        }
    }
}
