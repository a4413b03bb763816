//! The state after the events of a world.

ghost use Rattle.std.specs.Prelude.{◌≡◌, ◌<◌, ◌++◌, ◌∷◌, [], List, IfOk};
ghost use Rattle.std.specs.Prelude.{OnOk, OnErr, length};
ghost use Rattle.cal_machine.specs.Table.{Table, IsTable};
ghost use Rattle.cal_machine.specs.TableTasks.{threads_of_table};
ghost use Rattle.cal_policy.specs.declared.policy.Policy.{Policy};
ghost use Rattle.cal_world.specs.declared.event.Event.{Event};
ghost use Rattle.cal_world.specs.declared.event.Event.TheVariants.{Take, Yield, Publish};
ghost use Rattle.cal_world.specs.declared.event.Event.TheVariants.{Read, Decide, Watch};
ghost use Rattle.cal_world.specs.Projections.{actions_in};
ghost use Rattle.cal_world.specs.World.Standing.{StandingsAreOf, PagesAreOf};
ghost use Rattle.cal_world.specs.World.Sending.{AreSent};
ghost use Rattle.cal_world.specs.World.{IsAllowedBy, IsLegalListBy, HasCommand};
ghost use Rattle.cal_world.specs.Looks.{record_at};
ghost use Rattle.cal_world.specs.World.Present.{IsPresent, KeepsThreadOf, LooksGoOn};

use crate::event::Event;
use crate::schedules::legal_lists_are_safe_by;
use crate::world::outbox::Outbox;
use crate::world::page::Page;
use crate::world::sending::{make_room, none_granted, send_all};
use crate::world::standing::Standing;
use cal_guard::permitted_is_safe;
use cal_policy::laws::{action_is_one_more, look_is_one_more};
use cal_policy::{PassEntry, Record, Seen};
use std::alloc::{AllocError, Global};

/// The state after the events so far, as plain data: a step goes by it and need not look back.
#[derive(Drop)]
pub(crate) struct Present {
    /// Where each kernel thread stands, in thread order, as the two lists that follow.
    pub standings: Vec<Standing>,
    /// The page of each.
    pub pages: Vec<Page>,
    /// The commands that were sent to each.
    pub sent: Vec<Outbox>,
    /// The thread to which each core was last granted.
    pub granted: [Option<u8>; 256],
    /// The looks since the last Decide.
    pub looks: Vec<Seen>,
    /// The passes.
    pub history: Vec<PassEntry>,
}

/// What was read stays as it was read: so the looks since the last Decide are kept one by one.
fn looks_go_on()
    ensures { LooksGoOn }
{
    legal_lists_are_safe_by();
    permitted_is_safe();
    action_is_one_more();
    look_is_one_more();
}

/// The standings of so many threads of which nothing happened.
fn first_standings(alloc: Global, threads: usize) -> Result<Vec<Standing>, AllocError>
    ensures of { IfOk result (λ standings. StandingsAreOf standings.items []) }
    ensures all { IfOk result (λ standings. length standings.items ≡ threads) }
{
    let mut standings = Vec::new(alloc);
    while standings.len() < threads {
        standings.push(Standing::first())?;
    }
    Ok(standings)
}

/// The pages of so many threads of which nothing happened.
fn first_pages(alloc: Global, threads: usize) -> Result<Vec<Page>, AllocError>
    ensures of { IfOk result (λ pages. PagesAreOf pages.items []) }
    ensures all { IfOk result (λ pages. length pages.items ≡ threads) }
{
    let mut pages = Vec::new(alloc);
    while pages.len() < threads {
        pages.push(Page::open(alloc)?)?;
    }
    Ok(pages)
}

/// No commands to so many threads.
fn first_sent(alloc: Global, threads: usize) -> Result<Vec<Outbox>, AllocError>
    ensures of { IfOk result (λ sent. AreSent sent.items []) }
    ensures all { IfOk result (λ sent. length sent.items ≡ threads) }
{
    let mut sent = Vec::new(alloc);
    while sent.len() < threads {
        sent.push(Outbox::new(alloc))?;
    }
    Ok(sent)
}

/// The thread takes its next command.
fn take_next(standings: &mut Vec<Standing>, sent: &Vec<Outbox>, k: u8)
    requires standing { k < length standings.old.items }
    requires sent { k < length sent.now.items }
    ensures length { length standings.new.items ≡ length standings.old.items }
    ensures of { (before : List Event) →
        AreSent sent.now.items (actions_in before) → HasCommand before (Take k) →
        StandingsAreOf standings.old.items before →
        StandingsAreOf standings.new.items (before ++ Take k ∷ []) }
{
    let standing = standings[k as usize];
    if let Some(command) = sent[k as usize].command(standing.taken) {
        standings[k as usize] = standing.after_take(command);
    }
}

/// The thread leaves its core.
fn leave_core(standings: &mut Vec<Standing>, k: u8)
    requires { k < length standings.old.items }
    ensures length { length standings.new.items ≡ length standings.old.items }
    ensures of { (before : List Event) →
        StandingsAreOf standings.old.items before →
        StandingsAreOf standings.new.items (before ++ Yield k ∷ []) }
{
    standings[k as usize] = standings[k as usize].after_yield();
}

/// The scheduler read the thread's page at this place.
fn raise_read_floor(standings: &mut Vec<Standing>, k: u8, number: u64)
    requires { k < length standings.old.items }
    ensures length { length standings.new.items ≡ length standings.old.items }
    ensures of { (before : List Event) →
        StandingsAreOf standings.old.items before →
        StandingsAreOf standings.new.items (before ++ Read k number ∷ []) }
{
    standings[k as usize] = standings[k as usize].after_read(number);
}

/// The second observer read the thread's page at this place.
fn raise_watch_floor(standings: &mut Vec<Standing>, k: u8, number: u64)
    requires { k < length standings.old.items }
    ensures length { length standings.new.items ≡ length standings.old.items }
    ensures of { (before : List Event) →
        StandingsAreOf standings.old.items before →
        StandingsAreOf standings.new.items (before ++ Watch k number ∷ []) }
{
    standings[k as usize] = standings[k as usize].after_watch(number);
}

/// The thread publishes a record. Fails only when out of memory; then nothing has changed.
fn publish(pages: &mut Vec<Page>, k: u8, rec: Record) -> Result<(), AllocError>
    requires { k < length pages.old.items }
    ensures length { length pages.new.items ≡ length pages.old.items }
    ensures ok { OnOk result ((before : List Event) →
        PagesAreOf pages.old.items before →
        PagesAreOf pages.new.items (before ++ Publish k rec ∷ [])) }
    ensures err { OnErr result (pages.new.items ≡ pages.old.items) }
{
    pages[k as usize].publish(rec)?;
    Ok(())
}

/// A whole look at a place of the thread's page.
fn look_at(pages: &Vec<Page>, k: u8, number: u64) -> Seen
    requires { k < length pages.now.items }
    ensures { (before : List Event) → PagesAreOf pages.now.items before →
        result ≡ Seen.Whole number (record_at before k number) }
{
    Seen::Whole {
        number,
        rec: pages[k as usize].record(number),
    }
}

impl Present {
    /// Of so many threads, with no event. Fails only when out of memory.
    pub fn open(alloc: Global, threads: usize) -> Result<Present, AllocError>
        ensures { IfOk result (λ present. (table : Table) →
            threads ≡ threads_of_table table → IsPresent table [] present) }
    {
        Ok(Present {
            standings: first_standings(alloc, threads)?,
            pages: first_pages(alloc, threads)?,
            sent: first_sent(alloc, threads)?,
            granted: none_granted(),
            looks: Vec::new(alloc),
            history: Vec::new(alloc),
        })
    }

    /// A pass is made: what it sends is sent, and the looks begin anew. Fails only when out of
    /// memory; then nothing has changed.
    fn decide(&mut self, alloc: Global, entry: &PassEntry) -> Result<(), AllocError>
        ensures ok { OnOk result ((table : Table) (before : List Event) →
            IsPresent table before self.old →
            IsPresent table (before ++ Decide entry.now ∷ []) self.new) }
        ensures err { OnErr result ((table : Table) (before : List Event) →
            IsPresent table before self.old → IsPresent table before self.new) }
    {
        let pass = entry.copy(alloc)?;
        make_room(&mut self.sent, entry.actions.as_slice().len())?;
        self.history.push(pass)?;
        send_all(&mut self.sent, &mut self.granted, entry.actions.as_slice());
        self.looks.clear();
        Ok(())
    }

    /// Takes in an event that is allowed. Fails only when out of memory; then nothing has changed.
    pub fn note(&mut self, alloc: Global, event: &Event) -> Result<(), AllocError>
        requires { KeepsThreadOf self.old event.now }
        ensures ok { OnOk result ((policy : Policy) (table : Table) (before : List Event) →
            IsTable table → IsLegalListBy policy table before →
            IsAllowedBy policy table before event.now →
            IsPresent table before self.old → IsPresent table (before ++ event.now ∷ []) self.new) }
        ensures err { OnErr result ((table : Table) (before : List Event) →
            IsPresent table before self.old → IsPresent table before self.new) }
    {
        looks_go_on();
        match event {
            Event::Take(k) => take_next(&mut self.standings, &self.sent, *k),
            Event::Yield(k) => leave_core(&mut self.standings, *k),
            Event::Publish(k, rec) => publish(&mut self.pages, *k, *rec)?,
            Event::Read(k, number) => {
                self.looks.push(look_at(&self.pages, *k, *number))?;
                raise_read_floor(&mut self.standings, *k, *number);
            }
            Event::Skip(_, seen) => self.looks.push(*seen)?,
            Event::Decide(entry) => self.decide(alloc, entry)?,
            Event::Watch(k, number) => raise_watch_floor(&mut self.standings, *k, *number),
        }
        Ok(())
    }
}
