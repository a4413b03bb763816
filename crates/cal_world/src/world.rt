//! The world: the events that were allowed so far.

pub mod outbox;
pub mod page;
pub mod present;
pub mod refusing;
pub mod replay;
pub mod sending;
pub mod standing;

ghost use Rattle.std.specs.Prelude.{◌≡◌, ◌<◌, ◌⊎◌, [], IfOk, IfErr, OnOk, OnErr};
ghost use Rattle.cal_world.specs.declared.illegal.Illegal.TheVariants.{Memory};
ghost use Rattle.cal_world.specs.Projections.{history_in};
ghost use Rattle.cal_world.specs.Threads.{running_on};
ghost use Rattle.cal_policy.specs.declared.policy.Policy.TheVariants.{Caladan};
ghost use Rattle.cal_policy.specs.Policies.{IsLegalBy};
ghost use Rattle.cal_world.specs.World.{IsAllowedBy, IsLegalList, IsLegalListBy};
ghost use Rattle.cal_world.specs.World.{IsRefusalBy, IsRefusedForBy, and_then};

use crate::event::Event;
use crate::illegal::Illegal;
use crate::schedules::histories_are_legal_by;
use crate::world::present::Present;
use cal_machine::Config;
use cal_policy::{PassEntry, Policy};
use std::alloc::{AllocError, Global};
use std::marker::Model;

/// A list of events, each of which was allowed after those before it. Contracts see the table, the
/// policy of its passes and the events.
///
/// It keeps the state after the events as plain data, so that a step costs what its kind asks and
/// not what went before; but a Decide goes over the whole history, by the plain pass.
#[derive(Drop)]
pub struct World {
    alloc: Global,
    config: Config,
    policy: Policy,
    events: Vec<Event>,
    present: Present,
}

impl Model for World {
    ghost use Rattle.cal_world.specs.World.{Past};
    ghost use Rattle.cal_world.specs.World.Kept.{IsWorld};

    ghost Value = { Past };

    ghost view = { λ w. record {
      table = w.config;
      policy = w.policy;
      events = w.events.items;
    } };

    ghost invariant = { λ w. IsWorld w.policy w.config w.events.items w.present };
}

impl World {
    /// The world by `Policy::Caladan` in which nothing has happened. Fails only when out of memory.
    pub fn start(alloc: Global, config: &Config) -> Result<World, AllocError>
        ensures table { IfOk result (λ world. world.table ≡ config.now) }
        ensures policy { IfOk result (λ world. world.policy ≡ Caladan) }
        ensures events { IfOk result (λ world. world.events ≡ []) }
        ensures legal { IfOk result (λ world. IsLegalList world.table world.events) }
    {
        World::start_by(alloc, config, Policy::Caladan)
    }

    /// The world by this policy in which nothing has happened. Fails only when out of memory.
    pub fn start_by(alloc: Global, config: &Config, policy: Policy) -> Result<World, AllocError>
        ensures table { IfOk result (λ world. world.table ≡ config.now) }
        ensures policy { IfOk result (λ world. world.policy ≡ policy) }
        ensures events { IfOk result (λ world. world.events ≡ []) }
        ensures legal { IfOk result (λ world. IsLegalListBy policy world.table world.events) }
    {
        config.limits();
        Ok(World {
            alloc,
            config: config.copy(alloc)?,
            policy,
            events: Vec::new(alloc),
            present: Present::open(alloc, config.threads())?,
        })
    }

    /// The policy that decides its passes.
    pub fn policy(&self) -> Policy
        ensures { result ≡ self.now.policy }
    {
        self.policy
    }

    /// The passes so far. The events are a legal list, and so the history is one of its policy.
    pub fn history(&self) -> &[PassEntry]
        ensures events { IsLegalListBy self.now.policy self.now.table self.now.events }
        ensures history { result.now ≡ history_in self.now.events }
        ensures legal { IsLegalBy self.now.policy self.now.table result.now }
    {
        histories_are_legal_by();
        self.present.history.as_slice()
    }

    /// The core on which kernel thread `k` runs, if it runs on one; None past the last thread.
    pub fn running(&self, k: u8) -> Option<u8>
        ensures { result ≡ running_on self.now.events k }
    {
        if (k as usize) < self.present.standings.len() {
            self.present.standings[k as usize].core
        } else {
            None
        }
    }

    /// Why an event may not come next, the least cause; None where it may. Fails only when out of
    /// memory.
    fn refusal(&self, event: &Event) -> Result<Option<Illegal>, AllocError>
        ensures legal { IsLegalListBy self.now.policy self.now.table self.now.events }
        ensures refusal { IfOk result (λ refusal.
            IsRefusalBy self.now.policy self.now.table self.now.events event.now refusal) }
    {
        histories_are_legal_by();
        self.present
            .refusal(self.alloc, &self.config, self.policy, event)
    }

    /// Takes in an event that is allowed. Fails only when out of memory; then the world is
    /// unchanged.
    fn take(&mut self, event: &Event) -> Result<(), AllocError>
        requires { IsAllowedBy self.old.policy self.old.table self.old.events event.now }
        ensures ok { OnOk result (self.new ≡ and_then self.old event.now) }
        ensures err { OnErr result (self.new ≡ self.old) }
        ensures legal { IsLegalListBy self.new.policy self.new.table self.new.events }
    {
        let copy = event.copy(self.alloc)?;
        self.events.reserve(1)?;
        self.present.note(self.alloc, event)?;
        self.events.push_reserved(copy);
        Ok(())
    }

    /// Makes one step: exactly an event that is allowed after those before it is taken in. Else the
    /// answer is the least cause that refuses it, and the world is unchanged. In place of any other
    /// answer there may be `Memory`; then too the world is unchanged. Either way its events are a
    /// legal list.
    pub fn step(&mut self, event: &Event) -> Result<(), Illegal>
        ensures allowed { OnOk result
            (IsAllowedBy self.old.policy self.old.table self.old.events event.now) }
        ensures taken { OnOk result (self.new ≡ and_then self.old event.now) }
        ensures refused { IfErr result (λ why.
            (why ≡ Memory)
            ⊎ IsRefusedForBy self.old.policy self.old.table self.old.events event.now why) }
        ensures same { OnErr result (self.new ≡ self.old) }
        ensures legal { IsLegalListBy self.new.policy self.new.table self.new.events }
    {
        if let Some(why) = self.refusal(event)? {
            return Err(why);
        }
        self.take(event)?;
        Ok(())
    }
}
