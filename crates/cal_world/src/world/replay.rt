//! A world after a whole list of events.

ghost use Rattle.std.specs.Prelude.{◌≡◌, IfOk, IfErr};
ghost use Rattle.cal_policy.specs.declared.policy.Policy.TheVariants.{Caladan};
ghost use Rattle.cal_world.specs.World.{IsLegalList, IsLegalListBy};
ghost use Rattle.cal_world.specs.World.Kept.{IsStopped, IsStoppedBy};

use crate::event::Event;
use crate::illegal::Illegal;
use crate::world::World;
use cal_machine::Config;
use cal_policy::Policy;
use std::alloc::Global;

/// Where a list of events is stopped, and why.
#[derive(Clone, Copy, Debug, PartialEq, Eq)]
pub struct Stopped {
    /// The place of the event that is refused, from 0; 0 where no world could be started.
    pub at: u64,
    /// Why it is refused.
    pub why: Illegal,
}

/// `run_events_by` of `Policy::Caladan`.
pub fn run_events(alloc: Global, config: &Config, events: &[Event]) -> Result<World, Stopped>
    ensures legal { IfOk result (λ _. IsLegalList config.now events.now) }
    ensures table { IfOk result (λ world. world.table ≡ config.now) }
    ensures policy { IfOk result (λ world. world.policy ≡ Caladan) }
    ensures events { IfOk result (λ world. world.events ≡ events.now) }
    ensures stopped { IfErr result (λ stopped. IsStopped config.now events.now stopped) }
{
    run_events_by(alloc, config, Policy::Caladan, events)
}

/// The world by this policy after a legal list of events; else the first event that is refused, and
/// why. In place of any answer there may be `Memory`, at the event for which there was none.
pub fn run_events_by(
    alloc: Global,
    config: &Config,
    policy: Policy,
    events: &[Event],
) -> Result<World, Stopped>
    ensures legal { IfOk result (λ _. IsLegalListBy policy config.now events.now) }
    ensures table { IfOk result (λ world. world.table ≡ config.now) }
    ensures policy { IfOk result (λ world. world.policy ≡ policy) }
    ensures events { IfOk result (λ world. world.events ≡ events.now) }
    ensures stopped { IfErr result (λ stopped.
        IsStoppedBy policy config.now events.now stopped) }
{
    let Ok(mut world) = World::start_by(alloc, config, policy) else {
        return Err(Stopped {
            at: 0,
            why: Illegal::Memory,
        });
    };
    for (at, event) in events.iter().enumerate() {
        if let Err(why) = world.step(event) {
            return Err(Stopped { at: at as u64, why });
        }
    }
    Ok(world)
}
