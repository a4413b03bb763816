//! The requests that a kernel thread served, and when.

ghost use Rattle.std.specs.Prelude.{◌≡◌, ◌++◌, ◌∷◌, [], List, OnOk, Some, None, if◌then◌else◌};
ghost use Rattle.cal_measure.specs.Services.{begun_since, clocked, service_by};
ghost use Rattle.cal_measure.specs.Services.{worked_since};
ghost use Rattle.cal_measure.specs.Turns.{one_of};
ghost use Rattle.cal_measure.specs.declared.ends.TimedTurn.{TimedTurn};

use crate::ends::{TimedTurn, ticks_of};
use std::alloc::AllocError;

/// A request that was served.
#[derive(Clone, Copy, Debug, PartialEq, Eq)]
pub struct Service {
    /// The request's name.
    pub id: u64,
    /// The stamp of the first publication with it at work, in clock ticks.
    pub begun: u64,
    /// The end of the turn that served it, in clock ticks.
    pub answered: u64,
    /// How long the turns lasted that worked at it, together, in clock ticks. What is left of the
    /// time from `begun` to `answered` are interruptions: turns of its thread without a core.
    pub worked: u64,
}

/// The stamp of a turn that worked.
fn stamp_at_work(turn: TimedTurn) -> Option<u64>
    ensures { result ≡ if turn.at_work then Some turn.stamp else None }
{
    if turn.at_work { Some(turn.stamp) } else { None }
}

/// When the request at work was begun, if there is one, with one turn more.
pub(crate) fn begun_after(begun: Option<u64>, turn: TimedTurn) -> Option<u64>
    ensures { (turns : List TimedTurn) → begun ≡ begun_since turns →
        result ≡ begun_since (turns ++ turn ∷ []) }
{
    if turn.served.is_some() {
        None
    } else {
        match begun {
            Some(stamp) => Some(stamp),
            None => stamp_at_work(turn),
        }
    }
}

/// For how long the request at work was worked at, with one turn more.
pub(crate) fn worked_after(worked: u64, turn: TimedTurn) -> u64
    ensures { (turns : List TimedTurn) → worked ≡ clocked (worked_since turns) →
        result ≡ clocked (worked_since (turns ++ turn ∷ [])) }
{
    if turn.served.is_some() {
        0
    } else if turn.at_work {
        worked.saturating_add(ticks_of(turn))
    } else {
        worked
    }
}

/// The request that a turn served, if it did.
pub(crate) fn service_by(begun: Option<u64>, worked: u64, turn: TimedTurn) -> Option<Service>
    ensures { (turns : List TimedTurn) → begun ≡ begun_since turns →
        worked ≡ clocked (worked_since turns) → one_of result ≡ service_by turns turn }
{
    match turn.served {
        None => None,
        Some(id) => Some(Service {
            id,
            begun: begun.unwrap_or(turn.stamp),
            answered: turn.ends,
            worked: worked.saturating_add(ticks_of(turn)),
        }),
    }
}

/// Puts a service, if there is one, at the end of a list. Fails only when out of memory.
pub(crate) fn put_one(
    services: &mut Vec<Service>,
    service: Option<Service>,
) -> Result<(), AllocError>
    ensures { OnOk result (services.new.items ≡ services.old.items ++ one_of service) }
{
    match service {
        None => Ok(()),
        Some(service) => {
            services.push(service)?;
            Ok(())
        }
    }
}
