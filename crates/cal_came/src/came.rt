//! To which turn each request of some arrivals came, and when.

ghost use Rattle.std.specs.Prelude.{◌≡◌, IfOk, map};
ghost use Rattle.cal_came.specs.Came.{clock_of, each_own, own_came};

use cal_trace::{Arrival, Arrivals};
use std::alloc::{AllocError, Global};

/// How a request came.
#[derive(Clone, Copy, Debug, PartialEq, Eq)]
pub struct Came {
    /// The request's name.
    pub id: u64,
    /// The turn to which it came, from 0.
    pub turn: u64,
    /// The clock of that turn, in ticks.
    pub clock: u64,
}

/// The clock of the turn at which a thread gets the request of an arrival, in ticks; 0 where there
/// is no such turn.
pub fn clock_of(turns: &[u64], arrival: &Arrival) -> u64
    ensures { result ≡ clock_of turns.now arrival.now }
{
    match turns.get(arrival.turn as usize) {
        Some(clock) => *clock,
        None => 0,
    }
}

/// The request of an arrival, as one that came to its turn, at the clock of that.
fn own_came(turns: &[u64], arrival: &Arrival) -> Came
    ensures { result ≡ own_came turns.now arrival.now }
{
    Came {
        id: arrival.request.id,
        turn: arrival.turn,
        clock: clock_of(turns, arrival),
    }
}

/// Each of these requests, as one that came to its own turn. Fails only when out of memory.
fn each_at(alloc: Global, turns: &[u64], requests: &[Arrival]) -> Result<Vec<Came>, AllocError>
    ensures { IfOk result (λ came. came.items ≡ map (own_came turns.now) requests.now) }
{
    let mut came = Vec::new(alloc);
    for request in requests {
        came.push(own_came(turns, request))?;
    }
    Ok(came)
}

/// Each request of these arrivals, as one that came to its own turn. Fails only when out of memory.
pub fn each_own(alloc: Global, arrivals: &Arrivals) -> Result<Vec<Came>, AllocError>
    ensures { IfOk result (λ came. came.items ≡ each_own arrivals.now) }
{
    each_at(
        alloc,
        arrivals.turns.as_slice(),
        arrivals.requests.as_slice(),
    )
}
