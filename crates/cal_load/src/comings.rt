//! How the requests of arrivals came: to which turns, and when.

ghost use Rattle.std.specs.Prelude.{◌≡◌, ◌<◌, ◌≤◌, ℕ, IfOk, Some, length, map, slice_get};
ghost use Rattle.cal_came.specs.declared.came.Came.{Came as CameOf};
ghost use Rattle.cal_load.specs.Clocks.{IsTiming, clock_to};
ghost use Rattle.cal_trace.specs.declared.arrivals.Arrival.{Arrival as ArrivalOf};

use crate::clocks::{Timing, clock_at};
use cal_came::Came;
use cal_trace::Arrival;
use std::alloc::{AllocError, Global};

/// The clock of a turn; 0 where there is no such turn.
fn clock_to(timing: Timing, turn: u64) -> u64
    requires { IsTiming timing }
    ensures { result ≡ clock_to timing turn }
{
    if turn < timing.turns {
        clock_at(timing, turn)
    } else {
        0
    }
}

/// How a request came that came to this turn; to its own where that is earlier.
fn came_by(timing: Timing, arrival: &Arrival, came_to: Option<u64>) -> Came
    requires { IsTiming timing }
    ensures id { result.id ≡ arrival.now.request.id }
    ensures turn { result.turn ≤ arrival.now.turn }
    ensures clock { result.clock ≡ clock_to timing result.turn }
{
    let turn = came_to.unwrap_or(arrival.turn).min(arrival.turn);
    Came {
        id: arrival.request.id,
        turn,
        clock: clock_to(timing, turn),
    }
}

/// The request at a place.
fn request_at(requests: &[Arrival], place: usize) -> &Arrival
    requires { place < length requests.now }
    ensures { slice_get requests.now place ≡ Some result.now }
{
    &requests[place]
}

/// How each of these requests came, each to this turn or to its own where that is earlier. Fails only
/// when out of memory.
pub fn came_of(
    alloc: Global,
    timing: Timing,
    requests: &[Arrival],
    came_to: &[u64],
) -> Result<Vec<Came>, AllocError>
    requires { IsTiming timing }
    ensures ids { IfOk result (λ came.
        map (λ one. one.id) came.items ≡ map (λ arrival. arrival.request.id) requests.now) }
    ensures turns { IfOk result (λ came. (i : ℕ) (one : CameOf) (arrival : ArrivalOf) →
        slice_get came.items i ≡ Some one → slice_get requests.now i ≡ Some arrival →
        one.turn ≤ arrival.turn) }
    ensures clocks { IfOk result (λ came. (i : ℕ) (one : CameOf) →
        slice_get came.items i ≡ Some one → one.clock ≡ clock_to timing one.turn) }
{
    let mut came = Vec::new(alloc);
    for place in 0..requests.len() {
        let request = request_at(requests, place);
        let one = came_by(timing, request, came_to.get(place).copied());
        came.push(one)?;
    }
    Ok(came)
}
