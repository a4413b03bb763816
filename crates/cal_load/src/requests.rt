//! The requests of arrivals, thread by thread, each with the next id from 1.

ghost use Rattle.std.specs.Prelude.{◌≡◌, ◌<◌, ◌≤◌, ◌+◌, ◌^◌, ℕ, All, OnOk, length};
ghost use Rattle.cal_load.specs.Built.{AreBuilt, HasMoreFor};
ghost use Rattle.cal_load.specs.Comings.{IsQueue, slots_in};

use crate::making::{Queue, Slot};
use cal_machine::Request;
use cal_trace::Arrival;
use std::alloc::AllocError;

/// The request of a slot, for this thread, with this id and these misses.
fn arrival_of(thread: u8, slot: Slot, id: u64, misses: u32) -> Arrival
    // A caller's proof learns here that the id is of 64 bits, and the misses of 32.
    ensures word { id < 2 ^ 64 }
    ensures few { misses < 2 ^ 32 }
    ensures is { result ≡ record {
      thread = thread;
      turn = slot.turn;
      request = record { id = id; work = slot.work; misses = misses };
    } }
{
    Arrival {
        thread,
        turn: slot.turn,
        request: Request {
            id,
            work: slot.work,
            misses: u64::from(misses),
        },
    }
}

/// Puts what comes to a thread, each request with these misses.
fn put_queue(
    requests: &mut Vec<Arrival>,
    thread: u8,
    queue: &Queue,
    misses: u32,
) -> Result<(), AllocError>
    ensures put { (threads turns : ℕ) → AreBuilt threads turns thread requests.old.items →
        thread < threads → IsQueue turns queue.now →
        OnOk result (AreBuilt threads turns (thread + 1) requests.new.items) }
    ensures own { OnOk result (HasMoreFor thread (thread + 1) misses requests.old.items
        requests.new.items) }
    ensures many { OnOk result (length requests.new.items ≡
        length requests.old.items + length queue.now.slots.items) }
{
    let slots = queue.slots.as_slice();
    for place in 0..slots.len() {
        let id = requests.len() as u64 + 1;
        requests.push(arrival_of(thread, slots[place], id, misses))?;
    }
    Ok(())
}

/// Puts the turns to which the requests of a thread came.
fn put_turns_of(came_to: &mut Vec<u64>, queue: &Queue) -> Result<(), AllocError> {
    for slot in queue.slots.as_slice() {
        came_to.push(slot.came_to)?;
    }
    Ok(())
}

/// Puts the turns to which the requests of some threads came, thread by thread.
pub fn put_turns(came_to: &mut Vec<u64>, queues: &[Queue]) -> Result<(), AllocError> {
    for queue in queues {
        put_turns_of(came_to, queue)?;
    }
    Ok(())
}

/// Puts what comes to some threads, of which this is the first, each request with these misses.
pub fn put_queues(
    requests: &mut Vec<Arrival>,
    first: usize,
    queues: &[Queue],
    misses: u32,
) -> Result<(), AllocError>
    requires { first + length queues.now ≤ 256 }
    ensures put { (threads turns : ℕ) → AreBuilt threads turns first requests.old.items →
        first + length queues.now ≤ threads → All (IsQueue turns) queues.now →
        OnOk result (AreBuilt threads turns (first + length queues.now) requests.new.items) }
    ensures own { OnOk result (HasMoreFor first (first + length queues.now) misses
        requests.old.items requests.new.items) }
    ensures many { OnOk result (length requests.new.items ≡
        length requests.old.items + slots_in queues.now) }
{
    for place in 0..queues.len() {
        put_queue(requests, (first + place) as u8, &queues[place], misses)?;
    }
    Ok(())
}
