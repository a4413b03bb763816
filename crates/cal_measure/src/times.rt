//! How long the requests of a task took.

ghost use Rattle.std.specs.Prelude.{◌≡◌, ℕ, List, [], IfOk, map};
ghost use Rattle.cal_came.specs.declared.came.Came.{Came};
ghost use Rattle.cal_measure.specs.Clocks.{AreClocksOf};
ghost use Rattle.cal_measure.specs.Requests.{AreTimesOf, response_of, slowdown_of};
ghost use Rattle.cal_measure.specs.Requests.{slowdowns_of, so_far_of, wait_of, worked_of};
ghost use Rattle.cal_measure.specs.Spread.{IsSpread};

use crate::clocks::ArrivalClocks;
use crate::services::Service;
use crate::shares::thousandths;
use crate::spread::{Spread, spread_of};
use crate::totals::total_of;
use crate::work::put_number;
use cal_machine::Request;
use std::alloc::{AllocError, Global};

/// How long the requests of a task took, in clock ticks.
#[derive(Clone, Copy, Debug, PartialEq, Eq)]
pub(crate) struct TaskTimes {
    /// Of all of them, the times from when they came to their answer; those left are pending, for
    /// the time from when they came to the run's last clock.
    pub(crate) response: Spread,
    /// All these times together.
    pub(crate) together: u128,
    /// Of those served, the times from when they came until they were begun.
    pub(crate) wait: Spread,
    /// Of those served, how long they were worked at.
    pub(crate) service: Spread,
    /// Of those served that were worked at for some time, how many thousandths of that they took.
    pub(crate) slowdown: Spread,
    /// Of those left, the times from when they came to the run's last clock.
    pub(crate) so_far: Spread,
}

/// How long each of these requests took, from when it came to its answer. Fails only when out of
/// memory.
fn responses(
    alloc: Global,
    clocks: &ArrivalClocks,
    services: &[Service],
) -> Result<Vec<u64>, AllocError>
    ensures { IfOk result (λ times. (came : List Came) → AreClocksOf came clocks.now →
        times.items ≡ map (response_of came) services.now) }
{
    let mut times = Vec::new(alloc);
    for service in services {
        times.push(
            service
                .answered
                .saturating_sub(clocks.of_request(service.id)),
        )?;
    }
    Ok(times)
}

/// How long each of these requests waited, from when it came until it was begun. Fails only when out
/// of memory.
fn waits(
    alloc: Global,
    clocks: &ArrivalClocks,
    services: &[Service],
) -> Result<Vec<u64>, AllocError>
    ensures { IfOk result (λ times. (came : List Came) → AreClocksOf came clocks.now →
        times.items ≡ map (wait_of came) services.now) }
{
    let mut times = Vec::new(alloc);
    for service in services {
        times.push(service.begun.saturating_sub(clocks.of_request(service.id)))?;
    }
    Ok(times)
}

/// For how long each of these requests was worked at. Fails only when out of memory.
fn works(alloc: Global, services: &[Service]) -> Result<Vec<u64>, AllocError>
    ensures { IfOk result (λ times. times.items ≡ map worked_of services.now) }
{
    let mut times = Vec::new(alloc);
    for service in services {
        times.push(service.worked)?;
    }
    Ok(times)
}

/// The slowdown of a request, in thousandths, where it was worked at for some time.
fn slowdown(clocks: &ArrivalClocks, service: &Service) -> Option<u64>
    ensures { (came : List Came) → AreClocksOf came clocks.now →
        result ≡ slowdown_of came service.now }
{
    let response = service
        .answered
        .saturating_sub(clocks.of_request(service.id));
    thousandths(response as u128, service.worked as u128)
}

/// The slowdowns of these requests. Fails only when out of memory.
fn slowdowns(
    alloc: Global,
    clocks: &ArrivalClocks,
    services: &[Service],
) -> Result<Vec<u64>, AllocError>
    ensures { IfOk result (λ slowdowns. (came : List Came) → AreClocksOf came clocks.now →
        slowdowns.items ≡ slowdowns_of came services.now) }
{
    let mut slowdowns = Vec::new(alloc);
    for service in services {
        put_number(&mut slowdowns, slowdown(clocks, service))?;
    }
    Ok(slowdowns)
}

/// How long each of these requests has waited by a clock, from when it came on. Fails only when out
/// of memory.
fn so_far(
    alloc: Global,
    clocks: &ArrivalClocks,
    end: u64,
    left: &[Request],
) -> Result<Vec<u64>, AllocError>
    ensures { IfOk result (λ times. (came : List Came) → AreClocksOf came clocks.now →
        times.items ≡ map (so_far_of came end) left.now) }
{
    let mut times = Vec::new(alloc);
    for request in left {
        times.push(end.saturating_sub(clocks.of_request(request.id)))?;
    }
    Ok(times)
}

/// What these times come to, all of which are known. Takes no memory.
fn spread_of_known(alloc: Global, times: Vec<u64>) -> Spread
    ensures { IsSpread times.items [] result }
{
    spread_of(times, Vec::new(alloc))
}

/// What the times of these requests come to, which were served, or were left at this clock. Fails
/// only when out of memory.
pub(crate) fn times_of(
    alloc: Global,
    clocks: &ArrivalClocks,
    end: u64,
    served: &[Service],
    left: &[Request],
) -> Result<TaskTimes, AllocError>
    ensures { IfOk result (λ times. (came : List Came) → AreClocksOf came clocks.now →
        AreTimesOf came end served.now left.now times) }
{
    let answered = responses(alloc, clocks, served)?;
    let pending = so_far(alloc, clocks, end, left)?;
    let together = total_of(answered.as_slice()) + total_of(pending.as_slice());
    let response = spread_of(answered, pending);
    let wait = spread_of_known(alloc, waits(alloc, clocks, served)?);
    let service = spread_of_known(alloc, works(alloc, served)?);
    let slowdown = spread_of_known(alloc, slowdowns(alloc, clocks, served)?);
    let oldest = so_far(alloc, clocks, end, left)?;
    let so_far = spread_of_known(alloc, oldest);
    Ok(TaskTimes {
        response,
        together,
        wait,
        service,
        slowdown,
        so_far,
    })
}
