//! What came of the requests of a task.

ghost use Rattle.std.specs.Prelude.{◌≡◌, ◌<◌, ◌==◌, ◌++◌, List, length, IfOk, OnOk};
ghost use Rattle.std.specs.List.{All};
ghost use Rattle.cal_machine.specs.TableTasks.{owner_of, threads_of_table};
ghost use Rattle.cal_trace.specs.declared.arrivals.Arrival.{Arrival};
ghost use Rattle.cal_came.specs.declared.came.Came.{Came};
ghost use Rattle.cal_measure.specs.Clocks.{AreClocksOf, run_end};
ghost use Rattle.cal_measure.specs.Requests.{AreOfServices, given_to, if_within, left_at};
ghost use Rattle.cal_measure.specs.Requests.{left_of_task, requests_within, services_within};
ghost use Rattle.cal_measure.specs.Turns.{one_of};

use crate::clocks::{ArrivalClocks, run_end};
use crate::services::{Service, put_one};
use crate::spread::Spread;
use crate::times::{TaskTimes, times_of};
use crate::work::TaskWork;
use cal_came::{Counted, Window, is_within};
use cal_kthread::RequestList;
use cal_machine::{Config, Request};
use cal_trace::{Arrival, Arrivals};
use std::alloc::{AllocError, Global};

/// What came of the requests of a task. Times are in clock ticks, and those of the requests that came
/// within the window of what is counted.
#[derive(Clone, Copy, Debug, PartialEq, Eq)]
pub struct TaskRequests {
    /// How many came to its threads.
    pub given: usize,
    /// How many of them were served.
    pub served: usize,
    /// How many of them were left.
    pub left: usize,
    /// Of all of them, the times from when they came to their answer; those left are pending, for
    /// the time from when they came to the run's last clock.
    pub response: Spread,
    /// All these times together.
    pub together: u128,
    /// Of those served, the times from when they came until they were begun.
    pub wait: Spread,
    /// Of those served, how long they were worked at.
    pub service: Spread,
    /// Of those served that were worked at for some time, how many thousandths of that they took.
    pub slowdown: Spread,
    /// Of those left, the times from when they came to the run's last clock.
    pub so_far: Spread,
    /// What its threads did in their turns.
    pub work: TaskWork,
}

/// The requests that were left with a thread.
fn left_with(left: &[RequestList], thread: usize) -> &[Request]
    ensures { result.now ≡ left_at left.now thread }
{
    match left.get(thread) {
        Some(requests) => requests.as_slice(),
        None => &[],
    }
}

/// Puts the requests that were left with the threads of a task, thread by thread, into a list.
/// Fails only when out of memory.
pub(crate) fn task_left(
    alloc: Global,
    config: &Config,
    left: &[RequestList],
    task: usize,
) -> Result<Vec<Request>, AllocError>
    requires { task < length config.now.tasks }
    ensures { IfOk result (λ requests. requests.items ≡ left_of_task config.now left.now task) }
{
    config.limits();
    let (first, count) = config.threads_of(task);
    let mut requests = Vec::new(alloc);
    for j in 0..count {
        requests.extend_from_slice(left_with(left, first + j))?;
    }
    Ok(requests)
}

/// Whether a request comes to a thread of this task.
fn is_for(config: &Config, task: usize, arrival: &Arrival) -> bool
    requires { arrival.now.thread < threads_of_table config.now }
    ensures { result ≡ (owner_of config.now arrival.now.thread == task) }
{
    config.task_of(arrival.thread as usize) == task
}

/// How many requests come to the threads of a task.
pub(crate) fn given_to(config: &Config, requests: &[Arrival], task: usize) -> usize
    requires { All (λ (arrival : Arrival). arrival.thread < threads_of_table config.now)
        requests.now }
    ensures { result ≡ given_to config.now requests.now task }
{
    let mut count: usize = 0;
    for arrival in requests {
        if is_for(config, task, arrival) {
            count += 1;
        }
    }
    count
}

/// What is told of the requests of a task.
#[derive(Drop)]
pub(crate) struct TaskShare {
    /// How many came to its threads.
    pub(crate) given: usize,
    /// Those that were served, thread by thread.
    pub(crate) served: Vec<Service>,
    /// Those that were left, thread by thread.
    pub(crate) left: Vec<Request>,
    /// What its threads did in their turns.
    pub(crate) work: TaskWork,
}

/// A request that was served, where it came to a turn within a window.
fn service_within(clocks: &ArrivalClocks, window: Window, service: Service) -> Option<Service>
    ensures { (came : List Came) → AreClocksOf came clocks.now →
        result ≡ if_within window came service.id service }
{
    if is_within(window, clocks.turn_of(service.id)) {
        Some(service)
    } else {
        None
    }
}

/// Those of these requests that came within a window. Fails only when out of memory.
fn services_within(
    alloc: Global,
    clocks: &ArrivalClocks,
    window: Window,
    services: &[Service],
) -> Result<Vec<Service>, AllocError>
    ensures { IfOk result (λ within. (came : List Came) → AreClocksOf came clocks.now →
        within.items ≡ services_within window came services.now) }
{
    let mut within = Vec::new(alloc);
    for service in services {
        put_one(&mut within, service_within(clocks, window, *service))?;
    }
    Ok(within)
}

/// Puts a request, if there is one, at the end of a list. Fails only when out of memory.
fn put_request(requests: &mut Vec<Request>, request: Option<Request>) -> Result<(), AllocError>
    ensures { OnOk result (requests.new.items ≡ requests.old.items ++ one_of request) }
{
    match request {
        None => Ok(()),
        Some(request) => {
            requests.push(request)?;
            Ok(())
        }
    }
}

/// A request that was left, where it came to a turn within a window.
fn request_within(clocks: &ArrivalClocks, window: Window, request: Request) -> Option<Request>
    ensures { (came : List Came) → AreClocksOf came clocks.now →
        result ≡ if_within window came request.id request }
{
    if is_within(window, clocks.turn_of(request.id)) {
        Some(request)
    } else {
        None
    }
}

/// Those of these requests that came within a window. Fails only when out of memory.
fn requests_within(
    alloc: Global,
    clocks: &ArrivalClocks,
    window: Window,
    requests: &[Request],
) -> Result<Vec<Request>, AllocError>
    ensures { IfOk result (λ within. (came : List Came) → AreClocksOf came clocks.now →
        within.items ≡ requests_within window came requests.now) }
{
    let mut within = Vec::new(alloc);
    for request in requests {
        put_request(&mut within, request_within(clocks, window, *request))?;
    }
    Ok(within)
}

/// What came of the requests of a task, of which this is told, in a run on these arrivals, counted
/// so. Fails only when out of memory.
pub(crate) fn requests_of_share(
    alloc: Global,
    arrivals: &Arrivals,
    counted: &Counted,
    clocks: &ArrivalClocks,
    share: &TaskShare,
) -> Result<TaskRequests, AllocError>
    requires { AreClocksOf counted.now.came clocks.now }
    ensures given { IfOk result (λ numbers. numbers.given ≡ share.now.given) }
    ensures are { IfOk result (AreOfServices counted.now (run_end arrivals.now)
        share.now.served.items share.now.left.items) }
    ensures work { IfOk result (λ numbers. numbers.work ≡ share.now.work) }
{
    let (served, left) = (share.served.as_slice(), share.left.as_slice());
    let counted_served = services_within(alloc, clocks, counted.window, served)?;
    let counted_left = requests_within(alloc, clocks, counted.window, left)?;
    let end = run_end(arrivals);
    let times = times_of(
        alloc,
        clocks,
        end,
        counted_served.as_slice(),
        counted_left.as_slice(),
    )?;
    let TaskTimes {
        response,
        together,
        wait,
        service,
        slowdown,
        so_far,
    } = times;
    Ok(TaskRequests {
        given: share.given,
        served: served.len(),
        left: left.len(),
        response,
        together,
        wait,
        service,
        slowdown,
        so_far,
        work: share.work,
    })
}
