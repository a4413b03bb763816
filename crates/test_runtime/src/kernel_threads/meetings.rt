//! Two kernel threads of a task, each in a thread of its own, steal from a third at the same time.
ghost use Rattle.std.specs.Prelude.{◌≡◌, [], ◌∷◌, IfOk, IfSome, length, map};
ghost use Rattle.cal_kthread.specs.Team.{IsTeam, place_of};
ghost use Rattle.cal_machine.specs.Tasks.{threads_in};

use super::{THREE_THREADS, left_of_all, names_of, request, send, turn};
use cal_command::{Command, Sender};
use cal_kthread::{KernelEnd, KernelThread, Request, RequestList, Team, end_all, open_threads};
use cal_machine::Config;
use std::alloc::{AllocError, Global};
use std::test::Fail;
use std::thread;

/// How many requests there are.
const REQUESTS: u64 = 1_000;

/// The three threads, where there are three.
fn three_of(threads: Vec<KernelThread>) -> Option<(KernelThread, KernelThread, KernelThread)>
    ensures { IfSome result (λ three. threads.items ≡ three.0 ∷ three.1 ∷ three.2 ∷ []) }
{
    let mut threads = threads;
    match (
        threads.pop(),
        threads.pop(),
        threads.pop(),
        threads.is_empty(),
    ) {
        (Some(third), Some(second), Some(first), true) => Some((first, second, third)),
        _ => None,
    }
}

/// The three threads as one list.
fn list_of(
    alloc: Global,
    first: KernelThread,
    second: KernelThread,
    third: KernelThread,
) -> Result<Vec<KernelThread>, AllocError>
    ensures { IfOk result (λ threads. threads.items ≡ first ∷ second ∷ third ∷ []) }
{
    Ok(vec![in alloc; first, second, third]?)
}

/// That many turns in which nothing arrives. One that is refused is left out.
fn idle_turns(thread: KernelThread, count: u64) -> KernelThread
    ensures { place_of result.thread ≡ place_of thread.thread }
{
    let mut thread = thread;
    for now in 1..count {
        let _ = turn(&mut thread, now, None);
    }
    thread
}

/// The requests come to the thread, one a turn, all of one turn's work.
fn requests_come(thread: KernelThread) -> Option<KernelThread>
    ensures { IfSome result (λ after. place_of after.thread ≡ place_of thread.thread) }
{
    let mut thread = thread;
    for id in 1..REQUESTS + 1 {
        if turn(&mut thread, id, Some(request(id, 1))) != Ok(true) {
            return None;
        }
    }
    Some(thread)
}

/// Sends as many Runs for the core as there is room for.
fn runs(sender: &mut Sender, core: u8) {
    for _ in 0..4 {
        send(sender, Command::Run(core));
    }
}

/// Adds the names of the requests that are left.
fn add_left(left: &[Request], names: &mut Vec<u64>) -> Result<(), AllocError> {
    for request in left {
        names.push(request.id)?;
    }
    Ok(())
}

/// Adds the names of all requests that are left.
fn add_all_left(lefts: &[RequestList], names: &mut Vec<u64>) -> Result<(), AllocError> {
    for left in lefts {
        add_left(left.as_slice(), names)?;
    }
    Ok(())
}

/// Whether all requests arrived, and each was served, as some were, or is left.
fn stand_once(
    alloc: Global,
    ends: &[KernelEnd],
    lefts: &[RequestList],
) -> Result<bool, AllocError> {
    let (arrived, mut stood) = names_of(alloc, ends)?;
    let served = stood.len();
    add_all_left(lefts, &mut stood)?;
    stood.sort()?;
    Ok(served > 0 && arrived.len() as u64 == REQUESTS && arrived == stood)
}

/// The same of a team at its end.
fn stand_once_at_end(
    alloc: Global,
    config: &Config,
    threads: Vec<KernelThread>,
) -> Result<bool, AllocError>
    requires count { length threads.items ≡ threads_in config.now.tasks }
    requires team { IsTeam (map (λ t. place_of t.thread) threads.items) }
{
    let mut ends = end_all(alloc, threads)?;
    let lefts = left_of_all(alloc, config, ends.as_mut_slice())?;
    stand_once(alloc, &ends, &lefts)
}

/// Each of the two takes a Run again after a theft that found the other in its way. What they
/// served and what the third had left are then the requests that came, each once.
#[test]
fn two_threads_steal_at_once(rt: HostRuntime) -> Result<(), Fail> {
    let config = Config::read(rt.alloc(), THREE_THREADS)?;
    let Team {
        threads,
        mut senders,
        ..
    } = open_threads(rt.alloc(), &config)?;
    let Some((first, second, third)) = three_of(threads) else {
        panic!(rt; "there are not three threads")
    };
    assert!(rt; senders.len() == 3);
    runs(&mut senders[0], 0);
    runs(&mut senders[1], 1);
    let Some(third) = requests_come(third) else {
        panic!(rt; "a turn was refused")
    };
    let host = &rt;
    let (first, second) = thread::join(
        host,
        move || -> KernelThread
            ensures { place_of result.thread ≡ place_of first.thread }
        { idle_turns(first, 2 * REQUESTS) },
        move || -> KernelThread
            ensures { place_of result.thread ≡ place_of second.thread }
        { idle_turns(second, 2 * REQUESTS) },
    );
    let threads = list_of(rt.alloc(), first, second, third)?;
    assert!(rt; stand_once_at_end(rt.alloc(), &config, threads)?);
    Ok(())
}
