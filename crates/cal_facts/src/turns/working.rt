//! The turns at work of the kernel threads of a run, found in what their journals tell.

ghost use Rattle.std.specs.Prelude.{◌≡◌, ◌≤◌, ◌+◌, ◌<◌, ◌^◌, ◌++◌, ℕ, List, IfOk, OnOk, length, slice_get};
ghost use Rattle.cal_machine.specs.declared.numbering.TheConstants.{MOST_THREADS};
ghost use Rattle.cal_measure.specs.Requests.{left_at};
ghost use Rattle.cal_measure.specs.Turns.{one_of};
ghost use Rattle.cal_measure.specs.Work.{journal_of, turns_at};
ghost use Rattle.cal_facts.specs.WorkTurns.{all_begun, first_left, work_at, works_below, works_of};

use crate::turns::work::WorkTurn;
use cal_kthread::{Entry, Journal, RequestList};
use cal_machine::Request;
use cal_measure::{TimedTurn, timed_of, turns_of};
use std::alloc::{AllocError, Global};

/// The journal of a thread.
fn journal_of(journals: &[Journal], thread: usize) -> &[Entry]
    ensures { result.now ≡ journal_of journals.now thread }
{
    match journals.get(thread) {
        Some(journal) => journal.as_slice(),
        None => &[],
    }
}

/// The turns of a thread, each with its end, in a run with this last clock. Fails only when out of
/// memory.
fn turns_at(
    alloc: Global,
    last: u64,
    journals: &[Journal],
    thread: usize,
) -> Result<Vec<TimedTurn>, AllocError>
    ensures { IfOk result (λ turns. turns.items ≡ turns_at last journals.now thread) }
{
    let turns = turns_of(alloc, journal_of(journals, thread))?;
    timed_of(alloc, turns.as_slice(), last)
}

/// The requests that were left with a thread.
fn left_at(left: &[RequestList], thread: usize) -> &[Request]
    ensures { result.now ≡ left_at left.now thread }
{
    match left.get(thread) {
        Some(requests) => requests.as_slice(),
        None => &[],
    }
}

/// The first of them, if there were any.
fn first_left(left: &[RequestList], thread: usize) -> Option<u64>
    ensures { result ≡ first_left left.now thread }
{
    match left_at(left, thread).first() {
        Some(request) => Some(request.id),
        None => None,
    }
}

/// Puts one thing, if there is one, at the end of a list. Fails only when out of memory.
fn put_one<T: Copy>(list: &mut Vec<T>, one: Option<T>) -> Result<(), AllocError>
    ensures { OnOk result (list.new.items ≡ list.old.items ++ one_of one) }
{
    match one {
        None => Ok(()),
        Some(one) => {
            list.push(one)?;
            Ok(())
        }
    }
}

/// The requests that a thread was at in these turns, in order, with which this one was left first.
/// Fails only when out of memory.
fn all_begun(alloc: Global, turns: &[TimedTurn], left: Option<u64>) -> Result<Vec<u64>, AllocError>
    ensures { IfOk result (λ requests. requests.items ≡ all_begun turns.now left) }
{
    let mut requests = Vec::new(alloc);
    for turn in turns {
        put_one(&mut requests, turn.served)?;
    }
    put_one(&mut requests, left)?;
    Ok(requests)
}

/// The request at a place among these, if there is one.
fn request_at(requests: &[u64], place: usize) -> Option<u64>
    ensures { result ≡ slice_get requests.now place }
{
    requests.get(place).copied()
}

/// A turn of a thread that is at this request, if it worked.
fn work_of(thread: u8, turn: TimedTurn, request: Option<u64>) -> Option<WorkTurn>
    ensures { one_of result ≡ work_at thread turn request }
{
    match request {
        Some(request) if turn.at_work => Some(WorkTurn {
            thread,
            request,
            from: turn.stamp,
            to: turn.ends,
            served: turn.served.is_some(),
        }),
        _ => None,
    }
}

/// How many requests were served, with that of one turn more, if it served one.
fn with_served(served: usize, turn: TimedTurn) -> usize
    ensures { (all : List ℕ) → length all + 1 < 2 ^ 64 → served ≡ length all →
        result ≡ length (all ++ one_of turn.served) }
{
    match turn.served {
        None => served,
        Some(_) => served.saturating_add(1),
    }
}

/// Puts the turns at work among these of a thread, with which this request was left first, at the end
/// of a list. Fails only when out of memory.
fn put_works(
    alloc: Global,
    thread: u8,
    turns: &[TimedTurn],
    left: Option<u64>,
    works: &mut Vec<WorkTurn>,
) -> Result<(), AllocError>
    ensures { OnOk result (works.new.items ≡ works.old.items ++ works_of thread turns.now left) }
{
    let requests = all_begun(alloc, turns, left)?;
    let mut served = 0usize;
    for turn in turns {
        let request = request_at(requests.as_slice(), served);
        put_one(works, work_of(thread, *turn, request))?;
        served = with_served(served, *turn);
    }
    Ok(())
}

/// The turns at work of so many threads, in a run with this last clock whose threads keep these
/// journals and leave these requests. Fails only when out of memory.
pub(crate) fn works_below(
    alloc: Global,
    threads: usize,
    last: u64,
    journals: &[Journal],
    left: &[RequestList],
) -> Result<Vec<WorkTurn>, AllocError>
    requires { threads ≤ MOST_THREADS }
    ensures { IfOk result (λ works. works.items ≡ works_below threads last journals.now left.now) }
{
    let mut works = Vec::new(alloc);
    for thread in 0..threads {
        let turns = turns_at(alloc, last, journals, thread)?;
        let first = first_left(left, thread);
        put_works(alloc, thread as u8, turns.as_slice(), first, &mut works)?;
    }
    Ok(works)
}
