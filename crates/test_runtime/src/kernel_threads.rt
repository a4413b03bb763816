//! Kernel threads open, serve, steal and end as the worked examples say, also while others do.
ghost use Rattle.std.specs.Prelude.{◌≡◌, ◌≤◌, IfOk, IfSome, IsTrue, length, map};
ghost use Rattle.cal_command.specs.Commands.{IsSendable};
ghost use Rattle.cal_kthread.specs.End.Account.{IsAccounted, KeepsItsWork};
ghost use Rattle.cal_kthread.specs.End.HandingOut.{HandedOutNothing};
ghost use Rattle.cal_kthread.specs.Places.{Each};
ghost use Rattle.cal_kthread.specs.Team.{IsTeam, place_of, place_of_rest};
ghost use Rattle.cal_machine.specs.Tasks.{threads_in};

mod faults;
mod meetings;
mod steals;
mod teams;
mod turns;

use cal_command::{Command, Sender};
use cal_kthread::laws::same_place_keeps_team;
use cal_kthread::{
    Entry, KernelEnd, KernelThread, Request, RequestList, TurnFault, hand_out_all, settle,
};
use cal_machine::Config;
use std::alloc::{AllocError, Global};

/// One task of two threads, and of three.
const TWO_THREADS: &[u8] =
    b"cores = 2\nbandwidth_limit = 1000\n[[task]]\nkind = \"lc\"\nguaranteed = 0\nlimit = 2\n\
    delay = 10\nrequest = 1000\n";

const THREE_THREADS: &[u8] =
    b"cores = 4\nbandwidth_limit = 1000\n[[task]]\nkind = \"lc\"\nguaranteed = 0\nlimit = 3\n\
    delay = 10\nrequest = 1000\n";

/// A request of that many turns' work.
fn request(id: u64, work: u64) -> Request {
    Request {
        id,
        work,
        misses: 3,
    }
}

/// Is there no request, or one with work?
fn may_arrive(arriving: Option<Request>) -> bool
    ensures { IsTrue result → IfSome arriving (λ request. 1 ≤ request.work) }
{
    match arriving {
        Some(request) => request.work >= 1,
        None => true,
    }
}

/// A turn with this request or none. False where the clock falls or the request has no work: then
/// none is made.
pub fn turn(
    thread: &mut KernelThread,
    now: u64,
    arriving: Option<Request>,
) -> Result<bool, TurnFault>
    ensures { place_of thread.new.thread ≡ place_of thread.old.thread }
{
    if now < 1 || now < thread.clock() || !may_arrive(arriving) {
        return Ok(false);
    }
    thread.turn(now, arriving)?;
    Ok(true)
}

/// A step of one thread of a team, which is named by its number.
#[derive(Clone, Copy)]
enum Step {
    /// The command is sent to the thread.
    Send(usize, Command),
    /// Its turn at this time, before which nothing arrives.
    Turn(usize, u64),
    /// Its turn at this time, before which this request arrives.
    Arrive(usize, u64, Request),
}

/// The steps, one after the other. False where a command was not sent, or a turn not made.
fn all_steps(threads: &mut Vec<KernelThread>, senders: &mut Vec<Sender>, steps: &[Step]) -> bool
    requires { IsTeam (map (λ t. place_of t.thread) threads.old.items) }
    ensures team { IsTeam (map (λ t. place_of t.thread) threads.new.items) }
    ensures count { length threads.new.items ≡ length threads.old.items }
{
    for step in steps {
        let done = match *step {
            Step::Send(k, command) => sent(senders, k, command),
            Step::Turn(k, now) => turn_of(threads, k, now, None),
            Step::Arrive(k, now, request) => turn_of(threads, k, now, Some(request)),
        };
        if !done {
            return false;
        }
    }
    true
}

/// A turn of this thread of a team.
fn turn_of(threads: &mut Vec<KernelThread>, k: usize, now: u64, arriving: Option<Request>) -> bool
    requires { IsTeam (map (λ t. place_of t.thread) threads.old.items) }
    ensures team { IsTeam (map (λ t. place_of t.thread) threads.new.items) }
    ensures count { length threads.new.items ≡ length threads.old.items }
{
    if k >= threads.len() {
        return false;
    }
    same_place_keeps_team();
    turn(&mut threads[k], now, arriving) == Ok(true)
}

/// Sends the command to this thread. False where there is no room, or no such core.
fn sent(senders: &mut Vec<Sender>, k: usize, command: Command) -> bool {
    if k >= senders.len() {
        return false;
    }
    send(&mut senders[k], command)
}

/// Sends a command, where there is room.
fn send(sender: &mut Sender, command: Command) -> bool {
    if !is_sendable(command) || !sender.room() {
        return false;
    }
    sender.send(command);
    true
}

/// Is it no Run for a core that no machine has?
fn is_sendable(command: Command) -> bool
    ensures { IsTrue result → IsSendable command }
{
    match command {
        Command::Run(core) => core < 128,
        Command::Park => true,
    }
}

/// What each thread of a team had left, and with it the team's account.
fn left_of_all(
    alloc: Global,
    config: &Config,
    ends: &mut [KernelEnd],
) -> Result<Vec<RequestList>, AllocError>
    requires count { length ends.old ≡ threads_in config.now.tasks }
    requires team { IsTeam (map (λ e. place_of_rest e.rest) ends.old) }
    requires work { Each KeepsItsWork ends.old }
    requires untouched { Each HandedOutNothing ends.old }
    ensures { IfOk result (λ lefts. IsAccounted (map (λ e. e.journal) ends.new) lefts.items) }
{
    settle(config, ends);
    hand_out_all(alloc, ends)
}

/// The names that arrived and those that were served, by the journals.
fn names_of(alloc: Global, ends: &[KernelEnd]) -> Result<(Vec<u64>, Vec<u64>), AllocError> {
    let (mut arrived, mut served) = (Vec::new(alloc), Vec::new(alloc));
    for end in ends {
        add_names(end.journal.as_slice(), &mut arrived, &mut served)?;
    }
    Ok((arrived, served))
}

/// Adds the names that arrived and those that were served, by the journal.
fn add_names(
    entries: &[Entry],
    arrived: &mut Vec<u64>,
    served: &mut Vec<u64>,
) -> Result<(), AllocError> {
    for entry in entries {
        match entry {
            Entry::Arrived(request) => arrived.push(request.id)?,
            Entry::Served { id } => served.push(*id)?,
            _ => {}
        }
    }
    Ok(())
}
