//! cal_kthread in use: kernel threads make turns, and at the end each request is accounted for.

ghost use Rattle.std.specs.Prelude.{◌≡◌, ◌<◌, ◌≤◌, length, map, IfSome};
ghost use Rattle.cal_kthread.specs.Team.{IsTeam, place_of};

use cal_command::{Command, Sender};
use cal_kthread::laws::same_place_keeps_team;
use cal_kthread::{
    KernelEnd, KernelThread, Request, RequestList, end_all, hand_out_all, open_threads, settle,
};
use cal_machine::Config;

/// Two cores and a task of one kernel thread.
const TABLE: &[u8] = b"cores = 2\nbandwidth_limit = 1000
[[task]]\nkind = \"lc\"\nguaranteed = 1\nlimit = 1\ndelay = 10\nrequest = 50\n";

// begin run
pub fn show(rt: &HostRuntime) -> anyhow::Result<()> {
    let (alloc, config) = (rt.alloc(), Config::read(rt.alloc(), TABLE)?);
    let mut team = open_threads(alloc, &config)?;
    turn(&mut team.threads, 0, 10, Some(request(7, 1)))?; // it arrives, and waits
    run_first(&mut team.senders, 0); // the thread is sent a core,
    turn(&mut team.threads, 0, 20, None)?; // and serves it there
    turn(&mut team.threads, 0, 30, Some(request(8, 2)))?; // of this one a part is done
    let mut ends = end_all(alloc, team.threads)?; // the run is over
    let each = ends.as_mut_slice();
    settle(&config, each);
    let left = hand_out_all(alloc, each)?; // what each thread had left
    print(rt, &ends, &left)
}
// end

// begin helpers
/// A turn of thread `k` at this clock, in which this request or none arrives.
fn turn(
    threads: &mut Vec<KernelThread>,
    k: usize,
    now: u64,
    arriving: Option<Request>,
) -> anyhow::Result<()>
    requires team { IsTeam (map (λ t. place_of t.thread) threads.old.items) }
    requires work { IfSome arriving (λ request. 1 ≤ request.work) }
    ensures team { IsTeam (map (λ t. place_of t.thread) threads.new.items) }
    ensures count { length threads.new.items ≡ length threads.old.items }
{
    if k >= threads.len() || now < 1 || now < threads[k].clock() {
        return Ok(());
    }
    same_place_keeps_team();
    threads[k].turn(now, arriving)?;
    Ok(())
}

/// Sends the first thread to this core, where its ring has room.
fn run_first(senders: &mut Vec<Sender>, core: u8)
    requires { core < 128 }
{
    if let Some(sender) = senders.first_mut() {
        if sender.room() {
            sender.send(Command::Run(core));
        }
    }
}

/// A request of that many turns' work.
fn request(id: u64, work: u64) -> Request
    ensures { result.work ≡ work }
{
    Request {
        id,
        work,
        misses: 0,
    }
}

// end

/// What each thread did, and what it had left.
fn print(rt: &HostRuntime, ends: &Vec<KernelEnd>, lefts: &Vec<RequestList>) -> anyhow::Result<()> {
    for end in ends {
        for entry in end.journal.as_slice() {
            println!(rt; "  {entry:?}")?;
        }
    }
    for left in lefts {
        for request in left.as_slice() {
            println!(rt; "  left: {request:?}")?;
        }
    }
    Ok(())
}
