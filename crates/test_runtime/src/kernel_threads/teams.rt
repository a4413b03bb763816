//! A team: it opens, a thread steals from another, and what arrived is served or handed out at the
//! end.
ghost use Rattle.std.specs.Prelude.{◌≡◌, length, map};
ghost use Rattle.cal_kthread.specs.Team.{IsTeam, place_of};
ghost use Rattle.cal_machine.specs.Tasks.{threads_in};

use super::{Step, TWO_THREADS, all_steps, left_of_all, names_of, request};
use cal_command::Command;
use cal_kthread::{KernelEnd, KernelThread, Request, RequestList, end_all, open_threads};
use cal_machine::Config;
use std::alloc::{AllocError, Global};
use std::test::Fail;

/// Whether these requests have these names and works.
fn are_left(left: &[Request], wanted: &[(u64, u64)]) -> bool {
    for (request, (id, work)) in left.iter().zip(wanted.iter()) {
        if request.id != *id || request.work != *work {
            return false;
        }
    }
    left.len() == wanted.len()
}

/// Whether requests 7 to 12 arrived, and 7 and 8 were served.
fn have_come(alloc: Global, ends: &[KernelEnd]) -> Result<bool, AllocError> {
    let (arrived, served) = names_of(alloc, ends)?;
    Ok(matches!(arrived.as_slice(), [7, 8, 9, 10, 11, 12]) && matches!(served.as_slice(), [7, 8]))
}

/// Whether the first of two has 9, 10 and 11 left and the second 12, with their first works.
fn are_left_by_each(lefts: &[RequestList]) -> bool {
    match lefts {
        [first, second] => {
            are_left(first.as_slice(), &[(9, 2), (10, 1), (11, 1)])
                && are_left(second.as_slice(), &[(12, 3)])
        }
        _ => false,
    }
}

/// Whether a team comes to that end.
fn end_as_meant(
    alloc: Global,
    config: &Config,
    threads: Vec<KernelThread>,
) -> Result<bool, AllocError>
    requires count { length threads.items ≡ threads_in config.now.tasks }
    requires team { IsTeam (map (λ t. place_of t.thread) threads.items) }
{
    let mut ends = end_all(alloc, threads)?;
    let lefts = left_of_all(alloc, config, ends.as_mut_slice())?;
    Ok(are_left_by_each(&lefts) && have_come(alloc, &ends)?)
}

/// The second thread steals 8, the oldest request in the first one's queue, and serves it, and is
/// then at 12. The first serves 7, is then at 9, and has 10 as its front and 11 in its queue. What
/// arrived is served, or is handed out at the end with its first work, each once.
#[test]
fn arrived_is_served_or_left(rt: HostRuntime) -> Result<(), Fail> {
    let config = Config::read(rt.alloc(), TWO_THREADS)?;
    let mut team = open_threads(rt.alloc(), &config)?;
    let steps = [
        Step::Arrive(0, 10, request(7, 1)),
        Step::Arrive(0, 20, request(8, 1)),
        Step::Arrive(0, 25, request(9, 2)),
        Step::Send(1, Command::Run(1)),
        Step::Turn(1, 30),
        Step::Send(0, Command::Run(0)),
        Step::Arrive(0, 50, request(10, 1)),
        Step::Arrive(0, 60, request(11, 1)),
        Step::Arrive(1, 70, request(12, 3)),
    ];
    assert!(rt; all_steps(&mut team.threads, &mut team.senders, &steps));
    assert!(rt; end_as_meant(rt.alloc(), &config, team.threads)?);
    Ok(())
}
