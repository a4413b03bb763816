//! cal_guard in use: a policy of your own chooses the actions, and the guard lets them through or
//! says which is not permitted, and why.

// begin
ghost use Rattle.std.specs.Prelude.{◌≡◌, length, OnOk};
ghost use Rattle.cal_guard.specs.Guarded.{board_in};
ghost use Rattle.cal_policy.specs.State.{IsReady};
ghost use Rattle.cal_machine.specs.TableTasks.{threads_of_table};

use cal_guard::Guard;
use cal_machine::Config;
use cal_policy::{Action, FoundLook, Look, Record};

/// Two cores and a task of one kernel thread.
const TABLE: &[u8] = b"cores = 2\nbandwidth_limit = 1000
[[task]]\nkind = \"lc\"\nguaranteed = 1\nlimit = 1\ndelay = 10\nrequest = 50\n";

/// Makes a pass of these actions, which a policy chose on what was found of each thread.
fn pass(
    rt: &HostRuntime,
    config: &Config,
    guard: &mut Guard,
    now: u64,
    found: &[FoundLook],
    chosen: &[Action],
) -> anyhow::Result<()>
    requires of { IsReady config.now (board_in guard.old) }
    requires each { length found.now ≡ threads_of_table config.now }
    ensures of { OnOk result (IsReady config.now (board_in guard.new)) }
{
    let input = guard.board().input(rt.alloc(), config, now, 0, found)?;
    if !guard.board().fits(config, &input) {
        println!(rt; "  at {now} the looks do not fit those before")?;
        return Ok(());
    }
    match guard.step(config, &input, chosen) {
        Ok(()) => println!(rt; "  at {now} let through: {chosen:?}")?,
        Err(refused) => println!(rt; "  at {now} refused: {refused}")?,
    }
    Ok(())
}

pub fn show(rt: &HostRuntime) -> anyhow::Result<()> {
    let config = Config::read(rt.alloc(), TABLE)?;
    let mut guard = Guard::open(rt.alloc(), &config)?;
    // The thread has published nothing yet, and its ring has room.
    let found = [FoundLook {
        look: Look::Whole {
            number: 0,
            rec: Record::ZERO,
        },
        room: true,
    }];
    if found.len() != config.threads() {
        return Ok(());
    }
    let grant = Action::Grant {
        core: 0,
        thread: 0,
        class: 3,
    };
    pass(rt, &config, &mut guard, 100, &found, &[grant])?;
    // It was not shown to have left core 0, so that core is not free yet.
    pass(
        rt,
        &config,
        &mut guard,
        110,
        &found,
        &[Action::Free { core: 0 }],
    )
}
// end
