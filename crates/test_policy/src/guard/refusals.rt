//! What the guard lets through, what it refuses and why, and that it goes on after a refusal.

ghost use Rattle.std.specs.Prelude.{◌≡◌, length};
ghost use Rattle.cal_machine.specs.TableTasks.{threads_of_table};
ghost use Rattle.cal_guard.specs.Guarded.{board_in};
ghost use Rattle.cal_policy.specs.State.{IsReady};
ghost use Rattle.cal_policy.specs.Board.{HasSizes};

use crate::looks::take_in_all;
use cal_guard::{Guard, Refused, Why};
use cal_machine::Config;
use cal_policy::{Action, FoundLook, Input, Look, OpenPass, PassEntry, Record};
use cal_trace::read_history;
use std::alloc::Global;
use std::test::Fail;

/// What the guard says of actions.
type Answer = Result<(), Refused>;

fn refused(place: usize, why: Why) -> Answer {
    Err(Refused { place, why })
}

fn stepped(guard: &mut Guard, config: &Config, input: &Input, actions: &[Action]) -> Answer
    requires of { IsReady config.now (board_in guard.old) }
    requires sizes { HasSizes config.now input.now }
    ensures { IsReady config.now (board_in guard.new) }
{
    guard.step(config, input, actions)
}

/// Whether each entry's actions are answered so when they are a whole pass.
fn steps(guard: &mut Guard, config: &Config, passes: &[PassEntry], answers: &[Answer]) -> bool
    requires { IsReady config.now (board_in guard.old) }
    ensures { IsReady config.now (board_in guard.new) }
{
    for (k, pass) in passes.iter().enumerate() {
        if !guard.board().fits(config, &pass.input) {
            return false;
        }
        let answer = stepped(guard, config, &pass.input, pass.actions.as_slice());
        if answers.get(k) != Some(&answer) {
            return false;
        }
    }
    passes.len() == answers.len()
}

fn begun(guard: &mut Guard, config: &Config, input: &Input)
    requires of { IsReady config.now (board_in guard.old) }
    requires sizes { HasSizes config.now input.now }
    ensures { IsReady config.now (board_in guard.new) }
{
    guard.begin(config, input);
}

fn offered(guard: &mut Guard, config: &Config, input: &Input, actions: &[Action]) -> Answer
    requires of { IsReady config.now (board_in guard.old) }
    requires sizes { HasSizes config.now input.now }
    ensures { IsReady config.now (board_in guard.new) }
{
    guard.offer(config, input, actions)
}

/// Some of the actions of a pass, and what the guard says of them.
#[derive(Clone, Copy)]
struct Group<'a> {
    actions: &'a [Action],
    answer: Answer,
}

/// The actions of an entry, and what the guard says of them.
fn answered<'a>(entry: &'a PassEntry, answer: Answer) -> Group<'a> {
    Group {
        actions: entry.actions.as_slice(),
        answer,
    }
}

/// The groups of the two passes of `GROUPS`, and what the guard says of each.
fn all_answered(made: &[PassEntry]) -> [Group<'_>; 6]
    requires { length made.now ≡ 6 }
{
    let held = refused(1, Why::BannedHeld { core: 3 });
    [
        answered(&made[0], Ok(())),
        answered(&made[1], refused(0, Why::DoesNotFit)),
        answered(&made[2], Ok(())),
        answered(&made[3], held),
        answered(&made[4], held),
        answered(&made[5], Ok(())),
    ]
}

/// Whether, in a pass on this input, each group's actions are answered so, group after group.
fn offers(guard: &mut Guard, config: &Config, input: &Input, groups: &[Group<'_>]) -> bool
    requires { IsReady config.now (board_in guard.old) }
    ensures { IsReady config.now (board_in guard.new) }
{
    if !guard.board().fits(config, input) {
        return false;
    }
    begun(guard, config, input);
    for group in groups {
        if offered(guard, config, input, group.actions) != group.answer {
            return false;
        }
    }
    true
}

fn begun_noted(guard: &mut Guard, config: &Config, came: &OpenPass)
    requires { IsReady config.now (board_in guard.old) }
    ensures { IsReady config.now (board_in guard.new) }
{
    guard.begin_noted(config, came);
}

fn offered_noted(
    guard: &mut Guard,
    config: &Config,
    clock: u64,
    came: &OpenPass,
    actions: &[Action],
) -> Answer
    requires of { IsReady config.now (board_in guard.old) }
    requires all { came.now.count ≡ threads_of_table config.now }
    ensures { IsReady config.now (board_in guard.new) }
{
    guard.offer_noted(config, clock, 0, came, actions)
}

/// `offers` in a pass at this clock on these looks, which come in one by one.
fn offers_noted(
    guard: &mut Guard,
    config: &Config,
    clock: u64,
    looks: &[FoundLook],
    groups: &[Group<'_>],
) -> bool
    requires { IsReady config.now (board_in guard.old) }
    ensures { IsReady config.now (board_in guard.new) }
{
    let mut came = OpenPass::new();
    if !take_in_all(&mut came, config, guard.board(), looks) || came.count != config.threads() {
        return false;
    }
    begun_noted(guard, config, &came);
    for group in groups {
        if offered_noted(guard, config, clock, &came, group.actions) != group.answer {
            return false;
        }
    }
    true
}

/// The passes of these rows: what stands before the actions of each, and its actions.
fn entries(alloc: Global, config: &Config, rows: &[(&str, &str)]) -> Result<Vec<PassEntry>, Fail> {
    let mut text = String::from_str(alloc, "caladan-history,2\n")?;
    for (before, actions) in rows {
        text.push_str(*before)?;
        text.push_str(*actions)?;
    }
    let end = format!(in alloc; "end,{}\n", rows.len())?;
    text.push_str(end.as_str())?;
    Ok(read_history(alloc, config, text.as_bytes())?)
}

#[test]
fn guard_names_the_first_action_and_why(rt: HostRuntime) -> Result<(), Fail> {
    let alloc = rt.alloc();
    let config = Config::read(alloc, TABLE.as_bytes())?;
    let passes = entries(alloc, &config, &FIRST_PASSES)?;
    let mut guard = Guard::open(alloc, &config)?;
    let answers = [
        refused(0, Why::NoRoom),
        refused(1, Why::DoesNotFit),
        refused(1, Why::DoesNotFit),
        refused(1, Why::NotLeft),
        refused(1, Why::SecondCommand),
        refused(1, Why::Banned),
        refused(1, Why::AtCap),
        refused(2, Why::BannedHeld { core: 0 }),
        refused(3, Why::OverCap { task: 1 }),
        Ok(()),
    ];
    assert!(rt; steps(&mut guard, &config, &passes, &answers));
    Ok(())
}

/// Also after a refusal. A held core that is banned is revoked at once, before the next grant.
#[test]
fn guard_takes_a_pass_group_by_group(rt: HostRuntime) -> Result<(), Fail> {
    let alloc = rt.alloc();
    let config = Config::read(alloc, TABLE.as_bytes())?;
    let made = entries(alloc, &config, &GROUPS)?;
    assert_eq!(rt; made.len(), 6);
    let mut guard = Guard::open(alloc, &config)?;
    let groups = all_answered(made.as_slice());
    assert!(rt; offers(&mut guard, &config, &made[0].input, &groups[..3]));
    assert!(rt; offers(&mut guard, &config, &made[3].input, &groups[3..]));
    Ok(())
}

/// The same on looks that come in one by one. In a third pass thread 0 shows once more what is kept
/// of it, of which nothing is noted: it has not left its core.
#[test]
fn guard_takes_a_noted_pass_group_by_group(rt: HostRuntime) -> Result<(), Fail> {
    let alloc = rt.alloc();
    let config = Config::read(alloc, TABLE.as_bytes())?;
    let made = entries(alloc, &config, &GROUPS)?;
    assert_eq!(rt; made.len(), 6);
    let mut guard = Guard::open(alloc, &config)?;
    let groups = all_answered(made.as_slice());
    assert!(rt; offers_noted(&mut guard, &config, 111, &ROOM_LOOKS, &groups[..3]));
    assert!(rt; offers_noted(&mut guard, &config, 120, &SHOWN_LOOKS, &groups[3..]));
    let third = [Group {
        actions: &[Action::Free { core: 3 }],
        answer: refused(0, Why::NotLeft),
    }];
    assert!(rt; offers_noted(&mut guard, &config, 130, &SHOWN_LOOKS, &third));
    Ok(())
}

/// Four cores, a latency-critical task of two threads that is guaranteed nothing, and a best-effort
/// one of two.
const TABLE: &str = "\
cores = 4
bandwidth_limit = 1000
task = [
{ kind = \"lc\", guaranteed = 0, limit = 2, delay = 10, request = 50 },
{ kind = \"be\", guaranteed = 0, limit = 2, delay = 10, request = 50 },
]
";

/// What comes before a pass's actions: all rings full; all with room; and with room, where thread 0
/// shows itself on core 3.
const FULL: &str = "pass,111,0\nbusy,0,0,1,1\nbusy,1,0,1,1\nbusy,2,0,1,1\nbusy,3,0,1,1\n";

const ROOM: &str = "pass,111,0\nbusy,0,1,1,1\nbusy,1,1,1,1\nbusy,2,1,1,1\nbusy,3,1,1,1\n";

const SHOWN: &str = "pass,120,0\nwhole,0,1,2,1,4,0,0,0,0,101,0,0\nbusy,1,1,1,1\nbusy,2,1,1,1\n\
    busy,3,1,1,1\n";

/// A busy page, and a ring with room.
const BUSY: FoundLook = FoundLook {
    look: Look::Busy {
        first: 1,
        second: 1,
    },
    room: true,
};

/// Thread 0 on core 3, after its first command.
const ON_CORE: FoundLook = FoundLook {
    look: Look::Whole {
        number: 2,
        rec: Record {
            taken: 1,
            running: 4,
            stamp: 101,
            ..Record::ZERO
        },
    },
    room: true,
};

/// The looks of `ROOM`, and those of `SHOWN`.
const ROOM_LOOKS: [FoundLook; 4] = [BUSY, BUSY, BUSY, BUSY];

const SHOWN_LOOKS: [FoundLook; 4] = [ON_CORE, BUSY, BUSY, BUSY];

/// First passes, each in the place of those before it: where a ring is full; a core granted twice;
/// a pair banned at once; a core freed that nobody left; two commands to one thread; a banned core
/// granted; a task beyond its cap; a banned core held at the end, and a task beyond its cap; and
/// one that is permitted.
const FIRST_PASSES: [(&str, &str); 10] = [
    (FULL, "grant,0,0,3\n"),
    (ROOM, "grant,0,0,3\ngrant,0,1,3\n"),
    (ROOM, "ban,0,0,7\nban,1,0,7\n"),
    (ROOM, "grant,0,0,3\nfree,0\n"),
    (ROOM, "grant,0,0,3\nrevoke,0,bandwidth\n"),
    (ROOM, "ban,0,0,7\ngrant,0,0,3\n"),
    (ROOM, "cap,1,0\ngrant,0,2,3\n"),
    (ROOM, "grant,0,0,3\nban,0,0,7\n"),
    (ROOM, "grant,0,2,3\ngrant,1,3,3\ncap,1,1\n"),
    (ROOM, "grant,0,0,3\n"),
];

/// Groups of two passes, three of each; before the second thread 0 shows itself on its core.
const GROUPS: [(&str, &str); 6] = [
    (ROOM, "grant,3,0,3\n"),
    (ROOM, "grant,3,1,3\n"),
    (ROOM, "grant,0,2,3\n"),
    (SHOWN, "ban,3,0,7\n"),
    (SHOWN, "ban,3,0,7\ngrant,2,1,3\nrevoke,3,bandwidth\n"),
    (SHOWN, "ban,3,0,7\nrevoke,3,bandwidth\ngrant,2,1,3\n"),
];
