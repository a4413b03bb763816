//! Another policy behind the guard. The looks are made up; each pass prints what was let through,
//! and what was refused and why; at the end the whole history is asked about. With a number as its
//! word the program makes so many passes in silence, to be timed (bench/guard).
#![tactic(auto)]

ghost use Rattle.std.specs.Prelude.{◌≤◌, length};
ghost use Rattle.cal_policy.specs.Board.{HasSizes};
ghost use Rattle.cal_guard.specs.Guarded.{board_in};
ghost use Rattle.cal_policy.specs.State.{IsReady};

mod first_come;
mod long_run;
mod made;

use cal_guard::{Guard, Refused, is_permitted};
use cal_machine::Config;
use cal_policy::{Action, ActionList, Input, PassEntry};
use first_come::FirstCome;
use long_run::long_run;
use made::{Made, PASSES, TABLE};
use std::alloc::{AllocError, Global};
use std::{env, io};

/// The input of a pass: its looks, judged after the passes before.
fn input_of(
    alloc: Global,
    config: &Config,
    guard: &Guard,
    made: &Made,
) -> Result<Input, AllocError> {
    let mut found = Vec::new(alloc);
    for k in 0..config.threads() {
        found.push(made.found(k))?;
    }
    guard.board().input(alloc, config, made.now, 0, &found)
}

/// Lets the chosen actions through, or else those before the first that is not permitted. Tells how
/// many, and what was refused.
fn let_through(
    config: &Config,
    guard: &mut Guard,
    input: &Input,
    chosen: &[Action],
) -> (usize, Option<Refused>)
    requires of { IsReady config.now (board_in guard.old) }
    requires sizes { HasSizes config.now input.now }
    ensures of { IsReady config.now (board_in guard.new) }
    ensures few { result.0 ≤ length chosen.now }
{
    guard.begin(config, input);
    let Err(refused) = guard.offer(config, input, chosen) else {
        return (chosen.len(), None);
    };
    let before = refused.place.min(chosen.len());
    match guard.offer(config, input, &chosen[..before]) {
        Ok(()) => (before, Some(refused)),
        Err(_) => (0, Some(refused)),
    }
}

/// Makes a pass of what the policy chooses on an input that fits, and prints what became of it.
fn make_pass(
    rt: &(impl Print + AllocGlobal),
    config: &Config,
    guard: &mut Guard,
    policy: &mut FirstCome,
    input: Input,
) -> io::Result<PassEntry>
    requires of { IsReady config.now (board_in guard.old) }
    requires sizes { HasSizes config.now input }
    ensures of { IsReady config.now (board_in guard.new) }
{
    println!(rt; "pass at {}", input.now)?;
    let mut actions = policy.choose(rt.alloc(), config, input.seen.as_slice())?;
    let (taken, refused) = let_through(config, guard, &input, &actions);
    actions.truncate(taken);
    for action in &actions {
        policy.note(*action);
        println!(rt; "  {action:?}")?;
    }
    if let Some(refused) = refused {
        println!(rt; "  refused: {refused}")?;
    }
    Ok(PassEntry {
        input,
        actions: ActionList::new(actions),
    })
}

/// Makes a pass on these looks; none where they do not fit what was shown before.
fn show_pass(
    rt: &(impl Print + AllocGlobal),
    config: &Config,
    guard: &mut Guard,
    policy: &mut FirstCome,
    made: &Made,
) -> io::Result<Option<PassEntry>>
    requires { IsReady config.now (board_in guard.old) }
    ensures { IsReady config.now (board_in guard.new) }
{
    let input = input_of(rt.alloc(), config, guard, made)?;
    if !guard.board().fits(config, &input) {
        return Ok(None);
    }
    Ok(Some(make_pass(rt, config, guard, policy, input)?))
}

/// The made looks, pass by pass.
fn show(rt: &(impl Print + AllocGlobal), config: &Config) -> io::Result<()> {
    let mut guard = Guard::open(rt.alloc(), config)?;
    let mut policy = FirstCome::new();
    let mut history = Vec::new(rt.alloc());
    for made in &PASSES {
        if let Some(entry) = show_pass(rt, config, &mut guard, &mut policy, made)? {
            history.push(entry)?;
        }
    }
    let permitted = is_permitted(config, &history);
    println!(rt; "{} passes, permitted: {permitted}", history.len())
}

fn main(rt: HostRuntime) -> anyhow::Result<()> {
    let config = Config::read(rt.alloc(), TABLE)?;
    match env::args(&rt)?.nth(1) {
        None => show(&rt, &config)?,
        Some(passes) => {
            let through = long_run(rt.alloc(), &config, passes.parse()?)?;
            println!(rt; "{through} passes let through")?;
        }
    }
    Ok(())
}
