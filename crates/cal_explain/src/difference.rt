//! Why a pass of a history is none of the policy's.

ghost use Rattle.std.specs.Prelude.{◌≡◌, ◌<◌};
ghost use Rattle.cal_machine.specs.TableTasks.{threads_of_table};
ghost use Rattle.cal_policy.specs.Explain.Walks.{IsWalk};

use crate::explaining::{TURN_BOUND, name_of, tell_turn};
use crate::fault::ExplainFault;
use crate::recorded::Explainer;
use crate::telling::tell_made;
use cal_machine::Config;
use cal_policy::explain::{PassWalk, Turn, part_of};
use cal_policy::{Action, Cause, is_input, orderly};
use cal_trace::write_action;
use std::io;
use std::io::Write;

/// Writes why a pass of a history is none of the policy's.
pub fn tell_illegal<W: Write>(
    explainer: &Explainer<'_>,
    pass: usize,
    writer: &mut W,
) -> Result<(), ExplainFault> {
    let (alloc, config, history) = (explainer.alloc, explainer.config, explainer.history);
    let policy = explainer.policy;
    if pass >= history.len() {
        return Ok(());
    }
    let entry = &history[pass];
    let before = &history[..pass];
    if !orderly(config, before) {
        return Ok(());
    }
    if !is_input(config, before, &entry.input) {
        writeln!(writer, "the pass may not be given its looks")?;
        return Ok(());
    }
    let walk = PassWalk::begin_by(alloc, config, policy, before, &entry.input)?;
    let (deciding, at) = tell_difference(walk, entry.actions.as_slice(), writer)?;
    let mut again = PassWalk::begin_by(alloc, config, policy, before, &entry.input)?;
    walk_to(&mut again, deciding, at)?;
    tell_turn(&again, explainer.scope, writer)?;
    Ok(())
}

/// Writes what the policy does in the pass that a walk goes over, what the file has, and the first
/// action that differs; answers the turn that decides on it, and how many actions come before it.
fn tell_difference<W: Write>(
    mut walk: PassWalk<'_>,
    recorded: &[Action],
    writer: &mut W,
) -> Result<(Turn, usize), ExplainFault>
    requires { IsWalk walk }
{
    walk_to(&mut walk, Turn::End, 0)?;
    let made = walk.made();
    let at = first_difference(made, recorded);
    tell_both(made, recorded, at, writer)?;
    match made.get(at).or(recorded.get(at)) {
        Some(action) => Ok((turn_of(walk.config(), *action), at)),
        None => Ok((Turn::End, at)),
    }
}

/// Makes the turns before this one; of the acts of a task those before the one that comes after so
/// many actions.
fn walk_to(walk: &mut PassWalk<'_>, turn: Turn, at: usize) -> Result<(), ExplainFault>
    requires { IsWalk walk.old }
    ensures { IsWalk walk.new }
{
    for n in 0..TURN_BOUND {
        let _ = n;
        if is_at(walk, turn, at) || walk.turn() == Turn::End {
            break;
        }
        walk.take()?;
    }
    Ok(())
}

/// Whether a walk is at this turn. A task has its turn by its place under the assured policy, and acts
/// in it more than once: the act is the one that comes after so many actions, else the last.
fn is_at(walk: &PassWalk<'_>, turn: Turn, at: usize) -> bool
    requires { IsWalk walk.now }
{
    match (walk.turn(), turn) {
        (Turn::Placed { place, act }, Turn::LatencyCritical { task } | Turn::BestEffort { task }) =>
            {
                let is_last = act as usize + 1 >= walk.config().machine().cores() as usize;
                walk.placed(place) == Some(task) && (is_last || walk.made().len() >= at)
            }
        (now, _) => now == turn,
    }
}

/// The turn that would make such an action.
fn turn_of(config: &Config, action: Action) -> Turn {
    match action {
        Action::Free { core } => Turn::Free { core },
        Action::Unban { core } => Turn::Unban { core },
        Action::Ban { core, .. } => turn_beside(config, core),
        Action::Cap { .. } => Turn::Bandwidth,
        Action::Grant { thread, .. } => turn_of_thread(config, thread as usize),
        Action::Revoke { cause, .. } => match cause {
            Cause::Ban { by } => Turn::Ban { core: by },
            Cause::Bandwidth => Turn::Bandwidth,
            Cause::Preempt { task } => Turn::LatencyCritical { task },
        },
    }
}

/// The turn that bans a core; of no core of the machine the end.
fn turn_beside(config: &Config, core: u8) -> Turn {
    if core < config.machine().cores() {
        Turn::Ban {
            core: config.machine().sibling(core),
        }
    } else {
        Turn::End
    }
}

/// The turn of the task of a thread; of no thread of the table the end.
fn turn_of_thread(config: &Config, thread: usize) -> Turn {
    config.limits();
    if thread >= config.threads() {
        return Turn::End;
    }
    let task = config.task_of(thread);
    if config.is_latency_critical(task) {
        Turn::LatencyCritical { task: task as u8 }
    } else {
        Turn::BestEffort { task: task as u8 }
    }
}

/// The number of the first action in which two lists differ.
fn first_difference(made: &[Action], recorded: &[Action]) -> usize {
    let mut at = 0;
    for i in 0..made.len().min(recorded.len()) {
        if made[i] != recorded[i] {
            break;
        }
        at = i + 1;
    }
    at
}

/// Writes what the policy does and what the file has, and where they differ first.
fn tell_both<W: Write>(
    made: &[Action],
    recorded: &[Action],
    at: usize,
    writer: &mut W,
) -> io::Result<()> {
    writeln!(writer, "the policy does")?;
    tell_made(made, writer)?;
    writeln!(writer, "the file has")?;
    tell_made(recorded, writer)?;
    write!(writer, "action {at} differs: the policy does ")?;
    tell_one(made.get(at), writer)?;
    write!(writer, "; the file has ")?;
    tell_one(recorded.get(at), writer)?;
    writeln!(writer)
}

/// Writes an action and its part, or that there is none.
fn tell_one<W: Write>(action: Option<&Action>, writer: &mut W) -> io::Result<()> {
    match action {
        None => write!(writer, "nothing more"),
        Some(action) => {
            write_action(*action, writer)?;
            write!(writer, " ({})", name_of(part_of(*action)))
        }
    }
}
