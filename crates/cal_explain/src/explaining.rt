//! The turns of a pass in their order, how things stand at each, and what it makes.

ghost use Rattle.cal_policy.specs.Explain.Walks.{IsWalk};

use crate::bandwidth::tell_bandwidth;
use crate::bans::tell_ban;
use crate::claims::tell_placed;
use crate::cores::{tell_free, tell_unban};
use crate::fault::ExplainFault;
use crate::grants::tell_grant;
use crate::scope::Scope;
use crate::telling::{tell_action, tell_made};
use cal_policy::Action;
use cal_policy::explain::{Part, PassWalk, Turn};
use std::io;
use std::io::Write;

/// More turns than a pass has: three of each core, one for the bandwidth, two of each task or, under
/// the assured policy, as many as there are cores, and the end.
pub const TURN_BOUND: usize = 2560;

/// Writes the explanation of the pass that a walk goes over, from its turn on.
pub fn tell_pass<W: Write>(
    mut walk: PassWalk<'_>,
    scope: Scope,
    writer: &mut W,
) -> Result<(), ExplainFault>
    requires { IsWalk walk }
{
    let mut part = None;
    let mut has_made = false;
    for n in 0..TURN_BOUND {
        let _ = n;
        if walk.turn() == Turn::End {
            break;
        }
        part = tell_heading(part, walk.turn(), writer)?;
        let is_told = has_turn(&walk, scope) && (has_made || !is_later_act(walk.turn()));
        if is_told {
            tell_turn(&walk, scope, writer)?;
        }
        let before = walk.made().len();
        walk.take()?;
        has_made = walk.made().len() > before;
        if is_told {
            tell_made(made_since(&walk, before), writer)?;
        } else {
            tell_made_of(&walk, made_since(&walk, before), scope, writer)?;
        }
    }
    Ok(())
}

/// The part of a pass that a turn is in.
fn part_of(turn: Turn) -> Option<Part> {
    match turn {
        Turn::Free { .. } => Some(Part::Frees),
        Turn::Unban { .. } => Some(Part::Unbans),
        Turn::Ban { .. } => Some(Part::Bans),
        Turn::Bandwidth => Some(Part::Bandwidth),
        Turn::LatencyCritical { .. } | Turn::BestEffort { .. } | Turn::Placed { .. } => {
            Some(Part::Grants)
        }
        Turn::End => None,
    }
}

/// The number and the name of a part in docs/POLICY.md.
pub fn name_of(part: Part) -> &'static str {
    match part {
        Part::Frees => "1 Frees",
        Part::Unbans => "2 Unbans",
        Part::Bans => "3 Bans",
        Part::Bandwidth => "4 Bandwidth",
        Part::Grants => "5 Grants",
    }
}

/// Writes the name of a turn's part where the turn before was of another, and answers the part.
fn tell_heading<W: Write>(
    before: Option<Part>,
    turn: Turn,
    writer: &mut W,
) -> io::Result<Option<Part>> {
    let part = part_of(turn);
    if let Some(part) = part {
        if before != Some(part) {
            writeln!(writer, "{}", name_of(part))?;
        }
    }
    Ok(part)
}

/// Whether a task acts in this turn for the second time or later. It does only where it acted just
/// before.
fn is_later_act(turn: Turn) -> bool {
    match turn {
        Turn::Placed { act, .. } => act > 0,
        _ => false,
    }
}

/// Whether to explain the walk's turn. A task's turn for the other kind makes nothing.
fn has_turn(walk: &PassWalk<'_>, scope: Scope) -> bool
    requires { IsWalk walk.now }
{
    let config = walk.config();
    match walk.turn() {
        Turn::Free { core } | Turn::Unban { core } => {
            scope.has_core(config, core, walk.core(core).holder)
        }
        Turn::Ban { core } => {
            let sibling = config.machine().sibling(core);
            scope.has_core(config, core, walk.core(core).holder)
                || scope.has_core(config, sibling, walk.core(sibling).holder)
        }
        Turn::Bandwidth => true,
        Turn::LatencyCritical { task } => {
            config.is_latency_critical(task as usize) && scope.has_task(task as usize)
        }
        Turn::BestEffort { task } => {
            !config.is_latency_critical(task as usize) && scope.has_task(task as usize)
        }
        Turn::Placed { place, act } => match walk.placed(place) {
            Some(task) => {
                let task = task as usize;
                scope.has_task(task) && (act == 0 || walk.claim(task).is_short)
            }
            None => false,
        },
        Turn::End => false,
    }
}

/// Writes how things stand at the walk's turn.
pub fn tell_turn<W: Write>(walk: &PassWalk<'_>, scope: Scope, writer: &mut W) -> io::Result<()>
    requires { IsWalk walk.now }
{
    match walk.turn() {
        Turn::Free { core } => tell_free(walk, core, writer),
        Turn::Unban { core } => tell_unban(walk, core, writer),
        Turn::Ban { core } => tell_ban(walk, core, writer),
        Turn::Bandwidth => tell_bandwidth(walk, scope, writer),
        Turn::LatencyCritical { task } | Turn::BestEffort { task } => {
            tell_grant(walk, task as usize, scope, writer)
        }
        Turn::Placed { place, .. } => tell_placed(walk, place, scope, writer),
        Turn::End => Ok(()),
    }
}

/// The actions that a walk has made after the first of so many.
fn made_since<'a>(walk: &'a PassWalk<'_>, before: usize) -> &'a [Action] {
    match walk.made().get(before..) {
        Some(made) => made,
        None => &[],
    }
}

/// Writes the actions whose core is in scope.
fn tell_made_of<W: Write>(
    walk: &PassWalk<'_>,
    made: &[Action],
    scope: Scope,
    writer: &mut W,
) -> io::Result<()>
    requires { IsWalk walk.now }
{
    for action in made {
        if has_core_of(walk, *action, scope) {
            tell_action(*action, writer)?;
        }
    }
    Ok(())
}

/// Whether the core that an action names is in scope.
fn has_core_of(walk: &PassWalk<'_>, action: Action, scope: Scope) -> bool
    requires { IsWalk walk.now }
{
    let core = match action {
        Action::Cap { .. } => return false,
        Action::Free { core }
        | Action::Unban { core }
        | Action::Ban { core, .. }
        | Action::Revoke { core, .. }
        | Action::Grant { core, .. } => core,
    };
    core < walk.config().machine().cores()
        && scope.has_core(walk.config(), core, walk.core(core).holder)
}
