//! The turns of a pass, in their order.

ghost use Rattle.std.specs.Prelude.{◌≡◌, ◌++◌, List};
ghost use Rattle.cal_machine.specs.Table.{IsTable};
ghost use Rattle.cal_policy.specs.Explain.AssuredTurns as assured;
ghost use Rattle.cal_policy.specs.Explain.PolicyTurns.{made_after_by, made_before_by};
ghost use Rattle.cal_policy.specs.Explain.PolicyTurns.{next_turn_by};
ghost use Rattle.cal_policy.specs.Explain.Turns as turns;
ghost use Rattle.cal_policy.specs.Explain.Turns.{IsTurn, made_before, made_in, next_turn};
ghost use Rattle.cal_policy.specs.Setting.{Setting};

use crate::history::action::{Action, Cause};
use crate::policy::Policy;
use cal_machine::Config;

/// The parts of a pass, in their order.
#[derive(Clone, Copy, Debug, PartialEq, Eq)]
pub enum Part {
    /// Cores that their threads have left become free.
    Frees,
    /// Bans whose request is no longer shown end.
    Unbans,
    /// Siblings of cores whose request runs too long are banned.
    Bans,
    /// Over the bandwidth limit a task is cut, else a cap rises.
    Bandwidth,
    /// Congested tasks get a core.
    Grants,
}

/// The part of a pass that makes such an action.
pub fn part_of(action: Action) -> Part
    ensures { result ≡ turns.part_of action }
{
    match action {
        Action::Free { .. } => Part::Frees,
        Action::Unban { .. } => Part::Unbans,
        Action::Ban { .. } => Part::Bans,
        Action::Cap { .. } => Part::Bandwidth,
        Action::Grant { .. } => Part::Grants,
        Action::Revoke { cause, .. } => match cause {
            Cause::Ban { .. } => Part::Bans,
            Cause::Bandwidth => Part::Bandwidth,
            Cause::Preempt { .. } => Part::Grants,
        },
    }
}

/// A turn of a pass: a core's or a task's in one of its parts. The parts come in the order of this
/// list; in each its cores or tasks go upwards.
#[derive(Clone, Copy, Debug, PartialEq, Eq)]
pub enum Turn {
    /// Whether the core becomes free.
    Free { core: u8 },
    /// Whether the core's ban ends.
    Unban { core: u8 },
    /// Whether the core's sibling is banned.
    Ban { core: u8 },
    /// Whom the bandwidth figure costs a core, or gives back a step of its cap.
    Bandwidth,
    /// What the task gets, if it is latency-critical.
    LatencyCritical { task: u8 },
    /// What the task gets, if it is best-effort.
    BestEffort { task: u8 },
    /// What the task in this place of the order gets, in a pass of `Policy::Assured`, when it acts for
    /// the first time, for the second and so on. Such a pass has these turns in place of those of the
    /// latency-critical and the best-effort tasks, for each place as many as there are cores.
    Placed { place: u8, act: u8 },
    /// The pass is made.
    End,
}

/// The turn after this one, in a pass of `Policy::Caladan`.
pub fn turn_after(config: &Config, turn: Turn) -> Turn
    requires table { IsTable config.now }
    requires turn { IsTurn config.now turn }
    ensures next { result ≡ next_turn config.now turn }
    ensures follows { (s : Setting) → s.table ≡ config.now →
        made_before s result ≡ made_before s turn ++ made_in s (made_before s turn) turn }
    ensures turn { IsTurn config.now result }
{
    let cores = config.machine().cores();
    let tasks = config.tasks() as u8;
    match turn {
        Turn::Free { core } if core + 1 < cores => Turn::Free { core: core + 1 },
        Turn::Free { .. } => Turn::Unban { core: 0 },
        Turn::Unban { core } if core + 1 < cores => Turn::Unban { core: core + 1 },
        Turn::Unban { .. } => Turn::Ban { core: 0 },
        Turn::Ban { core } if core + 1 < cores => Turn::Ban { core: core + 1 },
        Turn::Ban { .. } => Turn::Bandwidth,
        Turn::Bandwidth => Turn::LatencyCritical { task: 0 },
        Turn::LatencyCritical { task } if task + 1 < tasks => {
            Turn::LatencyCritical { task: task + 1 }
        }
        Turn::LatencyCritical { .. } => Turn::BestEffort { task: 0 },
        Turn::BestEffort { task } if task + 1 < tasks => Turn::BestEffort { task: task + 1 },
        Turn::BestEffort { .. } => Turn::End,
        Turn::Placed { .. } => Turn::End,
        Turn::End => Turn::End,
    }
}

/// The turn after this one, in a pass of `Policy::Assured`.
fn assured_turn_after(config: &Config, turn: Turn) -> Turn
    requires table { IsTable config.now }
    requires turn { IsTurn config.now turn }
    ensures next { result ≡ assured.next_turn config.now turn }
    ensures turn { IsTurn config.now result }
{
    let cores = config.machine().cores();
    let tasks = config.tasks() as u8;
    match turn {
        Turn::Bandwidth => Turn::Placed { place: 0, act: 0 },
        Turn::Placed { place, act } if act + 1 < cores => Turn::Placed {
            place,
            act: act + 1,
        },
        Turn::Placed { place, .. } if place + 1 < tasks => Turn::Placed {
            place: place + 1,
            act: 0,
        },
        Turn::Placed { .. } | Turn::LatencyCritical { .. } | Turn::BestEffort { .. } => Turn::End,
        Turn::Free { .. } | Turn::Unban { .. } | Turn::Ban { .. } | Turn::End => {
            turn_after(config, turn)
        }
    }
}

/// The turn after this one, in a pass of this policy.
pub fn turn_after_by(config: &Config, policy: Policy, turn: Turn) -> Turn
    requires table { IsTable config.now }
    requires turn { IsTurn config.now turn }
    ensures next { result ≡ next_turn_by policy config.now turn }
    ensures follows { (s : Setting) → s.table ≡ config.now →
        made_before_by policy s result ≡ made_after_by policy s turn }
    ensures turn { IsTurn config.now result }
{
    match policy {
        Policy::Caladan => turn_after(config, turn),
        Policy::Assured => assured_turn_after(config, turn),
    }
}
