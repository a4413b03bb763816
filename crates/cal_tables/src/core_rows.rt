//! The numbers of a run's cores, row by row.

ghost use Rattle.std.specs.Prelude.{◌≡◌, ◌≤◌, ◌*◌, ◌^◌, length, None, slice_get, Some};
ghost use Rattle.cal_measure.specs.Cores.{most_core_time};
ghost use Rattle.cal_measure.specs.declared.cores.TaskCores.{TaskCores as OfTask};
ghost use Rattle.cal_tables.specs.Rows.{core_figure_of, machine_figure_of, up_to_greatest};

use crate::figures::{Figure, Unit, count, share};
use crate::labels::Labels;
use cal_measure::{MachineCores, TaskCores};
use std::alloc::{AllocError, Global};

/// What a row says of the cores of each task.
#[derive(Clone, Copy)]
pub enum CoreLine {
    GrantsBeside,
    GrantsAgain,
    GrantsOther,
    LostToBans,
    LostToBandwidth,
    LostToTasks,
    TakenFromOthers,
    Cuts,
    Raises,
    Bans,
    Most,
    Mean,
    MeanLeaving,
    Congested,
}

/// The rows of the tasks, in order.
pub const CORE_LINES: [CoreLine; 14] = [
    CoreLine::GrantsBeside,
    CoreLine::GrantsAgain,
    CoreLine::GrantsOther,
    CoreLine::LostToBans,
    CoreLine::LostToBandwidth,
    CoreLine::LostToTasks,
    CoreLine::TakenFromOthers,
    CoreLine::Cuts,
    CoreLine::Raises,
    CoreLine::Bans,
    CoreLine::Most,
    CoreLine::Mean,
    CoreLine::MeanLeaving,
    CoreLine::Congested,
];

/// What a row says of the machine's cores.
#[derive(Clone, Copy)]
pub enum MachineLine {
    Held,
    Leaving,
    Banned,
    Free,
    OverLimit,
    ClockOfPasses,
    ClockOfRequests,
}

/// The rows of the machine, in order.
pub const MACHINE_LINES: [MachineLine; 7] = [
    MachineLine::Held,
    MachineLine::Leaving,
    MachineLine::Banned,
    MachineLine::Free,
    MachineLine::OverLimit,
    MachineLine::ClockOfPasses,
    MachineLine::ClockOfRequests,
];

/// What stands in front of a row of the tasks.
pub fn core_label(line: CoreLine) -> &'static str {
    match line {
        CoreLine::GrantsBeside => "grants sibling",
        CoreLine::GrantsAgain => "grants recently used",
        CoreLine::GrantsOther => "grants other idle",
        CoreLine::LostToBans => "lost to bans",
        CoreLine::LostToBandwidth => "lost to bandwidth",
        CoreLine::LostToTasks => "lost to tasks",
        CoreLine::TakenFromOthers => "taken from others",
        CoreLine::Cuts => "cap cuts",
        CoreLine::Raises => "cap raises",
        CoreLine::Bans => "bans",
        CoreLine::Most => "most cores held",
        CoreLine::Mean => "mean cores held",
        CoreLine::MeanLeaving => "mean cores being left",
        CoreLine::Congested => "share congested",
    }
}

/// What stands in front of a row of the machine: what it says, and of clocks their unit.
pub fn machine_label(
    alloc: Global,
    labels: Labels<'_>,
    line: MachineLine,
) -> Result<String, AllocError> {
    let name = machine_name(line);
    match line {
        MachineLine::ClockOfPasses | MachineLine::ClockOfRequests => labels.with_unit(alloc, name),
        _ => String::from_str(alloc, name),
    }
}

/// What a row of the machine says.
fn machine_name(line: MachineLine) -> &'static str {
    match line {
        MachineLine::Held => "machine held",
        MachineLine::Leaving => "machine leaving",
        MachineLine::Banned => "machine banned",
        MachineLine::Free => "machine free",
        MachineLine::OverLimit => "machine over its bandwidth limit",
        MachineLine::ClockOfPasses => "machine clock of passes",
        MachineLine::ClockOfRequests => "machine clock of requests",
    }
}

/// What the numbers of a row of the tasks count.
pub fn core_unit(line: CoreLine) -> Unit {
    match line {
        CoreLine::Mean | CoreLine::MeanLeaving | CoreLine::Congested => Unit::Thousandth,
        _ => Unit::One,
    }
}

/// What the numbers of a row of the machine count.
pub fn machine_unit(line: MachineLine) -> Unit {
    match line {
        MachineLine::ClockOfPasses | MachineLine::ClockOfRequests => Unit::One,
        _ => Unit::Thousandth,
    }
}

/// What a row says of a task with these numbers of cores, in a run that lasted so long.
fn core_figure_of(cores: &TaskCores, lasted: u128, line: CoreLine) -> Option<Figure>
    ensures { lasted ≤ 2 ^ 100 → result ≡ core_figure_of cores.now lasted line }
{
    let actions = cores.actions;
    match line {
        CoreLine::GrantsBeside => count(actions.grants_beside),
        CoreLine::GrantsAgain => count(actions.grants_again),
        CoreLine::GrantsOther => count(actions.grants_other),
        CoreLine::LostToBans => count(actions.lost_to_bans),
        CoreLine::LostToBandwidth => count(actions.lost_to_bandwidth),
        CoreLine::LostToTasks => count(actions.lost_to_tasks),
        CoreLine::TakenFromOthers => count(actions.taken_from_others),
        CoreLine::Cuts => count(actions.cuts),
        CoreLine::Raises => count(actions.raises),
        CoreLine::Bans => count(actions.bans),
        CoreLine::Most => count(cores.most as usize),
        CoreLine::Mean => share(cores.held, lasted),
        CoreLine::MeanLeaving => share(cores.leaving, lasted),
        CoreLine::Congested => share(cores.congested, lasted),
    }
}

/// What a row says of a task's cores, which a run that lasted so long may not have, where there is
/// something.
pub fn core_figure(cores: &[TaskCores], lasted: u128, task: usize, line: CoreLine) -> Option<Figure>
    ensures there { (of_task : OfTask) → slice_get cores.now task ≡ Some of_task →
        lasted ≤ 2 ^ 100 → result ≡ core_figure_of of_task lasted line }
    ensures missing { length cores.now ≤ task → result ≡ None }
{
    let cores = cores.get(task)?;
    core_figure_of(cores, lasted, line)
}

/// Some clock ticks, up to the greatest number, as a figure.
fn ticks(ticks: u128) -> Option<Figure>
    ensures { result ≡ Some (up_to_greatest ticks) }
{
    Some(Figure::of(ticks.min(u64::MAX as u128) as u64).ended())
}

/// What a row says of a machine with these numbers and so much core time in all, in a run whose
/// turns last so long.
fn machine_figure_of(
    machine: &MachineCores,
    whole: u128,
    turns: u64,
    line: MachineLine,
) -> Option<Figure>
    ensures { machine.now.lasted ≤ 2 ^ 100 → whole ≤ 2 ^ 100 →
        result ≡ machine_figure_of machine.now whole turns line }
{
    match line {
        MachineLine::Held => share(machine.held, whole),
        MachineLine::Leaving => share(machine.leaving, whole),
        MachineLine::Banned => share(machine.banned, whole),
        MachineLine::Free => share(machine.free, whole),
        MachineLine::OverLimit => share(machine.over_limit, machine.lasted),
        MachineLine::ClockOfPasses => ticks(machine.lasted),
        MachineLine::ClockOfRequests => Some(Figure::of(turns)),
    }
}

/// The core time of so many cores over the passes of a history with these numbers.
pub fn whole_time(machine: &MachineCores, cores: u8) -> u128
    ensures whole { machine.now.lasted ≤ 2 ^ 100 → result ≡ machine.now.lasted * cores }
    ensures few { machine.now.lasted ≤ most_core_time → result ≤ 2 ^ 100 }
{
    machine.lasted.saturating_mul(cores as u128)
}

/// What a row says of the machine's cores, of which there are so many, in a run whose turns last so
/// long, where there is something.
pub fn machine_figure(
    machine: &MachineCores,
    turns: u64,
    line: MachineLine,
    cores: u8,
) -> Option<Figure>
    ensures { machine.now.lasted ≤ 2 ^ 100 → machine.now.lasted * cores ≤ 2 ^ 100 →
        result ≡ machine_figure_of machine.now (machine.now.lasted * cores) turns line }
{
    machine_figure_of(machine, whole_time(machine, cores), turns, line)
}

/// Whether a row is there without turns: one of a history alone.
pub fn is_of_passes(line: MachineLine) -> bool {
    match line {
        MachineLine::ClockOfRequests => false,
        _ => true,
    }
}
