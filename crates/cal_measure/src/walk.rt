//! One walk over the passes of a history, for the numbers of all its cores.

pub mod each_task;
pub mod machine_time;
pub mod task_time;

ghost use Rattle.std.specs.Prelude.{◌≡◌, ◌<◌, ◌≤◌, ◌+◌, ◌++◌, ◌∷◌, [], List, IfOk, length};
ghost use Rattle.std.specs.List.{All};
ghost use Rattle.cal_machine.specs.Table.{Table};
ghost use Rattle.cal_measure.specs.Cores.{AreCoresOfTasks, AreMachineCores, MakeTheWhole};
ghost use Rattle.cal_measure.specs.Walk.{AreActionsOfEach, AreShort, EachTask, IsOpenFor};
ghost use Rattle.cal_measure.specs.Walk.{IsTimeOf, IsWalkOf};
ghost use Rattle.cal_measure.specs.Walk.{since};
ghost use Rattle.cal_policy.specs.Board.{NamesTable};
ghost use Rattle.cal_policy.specs.Judgement.Orderly.{IsOrderly};
ghost use Rattle.cal_policy.specs.State.{IsReady, IsStateAfter};
ghost use Rattle.cal_policy.specs.declared.history.action_list.TheConstants.{MOST_ACTIONS};
ghost use Rattle.cal_policy.specs.declared.history.entry.PassEntry.{PassEntry};
ghost use Rattle.cal_policy.specs.declared.history.entry.TheConstants.{MOST_PASSES};

use crate::cores::{MachineCores, TaskActions, TaskCores};
use crate::walk::each_task::{count_actions_of_each, time_each};
use crate::walk::machine_time::MachineTime;
use crate::walk::task_time::{PassTiming, TaskTime};
use cal_machine::Config;
use cal_policy::state::{Board, replay};
use cal_policy::{Action, PassEntry};
use cal_trace::GivenPass;
use std::alloc::{AllocError, Global};

/// The walk over the passes of a history, one after the other, whoever gives them. Its numbers are
/// at any time those of the passes so far, and each pass costs the work of that pass alone: there is
/// for each task a row of numbers, and one board, which is brought up by actions alone. No pass takes
/// memory. The state that a pass leaves it is told: whoever makes passes has it.
///
/// Every call is to be given the table that it was opened for.
#[derive(Drop)]
pub struct Walk {
    /// The cores, bans and caps as the actions so far leave them.
    board: Board,
    /// The clock of the last pass.
    clock: Option<u64>,
    /// What the passes did to the cores of each task.
    actions: Vec<TaskActions>,
    /// The core time of each task.
    times: Vec<TaskTime>,
    /// The core time of the machine.
    machine: MachineTime,
}

/// How many ticks there are from a clock, where there is one, to a later one; otherwise none.
fn ticks_since(clock: Option<u64>, now: u64) -> u64
    ensures { result ≡ since clock now }
{
    match clock {
        Some(clock) => now.saturating_sub(clock),
        None => 0,
    }
}

/// For so many tasks, what was done to their cores before any pass. Fails only when out of memory.
fn no_actions(alloc: Global, config: &Config) -> Result<Vec<TaskActions>, AllocError>
    ensures many { IfOk result (λ rows. length rows.items ≡ length config.now.tasks) }
    ensures each { IfOk result (λ rows. AreActionsOfEach config.now [] rows.items) }
{
    let mut rows = Vec::new(alloc);
    for task in 0..config.tasks() {
        rows.push(TaskActions::none())?;
    }
    Ok(rows)
}

/// For so many tasks, their core time before any pass. Fails only when out of memory.
fn no_times(alloc: Global, config: &Config) -> Result<Vec<TaskTime>, AllocError>
    ensures many { IfOk result (λ rows. length rows.items ≡ length config.now.tasks) }
    ensures each { IfOk result (λ rows. EachTask (IsTimeOf config.now []) rows.items) }
{
    let mut rows = Vec::new(alloc);
    for task in 0..config.tasks() {
        rows.push(TaskTime::none())?;
    }
    Ok(rows)
}

impl Walk {
    /// The walk over no pass. Fails only when out of memory.
    pub fn open(alloc: Global, config: &Config) -> Result<Walk, AllocError>
        ensures open { IfOk result (IsOpenFor config.now) }
        ensures walk { IfOk result (IsWalkOf config.now []) }
    {
        let actions = no_actions(alloc, config)?;
        let times = no_times(alloc, config)?;
        Ok(Walk {
            board: Board::new(),
            clock: None,
            actions,
            times,
            machine: MachineTime::none(),
        })
    }

    /// Takes the next pass of the history: the state that it leaves, its clock and bandwidth figure,
    /// and its actions.
    pub fn pass(&mut self, config: &Config, after: &Board, given: GivenPass, actions: &[Action])
        requires open { IsOpenFor config.now self.old }
        requires ready { IsReady config.now after.now }
        requires names { All (NamesTable config.now) actions.now }
        requires few { length actions.now ≤ MOST_ACTIONS }
        ensures open { IsOpenFor config.now self.new }
        ensures walk { (h : List PassEntry) (entry : PassEntry) → length h < MOST_PASSES →
            IsStateAfter after.now (h ++ entry ∷ []) → given.now ≡ entry.input.now →
            given.bandwidth ≡ entry.input.bandwidth → actions.now ≡ entry.actions →
            IsWalkOf config.now h self.old → IsWalkOf config.now (h ++ entry ∷ []) self.new }
    {
        let lasts = ticks_since(self.clock, given.now);
        let numbers = self.actions.as_mut_slice();
        count_actions_of_each(config, &mut self.board, numbers, actions);
        let times = self.times.as_mut_slice();
        let timing = PassTiming {
            clock: given.now,
            lasts,
        };
        time_each(config, after, times, timing);
        self.machine = self
            .machine
            .with_pass(config, after, given.bandwidth, lasts);
        self.clock = Some(given.now);
    }

    /// The numbers of each task's cores, in task order. Fails only when out of memory.
    pub fn cores(&self, alloc: Global) -> Result<Vec<TaskCores>, AllocError>
        requires { length self.now.times.items ≡ length self.now.actions.items }
        ensures { IfOk result (λ cores. (table : Table) (h : List PassEntry) →
            IsOpenFor table self.now → IsWalkOf table h self.now →
            AreCoresOfTasks table h cores.items) }
    {
        let mut cores = Vec::new(alloc);
        for task in 0..self.times.len() {
            let time = self.times[task];
            cores.push(TaskCores {
                actions: self.actions[task],
                most: time.most,
                held: time.held,
                leaving: time.leaving,
                congested: time.congested,
            })?;
        }
        Ok(cores)
    }

    /// The numbers of the machine's cores, whose parts make the whole.
    pub fn machine(&self) -> MachineCores
        ensures numbers { (table : Table) (h : List PassEntry) → IsWalkOf table h self.now →
            AreMachineCores table h result }
        ensures whole { (table : Table) (h : List PassEntry) → IsWalkOf table h self.now →
            MakeTheWhole table result }
    {
        self.machine.numbers
    }
}

/// The clock and the bandwidth figure of a pass.
pub fn given_of(entry: &PassEntry) -> GivenPass
    ensures now { result.now ≡ entry.now.input.now }
    ensures bandwidth { result.bandwidth ≡ entry.now.input.bandwidth }
{
    GivenPass {
        now: entry.input.now,
        bandwidth: entry.input.bandwidth,
    }
}

/// The walk over all passes of an orderly history, as a legal one is. Fails only when out of memory.
pub fn walked(alloc: Global, config: &Config, history: &[PassEntry]) -> Result<Walk, AllocError>
    requires orderly { IsOrderly config.now history.now }
    requires short { AreShort history.now }
    requires few { length history.now ≤ MOST_PASSES }
    ensures open { IfOk result (IsOpenFor config.now) }
    ensures walk { IfOk result (IsWalkOf config.now history.now) }
{
    config.limits();
    let mut walk = Walk::open(alloc, config)?;
    let mut state = Board::new();
    for pass in 0..history.len() {
        let entry = &history[pass];
        replay(config, &mut state, entry);
        let given = given_of(entry);
        walk.pass(config, &state, given, entry.actions.as_slice());
    }
    Ok(walk)
}
