//! The accepted task table.

ghost use Rattle.std.specs.Prelude.{◌≡◌, ◌+◌, ◌<◌, ◌≤◌, ℕ, IfOk, length};
ghost use Rattle.cal_machine.specs.Machine.{IsMachine};
ghost use Rattle.cal_machine.specs.Tasks.{task_at, threads_in, first_thread, task_of};
ghost use Rattle.cal_machine.specs.Table.{IsTask, IsTable};
ghost use Rattle.cal_machine.specs.TableTasks.{is_latency_critical};
ghost use Rattle.cal_machine.specs.Outcome.{Gives};
ghost use Rattle.cal_machine.specs.Reading.{table_in};

use crate::fault::ConfigFault;
use crate::machine::Machine;
use crate::numbering::{MOST_THREADS, firsts_of, owners_of, threads_in};
use crate::table::read;
use crate::task::{Kind, Task};
use crate::task_table::MOST_TASKS;
use std::alloc::{AllocError, Global};
use std::marker::Model;

/// The accepted task table: a machine, the bandwidth limit and 1 to 16 tasks. Every one that there
/// is meets every limit of the table.
///
/// Contracts see it as the table. Tasks are numbered from 0 in the table's order, and kernel
/// threads from 0 in task order.
#[derive(Drop, Debug)]
pub struct Config {
    machine: Machine,
    bandwidth_limit: u64,
    tasks: Vec<Task>,
    // how many kernel threads there are, the first one of each task, and the task of each
    threads: u8,
    firsts: [u8; MOST_TASKS],
    owners: [u8; MOST_THREADS],
}

impl Model for Config {
    ghost use Rattle.std.specs.Prelude.{◌≡◌};
    ghost use Rattle.cal_machine.specs.Tasks.{threads_in};
    ghost use Rattle.cal_machine.specs.Table.{Table, IsTable};
    ghost use Rattle.cal_machine.specs.Numbering.{AreFirsts, AreOwners};

    ghost Value = { Table };

    ghost view = { λ c. record {
      cores = c.machine;
      bandwidth_limit = c.bandwidth_limit;
      tasks = c.tasks.items;
    } };

    ghost invariant = { λ c. IsTable (record {
      cores = c.machine;
      bandwidth_limit = c.bandwidth_limit;
      tasks = c.tasks.items;
    })
        × (c.threads ≡ threads_in c.tasks.items)
        × AreFirsts c.tasks.items c.firsts
        × AreOwners c.tasks.items c.owners };
}

impl Config {
    /// The task table that a text spells, or the first check that fails, in the order of
    /// `ConfigFault`'s numbers within the top table, then within each task in order, then of the
    /// sums. `Memory` may come at any place, only where memory was refused.
    ///
    /// The text is TOML: `cores`, `bandwidth_limit`, and for each task a `[[task]]` with `kind`
    /// (`lc` or `be`), `guaranteed`, `limit`, `delay` and `request`.
    pub fn read(alloc: Global, text: &[u8]) -> Result<Config, ConfigFault>
        ensures table { Gives (λ config. config) result (table_in text.now) }
        ensures accepted { IfOk result IsTable }
    {
        read(alloc, text)
    }

    /// The table of these parts.
    pub(crate) fn new(machine: Machine, bandwidth_limit: u64, tasks: Vec<Task>) -> Config
        requires { IsTable (record {
          cores = machine;
          bandwidth_limit = bandwidth_limit;
          tasks = tasks.items;
        }) }
        ensures { result ≡ record {
          cores = machine;
          bandwidth_limit = bandwidth_limit;
          tasks = tasks.items;
        } }
    {
        let threads = threads_in(tasks.as_slice()) as u8;
        let firsts = firsts_of(tasks.as_slice());
        let owners = owners_of(tasks.as_slice());
        Config {
            machine,
            bandwidth_limit,
            tasks,
            threads,
            firsts,
            owners,
        }
    }

    /// Nothing: a caller's proof learns here that the table meets every limit.
    pub fn limits(&self)
        ensures { IsTable self.now }
    {
        let _tasks = &self.tasks;
    }

    /// The machine.
    pub fn machine(&self) -> Machine
        ensures machine { result ≡ self.now.cores }
        ensures within { IsMachine result }
    {
        self.machine
    }

    /// The bandwidth above which a best-effort task loses a core, in units as given.
    pub fn bandwidth_limit(&self) -> u64
        ensures { result ≡ self.now.bandwidth_limit }
    {
        self.bandwidth_limit
    }

    /// How many tasks there are, 1 to 16.
    pub fn tasks(&self) -> usize
        ensures count { result ≡ length self.now.tasks }
        ensures some { 1 ≤ result }
        ensures few { result ≤ MOST_TASKS }
    {
        self.tasks.len()
    }

    /// How many kernel threads there are in all, 1 to `MOST_THREADS`.
    pub fn threads(&self) -> usize
        ensures count { result ≡ threads_in self.now.tasks }
        ensures some { 1 ≤ result }
        ensures few { result ≤ MOST_THREADS }
    {
        self.threads as usize
    }

    /// The task of this number.
    pub fn task(&self, t: usize) -> Task
        requires { t < length self.now.tasks }
        ensures task { result ≡ task_at self.now.tasks t }
        ensures within { IsTask result }
    {
        self.tasks[t]
    }

    /// Whether the task of this number is latency-critical; else it is best-effort.
    pub fn is_latency_critical(&self, t: usize) -> bool
        requires { t < length self.now.tasks }
        ensures { result ≡ is_latency_critical self.now t }
    {
        match self.tasks[t].kind {
            Kind::LatencyCritical => true,
            Kind::BestEffort => false,
        }
    }

    /// The task of a kernel thread.
    pub fn task_of(&self, k: usize) -> usize
        requires { k < threads_in self.now.tasks }
        ensures task { result ≡ task_of self.now.tasks k }
        ensures is_task { result < length self.now.tasks }
        ensures from_first { first_thread self.now.tasks result ≤ k }
        ensures within { k < first_thread self.now.tasks
            result + (task_at self.now.tasks result).limit }
    {
        self.owners[k] as usize
    }

    /// The kernel threads of a task: the first, and how many.
    pub fn threads_of(&self, t: usize) -> (usize, usize)
        requires { t < length self.now.tasks }
        ensures first { result.0 ≡ first_thread self.now.tasks t }
        ensures count { result.1 ≡ (task_at self.now.tasks t).limit }
        ensures within { result.0 + result.1 ≤ threads_in self.now.tasks }
        ensures each { (k : ℕ) → result.0 ≤ k → k < result.0 + result.1 →
            task_of self.now.tasks k ≡ t }
    {
        (self.firsts[t] as usize, self.task(t).limit as usize)
    }

    /// An equal table. Only memory can be refused.
    pub fn copy(&self, alloc: Global) -> Result<Config, AllocError>
        ensures { IfOk result (λ copied. copied ≡ self.now) }
    {
        let tasks = Vec::from_slice(alloc, self.tasks.as_slice())?;
        Ok(Config::new(self.machine, self.bandwidth_limit, tasks))
    }
}
