//! Which cores each task had last, kept up with each grant.

ghost use Rattle.std.specs.Prelude.{◌≡◌, ◌==◌, ◌&&◌, ◌||◌, not, ℕ, ◌<◌, Option, Some, false, if◌then◌else◌};
ghost use Rattle.std.specs.Option.{IfSome};
ghost use Rattle.cal_machine.specs.CoreSet.{has};
ghost use Rattle.cal_machine.specs.Table.{IsTable};
ghost use Rattle.cal_machine.specs.TableTasks.{threads_of_table};
ghost use Rattle.cal_machine.specs.declared.machine.TheConstants.{MOST_CORES};
ghost use Rattle.cal_machine.specs.declared.task_table.TheConstants.{MOST_TASKS};
ghost use Rattle.cal_policy.specs.Board.{HoldingSound, NamesTable};
ghost use Rattle.cal_policy.specs.Board.RecentCores.{AreRecent, had_by, last_thread_in, last_thread_with};

use crate::board::holders::Holding;
use crate::history::action::Action;
use cal_machine::{Config, CoreSet, MOST_TASKS};

/// The cores that each task had last.
#[derive(Drop)]
pub struct RecentCores {
    /// Of each task the cores whose last grant was to one of its threads.
    pub of_task: [CoreSet; MOST_TASKS],
}

impl RecentCores {
    /// The sets where no core was granted yet.
    pub fn new() -> RecentCores
        ensures { (t c : ℕ) → had_by result t c ≡ false }
    {
        RecentCores {
            of_task: [CoreSet::empty(); MOST_TASKS],
        }
    }

    /// The cores whose last grant went to a thread of the task.
    pub fn of(&self, task: usize) -> CoreSet
        requires { task < MOST_TASKS }
        ensures { (c : ℕ) → has result c ≡ had_by self.now task c }
    {
        self.of_task[task]
    }

    /// Adds a core to those of a task.
    fn insert(&mut self, task: usize, core: u8)
        requires task { task < MOST_TASKS }
        requires core { core < MOST_CORES }
        ensures { (t c : ℕ) → had_by self.new t c
            ≡ ((t == task && c == core) || had_by self.old t c) }
    {
        self.of_task[task].insert(core);
    }

    /// Takes a core from those of a task.
    fn remove(&mut self, task: usize, core: u8)
        requires task { task < MOST_TASKS }
        requires core { core < MOST_CORES }
        ensures { (t c : ℕ) → had_by self.new t c
            ≡ (not (t == task && c == core) && had_by self.old t c) }
    {
        self.of_task[task].remove(core);
    }

    /// Brings the sets up to a grant of this core to `thread`; `before` is the thread of the core's
    /// last grant, if it had one.
    fn grant(&mut self, config: &Config, core: u8, before: Option<u8>, thread: u8)
        requires table { IsTable config.now }
        requires core { core < MOST_CORES }
        requires before { IfSome before (λ last. last < threads_of_table config.now) }
        requires thread { thread < threads_of_table config.now }
        ensures kept { (last : ℕ → Option ℕ) → last core ≡ before →
            AreRecent config.now last self.old →
            AreRecent config.now (λ c. if c == core then Some thread else last c) self.new }
    {
        config.limits();
        if let Some(last) = before {
            self.remove(config.task_of(last as usize), core);
        }
        self.insert(config.task_of(thread as usize), core);
    }

    /// Brings the sets up to one more action; `holding` is as before it.
    pub fn note(&mut self, config: &Config, holding: &Holding, action: Action)
        requires table { IsTable config.now }
        requires names { NamesTable config.now action }
        requires sound { HoldingSound (threads_of_table config.now) holding.now }
        ensures kept { AreRecent config.now (last_thread_in holding.now) self.old →
            AreRecent config.now (last_thread_with action (last_thread_in holding.now)) self.new }
    {
        config.limits();
        match action {
            Action::Grant { core, thread, .. } => {
                let before = holding.thread_granted(Some(core));
                self.grant(config, core, before, thread);
            }
            Action::Free { .. } => {}
            Action::Revoke { .. } => {}
            Action::Unban { .. } => {}
            Action::Ban { .. } => {}
            Action::Cap { .. } => {}
        }
    }
}
