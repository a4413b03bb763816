//! Of which task or core a pass is explained.

ghost use Rattle.std.specs.Prelude.{◌<◌};
ghost use Rattle.std.specs.Option.{IfSome};
ghost use Rattle.cal_machine.specs.TableTasks.{threads_of_table};
ghost use Rattle.cal_policy.specs.Board.{placement_of};

use cal_machine::Config;
use cal_policy::Holder;

/// What of a pass is told: all, or what bears on one task, one core, or both.
#[derive(Clone, Copy, Debug, PartialEq, Eq)]
pub enum Scope {
    /// Every turn.
    All,
    /// Of cores those that the task holds or leaves, and of tasks this one.
    Task { task: usize },
    /// Of cores this one, and every task's claim to it.
    Core { core: u8 },
    /// Of cores this one, and this task's claim to it.
    Claim { task: usize, core: u8 },
}

impl Scope {
    /// Whether to explain this task.
    pub fn has_task(self, task: usize) -> bool {
        match self {
            Scope::All | Scope::Core { .. } => true,
            Scope::Task { task: asked } | Scope::Claim { task: asked, .. } => asked == task,
        }
    }

    /// Whether to explain this core, given its holder.
    pub fn has_core(self, config: &Config, core: u8, holder: Holder) -> bool
        requires { IfSome (placement_of holder)
            (λ placement. placement.thread < threads_of_table config.now) }
    {
        match self {
            Scope::All => true,
            Scope::Core { core: asked } | Scope::Claim { core: asked, .. } => asked == core,
            Scope::Task { task } => match holder {
                Holder::Free => false,
                Holder::Held(placement) | Holder::Leaving(placement, _) => {
                    config.task_of(placement.thread as usize) == task
                }
            },
        }
    }

    /// Whether to list this core as a candidate.
    pub fn has_candidate(self, core: u8) -> bool {
        match self {
            Scope::All | Scope::Task { .. } => true,
            Scope::Core { core: asked } | Scope::Claim { core: asked, .. } => asked == core,
        }
    }
}
