//! Whether a task has acted in a pass: it was granted a core, or one was revoked for it.

ghost use Rattle.std.specs.Prelude.{◌≡◌, ◌<◌, length};
ghost use Rattle.cal_policy.specs.Assured.Acted as rules;
ghost use Rattle.cal_policy.specs.Pass.Grants.{is_for};

use crate::history::action::{Action, Cause};
use cal_machine::Config;

/// Whether a thread is one of the task.
fn is_own(config: &Config, task: usize, thread: usize) -> bool
    requires { task < length config.now.tasks }
    ensures { result ≡ rules.is_own config.now task thread }
{
    config.limits();
    let (first, count) = config.threads_of(task);
    first <= thread && thread < first + count
}

/// Whether a core is revoked for the task by this cause.
fn is_for_task(task: usize, cause: Cause) -> bool
    ensures { result ≡ is_for task cause }
{
    match cause {
        Cause::Preempt { task: other } => other as usize == task,
        Cause::Ban { .. } => false,
        Cause::Bandwidth => false,
    }
}

/// Whether an action grants a core to a thread of the task, or revokes one for it.
fn is_act_of(config: &Config, task: usize, action: Action) -> bool
    requires { task < length config.now.tasks }
    ensures { result ≡ rules.is_act_of config.now task action }
{
    match action {
        Action::Grant { thread, .. } => is_own(config, task, thread as usize),
        Action::Revoke { cause, .. } => is_for_task(task, cause),
        Action::Free { .. } => false,
        Action::Unban { .. } => false,
        Action::Ban { .. } => false,
        Action::Cap { .. } => false,
    }
}

/// Whether among these actions is one for the task.
pub fn has_acted(config: &Config, acts: &[Action], task: usize) -> bool
    requires { task < length config.now.tasks }
    ensures { result ≡ rules.has_acted config.now acts.now task }
{
    for action in acts {
        if is_act_of(config, task, *action) {
            return true;
        }
    }
    false
}
