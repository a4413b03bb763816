//! The plain pass: decided from the whole history.

ghost use Rattle.std.specs.Prelude.{◌≡◌, []};
ghost use Rattle.cal_policy.specs.Setting.{setting};
ghost use Rattle.cal_policy.specs.Judgement.Judging.{IsInput};
ghost use Rattle.cal_policy.specs.Judgement.Orderly.{IsOrderly};
ghost use Rattle.cal_policy.specs.Pass.{pass_of};
ghost use Rattle.cal_policy.specs.Policies.{pass_by};

use crate::board::replay::board_of;
use crate::history::action_list::Actions;
use crate::history::entry::PassEntry;
use crate::history::input::Input;
use crate::pass::deciding::decide;
use crate::policy::Policy;
use cal_machine::Config;

/// Appends the actions of the policy's pass on this input after this history, and no others, to an
/// empty list. It goes over the whole history once, and takes no memory.
///
/// The rules of a pass are after Caladan; the exact ones are Doranjei's.
pub fn plain_pass_by(
    policy: Policy,
    config: &Config,
    history: &[PassEntry],
    input: &Input,
    out: &mut Actions,
)
    requires orderly { IsOrderly config.now history.now }
    requires input { IsInput config.now history.now input.now }
    requires empty { out.old ≡ [] }
    ensures { out.new ≡ pass_by policy (setting config.now history.now input.entry.now) }
{
    config.limits();
    let mut board = board_of(config, history);
    decide(config, policy, input, &mut board, out);
}

/// `plain_pass_by` of `Policy::Caladan`.
pub fn plain_pass(config: &Config, history: &[PassEntry], input: &Input, out: &mut Actions)
    requires orderly { IsOrderly config.now history.now }
    requires input { IsInput config.now history.now input.now }
    requires empty { out.old ≡ [] }
    ensures { out.new ≡ pass_of (setting config.now history.now input.entry.now) }
{
    plain_pass_by(Policy::Caladan, config, history, input, out);
}
