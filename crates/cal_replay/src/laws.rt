//! What a replay is, as a law.

ghost use Rattle.cal_replay.specs.Replays.{ReplayOfPolicyIsRun};

use cal_linear::{fitting_looks_are_publications, linear_is_legal_by};

/// A replay of a history of a policy is a run by that policy which had this history: so all that
/// holds of its runs holds of it. (The watch read nothing.)
pub fn replay_of_policy_is_run()
    ensures { ReplayOfPolicyIsRun }
{
    fitting_looks_are_publications();
    linear_is_legal_by();
}
