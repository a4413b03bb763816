//! The headline, as a law over what a run comes to.

ghost use Rattle.cal_run.specs.Outcome.Headline.{HeadlineOfRuns, HeadlineOfRunsBy};

use cal_world::{
    histories_are_legal_by, legal_lists_are_safe_by, no_core_runs_two,
    revocations_in_events_have_cause_by, revocations_in_events_leave_guarantees, taken_were_sent,
    tasks_run_within_limits, threads_run_by_their_last_run,
};

/// Whatever a run by a policy comes to (`IsRunBy`), the headline holds of it.
pub fn headline_of_runs_by()
    ensures { HeadlineOfRunsBy }
{
    legal_lists_are_safe_by();
    histories_are_legal_by();
    no_core_runs_two();
    threads_run_by_their_last_run();
    tasks_run_within_limits();
    taken_were_sent();
    revocations_in_events_have_cause_by();
    revocations_in_events_leave_guarantees();
}

/// `headline_of_runs_by` of `Policy::Caladan`.
pub fn headline_of_runs()
    ensures { HeadlineOfRuns }
{
    headline_of_runs_by();
}
