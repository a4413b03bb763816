//! Why each core was taken away.

ghost use Rattle.cal_laws.specs.Cause.{RevocationsHaveCause};
ghost use Rattle.cal_laws.specs.Policies.{RevocationsHaveCauseBy};

use cal_policy::laws::{
    action_is_one_more, chosen_is_of_least_class, legal_is_sound, victim_has_most_misses,
};

/// Each revocation has its cause, at its own place.
///
/// - For bandwidth: the figure is over the limit; the task that loses is a best-effort one above
///   its guarantee, no candidate has had more misses since the pass before, none with as many has a
///   lesser number, and no core that it could lose is higher.
/// - For a task: it is latency-critical, congested, books less than its limit, and no core is being
///   left for it; no pair of class and core that is possible for it is less.
/// - For a ban: the action just before is the ban, which was due, and the core is held by a task
///   above its guarantee.
///
/// (The causes are Doranjei's, after Caladan's core allocator and its controllers.)
pub fn revocations_have_cause()
    ensures { RevocationsHaveCause }
{
    legal_is_sound();
    chosen_is_of_least_class();
    victim_has_most_misses();
    action_is_one_more();
}

/// The same of each policy, by its own causes.
pub fn revocations_have_cause_by()
    ensures { RevocationsHaveCauseBy }
{
    revocations_have_cause();
}
