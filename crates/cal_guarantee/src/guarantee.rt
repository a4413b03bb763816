//! What a task that goes on waiting below its guarantee is given.

ghost use Rattle.cal_assured.specs.Guarantee.{GuaranteesAreGiven};
ghost use Rattle.cal_guarantee.specs.Enough.{FirstAndLastAreEnough};
ghost use Rattle.cal_guarantee.specs.Example.{TheBoundIsExact, TheBoundIsReached};
ghost use Rattle.cal_guarantee.specs.Example.{TheWholeBoundIsReached};
ghost use Rattle.cal_guarantee.specs.Honest.{HonestWaitsStay};
ghost use Rattle.cal_guarantee.specs.WholeGuarantee.{GuaranteesAreGivenWhole};

/// Let a latency-critical task be short and wait where the grants of each of the passes `p` to
/// `p + d` begin, `d` at least 1. Let every ring have room in them; and let each core that is being
/// left where one of them begins, and was revoked at least `d` passes before, be freed in it. Then
/// one of these passes grants a core to a thread of the task.
///
/// It says nothing of a task whose wait comes and goes. A thread that never takes its Run counts
/// for ever as one on its way; a thread whose ring is full is never told to leave. How long `d`
/// passes are is the caller's to know.
pub fn guarantees_are_given()
    ensures { GuaranteesAreGiven }
{}

/// The same from less: rings have room in the first of the passes, and in the last each core is
/// freed that is being left where it begins and was revoked at least `d` passes before.
pub fn first_and_last_are_enough()
    ensures { FirstAndLastAreEnough }
{}

/// The same, whole. Let the task need `n` cores in each of these passes: where its grants begin, what
/// it could be granted there, and what it was granted since pass `p` began, come to `n` at least. It
/// could be granted as many cores as it lacks, has late threads for, and has threads on no core for.
/// Then in these passes `n` cores are granted to its threads.
pub fn guarantees_are_given_whole()
    ensures { GuaranteesAreGivenWhole }
{}

/// An honest wait does not come and go. Let a request of a thread be late in one pass, and clocks not
/// fall from then on. In each later pass in which the thread shows it still, is on no core where the
/// grants begin and has room in its ring, its task waits there if it is short.
pub fn honest_waits_stay()
    ensures { HonestWaitsStay }
{}

/// The guarantee's premises can be met for each `d`, and its bound is reached. In a run on two cores a
/// pass revokes both cores for a task; in that pass and in each of the `d` after it the task waits, and
/// the last of them, in which threads leave the cores, is the first that grants it one.
pub fn the_bound_is_reached()
    ensures { TheBoundIsReached }
{}

/// The same of the whole guarantee: in this run the task needs two cores in each of these passes, and is
/// granted both by the last, and none before it.
pub fn the_whole_bound_is_reached()
    ensures { TheWholeBoundIsReached }
{}

/// So the bound is exact for each `d`: it is not so that a task that needs `n` cores through the passes
/// `p` to `p + d` is granted `n` in the passes `p` to `p + e`, for any `e` less than `d`, be `n` 1 or 2.
pub fn the_bound_is_exact()
    ensures { TheBoundIsExact }
{}
