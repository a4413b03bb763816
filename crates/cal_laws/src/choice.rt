//! Which core and which thread a task gets.

ghost use Rattle.cal_laws.specs.Choice.{ClassesAreTold, GrantsAreBest, PreemptionsHaveThread};

use cal_machine::laws::threads_are_of_their_task;
use cal_policy::laws::{chosen_has_waited_longest, chosen_is_of_least_class, legal_is_sound};

/// What a pass takes for the class of a core is the class that the core is of: 1 idle beside a core
/// of the task, 2 idle and last granted to the task, 3 idle otherwise, 4 held by a best-effort
/// task, 5 held by a latency-critical one above its guarantee; each where none before it applies.
/// (After Caladan's core allocator; the classes are Doranjei's.)
pub fn classes_are_told()
    ensures { ClassesAreTold }
{}

/// A core is granted only for a task that is congested and may book one more. Of all pairs of class
/// and core that are possible for the task it is the least; its thread has the greatest delay of
/// the task's threads that have no core and whose ring has room, and among equals the least number.
/// (After Caladan's core allocator; the order of choice is Doranjei's.)
pub fn grants_are_best()
    ensures { GrantsAreBest }
{
    legal_is_sound();
    chosen_is_of_least_class();
    chosen_has_waited_longest();
    threads_are_of_their_task();
}

/// Where a core is preempted for a task, some thread of the task has no core and room in its ring:
/// so the core is not preempted for nothing.
pub fn preemptions_have_thread()
    ensures { PreemptionsHaveThread }
{
    legal_is_sound();
    chosen_has_waited_longest();
}
