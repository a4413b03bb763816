//! The order in which the tasks have their turns where grants are made.

ghost use Rattle.cal_policy.specs.Assured.Turns.{TurnsAreInOrder, TasksHaveTheirPlace};
ghost use Rattle.cal_policy.specs.Assured.Turns.{PlacesHaveTheirTask};

/// After any actions the turns come in a strict order: no task has its turn before itself; a task
/// that comes before another comes before all that follow that one; of two tasks one is first.
pub fn turns_are_in_order()
    ensures { TurnsAreInOrder }
{}

/// Each task of the table has a place in the order, which is its own.
pub fn tasks_have_their_place()
    ensures { TasksHaveTheirPlace }
{}

/// Each place in the order, as many as the table has tasks, has one task.
pub fn places_have_their_task()
    ensures { PlacesHaveTheirTask }
{}
