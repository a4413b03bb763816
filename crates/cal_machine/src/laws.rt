//! What follows from the definitions alone. Each function does nothing: its contract is the law.

ghost use Rattle.cal_machine.specs.Laws.{SiblingsArePairs, ThreadsAreOfTheirTask};
ghost use Rattle.cal_machine.specs.Laws.{AcceptedAreTables};

/// A core's sibling is another core of the machine, and the core is its sibling's sibling.
pub fn siblings_are_pairs()
    ensures { SiblingsArePairs }
{}

/// To number the kernel threads of a task and to find the task of a kernel thread undo each other.
pub fn threads_are_of_their_task()
    ensures { ThreadsAreOfTheirTask }
{}

/// Each table that a text spells is within every limit.
pub fn accepted_are_tables()
    ensures { AcceptedAreTables }
{}
