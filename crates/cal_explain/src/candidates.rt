//! Which cores are candidates for a task, of which class, and why the others are none.

ghost use Rattle.std.specs.Prelude.{◌<◌, length};
ghost use Rattle.cal_machine.specs.TableTasks.{threads_of_table};
ghost use Rattle.cal_policy.specs.Explain.Walks.{IsWalk};

use cal_policy::explain::PassWalk;
use cal_policy::{CoreClass, Holder};
use std::io;
use std::io::Write;

/// Writes the class of a core for a task; of one that is no candidate why not.
pub fn write_candidate<W: Write>(
    walk: &PassWalk<'_>,
    task: usize,
    core: u8,
    writer: &mut W,
) -> io::Result<()>
    requires walk { IsWalk walk.now }
    requires task { task < length walk.now.config.now.tasks }
    requires core { core < walk.now.config.now.cores }
{
    write!(writer, "    core {core}: ")?;
    match walk.class(task, core) {
        Some(class) => {
            let number = class.number();
            write!(writer, "class {number} {}", class_name(class))
        }
        None => write_no_class(walk, task, core, writer),
    }
}

/// The name of a class in docs/POLICY.md.
pub fn class_name(class: CoreClass) -> &'static str {
    match class {
        CoreClass::Sibling => "sibling",
        CoreClass::RecentlyUsed => "recently used",
        CoreClass::OtherIdle => "other idle",
        CoreClass::BestEffortBurstable => "best-effort burstable",
        CoreClass::LatencyCriticalBurstable => "latency-critical burstable",
    }
}

/// Writes why a core is no candidate for a task.
fn write_no_class<W: Write>(
    walk: &PassWalk<'_>,
    task: usize,
    core: u8,
    writer: &mut W,
) -> io::Result<()>
    requires walk { IsWalk walk.now }
    requires task { task < length walk.now.config.now.tasks }
    requires core { core < walk.now.config.now.cores }
{
    let state = walk.core(core);
    match state.holder {
        Holder::Free => write!(writer, "banned"),
        Holder::Leaving(..) => write!(writer, "being left"),
        Holder::Held(placement) => {
            let thread = placement.thread as usize;
            if !walk.config().is_latency_critical(task) {
                write!(writer, "held, and task {task} is best-effort")
            } else if !walk.thread(thread).has_room {
                write!(writer, "held by thread {thread}, whose ring has no room")
            } else if state.is_granted_now {
                write!(writer, "granted in this pass")
            } else if walk.task(task).awaits {
                write!(writer, "held, and a core is being left for task {task}")
            } else {
                write_no_preemption(walk, task, walk.config().task_of(thread), writer)
            }
        }
    }
}

/// Writes why a task takes no core from another, which is latency-critical.
pub fn write_no_preemption<W: Write>(
    walk: &PassWalk<'_>,
    task: usize,
    other: usize,
    writer: &mut W,
) -> io::Result<()>
    requires walk { IsWalk walk.now }
    requires task { task < length walk.now.config.now.tasks }
    requires other { other < length walk.now.config.now.tasks }
{
    let booked = walk.task(task).booked;
    let guaranteed = walk.config().task(task).guaranteed;
    if other == task {
        write!(writer, "held by the task itself")
    } else if booked >= guaranteed {
        write!(
            writer,
            "held by task {other}, and task {task} books {booked}, not below its "
        )?;
        write!(writer, "guarantee {guaranteed}")
    } else {
        let held = walk.task(other).held;
        let its = walk.config().task(other).guaranteed;
        write!(
            writer,
            "held by task {other}, which holds {held}, not above its guarantee {its}"
        )
    }
}
