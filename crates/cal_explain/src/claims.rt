//! Why a task gets a core under the assured policy, or gets none.

ghost use Rattle.std.specs.Prelude.{◌<◌, length};
ghost use Rattle.cal_machine.specs.TableTasks.{threads_of_table};
ghost use Rattle.cal_policy.specs.Explain.Walks.{IsWalk};

use crate::candidates::{class_name, write_no_preemption};
use crate::grants::{tell_task, tell_threads};
use crate::scope::Scope;
use cal_policy::explain::{Claim, Keeping, PassWalk};
use cal_policy::{CoreClass, Holder};
use std::io;
use std::io::Write;

/// Writes how the task in a place of the order stands at its turn, its threads, and where it waits
/// the cores that it may take.
pub fn tell_placed<W: Write>(
    walk: &PassWalk<'_>,
    place: u8,
    scope: Scope,
    writer: &mut W,
) -> io::Result<()>
    requires walk { IsWalk walk.now }
    requires place { place < length walk.now.config.now.tasks }
{
    let Some(task) = walk.placed(place) else {
        return Ok(());
    };
    let task = task as usize;
    let claim = walk.claim(task);
    tell_task(walk, task, walk.task(task), writer)?;
    tell_claim(walk, task, claim, writer)?;
    tell_threads(walk, task, writer)?;
    if claim.waits {
        tell_cores(walk, task, claim, scope, writer)
    } else {
        Ok(())
    }
}

/// Writes whether a task is short, the numbers by which it waits, and whether it does.
fn tell_claim<W: Write>(
    walk: &PassWalk<'_>,
    task: usize,
    claim: Claim,
    writer: &mut W,
) -> io::Result<()>
    requires walk { IsWalk walk.now }
    requires task { task < length walk.now.config.now.tasks }
{
    if claim.is_short {
        let lacks = claim.lacks;
        write!(writer, "    short, lacks {lacks}; ")?;
    } else {
        write!(writer, "    not short; ")?;
    }
    let (pressing, helpers) = (claim.pressing, claim.helpers);
    let (surplus, coming) = (claim.surplus, claim.coming);
    write!(
        writer,
        "pressing {pressing}, helpers {helpers}, surplus {surplus}, coming {coming}: "
    )?;
    write_wait(walk, task, claim, writer)?;
    writeln!(writer)
}

/// Writes of a task that waits whether it acts for the first time, again, or no more.
fn write_act<W: Write>(claim: Claim, writer: &mut W) -> io::Result<()> {
    if !claim.has_acted {
        write!(writer, "waits")
    } else if claim.is_short {
        write!(writer, "waits, and acts again")
    } else {
        write!(writer, "waits, and has acted in this pass")
    }
}

/// Writes whether a task waits, and if not by what.
fn write_wait<W: Write>(
    walk: &PassWalk<'_>,
    task: usize,
    claim: Claim,
    writer: &mut W,
) -> io::Result<()>
    requires walk { IsWalk walk.now }
    requires task { task < length walk.now.config.now.tasks }
{
    if claim.waits {
        write_act(claim, writer)
    } else if claim.pressing <= claim.surplus {
        write!(
            writer,
            "does not wait, since no more threads press than its surplus"
        )
    } else if !walk.task(task).may_book {
        write!(writer, "does not wait, since it may book no more")
    } else {
        write!(
            writer,
            "does not wait, since none of its threads may be granted a core"
        )
    }
}

/// Writes for each core in scope whether a task that waits may take it, and which it takes.
fn tell_cores<W: Write>(
    walk: &PassWalk<'_>,
    task: usize,
    claim: Claim,
    scope: Scope,
    writer: &mut W,
) -> io::Result<()>
    requires walk { IsWalk walk.now }
    requires task { task < length walk.now.config.now.tasks }
{
    let acts = claim.is_short || !claim.has_acted;
    let choice = walk.core_taken(task);
    for core in 0..walk.config().machine().cores() {
        let is_chosen = match choice {
            Some(chosen) => acts && chosen.number == core,
            None => false,
        };
        if scope.has_candidate(core) {
            write!(writer, "    core {core}: ")?;
            write_core(walk, task, claim, core, writer)?;
            writeln!(writer, "{}", if is_chosen { ", chosen" } else { "" })?;
        }
    }
    Ok(())
}

/// Writes the class of a core for a task that waits; of one that it may not take why not.
fn write_core<W: Write>(
    walk: &PassWalk<'_>,
    task: usize,
    claim: Claim,
    core: u8,
    writer: &mut W,
) -> io::Result<()>
    requires walk { IsWalk walk.now }
    requires task { task < length walk.now.config.now.tasks }
    requires core { core < walk.now.config.now.cores }
{
    match walk.core(core).holder {
        Holder::Leaving(..) => write!(writer, "being left"),
        Holder::Free => write_free(walk, task, core, writer),
        Holder::Held(placement) => {
            write_held(walk, task, claim, core, placement.thread as usize, writer)
        }
    }
}

/// Writes a class by its number and its name.
fn write_class<W: Write>(class: CoreClass, writer: &mut W) -> io::Result<()> {
    let number = class.number();
    write!(writer, "class {number} {}", class_name(class))
}

/// Writes the class of a free core for a task, or why the task may not take it.
fn write_free<W: Write>(
    walk: &PassWalk<'_>,
    task: usize,
    core: u8,
    writer: &mut W,
) -> io::Result<()>
    requires walk { IsWalk walk.now }
    requires task { task < length walk.now.config.now.tasks }
    requires core { core < walk.now.config.now.cores }
{
    if walk.core(core).ban.is_some() {
        return write!(writer, "banned");
    }
    match walk.open_class(task, core) {
        Some(class) => {
            write_class(class, writer)?;
            write_owed(walk, task, core, writer)
        }
        None => write_kept(walk, task, core, writer),
    }
}

/// Writes to whom an open core is owed that a task may take, if to anyone.
fn write_owed<W: Write>(
    walk: &PassWalk<'_>,
    task: usize,
    core: u8,
    writer: &mut W,
) -> io::Result<()>
    requires walk { IsWalk walk.now }
    requires core { core < walk.now.config.now.cores }
{
    match walk.owed_to(core) {
        None => Ok(()),
        Some(owed) if owed as usize == task => write!(writer, ", owed to the task"),
        Some(owed) => write!(writer, ", owed to task {owed} and not kept for it"),
    }
}

/// Writes why an open core is kept from a task.
fn write_kept<W: Write>(
    walk: &PassWalk<'_>,
    task: usize,
    core: u8,
    writer: &mut W,
) -> io::Result<()>
    requires walk { IsWalk walk.now }
    requires task { task < length walk.now.config.now.tasks }
    requires core { core < walk.now.config.now.cores }
{
    match walk.keeping(task, core) {
        Keeping::NotKept => write!(writer, "open"),
        Keeping::OwedTo { task: owed } => {
            write!(writer, "kept for task {owed}, to which it is owed")
        }
    }
}

/// Writes that a short task waits, and that no more cores are open than are lacking.
pub fn write_lacked<W: Write>(walk: &PassWalk<'_>, writer: &mut W) -> io::Result<()>
    requires walk { IsWalk walk.now }
{
    let shortage = walk.shortage();
    let (open, lacking) = (shortage.open_cores, shortage.lacking);
    write!(
        writer,
        "a short task waits, and {open} open are not more than {lacking} lacking"
    )
}

/// Writes the class of a core that `thread` holds for a task, or why it may not be revoked for the
/// task.
fn write_held<W: Write>(
    walk: &PassWalk<'_>,
    task: usize,
    claim: Claim,
    core: u8,
    thread: usize,
    writer: &mut W,
) -> io::Result<()>
    requires walk { IsWalk walk.now }
    requires task { task < length walk.now.config.now.tasks }
    requires core { core < walk.now.config.now.cores }
    requires thread { thread < threads_of_table walk.now.config.now }
{
    if !walk.config().is_latency_critical(task) {
        return write!(writer, "held, and task {task} is best-effort");
    }
    if !claim.may_revoke {
        return write_no_more(claim, writer);
    }
    match walk.held_class(task, core) {
        Some(class) => write_class(class, writer),
        None => write_no_revoke(walk, task, claim, core, thread, writer),
    }
}

/// Writes why no core may be revoked for a latency-critical task that waits.
fn write_no_more<W: Write>(claim: Claim, writer: &mut W) -> io::Result<()> {
    if claim.pressing.saturating_sub(claim.surplus) <= claim.coming {
        write!(
            writer,
            "held, and no more threads press beyond its surplus than cores are coming"
        )
    } else {
        write!(
            writer,
            "held, and the task has acted in this pass and lacks no more cores than are coming"
        )
    }
}

/// Writes why a core that `thread` holds is not taken from it for a latency-critical task.
fn write_no_revoke<W: Write>(
    walk: &PassWalk<'_>,
    task: usize,
    claim: Claim,
    core: u8,
    thread: usize,
    writer: &mut W,
) -> io::Result<()>
    requires walk { IsWalk walk.now }
    requires task { task < length walk.now.config.now.tasks }
    requires core { core < walk.now.config.now.cores }
    requires thread { thread < threads_of_table walk.now.config.now }
{
    if !walk.thread(thread).has_room {
        write!(writer, "held by thread {thread}, whose ring has no room")
    } else if walk.core(core).is_granted_now {
        write!(writer, "granted in this pass")
    } else {
        write_no_taking(walk, task, claim, walk.config().task_of(thread), writer)
    }
}

/// Writes why no core of the other task is taken for a latency-critical task.
fn write_no_taking<W: Write>(
    walk: &PassWalk<'_>,
    task: usize,
    claim: Claim,
    other: usize,
    writer: &mut W,
) -> io::Result<()>
    requires walk { IsWalk walk.now }
    requires task { task < length walk.now.config.now.tasks }
    requires other { other < length walk.now.config.now.tasks }
{
    if claim.is_short && claim.lacks <= claim.coming && walk.config().is_latency_critical(other) {
        write!(
            writer,
            "held by task {other}, which is latency-critical, and as many cores are coming as are lacked"
        )
    } else {
        write_no_preemption(walk, task, other, writer)
    }
}
