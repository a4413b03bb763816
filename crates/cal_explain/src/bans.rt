//! Why the sibling of a core is banned next, or is not.

ghost use Rattle.std.specs.Prelude.{◌<◌};
ghost use Rattle.cal_machine.specs.TableTasks.{threads_of_table};
ghost use Rattle.cal_policy.specs.Explain.Walks.{IsWalk};

use crate::claims::write_lacked;
use crate::telling::{above_word, write_holder};
use cal_policy::explain::{BanReason, PassWalk};
use cal_policy::{Holder, Policy};
use std::io;
use std::io::Write;

/// Writes why the sibling of a core is banned, or is not.
pub fn tell_ban<W: Write>(walk: &PassWalk<'_>, core: u8, writer: &mut W) -> io::Result<()>
    requires walk { IsWalk walk.now }
    requires core { core < walk.now.config.now.cores }
{
    let sibling = walk.config().machine().sibling(core);
    write!(writer, "  core {sibling}: ")?;
    write_reason(walk, core, sibling, writer)?;
    writeln!(writer)
}

/// Writes why core `sibling` is banned for core `core`, or is not.
fn write_reason<W: Write>(
    walk: &PassWalk<'_>,
    core: u8,
    sibling: u8,
    writer: &mut W,
) -> io::Result<()>
    requires walk { IsWalk walk.now }
    requires core { core < walk.now.config.now.cores }
    requires sibling { sibling < walk.now.config.now.cores }
{
    match walk.ban_reason(core) {
        BanReason::Due { thread } if gives_way(walk, core) => {
            write!(writer, "no ban for core {core}, where ")?;
            write_long(walk, thread, core, writer)?;
            write!(writer, ": core {sibling} is free, ")?;
            write_lacked(walk, writer)
        }
        BanReason::Due { thread } => {
            write!(writer, "a ban for core {core} is due: ")?;
            write_long(walk, thread, core, writer)?;
            write!(writer, "; core {sibling} is ")?;
            write_holder(walk.config(), walk.core(sibling).holder, writer)
        }
        BanReason::NotHeld => write!(writer, "no ban for core {core}, which nobody holds"),
        BanReason::BestEffort => {
            write!(
                writer,
                "no ban for core {core}, which a best-effort task holds"
            )
        }
        BanReason::NotTooLong => write_short(walk, core, writer),
        BanReason::Banned => write!(writer, "no ban for core {core}, which is banned"),
        BanReason::SiblingBanned => write!(writer, "banned already"),
        BanReason::SiblingStays => write_stays(walk, core, sibling, writer),
    }
}

/// Whether a ban of a core's sibling gives way under the walk's policy.
fn gives_way(walk: &PassWalk<'_>, core: u8) -> bool
    requires walk { IsWalk walk.now }
    requires core { core < walk.now.config.now.cores }
{
    match walk.policy() {
        Policy::Caladan => false,
        Policy::Assured => walk.is_free_and_lacked_beside(core),
    }
}

/// Writes for how long a thread's request has run, by its kept record, and how long it may.
fn write_long<W: Write>(walk: &PassWalk<'_>, thread: u8, core: u8, writer: &mut W) -> io::Result<()>
    requires walk { IsWalk walk.now }
    requires thread { thread < threads_of_table walk.now.config.now }
{
    let kept = walk.thread(thread as usize).kept;
    let config = walk.config();
    let limit = config.task(config.task_of(thread as usize)).request;
    if !kept.shows(core) {
        return write!(writer, "the record of thread {thread} is not on it");
    }
    if kept.started == 0 {
        return write!(writer, "thread {thread} is at no request");
    }
    let ran = walk.now().saturating_sub(kept.started);
    let above = above_word(limit < ran);
    write!(
        writer,
        "thread {thread} is at its request for {ran}, {above} {limit}"
    )
}

/// Writes why the request of the thread that holds a core has not run too long.
fn write_short<W: Write>(walk: &PassWalk<'_>, core: u8, writer: &mut W) -> io::Result<()>
    requires walk { IsWalk walk.now }
    requires core { core < walk.now.config.now.cores }
{
    write!(writer, "no ban for core {core}: ")?;
    match walk.core(core).holder {
        Holder::Held(placement) => write_long(walk, placement.thread, core, writer),
        Holder::Free | Holder::Leaving(..) => Ok(()),
    }
}

/// Writes why the sibling of a core, whose request runs too long, may not be emptied.
fn write_stays<W: Write>(
    walk: &PassWalk<'_>,
    core: u8,
    sibling: u8,
    writer: &mut W,
) -> io::Result<()>
    requires walk { IsWalk walk.now }
    requires core { core < walk.now.config.now.cores }
    requires sibling { sibling < walk.now.config.now.cores }
{
    write!(writer, "no ban for core {core}, where ")?;
    if let Holder::Held(placement) = walk.core(core).holder {
        write_long(walk, placement.thread, core, writer)?;
    }
    let Holder::Held(placement) = walk.core(sibling).holder else {
        return Ok(());
    };
    let thread = placement.thread;
    if !walk.thread(thread as usize).has_room {
        return write!(writer, ": the ring of its thread {thread} has no room");
    }
    let config = walk.config();
    let task = config.task_of(thread as usize);
    let held = walk.task(task).held;
    let guaranteed = config.task(task).guaranteed;
    write!(
        writer,
        ": its task {task} holds {held}, not above its guarantee {guaranteed}"
    )
}
