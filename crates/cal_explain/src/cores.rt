//! Why a core becomes free or does not, and why its ban ends or does not.

ghost use Rattle.std.specs.Prelude.{◌<◌};
ghost use Rattle.cal_machine.specs.TableTasks.{threads_of_table};
ghost use Rattle.cal_policy.specs.Explain.Walks.{IsWalk};

use crate::telling::write_holder;
use cal_policy::explain::{BannedFor, CoreState, PassWalk};
use cal_policy::{Holder, Placement, Policy};
use std::io;
use std::io::Write;

/// Writes who has a core, and why it becomes free or does not.
pub fn tell_free<W: Write>(walk: &PassWalk<'_>, core: u8, writer: &mut W) -> io::Result<()>
    requires walk { IsWalk walk.now }
    requires core { core < walk.now.config.now.cores }
{
    let state = walk.core(core);
    write!(writer, "  core {core}: ")?;
    write_holder(walk.config(), state.holder, writer)?;
    match state.holder {
        Holder::Free => {}
        Holder::Held(placement) | Holder::Leaving(placement, _) => {
            write_leaving(walk, state.is_left, placement, writer)?;
        }
    }
    writeln!(writer)
}

/// Writes by what the kept record of a core's thread shows that the core was left, or by what it
/// does not.
fn write_leaving<W: Write>(
    walk: &PassWalk<'_>,
    is_left: bool,
    placement: Placement,
    writer: &mut W,
) -> io::Result<()>
    requires walk { IsWalk walk.now }
    requires thread { placement.thread < threads_of_table walk.now.config.now }
{
    let kept = walk.thread(placement.thread as usize).kept;
    let taken = kept.taken;
    if is_left {
        write!(
            writer,
            "; left: its record acknowledges {taken} and is on no core"
        )
    } else if u128::from(taken) < placement.number {
        write!(writer, "; not left: its record acknowledges {taken} alone")
    } else {
        let on = kept.running.saturating_sub(1);
        write!(writer, "; not left: its record is on core {on}")
    }
}

/// Writes for whom a core is banned, and why its ban ends or does not; of a core that is not banned
/// nothing.
pub fn tell_unban<W: Write>(walk: &PassWalk<'_>, core: u8, writer: &mut W) -> io::Result<()>
    requires walk { IsWalk walk.now }
    requires core { core < walk.now.config.now.cores }
{
    let state: CoreState = walk.core(core);
    let Some(ban) = state.ban else { return Ok(()) };
    write!(writer, "  core {core}: banned for thread {}", ban.thread)?;
    write!(writer, ", whose request began at {}", ban.started)?;
    write_ban_end(walk, core, ban, writer)?;
    writeln!(writer)
}

/// Writes by what the kept record of a ban's thread ends the ban, or keeps it.
fn write_ban_end<W: Write>(
    walk: &PassWalk<'_>,
    core: u8,
    ban: BannedFor,
    writer: &mut W,
) -> io::Result<()>
    requires walk { IsWalk walk.now }
    requires core { core < walk.now.config.now.cores }
    requires thread { ban.thread < threads_of_table walk.now.config.now }
{
    let sibling = walk.config().machine().sibling(core);
    let kept = walk.thread(ban.thread as usize).kept;
    if !kept.shows(sibling) {
        write!(writer, "; ends: its record is not on core {sibling}")
    } else if kept.started == 0 {
        write!(writer, "; ends: its record is at no request")
    } else if kept.started != ban.started {
        write!(
            writer,
            "; ends: its record is at a request begun at {}",
            kept.started
        )
    } else if is_wanted(walk) {
        write_wanted(walk, writer)
    } else {
        write!(
            writer,
            "; stays: its record is on core {sibling}, at that request"
        )
    }
}

/// Whether bans end for short tasks under the walk's policy.
fn is_wanted(walk: &PassWalk<'_>) -> bool
    requires { IsWalk walk.now }
{
    match walk.policy() {
        Policy::Caladan => false,
        Policy::Assured => walk.shortage().are_wanted,
    }
}

/// Writes that a ban ends since open cores are wanted.
fn write_wanted<W: Write>(walk: &PassWalk<'_>, writer: &mut W) -> io::Result<()>
    requires { IsWalk walk.now }
{
    let shortage = walk.shortage();
    let (open, lacking) = (shortage.open_cores, shortage.lacking);
    write!(
        writer,
        "; ends: a short task waits, and {open} open are fewer than {lacking} lacking"
    )
}
