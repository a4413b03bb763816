//! Lines of actions, and holders and kinds in words.

ghost use Rattle.std.specs.Prelude.{◌<◌};
ghost use Rattle.std.specs.Option.{IfSome};
ghost use Rattle.cal_machine.specs.TableTasks.{threads_of_table};
ghost use Rattle.cal_policy.specs.Board.{placement_of};

use cal_machine::{Config, Kind};
use cal_policy::{Action, Holder, Placement};
use cal_trace::{write_action, write_cause};
use std::io;
use std::io::Write;

/// Writes actions, each in a line as the report has it.
pub fn tell_made<W: Write>(made: &[Action], writer: &mut W) -> io::Result<()> {
    for action in made {
        tell_action(*action, writer)?;
    }
    Ok(())
}

/// Writes an action in a line of its own.
pub fn tell_action<W: Write>(action: Action, writer: &mut W) -> io::Result<()> {
    write!(writer, "    -> ")?;
    write_action(action, writer)?;
    writeln!(writer)
}

/// Writes who has a core, and since which command.
pub fn write_holder<W: Write>(config: &Config, holder: Holder, writer: &mut W) -> io::Result<()>
    requires { IfSome (placement_of holder)
        (λ placement. placement.thread < threads_of_table config.now) }
{
    match holder {
        Holder::Free => write!(writer, "free"),
        Holder::Held(placement) => {
            write!(writer, "held by ")?;
            write_placement(config, placement, writer)
        }
        Holder::Leaving(placement, cause) => {
            write!(writer, "revoked ")?;
            write_cause(cause, writer)?;
            write!(writer, " from ")?;
            write_placement(config, placement, writer)
        }
    }
}

/// Writes a thread and the command by which it has a core.
fn write_placement<W: Write>(
    config: &Config,
    placement: Placement,
    writer: &mut W,
) -> io::Result<()>
    requires { placement.thread < threads_of_table config.now }
{
    let thread = placement.thread;
    let task = config.task_of(thread as usize);
    let number = placement.number;
    write!(
        writer,
        "thread {thread} of task {task} since its command {number}"
    )
}

/// A kind as a table has it.
pub fn kind_word(kind: Kind) -> &'static str {
    match kind {
        Kind::LatencyCritical => "lc",
        Kind::BestEffort => "be",
    }
}

/// How a figure stands to what it is compared with.
pub fn above_word(is_above: bool) -> &'static str {
    if is_above { "above" } else { "not above" }
}
