//! Which task the bandwidth figure costs a core, and which cap rises by a step.

ghost use Rattle.std.specs.Prelude.{◌<◌, length};
ghost use Rattle.cal_policy.specs.Explain.Walks.{IsWalk};

use crate::scope::Scope;
use crate::telling::above_word;
use cal_policy::explain::PassWalk;
use std::io;
use std::io::Write;

/// Writes how the bandwidth figure stands to its limit, and what follows for each best-effort task.
pub fn tell_bandwidth<W: Write>(walk: &PassWalk<'_>, scope: Scope, writer: &mut W) -> io::Result<()>
    requires { IsWalk walk.now }
{
    let figure = walk.bandwidth();
    let limit = walk.config().bandwidth_limit();
    let above = above_word(limit < figure);
    writeln!(writer, "  figure {figure}, {above} the limit {limit}")?;
    for task in 0..walk.config().tasks() {
        if !walk.config().is_latency_critical(task) && scope.has_task(task) {
            tell_task(walk, task, limit < figure, writer)?;
        }
    }
    Ok(())
}

/// Writes what the figure means for a best-effort task.
fn tell_task<W: Write>(
    walk: &PassWalk<'_>,
    task: usize,
    is_over: bool,
    writer: &mut W,
) -> io::Result<()>
    requires walk { IsWalk walk.now }
    requires task { task < length walk.now.config.now.tasks }
{
    if is_over {
        tell_loser(walk, task, writer)
    } else {
        let cap = walk.task(task).cap;
        let limit = walk.config().task(task).limit;
        if cap < limit {
            writeln!(writer, "  task {task}: cap {cap}, below its limit {limit}")
        } else {
            writeln!(
                writer,
                "  task {task}: cap {cap}, not below its limit {limit}"
            )
        }
    }
}

/// Writes the misses of a best-effort task, and which core it can lose.
fn tell_loser<W: Write>(walk: &PassWalk<'_>, task: usize, writer: &mut W) -> io::Result<()>
    requires walk { IsWalk walk.now }
    requires task { task < length walk.now.config.now.tasks }
{
    let misses = walk.misses(task);
    let held = walk.task(task).held;
    write!(
        writer,
        "  task {task}: {misses} misses since the pass before, holds {held}, "
    )?;
    match walk.core_to_lose(task) {
        Some(core) => write!(writer, "can lose core {core}")?,
        None => write!(writer, "can lose none")?,
    }
    match walk.victim() {
        Some(victim) if victim.number as usize == task => writeln!(writer, ": the victim"),
        _ => writeln!(writer),
    }
}
