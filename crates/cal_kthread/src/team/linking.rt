//! Each thread of a task gets a thief at the queue of each other.
ghost use Rattle.std.specs.Prelude.{◌≡◌, ◌+◌, ◌-◌, ◌<◌, ◌≤◌, [], ◌∷◌};
ghost use Rattle.std.specs.Prelude.{◌++◌, map, length, IfOk, MatchResult};
ghost use Rattle.cal_machine.specs.declared.numbering.TheConstants.{MOST_THREADS};
ghost use Rattle.cal_machine.specs.declared.task_table.TheConstants.{MOST_LIMIT};
ghost use Rattle.cal_kthread.specs.Team.Linking.{Lends, IsLinked, Links, shares_at, wrapped};
ghost use Rattle.cal_kthread.specs.Team.{IsTeam, place_of};

use crate::bare_thread::BareThread;
use crate::queue::Thief;
use crate::turn::sources::Source;
use crate::turn::thread::Thread;
use std::alloc::AllocError;

impl Thread {
    /// A thief at its queue.
    fn lend(&mut self) -> Result<Thief, AllocError>
        requires { 1 < self.old.queue.shares }
        ensures { MatchResult result
            (λ thief. (thief ≡ record { queue = self.old.queue.queue; had = [] })
            × (self.new ≡ record self.old {
              queue =
                  record self.old.queue { shares = self.old.queue.shares - 1 };
            }))
            (λ _. self.new ≡ self.old) }
    {
        self.queue.lend()
    }

    /// One more thread from which it steals.
    fn rob(&mut self, source: Source) -> Result<(), AllocError>
        ensures { MatchResult result
            (λ _. self.new ≡ record self.old { sources = self.old.sources ++ source ∷ [] })
            (λ _. self.new ≡ self.old) }
    {
        self.sources.push(source)?;
        Ok(())
    }
}

impl BareThread {
    /// A thief at its queue.
    fn lend(&mut self) -> Result<Thief, AllocError>
        requires { 1 < self.old.thread.queue.shares }
        ensures { MatchResult result
            (λ thief. (thief ≡ record { queue = self.old.thread.queue.queue; had = [] })
            × (self.new ≡ record self.old {
              thread = record self.old.thread {
                queue = record self.old.thread.queue { shares = self.old.thread.queue.shares - 1 };
              };
            }))
            (λ _. self.new ≡ self.old) }
    {
        self.thread.lend()
    }

    /// One more thread from which it steals, with a thief that stole nothing yet.
    fn rob(&mut self, source: Source) -> Result<(), AllocError>
        requires { source.thief.had ≡ [] }
        ensures { MatchResult result
            (λ _. self.new ≡ record self.old {
              thread = record self.old.thread {
                sources = self.old.thread.sources ++ source ∷ [];
              };
            })
            (λ _. self.new ≡ self.old) }
    {
        self.thread.rob(source)?;
        Ok(())
    }
}

/// The thread `robber` gets a thief at the queue of the thread `owner`.
fn link(threads: &mut [BareThread], robber: usize, owner: usize) -> Result<(), AllocError>
    requires robber { robber < length threads.old }
    requires owner { owner < length threads.old }
    requires few { length threads.old ≤ MOST_THREADS }
    requires share { 1 < shares_at owner threads.old }
    requires team { IsTeam (map (λ k. place_of k.thread) threads.old) }
    ensures { IfOk result (λ _. Lends robber owner threads.old threads.new) }
{
    let thief = threads[owner].lend()?;
    let source = Source {
        number: owner as u8,
        thief,
    };
    threads[robber].rob(source)?;
    Ok(())
}

/// The place in a task that is this far before another, counted back past the first to the last.
fn place_before(place: usize, distance: usize, count: usize) -> usize
    requires place { place < count }
    requires distance { distance < count }
    requires few { count ≤ MOST_LIMIT }
    ensures within { result < count }
    ensures wraps { wrapped count (result + distance) ≡ place }
{
    if distance <= place {
        place - distance
    } else {
        place + count - distance
    }
}

/// One round in a task: each of its threads gets a thief at the queue of the thread at this
/// distance, counted on past the last to the first.
fn link_round(
    threads: &mut [BareThread],
    first: usize,
    count: usize,
    distance: usize,
) -> Result<(), AllocError>
    requires few { length threads.old ≤ MOST_THREADS }
    requires task { first + count ≤ length threads.old }
    requires count { count ≤ MOST_LIMIT }
    requires distance { (1 ≤ distance) × (distance < count) }
    requires linked { IsLinked first count (distance - 1) threads.old }
    requires team { IsTeam (map (λ k. place_of k.thread) threads.old) }
    ensures { IfOk result (λ _. Links first count threads.old threads.new
        × IsLinked first count distance threads.new) }
{
    for owner in 0..count {
        let robber = place_before(owner, distance, count);
        link(threads, first + robber, first + owner)?;
    }
    Ok(())
}

/// Each thread of a task gets a thief at the queue of each other, in the order in which it is to
/// try.
pub(crate) fn link_task(
    threads: &mut [BareThread],
    first: usize,
    count: usize,
) -> Result<(), AllocError>
    requires few { length threads.old ≤ MOST_THREADS }
    requires task { first + count ≤ length threads.old }
    requires count { count ≤ MOST_LIMIT }
    requires some { 1 ≤ count }
    requires linked { IsLinked first count 0 threads.old }
    requires team { IsTeam (map (λ k. place_of k.thread) threads.old) }
    ensures { IfOk result (λ _. Links first count threads.old threads.new
        × IsLinked first count (count - 1) threads.new) }
{
    for distance in 1..count {
        link_round(threads, first, count, distance)?;
    }
    Ok(())
}
