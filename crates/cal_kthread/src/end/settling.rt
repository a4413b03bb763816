//! The shares of each queue are gathered at its own end.
ghost use Rattle.std.specs.Prelude.{◌≡◌, ◌≢◌, ◌+◌, ◌<◌, ℕ, [], map, length, IsTrue, IsFalse};
ghost use Rattle.cal_machine.specs.Tasks.{threads_in};
ghost use Rattle.cal_kthread.specs.End.Account.{KeepsItsWork, IsSettled, Gathers, stripped};
ghost use Rattle.cal_kthread.specs.End.Account.{sources_at};
ghost use Rattle.cal_kthread.specs.End.HandingOut.{HandedOutNothing, run_of};
ghost use Rattle.cal_kthread.specs.Places.{Each};
ghost use Rattle.cal_kthread.specs.Team.{IsTeam, place_of_rest};

use crate::end::kernel_end::ThreadEnd;
use crate::journal::kept::Kept;
use crate::turn::sources::Source;
use cal_machine::Config;

/// Gathers all shares of each queue at its own end, with what was stolen from it. Asks for the ends
/// of one team, in thread order, which the threads of `open_threads` have after any turns: see
/// `laws`. Takes no memory.
///
/// What was handed out and what is still there stays. `hand_out_all` then gives what is left, and
/// the account; it holds too where each `left` is called up to its None: see `laws`.
pub fn settle<J: Kept>(config: &Config, ends: &mut [ThreadEnd<J>])
    requires count { length ends.old ≡ threads_in config.now.tasks }
    requires team { IsTeam (map (λ e. place_of_rest e.rest) ends.old) }
    requires work { Each KeepsItsWork ends.old }
    ensures same { map stripped ends.new ≡ map stripped ends.old }
    ensures runs { map run_of ends.new ≡ map run_of ends.old }
    ensures untouched { Each HandedOutNothing ends.old → Each HandedOutNothing ends.new }
    ensures settled { IsSettled ends.new }
{
    for k in 0..config.threads() {
        give_all(ends, k);
    }
}

/// The thread's thieves give their shares back, each with what it stole.
fn give_all<J: Kept>(ends: &mut [ThreadEnd<J>], k: usize)
    requires thread { k < length ends.old }
    requires team { IsTeam (map (λ e. place_of_rest e.rest) ends.old) }
    ensures gathered { Gathers ends.old ends.new }
    ensures own { sources_at k ends.new ≡ [] }
    ensures others { (j : ℕ) → j ≢ k → sources_at j ends.new ≡ sources_at j ends.old }
{
    while give_last(ends, k) {}
}

/// The last of the thread's thieves gives its share back, with what it stole. False where there is
/// none.
fn give_last<J: Kept>(ends: &mut [ThreadEnd<J>], k: usize) -> bool
    requires thread { k < length ends.old }
    requires team { IsTeam (map (λ e. place_of_rest e.rest) ends.old) }
    ensures none { IsFalse result → (ends.new ≡ ends.old) × (sources_at k ends.old ≡ []) }
    ensures gathered { IsTrue result → Gathers ends.old ends.new }
    ensures fewer { IsTrue result →
        length (sources_at k ends.new) + 1 ≡ length (sources_at k ends.old) }
    ensures others { (j : ℕ) → j ≢ k → sources_at j ends.new ≡ sources_at j ends.old }
{
    let Some(Source { number, thief }) = ends[k].give_back() else {
        return false;
    };
    ends[number as usize].absorb(thief);
    true
}
