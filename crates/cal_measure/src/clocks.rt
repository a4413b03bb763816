//! When each request of a run came, and when the run ended.

ghost use Rattle.std.specs.Prelude.{◌≡◌, ℕ, IfOk, List};
ghost use Rattle.cal_came.specs.Came.{came_at, came_to};
ghost use Rattle.cal_came.specs.declared.came.Came.{Came as CameOf};
ghost use Rattle.cal_measure.specs.Clocks.{AreClocksOf, last_clock, last_pass, run_end};
ghost use Rattle.cal_measure.specs.Clocks.{turns_last};

use cal_came::Came;
use cal_trace::{Arrivals, GivenPass};
use std::alloc::{AllocError, Global};
use std::collections::HashMap;

/// How each request came, by its name.
#[derive(Drop)]
pub struct ArrivalClocks {
    came: HashMap<u64, Came>,
}

/// The clock of the last turn; 0 where there is none.
pub(crate) fn last_clock(turns: &[u64]) -> u64
    ensures { result ≡ last_clock turns.now }
{
    match turns.get(turns.len().saturating_sub(1)) {
        Some(clock) => *clock,
        None => 0,
    }
}

/// The clock of the last pass that is given; 0 where there is none.
fn last_pass(passes: &[GivenPass]) -> u64
    ensures { result ≡ last_pass passes.now }
{
    match passes.get(passes.len().saturating_sub(1)) {
        Some(pass) => pass.now,
        None => 0,
    }
}

/// The last clock of a run on these arrivals, in ticks: that of its last turn, or of its last pass
/// if that is later.
pub fn run_end(arrivals: &Arrivals) -> u64
    ensures { result ≡ run_end arrivals.now }
{
    let last = last_clock(arrivals.turns.as_slice());
    last.max(last_pass(arrivals.passes.as_slice()))
}

/// How long the turns of a run on these arrivals last, in clock ticks: from the clock of the first
/// one to the run's last.
pub fn turns_last(arrivals: &Arrivals) -> u64
    ensures { result ≡ turns_last arrivals.now }
{
    let end = run_end(arrivals);
    match arrivals.turns.as_slice().get(0) {
        Some(first) => end.saturating_sub(*first),
        None => 0,
    }
}

impl ArrivalClocks {
    /// How these requests came. Fails only when out of memory.
    pub fn of(alloc: Global, came: &[Came]) -> Result<ArrivalClocks, AllocError>
        ensures { IfOk result (AreClocksOf came.now) }
    {
        let mut all = HashMap::new(alloc);
        for one in came {
            all.insert(one.id, *one)?;
        }
        Ok(ArrivalClocks { came: all })
    }

    /// When the request of this name came, in clock ticks; 0 where none has it.
    pub fn of_request(&self, id: u64) -> u64
        ensures { (came : List CameOf) → AreClocksOf came self.now → result ≡ came_at came id }
    {
        match self.came.get(&id) {
            Some(came) => came.clock,
            None => 0,
        }
    }

    /// The turn to which the request of this name came; 0 where none has it.
    pub fn turn_of(&self, id: u64) -> u64
        ensures { (came : List CameOf) → AreClocksOf came self.now → result ≡ came_to came id }
    {
        match self.came.get(&id) {
            Some(came) => came.turn,
            None => 0,
        }
    }
}
