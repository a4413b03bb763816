//! The passes and the turns of arrivals: how many there are, and how far apart.

ghost use Rattle.std.specs.Prelude.{◌≡◌, ◌<◌, IfOk};
ghost use Rattle.cal_load.specs.Clocks.{ArePassesOf, AreTurnsOf, IsTiming, turn_clock};

use cal_trace::{GivenPass, MOST_TURNS};
use std::alloc::{AllocError, Global};

/// The most ticks of a turn.
pub const MOST_TICKS: u64 = 1_000_000_000;

/// How long a run is.
#[derive(Clone, Copy, Debug, PartialEq, Eq)]
pub struct Timing {
    /// How many turns each thread makes, and as many passes: 1 to `MOST_TURNS`.
    pub turns: u64,
    /// How many ticks a turn takes: 1 to `MOST_TICKS`.
    pub ticks: u64,
}

impl Timing {
    /// This timing, or the nearest that arrivals can have.
    pub(crate) fn nearest(self) -> Timing
        ensures is { IsTiming result }
        ensures same { IsTiming self → result ≡ self }
    {
        Timing {
            turns: self.turns.max(1).min(MOST_TURNS as u64),
            ticks: self.ticks.max(1).min(MOST_TICKS),
        }
    }
}

/// The passes: one before each turn. Fails only when out of memory.
pub(crate) fn passes_of(alloc: Global, timing: Timing) -> Result<Vec<GivenPass>, AllocError>
    requires { IsTiming timing }
    ensures { IfOk result (λ passes. ArePassesOf timing passes.items) }
{
    let mut passes = Vec::new(alloc);
    for turn in 0..timing.turns {
        passes.push(GivenPass {
            now: timing.ticks * (turn + 1),
            bandwidth: 0,
        })?;
    }
    Ok(passes)
}

/// The clock of a turn: half a turn after its pass.
pub(crate) fn clock_at(timing: Timing, turn: u64) -> u64
    requires is { IsTiming timing }
    requires turn { turn < timing.turns }
    ensures { result ≡ turn_clock timing turn }
{
    timing.ticks * (turn + 1) + timing.ticks / 2
}

/// The clocks of the turns: each half a turn after its pass. Fails only when out of memory.
pub(crate) fn turns_of(alloc: Global, timing: Timing) -> Result<Vec<u64>, AllocError>
    requires { IsTiming timing }
    ensures { IfOk result (λ turns. AreTurnsOf timing turns.items) }
{
    let mut turns = Vec::new(alloc);
    for turn in 0..timing.turns {
        turns.push(clock_at(timing, turn))?;
    }
    Ok(turns)
}
