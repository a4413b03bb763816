//! The machine: its cores, two and two siblings.

ghost use Rattle.std.specs.Prelude.{◌≡◌, ◌≢◌, ◌<◌, SomeIff};
ghost use Rattle.cal_machine.specs.Machine.{IsMachine, sibling_of};

use std::marker::Model;

/// The most cores of a machine. A set of cores has a bit of a `u128` for each, and a core and the
/// number of cores are each a `u8`: so this is tied to both.
pub const MOST_CORES: usize = 128;

const _: () = prove!(MOST_CORES == u128::BITS as usize);

const _: () = prove!(MOST_CORES <= u8::MAX as usize);

/// The most pairs of sibling cores.
pub const MOST_PAIRS: usize = MOST_CORES / 2;

/// A machine: cores `0 .. n-1`, where `n` is even, 2 to `MOST_CORES`. The scheduler's own core is
/// not counted.
///
/// Contracts see it as its number of cores.
#[derive(Clone, Copy, Debug, PartialEq, Eq)]
pub struct Machine {
    cores: u8,
}

impl Model for Machine {
    ghost use Rattle.std.specs.Prelude.{ℕ};
    ghost use Rattle.cal_machine.specs.Machine.{IsMachine};

    ghost Value = { ℕ };

    ghost view = { λ m. m.cores };

    ghost inverse = { λ n. record { cores = n } };

    ghost invariant = { λ m. IsMachine m.cores };
}

impl Machine {
    /// A machine of so many cores: `None` unless the number is even and 2 to `MOST_CORES`.
    pub fn new(cores: u8) -> Option<Machine>
        ensures { SomeIff result (IsMachine cores) cores }
    {
        if cores % 2 == 0 && 2 <= cores && cores as usize <= MOST_CORES {
            Some(Machine { cores })
        } else {
            None
        }
    }

    /// How many cores it has.
    pub fn cores(&self) -> u8
        ensures value { result ≡ self.now }
        ensures machine { IsMachine result }
    {
        self.cores
    }

    /// The other hyperthread of a core's pair: the next core of an even one, the one before of an
    /// odd one. It is its own inverse.
    pub fn sibling(&self, core: u8) -> u8
        requires { core < self.now }
        ensures value { result ≡ sibling_of core }
        ensures other { result ≢ core }
        ensures within { result < self.now }
        ensures back { sibling_of result ≡ core }
    {
        let _cores = self.cores;
        if core % 2 == 0 { core + 1 } else { core - 1 }
    }
}
