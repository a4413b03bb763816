//! A set of cores.

ghost use Rattle.std.specs.Prelude.{◌≡◌, ◌<◌, ◌≤◌, ◌&&◌, ◌||◌, ◌==◌, ℕ, false, not, IfSome, IfNone};
ghost use Rattle.cal_machine.specs.CoreSet.{has, count_below, IsLeastOf, IsLeastFrom, IsGreatestOf};

use crate::machine::MOST_CORES;

/// A set of cores, each below `MOST_CORES`.
///
/// Contracts see it by its members: `has set core`.
#[derive(Clone, Copy, Debug, PartialEq, Eq)]
pub struct CoreSet {
    bits: u128,
}

impl CoreSet {
    /// The set without cores.
    pub fn empty() -> CoreSet
        ensures { (core : ℕ) → has result core ≡ false }
    {
        CoreSet { bits: 0 }
    }

    /// Adds a core; one that is there already stays.
    pub fn insert(&mut self, core: u8)
        requires { core < MOST_CORES }
        ensures { (c : ℕ) → has self.new c ≡ (c == core || has self.old c) }
    {
        self.bits |= 1u128 << core;
    }

    /// Takes a core away; one that is not there changes nothing.
    pub fn remove(&mut self, core: u8)
        requires { core < MOST_CORES }
        ensures { (c : ℕ) → has self.new c ≡ (not (c == core) && has self.old c) }
    {
        let bits = self.bits;
        self.bits = bits & !(1u128 << core);
    }

    /// Whether a core is in the set.
    pub fn has(&self, core: u8) -> bool
        requires { core < MOST_CORES }
        ensures { result ≡ has self.now core }
    {
        (self.bits >> core) & 1 == 1
    }

    /// The least core of the set, `None` on the empty set.
    pub fn least(&self) -> Option<u8>
        ensures least { IfSome result (IsLeastOf self.now) }
        ensures empty { IfNone result ((core : ℕ) → has self.now core ≡ false) }
    {
        if self.bits == 0 {
            return None;
        }
        Some(self.bits.trailing_zeros() as u8)
    }

    /// The least core of the set from this one on, `None` where there is none: to go over the set
    /// upwards.
    pub fn least_from(&self, first: u8) -> Option<u8>
        ensures least { IfSome result (IsLeastFrom self.now first) }
        ensures none { IfNone result ((core : ℕ) → first ≤ core → has self.now core ≡ false) }
    {
        let bits = self.bits;
        if MOST_CORES <= first as usize {
            return None;
        }
        let rest = bits >> first;
        if rest == 0 {
            return None;
        }
        Some(first + rest.trailing_zeros() as u8)
    }

    /// The greatest core of the set, `None` on the empty set.
    pub fn greatest(&self) -> Option<u8>
        ensures greatest { IfSome result (IsGreatestOf self.now) }
        ensures empty { IfNone result ((core : ℕ) → has self.now core ≡ false) }
    {
        if self.bits == 0 {
            return None;
        }
        Some((MOST_CORES - 1) as u8 - self.bits.leading_zeros() as u8)
    }

    /// How many cores of the set are below this one.
    pub fn count_below(&self, end: u8) -> usize
        requires { end ≤ MOST_CORES }
        ensures { result ≡ count_below self.now end }
    {
        let bits = self.bits;
        if end == 0 {
            return 0;
        }
        let below = bits << (MOST_CORES as u8 - end);
        below.count_ones() as usize
    }
}
