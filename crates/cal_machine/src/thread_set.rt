//! A set of kernel threads.

ghost use Rattle.std.specs.Prelude.{◌≡◌, ◌<◌, ◌≤◌, ◌==◌, ◌||◌, ◌&&◌, not, ℕ, true, false};
ghost use Rattle.std.specs.Option.{IfSome, IfNone};
ghost use Rattle.cal_machine.specs.declared.numbering.TheConstants.{MOST_THREADS};
ghost use Rattle.cal_machine.specs.ThreadSet.{has_thread};

use crate::core_set::CoreSet;
use crate::machine::MOST_CORES;
use crate::numbering::MOST_THREADS;

// A set of threads is kept as a set of cores of the same numbers.
const _: () = prove!(MOST_THREADS <= MOST_CORES);

/// A set of kernel threads, each below `MOST_THREADS`. Contracts see it by its members:
/// `has_thread set k`.
#[derive(Clone, Copy, Debug, PartialEq, Eq)]
pub struct ThreadSet {
    numbers: CoreSet,
}

impl ThreadSet {
    /// The set without threads.
    pub fn empty() -> ThreadSet
        ensures { (k : ℕ) → has_thread result k ≡ false }
    {
        ThreadSet {
            numbers: CoreSet::empty(),
        }
    }

    /// Adds a thread; one that is there already stays.
    pub fn insert(&mut self, k: usize)
        requires { k < MOST_THREADS }
        ensures { (j : ℕ) → has_thread self.new j ≡ (j == k || has_thread self.old j) }
    {
        self.numbers.insert(k as u8);
    }

    /// Takes a thread away; one that is not there changes nothing.
    pub fn remove(&mut self, k: usize)
        requires { k < MOST_THREADS }
        ensures { (j : ℕ) → has_thread self.new j ≡ (not (j == k) && has_thread self.old j) }
    {
        self.numbers.remove(k as u8);
    }

    /// Whether a thread is in the set.
    pub fn has(&self, k: usize) -> bool
        requires { k < MOST_THREADS }
        ensures { result ≡ has_thread self.now k }
    {
        self.numbers.has(k as u8)
    }

    /// The least thread of the set from `first` on that is below `end`: to go over the threads of
    /// the set upwards.
    pub fn next(&self, first: usize, end: usize) -> Option<usize>
        requires { end ≤ MOST_THREADS }
        ensures next { IfSome result (λ k. (first ≤ k) × (k < end)) }
        ensures member { IfSome result (λ k. has_thread self.now k ≡ true) }
        ensures between { IfSome result (λ k. (j : ℕ) → first ≤ j → j < k →
            has_thread self.now j ≡ false) }
        ensures none { IfNone result ((j : ℕ) → first ≤ j → j < end →
            has_thread self.now j ≡ false) }
    {
        if end <= first {
            return None;
        }
        match self.numbers.least_from(first as u8) {
            Some(k) if (k as usize) < end => Some(k as usize),
            _ => None,
        }
    }
}
