//! What each worker of a run asks before it goes on.

ghost use Rattle.std.specs.Prelude.{◌≡◌, ℕ, Bool, true};

/// Asked before each pass and each turn, in the thread of the worker that is to make it. Where it
/// answers false, that worker ends, and the others go on. Its calls return.
pub trait Gate {
    /// Whether it may give this answer before this pass.
    ghost answers_pass: { Self → ℕ → Bool → Type 0 };

    /// Whether it may give this answer before this turn of this kernel thread.
    ghost answers_turn: { Self → ℕ → ℕ → Bool → Type 0 };

    /// May the scheduler make pass `p`, from 0 on?
    fn before_pass(&self, p: u64) -> bool
        ensures { answers_pass self.now p result };

    /// May kernel thread `k` make turn `j`, from 0 on?
    fn before_turn(&self, k: usize, j: u64) -> bool
        ensures { answers_turn self.now k j result };
}

/// The gate that always answers true.
#[derive(Clone, Copy, Debug, PartialEq, Eq)]
pub struct FreeGate;

impl Gate for FreeGate {
    ghost answers_pass = { λ gate p answer. answer ≡ true };

    ghost answers_turn = { λ gate k j answer. answer ≡ true };

    fn before_pass(&self, _p: u64) -> bool {
        true
    }

    fn before_turn(&self, _k: usize, _j: u64) -> bool {
        true
    }
}
