//! The worked run of one thread, and of a watch: what `linearise` makes of it.

ghost use Rattle.std.specs.Prelude.{◌≡◌, ◌∷◌, []};
ghost use Rattle.cal_linear.specs.Linear.{linear};
ghost use Rattle.test_runtime.specs.WorkedRow.{passes, journal, rounds, order};

#[cfg(test)]
mod linearised_run;
#[cfg(test)]
mod worked_run;

/// The order of its steps is the one that was meant.
#[tactic(auto, using(crate::proofs::WorkedRow::worked_order))]
pub fn worked_order()
    ensures { linear passes (journal ∷ []) rounds ≡ order }
{}
