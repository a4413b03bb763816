//! What a pass of the second policy, `assured`, goes by. Nothing else here is of that policy.

ghost use Rattle.cal_idle.specs.Idle.{GoesByWhatIsLeft};
ghost use Rattle.cal_policy.specs.declared.policy.Policy.TheVariants.{Assured};

/// After two histories that leave the same, a pass of `assured` does the same on the same input.
pub fn assured_goes_by_what_is_left()
    ensures { GoesByWhatIsLeft Assured }
{}
