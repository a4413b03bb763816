//! Laws of paced runs, each the contract of a function that does nothing.

ghost use Rattle.cal_paced.specs.Laws.{AtPaceOneIsRun, NeutralSharesAreWhole};

/// Where a file's passes stand as pace 1 has them, a run by `Plan::NEUTRAL` on it is a run on that
/// file, as lockstep's is.
pub fn at_pace_one_is_run()
    ensures { AtPaceOneIsRun }
{}

/// By `Plan::NEUTRAL` each thread does all of a turn's work.
pub fn neutral_shares_are_whole()
    ensures { NeutralSharesAreWhole }
{}
