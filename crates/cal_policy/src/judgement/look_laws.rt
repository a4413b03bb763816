//! Laws of looks that are taken one by one and of threads that are gone, each the contract of a
//! function that does nothing.

ghost use Rattle.cal_policy.specs.Judgement.Gone.{GoneIsKept, GoneFreesItsCores};
ghost use Rattle.cal_policy.specs.Judgement.Settled.{KeptIsWhole, SettledIsNoNews};
ghost use Rattle.cal_policy.specs.Judgement.Taken.{MisfitsDoNotFit, OnlyFaultsAreRefused};
ghost use Rattle.cal_policy.specs.Judgement.Taken.{TakenInputFits, RefusedLeavesNoTrace};
ghost use Rattle.cal_policy.specs.Judgement.Taken.{OthersCountAsGiven, RoomsCountAsGiven};

/// A look is a misfit exactly where it does not fit what its thread showed before.
pub fn misfits_do_not_fit()
    ensures { MisfitsDoNotFit }
{}

/// A look is taken as it is exactly where it fits and is judged neither ahead nor foreign.
pub fn only_faults_are_refused()
    ensures { OnlyFaultsAreRefused }
{}

/// With one look for each thread, whatever it shows, the pass may be given what is taken of them.
pub fn taken_input_fits()
    ensures { TakenInputFits }
{}

/// A look that is not refused counts as it was given, whatever the others show.
pub fn others_count_as_given()
    ensures { OthersCountAsGiven }
{}

/// The room of every ring counts as it was given.
pub fn rooms_count_as_given()
    ensures { RoomsCountAsGiven }
{}

/// After a pass that refused a thread's look the thread's kept record and what it showed last are
/// as they were.
pub fn refused_leaves_no_trace()
    ensures { RefusedLeavesNoTrace }
{}

/// The record for a thread that is gone is taken as it is, and kept.
pub fn gone_is_kept()
    ensures { GoneIsKept }
{}

/// A pass of any policy that keeps the record for a thread that is gone frees every core that the
/// thread holds or leaves.
pub fn gone_frees_its_cores()
    ensures { GoneFreesItsCores }
{}

/// A kept record is judged Whole wherever it is found, whatever was sent since it was kept.
pub fn kept_is_whole()
    ensures { KeptIsWhole }
{}

/// Where the kept record of a thread is the one that it showed last, the same look once more fits,
/// is judged Whole, and changes nothing of what is kept or shown.
pub fn settled_is_no_news()
    ensures { SettledIsNoNews }
{}
