//! Which histories of this policy are legal, pass by pass.

ghost use Rattle.cal_assured.specs.Histories.{NothingIsLegal, PrefixesAreLegal};
ghost use Rattle.cal_assured.specs.Histories.{OnePassMoreIsLegal};

/// The empty history is legal.
pub fn nothing_is_legal()
    ensures { NothingIsLegal }
{}

/// A legal history cut off after any number of passes is legal.
pub fn prefixes_are_legal()
    ensures { PrefixesAreLegal }
{}

/// A history with one entry more is legal exactly where it was legal and the entry is a pass after
/// it: its input may be given, and its actions are those of the pass.
pub fn one_pass_more_is_legal()
    ensures { OnePassMoreIsLegal }
{}
