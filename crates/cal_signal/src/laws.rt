//! What follows from the promise of a page, as the contract of a function that does nothing.
ghost use Rattle.cal_signal.specs.Laws.{LooksFollow, OneLookMore};

/// If looks fit some page, the last one found a shaped record that may be shown after what the looks
/// before it found: at no lower place, the same record at the same place, a later one at a higher
/// place.
pub fn looks_follow()
    ensures follow { LooksFollow }
    ensures last { OneLookMore }
{}
