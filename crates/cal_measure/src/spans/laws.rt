//! What the spans of every history tell, each law the contract of a function that does nothing.

ghost use Rattle.cal_measure.specs.Spans.Laws.{HoldersAreShown, ShownAreHolders};
ghost use Rattle.cal_measure.specs.Spans.Laws.{ShownAreStays, SpansAreApart, StaysAreHolders};
ghost use Rattle.cal_measure.specs.Spans.Laws.{StaysAreShown};

/// After any number of passes: whatever span a core is in, one of the spans of the history shows it
/// there, with the same thread and from the same grant.
pub fn stays_are_shown()
    ensures { StaysAreShown }
{}

/// After any number of passes: a span that shows there is the one that its core is in.
pub fn shown_are_stays()
    ensures { ShownAreStays }
{}

/// No two spans of a core show after the same pass, unless both are of the same grant.
pub fn spans_are_apart()
    ensures { SpansAreApart }
{}

/// After any number of passes of an orderly history, a legal one among them: a free core is in no
/// span; a core that is held is in one of the holder's thread, and not told to leave; a core that
/// is being left is in one of that thread, left for the holder's cause.
pub fn stays_are_holders()
    ensures { StaysAreHolders }
{}

/// After any number of passes of an orderly history: whoever holds or leaves a core, one of the
/// spans of the history shows that thread there.
pub fn holders_are_shown()
    ensures { HoldersAreShown }
{}

/// After any number of passes of an orderly history: a span that shows there is of the thread that
/// holds or leaves its core. So none shows of a free core.
pub fn shown_are_holders()
    ensures { ShownAreHolders }
{}
