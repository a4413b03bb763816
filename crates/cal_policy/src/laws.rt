//! Laws over the definitions alone, each the contract of a function that does nothing. A caller whose
//! own contract follows from one calls it.

ghost use Rattle.cal_policy.specs.Laws.{LegalIsOrderly, LegalIsSteady, LegalIsSound};
ghost use Rattle.cal_policy.specs.Laws.{LegalIsShort, ChosenHasWaitedLongest};
ghost use Rattle.cal_policy.specs.Laws.{ChosenIsOfLeastClass, VictimHasMostMisses};
ghost use Rattle.cal_policy.specs.Laws.{ActionIsOneMore, LastThreadIsPlaced, LookIsOneMore};
ghost use Rattle.cal_policy.specs.Laws.{NothingIsLegal, PrefixesAreLegal, OnePassMoreIsLegal};
ghost use Rattle.cal_policy.specs.Laws.{CommandsBeginAlike};

pub use crate::judgement::look_laws::{
    gone_frees_its_cores, gone_is_kept, kept_is_whole, misfits_do_not_fit, only_faults_are_refused,
    others_count_as_given, refused_leaves_no_trace, rooms_count_as_given, settled_is_no_news,
    taken_input_fits,
};
pub use crate::judgement::open_pass::open_pass_fits;

/// A legal history is orderly: so what asks for an orderly history may be called on every legal
/// one.
pub fn legal_is_orderly()
    ensures { LegalIsOrderly }
{}

/// The thread that is chosen for a task has waited longest, of those that may be granted a core; of
/// those that have waited as long it is the first. None is chosen only where none may be granted
/// one.
pub fn chosen_has_waited_longest()
    ensures { ChosenHasWaitedLongest }
{}

/// The core that is chosen for a task has the least class that any core has for it; of those it is
/// the lowest. None is chosen only where no core has a class.
pub fn chosen_is_of_least_class()
    ensures { ChosenIsOfLeastClass }
{}

/// After each number of its passes a legal history is steady: each core is with a thread of the
/// table by its last grant, and no task books more cores than its limit.
pub fn legal_is_steady()
    ensures { LegalIsSteady }
{}

/// Each action of each pass of a legal history is one that a pass makes at its place, and fits the
/// state there.
pub fn legal_is_sound()
    ensures { LegalIsSound }
{}

/// What one more action makes of holders, grants, commands, bans and caps: what it says, and where
/// it says nothing all is as it was.
pub fn action_is_one_more()
    ensures { ActionIsOneMore }
{}

/// The thread of a core's last grant is that of its last placement.
pub fn last_thread_is_placed()
    ensures { LastThreadIsPlaced }
{}

/// After one more pass's looks a kept record is the one that they let be kept, and without one it
/// is as it was.
pub fn look_is_one_more()
    ensures { LookIsOneMore }
{}

/// The task that loses a core to the bandwidth limit has had the most misses since the pass before,
/// of those that may lose one; of those with as many it is the first. None does only where none
/// may.
pub fn victim_has_most_misses()
    ensures { VictimHasMostMisses }
{}

/// Each pass of a legal history has at most `MOST_ACTIONS`.
pub fn legal_is_short()
    ensures { LegalIsShort }
{}

/// Nothing is a legal history.
pub fn nothing_is_legal()
    ensures { NothingIsLegal }
{}

/// A legal history cut off after any number of passes is legal.
pub fn prefixes_are_legal()
    ensures { PrefixesAreLegal }
{}

/// A history with one entry more is legal exactly where it was legal and the entry is a pass after
/// it.
pub fn one_pass_more_is_legal()
    ensures { OnePassMoreIsLegal }
{}

/// The commands that a history sent a thread are the first ones of those of each longer history.
pub fn commands_begin_alike()
    ensures { CommandsBeginAlike }
{}
