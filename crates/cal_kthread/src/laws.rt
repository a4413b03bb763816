//! Laws of journals, of a team's turns and of its account, each the contract of a function that
//! does nothing.

ghost use Rattle.cal_kthread.specs.End.Account.{StaysSettled, DrainedIsAccounted};
ghost use Rattle.cal_kthread.specs.Journal.Entries.{OthersChangeNothing, RecordShowsTaken};
ghost use Rattle.cal_kthread.specs.End.OnePlace.{NeverIsNowhere, OnceIsInOnePlace};
ghost use Rattle.cal_kthread.specs.Team.Turns.{TurnKeepsPlace, SamePlaceKeepsTeam};
ghost use Rattle.cal_kthread.specs.Turn.OnCores.{TurnOnAllIsTurn, TurnOnKeepsPlace};
ghost use Rattle.cal_kthread.specs.Turn.Turns.{OneTurnMore, TurnsAddUp};

/// A turn leaves the thread its place in its team: its queue, its own end's shares of it, and its
/// thieves, each at the queue of the same thread.
pub fn turn_keeps_place()
    ensures { TurnKeepsPlace }
{}

/// So does a turn on some cores.
pub fn turn_on_keeps_place()
    ensures { TurnOnKeepsPlace }
{}

/// A turn of a thread that works on all cores is a turn.
pub fn turn_on_all_is_turn()
    ensures { TurnOnAllIsTurn }
{}

/// What a turn adds (its clause `added`) after some turns makes one turn more.
pub fn one_turn_more()
    ensures { OneTurnMore }
{}

/// Turns of a thread that began with an empty journal publish one record each, with its clock as
/// the stamp; what arrived is what they were given; and each put at most five entries into the
/// journal. So 209,714 turns never fill it. It holds of turns on some cores too, and of both kinds
/// in any order: their clauses `added` say the same.
pub fn turns_add_up()
    ensures { TurnsAddUp }
{}

/// When one thread of a team changes and keeps its place, as in a `turn` (its clause `place`), they
/// are a team still.
pub fn same_place_keeps_team()
    ensures { SamePlaceKeepsTeam }
{}

/// What one end hands out after `settle` leaves the team settled.
pub fn handing_out_stays_settled()
    ensures { StaysSettled }
{}

/// Where after `settle` each end's `left` answered None, the account holds: for each name as many
/// requests with it arrived, over all journals, as were served and as were handed out; and each
/// request that was handed out is one that arrived, with its first `work`.
pub fn drained_is_accounted()
    ensures { DrainedIsAccounted }
{}

/// Where the account holds, an id that arrived once is in exactly one place: in one Served entry of
/// one thread, or in one request that one thread had left.
pub fn once_is_in_one_place()
    ensures { OnceIsInOnePlace }
{}

/// Where the account holds, an id that did not arrive is nowhere.
pub fn never_is_nowhere()
    ensures { NeverIsNowhere }
{}

/// The record at place n of a journal's page shows as `taken` how many commands were taken up to
/// the n-th publication.
pub fn record_shows_taken()
    ensures { RecordShowsTaken }
{}

/// Arrivals, thefts and services change neither the state nor the records nor the commands of a
/// journal.
pub fn others_change_nothing()
    ensures { OthersChangeNothing }
{}
