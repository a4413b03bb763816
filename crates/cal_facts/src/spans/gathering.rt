//! The spans and the bans of a history, by one walk over its actions, whoever makes them.

ghost use Rattle.std.specs.Prelude.{◌≡◌, ◌++◌, ◌∷◌, [], List, IfOk, OnOk, map};
ghost use Rattle.cal_facts.specs.Bans.{lifted_of, open_bans};
ghost use Rattle.cal_facts.specs.Stretches.{Gathers};
ghost use Rattle.cal_measure.specs.Spans.{Move, ended_of, made_in, open_of};
ghost use Rattle.cal_measure.specs.Spans.Bans.{TracksBans};
ghost use Rattle.cal_measure.specs.Spans.Tracking.{Tracks};
ghost use Rattle.cal_measure.specs.Turns.{one_of};

use cal_measure::{BanSpan, BanTracker, Span, Tracker};
use cal_policy::Action;
use std::alloc::{AllocError, Global};

/// A walk over the actions of a history: the spans and the bans that ended so far, and what goes
/// on. Each action costs its own work.
#[derive(Drop)]
pub(crate) struct Gathering {
    pub(crate) tracker: Tracker,
    pub(crate) bans: BanTracker,
    pub(crate) ended: Vec<Span>,
    pub(crate) lifted: Vec<BanSpan>,
}

/// Puts one more, if there is one, at the end of a list. Fails only when out of memory.
fn put_one<X: Drop>(list: &mut Vec<X>, one: Option<X>) -> Result<(), AllocError>
    ensures { OnOk result (list.new.items ≡ list.old.items ++ one_of one) }
{
    match one {
        None => Ok(()),
        Some(one) => {
            list.push(one)?;
            Ok(())
        }
    }
}

impl Gathering {
    /// Before any action.
    pub(crate) fn new(alloc: Global) -> Gathering
        ensures { Gathers result [] }
    {
        Gathering {
            tracker: Tracker::new(),
            bans: BanTracker::new(),
            ended: Vec::new(alloc),
            lifted: Vec::new(alloc),
        }
    }

    /// Goes on by the actions of a pass. Fails only when out of memory.
    pub(crate) fn note_pass(&mut self, pass: usize, actions: &[Action]) -> Result<(), AllocError>
        ensures { OnOk result ((moves : List Move) → Gathers self.old moves
            → Gathers self.new (moves ++ map (made_in pass) actions.now)) }
    {
        for action in actions {
            self.note(pass, *action)?;
        }
        Ok(())
    }

    /// Goes on by one action. Fails only when out of memory.
    fn note(&mut self, pass: usize, action: Action) -> Result<(), AllocError>
        ensures { OnOk result ((moves : List Move) → Gathers self.old moves
            → Gathers self.new (moves ++ made_in pass action ∷ [])) }
    {
        let over = self.tracker.note(pass, action);
        put_one(&mut self.ended, over)?;
        let lifted = self.bans.note(pass, action);
        put_one(&mut self.lifted, lifted)?;
        Ok(())
    }

    /// All spans and all bans: those that ended, and then those that go on at the cores below
    /// `cores`. Fails only when out of memory.
    pub(crate) fn into_lists(self, cores: u8) -> Result<(Vec<Span>, Vec<BanSpan>), AllocError>
        ensures spans { IfOk result (λ lists. (moves : List Move) → Gathers self moves
            → lists.0.items ≡ ended_of moves ++ open_of moves cores) }
        ensures bans { IfOk result (λ lists. (moves : List Move) → Gathers self moves
            → lists.1.items ≡ lifted_of moves ++ open_bans moves cores) }
    {
        let Gathering {
            tracker,
            bans,
            mut ended,
            mut lifted,
        } = self;
        put_open(&tracker, cores, &mut ended)?;
        put_open_bans(&bans, cores, &mut lifted)?;
        Ok((ended, lifted))
    }
}

/// Puts the spans that the cores below `cores` are in. Fails only when out of memory.
fn put_open(tracker: &Tracker, cores: u8, spans: &mut Vec<Span>) -> Result<(), AllocError>
    ensures { OnOk result ((moves : List Move) → Tracks tracker.now moves
        → spans.new.items ≡ spans.old.items ++ open_of moves cores) }
{
    for core in 0..cores {
        put_one(spans, tracker.span(core))?;
    }
    Ok(())
}

/// Puts the bans that the cores below `cores` are under. Fails only when out of memory.
fn put_open_bans(bans: &BanTracker, cores: u8, lifted: &mut Vec<BanSpan>) -> Result<(), AllocError>
    ensures { OnOk result ((moves : List Move) → TracksBans bans.now moves
        → lifted.new.items ≡ lifted.old.items ++ open_bans moves cores) }
{
    for core in 0..cores {
        put_one(lifted, bans.ban(core))?;
    }
    Ok(())
}
