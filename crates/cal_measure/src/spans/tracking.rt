//! The spans of a history, by a walk over it.

ghost use Rattle.std.specs.Prelude.{◌≡◌, ◌++◌, ◌∷◌, [], List, None, Some};
ghost use Rattle.std.specs.Prelude.{option_map, replicate};
ghost use Rattle.cal_measure.specs.Spans.{Move, ended, ended_by, granted, left_as, made_in};
ghost use Rattle.cal_measure.specs.Spans.{span_at};
ghost use Rattle.cal_measure.specs.Spans.Tracking.{AreStays, Tracks};
ghost use Rattle.cal_measure.specs.Turns.{one_of};

use crate::spans::span::{Left, Span};
use cal_policy::{Action, Cause};

/// The span that each core is in after the actions so far. There is a place for each number that an
/// action can name.
#[derive(Drop)]
pub struct Tracker {
    stays: [Option<Span>; 256],
}

fn no_stays() -> [Option<Span>; 256]
    ensures { result ≡ replicate 256 None }
{
    [None; 256]
}

/// The span that a grant begins.
fn granted(pass: usize, core: u8, thread: u8, class: u8) -> Span
    ensures { result ≡ granted pass core thread class }
{
    Span {
        core,
        thread,
        class,
        from: pass,
        left: None,
        to: None,
    }
}

/// A span, ended in this pass.
fn ended(span: Span, pass: usize) -> Span
    ensures { result ≡ ended pass span }
{
    Span {
        core: span.core,
        thread: span.thread,
        class: span.class,
        from: span.from,
        left: span.left,
        to: Some(pass),
    }
}

/// The span that a core is in, if any, where this pass revokes the core.
fn revoked(stay: Option<Span>, pass: usize, cause: Cause) -> Option<Span>
    ensures { result ≡ option_map (left_as (Some (record { pass = pass; cause = cause }))) stay }
{
    match stay {
        None => None,
        Some(span) => Some(Span {
            core: span.core,
            thread: span.thread,
            class: span.class,
            from: span.from,
            left: Some(Left { pass, cause }),
            to: span.to,
        }),
    }
}

/// The span that a core is in, if any, ended in this pass.
fn ended_at(stays: &[Option<Span>; 256], core: u8, pass: usize) -> Option<Span>
    ensures { (moves : List Move) → AreStays stays.now moves
        → one_of result ≡ ended_by moves pass (Action.Free core) }
{
    match stays[core as usize] {
        None => None,
        Some(span) => Some(ended(span, pass)),
    }
}

/// The span that an action ends, if any.
fn ended_by(stays: &[Option<Span>; 256], pass: usize, action: Action) -> Option<Span>
    ensures { (moves : List Move) → AreStays stays.now moves
        → one_of result ≡ ended_by moves pass action }
{
    match action {
        Action::Free { core } => ended_at(stays, core, pass),
        Action::Grant { core, .. } => ended_at(stays, core, pass),
        Action::Revoke { .. } => None,
        Action::Unban { .. } => None,
        Action::Ban { .. } => None,
        Action::Cap { .. } => None,
    }
}

/// Brings the spans that the cores are in up to one more action.
fn note_stay(stays: &mut [Option<Span>; 256], pass: usize, action: Action)
    ensures { (moves : List Move) → AreStays stays.old moves
        → AreStays stays.new (moves ++ made_in pass action ∷ []) }
{
    match action {
        Action::Free { core } => stays[core as usize] = None,
        Action::Revoke { core, cause } => {
            stays[core as usize] = revoked(stays[core as usize], pass, cause);
        }
        Action::Grant {
            core,
            thread,
            class,
        } => stays[core as usize] = Some(granted(pass, core, thread, class)),
        Action::Unban { .. } => {}
        Action::Ban { .. } => {}
        Action::Cap { .. } => {}
    }
}

impl Tracker {
    /// The state before any action.
    pub fn new() -> Tracker
        ensures { Tracks result [] }
    {
        Tracker { stays: no_stays() }
    }

    /// The span that a core is in; none where it is free.
    pub fn span(&self, core: u8) -> Option<Span>
        ensures { (moves : List Move) → Tracks self.now moves → result ≡ span_at moves core }
    {
        self.stays[core as usize]
    }

    /// Brings the state up to one more action, and answers the span that it ends, if any.
    pub fn note(&mut self, pass: usize, action: Action) -> Option<Span>
        ensures over { (moves : List Move) → Tracks self.old moves
            → one_of result ≡ ended_by moves pass action }
        ensures tracks { (moves : List Move) → Tracks self.old moves
            → Tracks self.new (moves ++ made_in pass action ∷ []) }
    {
        let over = ended_by(&self.stays, pass, action);
        note_stay(&mut self.stays, pass, action);
        over
    }
}
