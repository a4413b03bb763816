//! The bans of a history, by one walk over it.

ghost use Rattle.std.specs.Prelude.{◌≡◌, ◌++◌, ◌∷◌, [], List, None, option_map, replicate};
ghost use Rattle.cal_measure.specs.Spans.Bans.{AreBans, TracksBans, ban_at, banned};
ghost use Rattle.cal_measure.specs.Spans.Bans.{lifted, lifted_by};
ghost use Rattle.cal_measure.specs.Spans.{Move, made_in};

use cal_policy::Action;

/// A ban of a core, from its Ban to the Unban that ended it, or to the next Ban of the core in a
/// history that is not legal. Passes are as in `Span`.
#[derive(Clone, Copy, Debug, PartialEq, Eq)]
pub struct BanSpan {
    /// The core that stays empty.
    pub core: u8,
    /// The thread, on its sibling, for which it does.
    pub thread: u8,
    /// When the thread's request was begun.
    pub started: u64,
    /// The pass of the ban.
    pub from: usize,
    /// The pass that ended it; none where it goes on at the end of the history.
    pub to: Option<usize>,
}

/// The ban that each core is under after the actions so far. There is a place for each number that
/// an action can name.
#[derive(Drop)]
pub struct BanTracker {
    under: [Option<BanSpan>; 256],
}

fn no_bans() -> [Option<BanSpan>; 256]
    ensures { result ≡ replicate 256 None }
{
    [None; 256]
}

/// The ban that a Ban begins.
fn banned(pass: usize, core: u8, thread: u8, started: u64) -> BanSpan
    ensures { result ≡ banned pass core thread started }
{
    BanSpan {
        core,
        thread,
        started,
        from: pass,
        to: None,
    }
}

/// The ban that a core is under, if any, ended in this pass.
fn lifted(ban: Option<BanSpan>, pass: usize) -> Option<BanSpan>
    ensures { result ≡ option_map (lifted pass) ban }
{
    match ban {
        None => None,
        Some(ban) => Some(BanSpan {
            core: ban.core,
            thread: ban.thread,
            started: ban.started,
            from: ban.from,
            to: Some(pass),
        }),
    }
}

/// The ban that an action ends, if any.
fn lifted_by(under: &[Option<BanSpan>; 256], pass: usize, action: Action) -> Option<BanSpan>
    ensures { (moves : List Move) → AreBans under.now moves → result ≡ lifted_by moves pass action }
{
    match action {
        Action::Unban { core } => lifted(under[core as usize], pass),
        Action::Ban { core, .. } => lifted(under[core as usize], pass),
        Action::Free { .. } => None,
        Action::Revoke { .. } => None,
        Action::Cap { .. } => None,
        Action::Grant { .. } => None,
    }
}

/// Brings the bans that the cores are under up to one more action.
fn note_ban(under: &mut [Option<BanSpan>; 256], pass: usize, action: Action)
    ensures { (moves : List Move) → AreBans under.old moves
        → AreBans under.new (moves ++ made_in pass action ∷ []) }
{
    match action {
        Action::Unban { core } => under[core as usize] = None,
        Action::Ban {
            core,
            thread,
            started,
        } => under[core as usize] = Some(banned(pass, core, thread, started)),
        Action::Free { .. } => {}
        Action::Revoke { .. } => {}
        Action::Cap { .. } => {}
        Action::Grant { .. } => {}
    }
}

impl BanTracker {
    /// The state before any action.
    pub fn new() -> BanTracker
        ensures { TracksBans result [] }
    {
        BanTracker { under: no_bans() }
    }

    /// The ban that a core is under, if any.
    pub fn ban(&self, core: u8) -> Option<BanSpan>
        ensures { (moves : List Move) → TracksBans self.now moves → result ≡ ban_at moves core }
    {
        self.under[core as usize]
    }

    /// Brings the state up to one more action, and answers the ban that it ends, if any.
    pub fn note(&mut self, pass: usize, action: Action) -> Option<BanSpan>
        ensures over { (moves : List Move) → TracksBans self.old moves
            → result ≡ lifted_by moves pass action }
        ensures tracks { (moves : List Move) → TracksBans self.old moves
            → TracksBans self.new (moves ++ made_in pass action ∷ []) }
    {
        let over = lifted_by(&self.under, pass, action);
        note_ban(&mut self.under, pass, action);
        over
    }
}
