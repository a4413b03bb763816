//! What came of runs.

use cal_policy::{Seen, Verdict};
use std::fmt;

/// What is added up over runs.
#[derive(Clone, Copy, Default)]
pub struct Counts {
    pub runs: u64,
    pub passes: u64,
    /// Looks by what they came to.
    pub whole: u64,
    pub busy: u64,
    pub ahead: u64,
    pub foreign: u64,
    /// Looks that were not what the page had.
    pub wrong: u64,
    /// Commands that were sent.
    pub sent: u64,
    /// Runs in whose second half a sound thread took a command.
    pub went_on: u64,
    /// Runs whose history is legal.
    pub legal: u64,
}

impl Counts {
    /// Counts a look, and whether it is the one that is wanted.
    pub fn note(&mut self, seen: Seen, wanted: Seen) {
        let count = match seen {
            Seen::Whole { .. } => &mut self.whole,
            Seen::Busy { .. } => &mut self.busy,
            Seen::Ahead { .. } => &mut self.ahead,
            Seen::Foreign { .. } => &mut self.foreign,
        };
        *count = count.saturating_add(1);
        if seen != wanted {
            self.wrong = self.wrong.saturating_add(1);
        }
    }

    /// Counts a run: whether it went on, what its audit says, and how many commands were sent.
    pub fn note_run(&mut self, went_on: bool, verdict: Verdict, sent: u64) {
        let legal = verdict == Verdict::Legal;
        self.runs = self.runs.saturating_add(1);
        self.went_on = self.went_on.saturating_add(u64::from(went_on));
        self.legal = self.legal.saturating_add(u64::from(legal));
        self.sent = self.sent.saturating_add(sent);
    }
}

impl fmt::Display for Counts {
    fn fmt<W: fmt::Write>(&self, f: &mut fmt::Formatter<W>) -> fmt::Result {
        let Counts {
            runs,
            passes,
            whole,
            busy,
            ahead,
            foreign,
            wrong,
            went_on,
            legal,
            ..
        } = *self;
        write!(f, "runs {runs} passes {passes} looks ")?;
        write!(
            f,
            "whole {whole} busy {busy} ahead {ahead} foreign {foreign} wrong {wrong} "
        )?;
        write!(f, "went on {went_on} legal {legal}")
    }
}
