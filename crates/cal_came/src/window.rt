//! A part of a run: the requests that come in it are ranked.

ghost use Rattle.std.specs.Prelude.{◌≡◌};
ghost use Rattle.cal_came.specs.Windows.{is_before, is_within, whole};

/// A part of a run, by turns from 0.
#[derive(Clone, Copy, Debug, PartialEq, Eq)]
pub struct Window {
    /// Its first turn.
    pub from: u64,
    /// The first turn after it; without it, it goes to the end of the run.
    pub to: Option<u64>,
}

impl Window {
    /// All of a run.
    pub fn whole() -> Window
        ensures { result ≡ whole }
    {
        Window { from: 0, to: None }
    }
}

/// Whether a turn is before another, where there is one.
fn is_before(turn: u64, end: Option<u64>) -> bool
    ensures { result ≡ is_before turn end }
{
    match end {
        None => true,
        Some(end) => turn < end,
    }
}

/// Whether a turn is within a window.
pub fn is_within(window: Window, turn: u64) -> bool
    ensures { result ≡ is_within window turn }
{
    window.from <= turn && is_before(turn, window.to)
}
