//! A stretch of passes in which a core is in one state.

ghost use Rattle.std.specs.Prelude.{◌≡◌};
ghost use Rattle.cal_facts.specs.Stretches.{banned_stretch, stretch_of};

use cal_measure::{BanSpan, Span};
use cal_policy::Cause;
use std::fmt;

/// What a core is in.
#[derive(Clone, Copy, Debug, PartialEq, Eq)]
pub enum State {
    /// A thread holds it.
    Held {
        /// The class of its grant, as it was recorded.
        class: u8,
    },
    /// Its thread was told to leave it.
    Leaving {
        /// The class of its grant.
        class: u8,
        /// Why it was told so.
        cause: Cause,
    },
    /// It stays empty for a thread on its sibling.
    Banned {
        /// When the thread's request was begun, in clock ticks.
        started: u64,
    },
}

/// A stretch of passes in which a core is in one state. Passes are numbered from 0. A stretch that
/// begins in pass p shows after that pass; one that ends in pass q, until before it.
#[derive(Clone, Copy, Debug, PartialEq, Eq)]
pub struct Stretch {
    /// The core.
    pub core: u8,
    /// The thread that holds or leaves it, or for which it stays empty.
    pub thread: u8,
    /// What the core is in.
    pub state: State,
    /// The pass in which it begins.
    pub from: usize,
    /// The pass in which it ends; none where it goes on at the end of the history.
    pub to: Option<usize>,
}

/// The cells of a cause: its word, the core that it names, the task that it names.
#[derive(Clone, Copy)]
struct CauseCells {
    cause: Cause,
}

impl fmt::Display for CauseCells {
    ghost use Rattle.std.specs.Prelude.{Some};
    ghost use Rattle.cal_facts.specs.StateCells.{cause_cells};

    ghost output = { λ c. Some (cause_cells c.cause) };

    fn fmt<W: fmt::Write>(&self, f: &mut fmt::Formatter<W>) -> fmt::Result {
        match self.cause {
            Cause::Ban { by } => write!(f, "ban,{by},"),
            Cause::Bandwidth => f.write_str("bandwidth,,"),
            Cause::Preempt { task } => write!(f, "preempt,,{task}"),
        }
    }
}

/// The cells of a state: the class of the grant, the state's word, those of its cause, and when the
/// request was begun for which a core is banned.
impl fmt::Display for State {
    ghost use Rattle.std.specs.Prelude.{Some};
    ghost use Rattle.cal_facts.specs.StateCells.{state_cells};

    ghost output = { λ s. Some (state_cells s) };

    fn fmt<W: fmt::Write>(&self, f: &mut fmt::Formatter<W>) -> fmt::Result {
        match *self {
            State::Held { class } => write!(f, "{class},held,,,,"),
            State::Leaving { class, cause } => {
                let cause = CauseCells { cause };
                write!(f, "{class},leaving,{cause},")
            }
            State::Banned { started } => write!(f, ",banned,,,,{started}"),
        }
    }
}

/// A stretch of a span.
pub(crate) fn stretch_of(span: &Span, state: State, from: usize, to: Option<usize>) -> Stretch
    ensures { result ≡ stretch_of span.now state from to }
{
    Stretch {
        core: span.core,
        thread: span.thread,
        state,
        from,
        to,
    }
}

/// The stretch of a ban.
pub(crate) fn banned_stretch(ban: &BanSpan) -> Stretch
    ensures { result ≡ banned_stretch ban.now }
{
    Stretch {
        core: ban.core,
        thread: ban.thread,
        state: State::Banned {
            started: ban.started,
        },
        from: ban.from,
        to: ban.to,
    }
}
