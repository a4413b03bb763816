//! What makes a run like a machine.

ghost use Rattle.std.specs.Prelude.{◌↔◌, IsTrue};
ghost use Rattle.cal_paced.specs.Paced.{IsPlan, SlowsNobody};

/// A turn's whole work, in thousandths.
pub const WHOLE: u16 = 1_000;

/// Where the passes of a run get their bandwidth figures from.
#[derive(Clone, Copy, Debug, PartialEq, Eq)]
pub enum Figure {
    /// From the file: those before turn `j` have the figure of its pass `j`.
    Given,
    /// From the threads: the misses by which all records rose in the turns of the round before.
    Shown,
}

/// What makes a run like a machine.
#[derive(Clone, Copy, Debug, PartialEq, Eq)]
pub struct Plan {
    /// How many passes there are to a turn, at least 1.
    pub pace: u16,
    /// What a turn does of its work beside a sibling at work, in thousandths, at most `WHOLE`.
    pub beside: u16,
    /// The misses that the memory bears in a turn, if that has an end.
    pub memory: Option<u64>,
    /// Where the bandwidth figures come from.
    pub figure: Figure,
}

impl Plan {
    /// One pass to a turn, and nobody slows anybody: as in lockstep.
    pub const NEUTRAL: Plan = Plan {
        pace: 1,
        beside: WHOLE,
        memory: None,
        figure: Figure::Given,
    };

    /// Whether a run can go by this plan: at least one pass to a turn, and beside a sibling at work
    /// at most a whole turn's work.
    pub fn is_plan(&self) -> bool
        ensures { IsTrue result ↔ IsPlan self.now }
    {
        self.pace >= 1 && self.beside <= WHOLE
    }

    /// Whether each turn does all of its work by this plan, whatever the threads are.
    pub fn slows_nobody(&self) -> bool
        ensures { IsTrue result ↔ SlowsNobody self.now }
    {
        self.beside == WHOLE && self.memory.is_none()
    }
}
