//! What the turns of a kernel thread so far came to.

ghost use Rattle.std.specs.Prelude.{◌+◌, ◌<◌, ◌^◌, ◌++◌, ◌∷◌, [], List, IfOk, OnOk, length};
ghost use Rattle.cal_measure.specs.Ends.{timed_of};
ghost use Rattle.cal_measure.specs.ThreadWork.{AreTurnsSoFar, IsWorkOfEnded};
ghost use Rattle.cal_measure.specs.Turns.{one_of};
ghost use Rattle.cal_measure.specs.declared.turns.Turn.{Turn as TurnOf};

use crate::thread_work::ended::EndedTurns;
use crate::thread_work::totals::counted;
use crate::turns::Turn;
use crate::work::suspension_by;
use std::alloc::{AllocError, Global};

/// What the turns of a kernel thread so far came to.
#[derive(Drop)]
pub struct TurnsSoFar {
    /// The last one, which ends with the next.
    pub latest: Option<Turn>,
    /// What those before it came to.
    pub ended: EndedTurns,
    /// How often a request was suspended.
    pub suspensions: usize,
}

impl TurnsSoFar {
    /// Of no turns. Takes no memory.
    pub(crate) fn none(alloc: Global) -> TurnsSoFar
        ensures { AreTurnsSoFar [] result }
    {
        TurnsSoFar {
            latest: None,
            ended: EndedTurns::none(alloc),
            suspensions: 0,
        }
    }

    /// Takes one turn more, if there is one. Fails only when out of memory. (Inlined with what calls
    /// it, so that no turn is written to memory and read again.)
    #[inline(always)]
    pub(crate) fn take(&mut self, turn: Option<Turn>) -> Result<(), AllocError>
        ensures { (turns : List TurnOf) → length turns + 1 < 2 ^ 64 → AreTurnsSoFar turns self.old →
            OnOk result (AreTurnsSoFar (turns ++ one_of turn) self.new) }
    {
        match turn {
            None => Ok(()),
            Some(turn) => self.take_turn(turn),
        }
    }

    /// Takes one turn more: with it the last one ends.
    #[inline(always)]
    fn take_turn(&mut self, turn: Turn) -> Result<(), AllocError>
        ensures { (turns : List TurnOf) → length turns + 1 < 2 ^ 64 → AreTurnsSoFar turns self.old →
            OnOk result (AreTurnsSoFar (turns ++ turn ∷ []) self.new) }
    {
        let next = Some(turn);
        self.ended.take(0, self.latest, next)?;
        self.suspensions = counted(self.suspensions, suspension_by(self.latest, next));
        self.latest = next;
        Ok(())
    }

    /// What all of them came to, in a run with this last clock: the last one ends then. Fails only
    /// when out of memory.
    pub(crate) fn end(self, last: u64) -> Result<EndedTurns, AllocError>
        ensures { (turns : List TurnOf) → length turns + 1 < 2 ^ 64 → AreTurnsSoFar turns self →
            IfOk result (IsWorkOfEnded (timed_of last turns)) }
    {
        let TurnsSoFar { latest, ended, .. } = self;
        let mut all = ended;
        all.take(last, latest, None)?;
        Ok(all)
    }
}
