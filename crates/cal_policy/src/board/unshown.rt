//! The cores that their threads may have left, kept up with each change of a holder and each record
//! that is kept.

ghost use Rattle.std.specs.Prelude.{◌≡◌, ℕ, ◌+◌, ◌<◌, ◌⊎◌, true, false, List, Some, IsTrue};
ghost use Rattle.std.specs.Option.{IfSome};
ghost use Rattle.cal_machine.specs.Table.{Table};
ghost use Rattle.cal_machine.specs.CoreSet.{has};
ghost use Rattle.cal_machine.specs.declared.machine.TheConstants.{MOST_CORES};
ghost use Rattle.cal_machine.specs.declared.numbering.TheConstants.{MOST_THREADS};
ghost use Rattle.cal_policy.specs.declared.history.action.Action.{Action};
ghost use Rattle.cal_policy.specs.Board.{BoardSound, holder_in};
ghost use Rattle.cal_policy.specs.State.{IsReady, Stands};
ghost use Rattle.cal_policy.specs.Board.KeepingSets.{kept_in};
ghost use Rattle.cal_policy.specs.Board.Unshown.{IsShownOn};
ghost use Rattle.cal_policy.specs.Setting.{Setting};

use crate::board::Board;
use crate::board::holders::Holder;
use cal_machine::{CoreSet, MOST_CORES};
use cal_signal::running_word;

/// Notes the core that the record kept of a thread showed, where the next one does not. `last` and
/// `next` are the core's number plus one, 0 for none.
pub fn note_left(unshown: &mut CoreSet, last: u64, next: u64)
    ensures before { (c : ℕ) → has unshown.new c ≡ false → has unshown.old c ≡ false }
    ensures left { (c : ℕ) → c < MOST_CORES → has unshown.new c ≡ false → last ≡ c + 1 →
        next ≡ c + 1 }
{
    if last != next && last != 0 && last <= MOST_CORES as u64 {
        unshown.insert((last - 1) as u8);
    }
}

/// Notes the core, if there is one, whose holder changed.
pub fn note_changed(unshown: &mut CoreSet, core: Option<u8>)
    requires { IfSome core (λ c. c < MOST_CORES) }
    ensures before { (c : ℕ) → has unshown.new c ≡ false → has unshown.old c ≡ false }
    ensures changed { (c : ℕ) → core ≡ Some c → has unshown.new c ≡ true }
{
    if let Some(core) = core {
        unshown.insert(core);
    }
}

/// Takes a core out of the set, where it is free or shown.
fn take_out(unshown: &mut CoreSet, core: u8, is_shown: bool)
    requires { core < MOST_CORES }
    ensures { (c : ℕ) → has unshown.new c ≡ false →
        (has unshown.old c ≡ false) ⊎ ((c ≡ core) × IsTrue is_shown) }
{
    if is_shown {
        unshown.remove(core);
    }
}

impl Board {
    /// Whether the kept record of the thread shows it on the core.
    fn is_on(&self, thread: u8, core: u8) -> bool
        requires { thread < MOST_THREADS }
        ensures { IsTrue result → (kept_in self.now.keeping thread).running ≡ core + 1 }
    {
        self.keeping.running(thread as usize) == running_word(Some(core))
    }

    /// Whether nobody has the core, or the kept record of the thread that has it shows it.
    fn is_shown(&self, core: u8) -> bool
        requires core { core < MOST_CORES }
        requires sound { BoardSound MOST_THREADS self.now }
        ensures { IsTrue result →
            IsShownOn (kept_in self.now.keeping) core (holder_in self.now.holding core) }
    {
        match self.holding.holders[core as usize] {
            Holder::Free => true,
            Holder::Held(placement) => self.is_on(placement.thread, core),
            Holder::Leaving(placement, _) => self.is_on(placement.thread, core),
        }
    }

    /// Takes a core out of those that may have been left, where nobody has it, or its thread's kept
    /// record shows it.
    pub fn note_shown(&mut self, core: u8)
        requires core { core < MOST_CORES }
        requires sound { BoardSound MOST_THREADS self.old }
        ensures stands { (s : Setting) (acts : List Action) → Stands self.old s acts →
            Stands self.new s acts }
        ensures ready { (table : Table) → IsReady table self.old → IsReady table self.new }
    {
        let is_shown = self.is_shown(core);
        take_out(&mut self.unshown, core, is_shown);
    }
}
