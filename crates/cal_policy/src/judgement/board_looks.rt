//! How the state after a history judges looks: what each is, which input the next pass makes of
//! them, and why one is refused where looks are taken one by one.

ghost use Rattle.std.specs.Prelude.{◌≡◌, ◌<◌, ◌↔◌, List, length, IfOk, IsTrue};
ghost use Rattle.cal_machine.specs.TableTasks.{threads_of_table};
ghost use Rattle.cal_policy.specs.declared.history.entry.PassEntry.{PassEntry};
ghost use Rattle.cal_policy.specs.declared.judgement.open_input.FoundLook.{FoundLook};
ghost use Rattle.cal_policy.specs.Board.{HasSizes};
ghost use Rattle.cal_policy.specs.State.{IsStateAfter};
ghost use Rattle.cal_policy.specs.History.{actions_of, looks_of};
ghost use Rattle.cal_policy.specs.History.Looks.{last_shown};
ghost use Rattle.cal_policy.specs.Judgement.Judging.{judged, IsInput};
ghost use Rattle.cal_policy.specs.Judgement.OneByOne as rules;
ghost use Rattle.cal_policy.specs.Judgement.OpenInput.{judged_input};

use crate::board::Board;
use crate::history::input::Input;
use crate::history::look::Seen;
use crate::judgement::judging::{each_as_judged, judged_by, looks_fit};
use crate::judgement::look_fault::LookFault;
use crate::judgement::one_by_one::{fault_judged, misfit_of};
use crate::judgement::open_input::{FoundLook, InputLists};
use cal_machine::Config;
use cal_signal::Look;
use std::alloc::{AllocError, Global};

impl Board {
    /// The judgement of a look at thread `k` after the history.
    #[inline(always)]
    pub fn judge(&self, config: &Config, k: usize, look: Look) -> Seen
        requires { k < threads_of_table config.now }
        ensures { (h : List PassEntry) → IsStateAfter self.now h →
            result ≡ judged config.now.cores (actions_of h) k look }
    {
        config.limits();
        judged_by(self, config.machine().cores(), k, look)
    }

    /// The input of the next pass at this clock and bandwidth figure, from what was found of each
    /// thread, thread 0 first. Fails only when out of memory.
    pub fn input(
        &self,
        alloc: Global,
        config: &Config,
        now: u64,
        bandwidth: u64,
        found: &[FoundLook],
    ) -> Result<Input, AllocError>
        requires { length found.now ≡ threads_of_table config.now }
        ensures judged { IfOk result (λ input. (h : List PassEntry) → IsStateAfter self.now h →
            input ≡ judged_input config.now h now bandwidth found.now) }
        ensures sizes { IfOk result (HasSizes config.now) }
    {
        let mut lists = InputLists::reserved(alloc, config)?;
        for one in found {
            lists.take(config, self, *one);
        }
        Ok(lists.finish(now, bandwidth))
    }

    /// Whether the next pass may be given this input.
    pub fn fits(&self, config: &Config, input: &Input) -> bool
        ensures fits { (h : List PassEntry) → IsStateAfter self.now h →
            IsTrue result ↔ IsInput config.now h input.entry.now }
        ensures sizes { IsTrue result → HasSizes config.now input.entry.now }
    {
        config.limits();
        if !looks_fit(&self.keeping, config, input) {
            return false;
        }
        each_as_judged(self, config.machine().cores(), input.seen.as_slice())
    }

    /// Why a look at thread `k` does not fit what was shown of the thread before.
    pub fn misfit_of(&self, config: &Config, k: usize, look: Look) -> Option<LookFault>
        requires { k < threads_of_table config.now }
        ensures { (h : List PassEntry) → IsStateAfter self.now h →
            result ≡ rules.misfit_of (last_shown (looks_of h) k) look }
    {
        config.limits();
        misfit_of(&self.keeping.shown(k), look)
    }

    /// Why a look at thread `k` is refused where looks are taken one by one.
    pub fn fault_of(&self, config: &Config, k: usize, look: Look) -> Option<LookFault>
        requires { k < threads_of_table config.now }
        ensures { (h : List PassEntry) → IsStateAfter self.now h →
            result ≡ rules.fault_of config.now.cores h k look }
    {
        match self.misfit_of(config, k, look) {
            Some(fault) => Some(fault),
            None => fault_judged(self.judge(config, k, look)),
        }
    }
}
