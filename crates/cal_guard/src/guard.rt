//! A guard that never looks back: it keeps the state after the history so far, and lets through
//! what is permitted.

ghost use Rattle.std.specs.Prelude.{◌≡◌, ◌++◌, ◌↔◌, [], ℕ, List};
ghost use Rattle.std.specs.Prelude.{IsOk, IfOk, IfErr, OnErr};
ghost use Rattle.cal_machine.specs.Table.{Table};
ghost use Rattle.cal_policy.specs.declared.history.entry.PassEntry.{PassEntry};
ghost use Rattle.cal_machine.specs.TableTasks.{threads_of_table};
ghost use Rattle.cal_policy.specs.Judgement.Judging.{IsInput};
ghost use Rattle.cal_policy.specs.Setting.{setting};
ghost use Rattle.cal_policy.specs.Board.{HasSizes};
ghost use Rattle.cal_policy.specs.State.{IsReady, IsStateAfter};
ghost use Rattle.cal_guard.specs.Permitted.{ArePermitted, IsPermittedHistory};
ghost use Rattle.cal_guard.specs.Refusals.{MayEndWith, IsFirstWrong};
ghost use Rattle.cal_guard.specs.Guarded.{board_in, and_then, IsWithin};
ghost use Rattle.cal_guard.specs.Guarded.{AfterPermitted, AfterPermittedOpen, InPass, InOpenPass};
ghost use Rattle.cal_guard.specs.Passing.{AreFew, AreLooks, GoingBy};
ghost use Rattle.cal_policy.specs.declared.history.input.Input.{Input};

use crate::histories::{doing_nothing_is_permitted, permitted_goes_on};
use crate::pass_looks::PassLooks;
use crate::passing::Passing;
use crate::refusal::Refused;
use crate::spare::{begin_both, offer_both, step_both};
use cal_machine::Config;
use cal_policy::laws::open_pass_fits;
use cal_policy::state::{Board, Terms};
use cal_policy::{Action, Input, OpenPass};
use std::alloc::{AllocError, Global};
use std::marker::Model;

/// The state after the history so far, and the actions that the pass has so far; and a spare one,
/// on which actions are tried. Only opening a guard takes memory. A pass that is permitted copies no
/// state: its looks and actions are taken into both, and each action costs the cores and tasks once.
/// Where an action is not permitted, the spare is made a copy of the state again.
///
/// Every call is to be given the table that the guard was opened for. What a guard says holds of
/// every permitted history with which it agrees.
#[derive(Drop)]
pub struct Guard {
    passing: Box<Passing>,
    spare: Box<Passing>,
}

impl Model for Guard {
    ghost use Rattle.cal_guard.specs.Spare.{GuardState, IsSpareOf};

    ghost Value = { GuardState };

    ghost view = { λ g. record { passing = g.passing.value } };

    ghost invariant = { λ g. IsSpareOf g.passing.value g.spare.value };
}

impl Guard {
    /// The guard of the empty history. Fails only when out of memory.
    pub fn open(alloc: Global, config: &Config) -> Result<Guard, AllocError>
        ensures keeps { IfOk result (λ guard. IsStateAfter (board_in guard) []) }
        ensures of { IfOk result (λ guard. IsReady config.now (board_in guard)) }
    {
        config.limits();
        let passing = Box::new(alloc, Passing::new())?;
        let spare = Box::new(alloc, Passing::new())?;
        Ok(Guard { passing, spare })
    }

    /// The state that the history leaves. Within a pass it has the pass's looks too, and the
    /// actions that were taken.
    pub fn board(&self) -> &Board
        ensures agrees { (h : List PassEntry) → IsStateAfter (board_in self.now) h →
            IsStateAfter result.now h }
        ensures ready { (table : Table) → IsReady table (board_in self.now) →
            IsReady table result.now }
    {
        &self.passing.board
    }

    /// Begins the next pass, on an input that fits, without any action yet.
    pub fn begin(&mut self, config: &Config, input: &Input)
        requires of { IsReady config.now (board_in self.old) }
        requires sizes { HasSizes config.now input.now }
        ensures within { AfterPermitted config.now self.old (λ h.
            IsWithin self.new (setting config.now h input.entry.now) []) }
        ensures of { IsReady config.now (board_in self.new) }
    {
        config.limits();
        let looks = PassLooks::Listed(input.seen.as_slice());
        begin_both(config, &mut self.passing, &mut self.spare, looks);
    }

    /// Takes these actions into the pass, after those that it has, where each is permitted at its
    /// place and the pass may end after them; else names the first that is not, and takes none. So
    /// a Ban of a held core is given with its revocation, and a Cap below what is held with its.
    pub fn offer(
        &mut self,
        config: &Config,
        input: &Input,
        actions: &[Action],
    ) -> Result<(), Refused>
        requires of { IsReady config.now (board_in self.old) }
        requires sizes { HasSizes config.now input.now }
        ensures exact { InPass config.now self.old input.entry.now (λ s acts.
            IsOk result ↔ MayEndWith s acts actions.now) }
        ensures taken { IsOk result → InPass config.now self.old input.entry.now (λ s acts.
            IsWithin self.new s (acts ++ actions.now)) }
        ensures first { IfErr result (λ refused. InPass config.now self.old input.entry.now
            (λ s acts. IsFirstWrong s acts actions.now refused)) }
        ensures unchanged { OnErr result (self.new ≡ self.old) }
        ensures of { IsReady config.now (board_in self.new) }
    {
        config.limits();
        let terms = Terms::of(config, input);
        offer_both(config, &mut self.passing, &mut self.spare, &terms, actions)
    }

    /// Begins the next pass, on the looks that came in of it, without any action yet.
    pub fn begin_noted(&mut self, config: &Config, looks: &OpenPass)
        requires { IsReady config.now (board_in self.old) }
        ensures within { (now bandwidth : ℕ) →
            AfterPermittedOpen config.now self.old now bandwidth looks.entry.now (λ h input.
            IsWithin self.new (setting config.now h input) []) }
        ensures of { IsReady config.now (board_in self.new) }
    {
        config.limits();
        let noted = PassLooks::Noted(looks);
        begin_both(config, &mut self.passing, &mut self.spare, noted);
    }

    /// `offer` in a pass that was begun on these looks, one of each thread, at this clock and
    /// bandwidth figure.
    pub fn offer_noted(
        &mut self,
        config: &Config,
        now: u64,
        bandwidth: u64,
        looks: &OpenPass,
        actions: &[Action],
    ) -> Result<(), Refused>
        requires of { IsReady config.now (board_in self.old) }
        requires all { looks.now.count ≡ threads_of_table config.now }
        ensures exact { InOpenPass config.now self.old now bandwidth looks.entry.now (λ s acts.
            IsOk result ↔ MayEndWith s acts actions.now) }
        ensures taken { IsOk result →
            InOpenPass config.now self.old now bandwidth looks.entry.now (λ s acts.
            IsWithin self.new s (acts ++ actions.now)) }
        ensures first { IfErr result (λ refused.
            InOpenPass config.now self.old now bandwidth looks.entry.now (λ s acts.
            IsFirstWrong s acts actions.now refused)) }
        ensures unchanged { OnErr result (self.new ≡ self.old) }
        ensures of { IsReady config.now (board_in self.new) }
    {
        config.limits();
        let terms = Terms::of_noted(config, now, bandwidth, looks);
        offer_both(config, &mut self.passing, &mut self.spare, &terms, actions)
    }

    /// Takes in a pass that does nothing. Nothing is wrong with one, so nothing is tried.
    fn step_idle(&mut self, config: &Config, looks: PassLooks)
        requires of { IsReady config.now (board_in self.old) }
        requires few { AreFew looks }
        ensures keeps { (h : List PassEntry) (input : Input) →
            AreLooks looks.entry config.now h input.seen → IsPermittedHistory config.now h →
            IsStateAfter (board_in self.old) h →
            IsStateAfter (board_in self.new) (and_then h input []) }
        ensures of { IsReady config.now (board_in self.new) }
    {
        config.limits();
        begin_both(config, &mut self.passing, &mut self.spare, looks);
    }

    /// Takes in a pass on these terms and looks with these actions, where they are permitted.
    fn step_on(
        &mut self,
        config: &Config,
        terms: &Terms,
        looks: PassLooks,
        chosen: &[Action],
    ) -> Result<(), Refused>
        requires of { IsReady config.now (board_in self.old) }
        requires few { AreFew looks }
        ensures exact { GoingBy config.now terms.entry.now looks.entry (board_in self.old)
            (λ h input. IsOk result ↔ ArePermitted (setting config.now h input) chosen.now) }
        ensures keeps { IsOk result →
            GoingBy config.now terms.entry.now looks.entry (board_in self.old) (λ h input.
            IsStateAfter (board_in self.new) (and_then h input chosen.now)) }
        ensures first { IfErr result (λ refused.
            GoingBy config.now terms.entry.now looks.entry (board_in self.old) (λ h input.
            IsFirstWrong (setting config.now h input) [] chosen.now refused)) }
        ensures unchanged { OnErr result (self.new ≡ self.old) }
        ensures of { IsReady config.now (board_in self.new) }
    {
        config.limits();
        let (passing, spare) = (&mut self.passing, &mut self.spare);
        step_both(config, passing, spare, terms, looks, chosen)
    }

    /// Lets the next pass through, on an input that fits, with the actions that a policy chose,
    /// where they are permitted, and takes it in; else names the first that is not, and takes
    /// nothing in.
    pub fn step(&mut self, config: &Config, input: &Input, chosen: &[Action]) -> Result<(), Refused>
        requires of { IsReady config.now (board_in self.old) }
        requires sizes { HasSizes config.now input.now }
        ensures exact { AfterPermitted config.now self.old (λ h.
            IsOk result ↔ ArePermitted (setting config.now h input.entry.now) chosen.now) }
        ensures keeps { IsOk result → AfterPermitted config.now self.old (λ h.
            IsStateAfter (board_in self.new) (and_then h input.entry.now chosen.now)) }
        ensures permitted { IsOk result → AfterPermitted config.now self.old (λ h.
            IsInput config.now h input.entry.now →
            IsPermittedHistory config.now (and_then h input.entry.now chosen.now)) }
        ensures first { IfErr result (λ refused. AfterPermitted config.now self.old (λ h.
            IsFirstWrong (setting config.now h input.entry.now) [] chosen.now refused)) }
        ensures unchanged { OnErr result (self.new ≡ self.old) }
        ensures of { IsReady config.now (board_in self.new) }
    {
        config.limits();
        doing_nothing_is_permitted();
        permitted_goes_on();
        let looks = PassLooks::Listed(input.seen.as_slice());
        if chosen.is_empty() {
            self.step_idle(config, looks);
            return Ok(());
        }
        let terms = Terms::of(config, input);
        self.step_on(config, &terms, looks, chosen)
    }

    /// `step` at this clock and bandwidth figure and on the looks that came in, one of each thread:
    /// it is `step` on the input that is made of these looks, with no list of looks made.
    pub fn pass(
        &mut self,
        config: &Config,
        now: u64,
        bandwidth: u64,
        looks: &OpenPass,
        chosen: &[Action],
    ) -> Result<(), Refused>
        requires of { IsReady config.now (board_in self.old) }
        requires all { looks.now.count ≡ threads_of_table config.now }
        ensures exact { AfterPermittedOpen config.now self.old now bandwidth looks.entry.now
            (λ h input. IsOk result ↔ ArePermitted (setting config.now h input) chosen.now) }
        ensures keeps { IsOk result →
            AfterPermittedOpen config.now self.old now bandwidth looks.entry.now (λ h input.
            IsStateAfter (board_in self.new) (and_then h input chosen.now)) }
        ensures permitted { IsOk result →
            AfterPermittedOpen config.now self.old now bandwidth looks.entry.now (λ h input.
            IsPermittedHistory config.now (and_then h input chosen.now)) }
        ensures first { IfErr result (λ refused.
            AfterPermittedOpen config.now self.old now bandwidth looks.entry.now (λ h input.
            IsFirstWrong (setting config.now h input) [] chosen.now refused)) }
        ensures unchanged { OnErr result (self.new ≡ self.old) }
        ensures of { IsReady config.now (board_in self.new) }
    {
        config.limits();
        doing_nothing_is_permitted();
        permitted_goes_on();
        open_pass_fits();
        let noted = PassLooks::Noted(looks);
        if chosen.is_empty() {
            self.step_idle(config, noted);
            return Ok(());
        }
        let terms = Terms::of_noted(config, now, bandwidth, looks);
        self.step_on(config, &terms, noted, chosen)
    }
}
