//! A pass made turn by turn, which can be asked at each turn how things stand.

ghost use Rattle.std.specs.Prelude.{◌≡◌, ℕ, ◌<◌, ◌++◌, [], IfOk, List, OnOk, length, option_to_list};
ghost use Rattle.std.specs.Option.{IfSome};
ghost use Rattle.cal_machine.specs.Table.{IsTable};
ghost use Rattle.cal_policy.specs.Board.{HasSizes, NamesTable};
ghost use Rattle.cal_policy.specs.State.{IsReady, IsOfTable, IsStateAfter, Stands};
ghost use Rattle.cal_policy.specs.Explain.PolicyTurns.{next_turn_by};
ghost use Rattle.cal_policy.specs.Explain.Turns.{IsTurn, first_turn};
ghost use Rattle.cal_policy.specs.Explain.Walks.{IsWalk, Walks, begun_on, setting_of};
ghost use Rattle.cal_policy.specs.Judgement.Judging.{IsInput};
ghost use Rattle.cal_policy.specs.Judgement.Orderly.{IsOrderly};
ghost use Rattle.cal_policy.specs.Pass.AtHand.{setting_in};
ghost use Rattle.cal_policy.specs.Pass.Coupled.{both_of, BothName};
ghost use Rattle.cal_policy.specs.Policies.{pass_by};
ghost use Rattle.cal_policy.specs.Setting.{Begun, Setting, setting, setting_at};
ghost use Rattle.cal_policy.specs.declared.history.entry.PassEntry.{PassEntry};
ghost use Rattle.cal_policy.specs.declared.pass.terms.Terms.{Terms};
ghost use Rattle.cal_policy.specs.declared.explain.turn.Turn.TheVariants.{Placed, End};
ghost use Rattle.cal_policy.specs.declared.policy.Policy.TheVariants.{Caladan, Assured};
ghost use Rattle.cal_policy.specs.Explain.AssuredTurns.{placed_task};

use crate::board::Board;
use crate::board::replay::board_of;
use crate::explain::order::{Order, no_places};
use crate::explain::turn::{Turn, turn_after_by};
use crate::history::action::Action;
use crate::history::entry::PassEntry;
use crate::history::input::Input;
use crate::pass::Pass;
use crate::pass::coupled::Coupled;
use crate::pass::terms::Terms;
use crate::policy::Policy;
use cal_machine::Config;
use std::alloc::{AllocError, Global};

/// A pass that is made turn by turn. At each turn it can be asked how things stand there, which is
/// what the turn's actions are judged by, and it has made exactly the actions that the pass makes
/// before that turn. At `Turn::End` it has made those of the pass, all and in their order.
#[derive(Drop)]
pub struct PassWalk<'a> {
    pub(crate) config: &'a Config,
    pub(crate) terms: Terms,
    pub(crate) board: Box<Board>,
    made: Vec<Action>,
    turn: Turn,
    /// Of the tasks, once it is fixed.
    order: Order,
}

/// Appends an action, if there is one, and brings the board up to it.
fn make_one(
    config: &Config,
    board: &mut Board,
    made: &mut Vec<Action>,
    action: Option<Action>,
) -> Result<(), AllocError>
    requires table { IsTable config.now }
    requires ready { IsReady config.now board.old }
    requires names { IfSome action (NamesTable config.now) }
    ensures made { OnOk result (made.new.items ≡ made.old.items ++ option_to_list action) }
    ensures stands { OnOk result ((s : Setting) → Stands board.old s made.old.items →
        Stands board.new s made.new.items) }
    ensures ready { IsReady config.now board.new }
{
    if let Some(action) = action {
        made.push(action)?;
        board.apply(config, action);
    }
    Ok(())
}

/// Appends both actions, those that there are, and brings the board up to them.
fn make_both(
    config: &Config,
    board: &mut Board,
    made: &mut Vec<Action>,
    both: Coupled,
) -> Result<(), AllocError>
    requires table { IsTable config.now }
    requires ready { IsReady config.now board.old }
    requires names { BothName config.now both }
    ensures made { OnOk result (made.new.items ≡ made.old.items ++ both_of both) }
    ensures stands { OnOk result ((s : Setting) → Stands board.old s made.old.items →
        Stands board.new s made.new.items) }
    ensures ready { IsReady config.now board.new }
{
    make_one(config, board, made, both.first)?;
    make_one(config, board, made, both.second)?;
    Ok(())
}

/// The state where the pass on this input begins, after passes that leave this state.
fn begun_board(
    alloc: Global,
    config: &Config,
    state: &Board,
    input: &Input,
) -> Result<Box<Board>, AllocError>
    requires ready { IsReady config.now state.now }
    requires sizes { HasSizes config.now input.now }
    ensures stands { IfOk result (λ board. (h : List PassEntry) → IsStateAfter state.now h →
        IsInput config.now h input.entry.now → (terms : Terms) → Stands board.value
        (setting_at config.now terms (begun_on h input.entry.now)) []) }
    ensures ready { IfOk result (λ board. IsReady config.now board.value) }
{
    config.limits();
    let mut board = Box::new(alloc, state.duplicate())?;
    board.begin_fit(input.seen.as_slice());
    Ok(board)
}

impl<'a> PassWalk<'a> {
    /// Before the first turn of the policy's pass on this input after these passes. It goes over the
    /// whole history once. Fails only when out of memory.
    pub fn begin_by(
        alloc: Global,
        config: &'a Config,
        policy: Policy,
        history: &[PassEntry],
        input: &Input,
    ) -> Result<PassWalk<'a>, AllocError>
        requires orderly { IsOrderly config.now history.now }
        requires input { IsInput config.now history.now input.now }
        ensures walk { IfOk result IsWalk }
        ensures policy { IfOk result (λ walk. walk.terms.policy ≡ policy) }
        ensures first { IfOk result (λ walk. walk.turn ≡ first_turn) }
        ensures begun { IfOk result (λ walk. Walks walk (begun_on history.now input.entry.now)) }
        // The pass that it goes over is the one on that input after those passes.
        ensures setting { IfOk result (λ walk. setting_of walk (begun_on history.now
            input.entry.now) ≡ setting config.now history.now input.entry.now) }
    {
        config.limits();
        let state = board_of(config, history);
        PassWalk::begin_after(alloc, config, policy, &state, input)
    }

    /// `begin_by` on the state that those passes leave: they are not gone over again. Fails only when
    /// out of memory.
    pub fn begin_after(
        alloc: Global,
        config: &'a Config,
        policy: Policy,
        state: &Board,
        input: &Input,
    ) -> Result<PassWalk<'a>, AllocError>
        requires ready { IsReady config.now state.now }
        requires sizes { HasSizes config.now input.now }
        ensures walk { IfOk result IsWalk }
        ensures policy { IfOk result (λ walk. walk.terms.policy ≡ policy) }
        ensures first { IfOk result (λ walk. walk.turn ≡ first_turn) }
        ensures begun { IfOk result (λ walk. (h : List PassEntry) → IsStateAfter state.now h →
            IsInput config.now h input.entry.now → Walks walk (begun_on h input.entry.now)) }
        // The pass that it goes over is the one on that input after those passes.
        ensures setting { IfOk result (λ walk. (h : List PassEntry) →
            setting_of walk (begun_on h input.entry.now) ≡ setting config.now h input.entry.now) }
    {
        config.limits();
        let board = begun_board(alloc, config, state, input)?;
        Ok(PassWalk {
            config,
            terms: Terms::of(config, input).by(policy),
            board,
            made: Vec::new(alloc),
            turn: Turn::Free { core: 0 },
            order: no_places(),
        })
    }

    /// `begin_by` of `Policy::Caladan`.
    pub fn begin(
        alloc: Global,
        config: &'a Config,
        history: &[PassEntry],
        input: &Input,
    ) -> Result<PassWalk<'a>, AllocError>
        requires orderly { IsOrderly config.now history.now }
        requires input { IsInput config.now history.now input.now }
        ensures walk { IfOk result IsWalk }
        ensures policy { IfOk result (λ walk. walk.terms.policy ≡ Caladan) }
        ensures first { IfOk result (λ walk. walk.turn ≡ first_turn) }
        ensures begun { IfOk result (λ walk. Walks walk (begun_on history.now input.entry.now)) }
        ensures setting { IfOk result (λ walk. setting_of walk (begun_on history.now
            input.entry.now) ≡ setting config.now history.now input.entry.now) }
    {
        PassWalk::begin_by(alloc, config, Policy::Caladan, history, input)
    }

    /// The policy whose pass it goes over.
    pub fn policy(&self) -> Policy
        ensures { result ≡ self.now.terms.policy }
    {
        self.terms.policy
    }

    /// The task table that the pass goes by.
    pub fn config(&self) -> &'a Config
        ensures { result.now ≡ self.now.config.now }
    {
        self.config
    }

    /// The clock of the pass, in ticks.
    pub fn now(&self) -> u64
        ensures { (h : Begun) → result ≡ (setting_of self.now h).input.now }
    {
        self.terms.now
    }

    /// The bandwidth figure of the pass.
    pub fn bandwidth(&self) -> u64
        ensures { (h : Begun) → result ≡ (setting_of self.now h).input.bandwidth }
    {
        self.terms.bandwidth
    }

    /// The turn that comes next.
    pub fn turn(&self) -> Turn
        ensures turn { result ≡ self.now.turn }
        ensures named { IsWalk self.now → IsTurn self.now.config.now result }
    {
        self.turn
    }

    /// The task that has the turn in this place of the order, in a pass of `Policy::Assured`.
    pub fn placed(&self, place: u8) -> Option<u8>
        requires walk { IsWalk self.now }
        requires place { place < length self.now.config.now.tasks }
        ensures task { IfSome result (λ t. t < length self.now.config.now.tasks) }
        ensures placed { self.now.terms.policy ≡ Assured → (act : ℕ) →
            self.now.turn ≡ Placed place act → (h : Begun) → Walks self.now h → result ≡ placed_task (setting_of self.now h) place }
    {
        self.config.limits();
        self.order[place as usize]
    }

    /// The actions of the pass that come before the turn; at `Turn::End` all of them.
    pub fn made(&self) -> &[Action]
        ensures made { result.now ≡ self.now.made.items }
        ensures all { self.now.turn ≡ End → (h : Begun) → Walks self.now h →
            result.now ≡ pass_by self.now.terms.policy (setting_of self.now h) }
    {
        self.made.as_slice()
    }

    /// The pass that is made.
    pub(crate) fn pass(&self) -> Pass<'_>
        requires walk { IsWalk self.now }
        ensures at_hand { IsOfTable result.config.now self.now.board.value }
        ensures config { result.config.now ≡ self.now.config.now }
        ensures stands { (h : Begun) → Walks self.now h →
            Stands self.now.board.value (setting_in result h) self.now.made.items }
        ensures setting { (h : Begun) → setting_in result h ≡ setting_of self.now h }
        ensures policy { result.terms.now.policy ≡ self.now.terms.policy }
    {
        Pass {
            config: self.config,
            terms: &self.terms,
        }
    }

    /// Makes what the turn makes, and goes on to the next one. Fails only when out of memory; the
    /// walk is then of no use.
    pub fn take(&mut self) -> Result<(), AllocError>
        requires walk { IsWalk self.old }
        ensures walk { IsWalk self.new }
        ensures next { OnOk result (self.new.turn
            ≡ next_turn_by self.old.terms.policy self.old.config.now self.old.turn) }
        ensures table { self.new.config.now ≡ self.old.config.now }
        ensures policy { self.new.terms.policy ≡ self.old.terms.policy }
        ensures goes_on { OnOk result ((h : Begun) → Walks self.old h → Walks self.new h) }
        ensures setting { (h : Begun) → setting_of self.new h ≡ setting_of self.old h }
    {
        let both = self
            .pass()
            .due_by(&self.board, &self.made, &self.order, self.turn);
        make_both(self.config, &mut self.board, &mut self.made, both)?;
        let order = self.pass().order_after(&self.board, self.turn, self.order);
        self.order = order;
        self.turn = turn_after_by(self.config, self.terms.policy, self.turn);
        Ok(())
    }
}
