//! A pass, from its parts in their order.

ghost use Rattle.std.specs.Prelude.{◌≡◌, ◌+◌, ◌≤◌, ◌++◌, ◌∷◌, [], List, length};
ghost use Rattle.cal_machine.specs.declared.task.Kind.TheVariants as kinds;
ghost use Rattle.cal_policy.specs.declared.history.action_list.TheConstants.{MOST_ACTIONS};
ghost use Rattle.cal_policy.specs.declared.history.entry.PassEntry.{PassEntry};
ghost use Rattle.cal_policy.specs.declared.judgement.open_input.FoundLook.{FoundLook};
ghost use Rattle.cal_machine.specs.TableTasks.{threads_of_table};
ghost use Rattle.cal_policy.specs.Setting.{Begun, setting};
ghost use Rattle.cal_policy.specs.Pass.AtHand.{setting_in};
ghost use Rattle.cal_policy.specs.History.{actions_of, looks_of};
ghost use Rattle.cal_policy.specs.Judgement.OpenInput.{judged_input};
ghost use Rattle.cal_policy.specs.Judgement.OpenPass.{IsOpenAt};
ghost use Rattle.cal_policy.specs.Pass.Bans.{NoPairBanned};
ghost use Rattle.cal_policy.specs.Pass.Grants.{grants_of_kind};
ghost use Rattle.cal_policy.specs.Pass.{followed};
ghost use Rattle.cal_policy.specs.Policies.{pass_by};
ghost use Rattle.cal_policy.specs.State.{IsReady, IsOfTable, IsStateAfter};
ghost use Rattle.cal_policy.specs.State.{Stands, Agrees, KeepingAgrees};
ghost use Rattle.cal_policy.specs.Board.{KeepsBefore, HasSizes};
ghost use Rattle.cal_policy.specs.Board.KeepingSets.{FitAfter};

use crate::board::Board;
use crate::history::action_list::Actions;
use crate::history::input::Input;
use crate::judgement::open_pass::OpenPass;
use crate::pass::Pass;
use crate::pass::terms::Terms;
use crate::policy::Policy;
use cal_machine::{Config, Kind};

impl Pass<'_> {
    /// Makes the grants of a pass of `Policy::Caladan`: to its latency-critical tasks, then to its
    /// best-effort ones.
    fn grant_by_kind(&self, board: &mut Board, out: &mut Actions)
        requires of_table { IsOfTable self.now.config.now board.old }
        requires room { length out.old + length self.now.config.now.tasks ≤ MOST_ACTIONS }
        ensures acts { (h : Begun) → let s = setting_in self.now h in Stands board.old s out.old →
            (out.new ≡ followed (followed out.old (grants_of_kind kinds.LatencyCritical s))
            (grants_of_kind kinds.BestEffort s)) × Stands board.new s out.new }
        ensures ready { IsReady self.now.config.now board.new }
    {
        if self.none_waits(board) {
            return;
        }
        self.grants_of_kind(board, out, Kind::LatencyCritical);
        self.grants_of_kind(board, out, Kind::BestEffort);
    }

    /// Makes the parts of a pass of the policy that the terms name, each after the one before.
    fn make_by(&self, board: &mut Board, out: &mut Actions)
        requires of_table { IsOfTable self.now.config.now board.old }
        requires empty { out.old ≡ [] }
        ensures acts { (h : Begun) → let s = setting_in self.now h in
            NoPairBanned (actions_of h.history) → Stands board.old s [] →
            (out.new ≡ pass_by self.now.terms.now.policy s) × Stands board.new s out.new }
        ensures ready { IsReady self.now.config.now board.new }
    {
        self.free_left(board, out);
        self.end_bans(board, out);
        self.ban_siblings(board, out);
        self.keep_bandwidth(board, out);
        match self.terms.policy {
            Policy::Caladan => self.grant_by_kind(board, out),
            Policy::Assured => self.grant_in_turn(board, out),
        }
    }
}

/// Appends the actions of the policy's next pass, on this input, which fits, to an empty list, and
/// brings the board up to that pass: of the plain one from the board of its whole history, and of a
/// Book's from the board that it keeps.
pub fn decide(config: &Config, policy: Policy, input: &Input, board: &mut Board, out: &mut Actions)
    requires ready { IsReady config.now board.old }
    requires sizes { HasSizes config.now input.now }
    requires empty { out.old ≡ [] }
    ensures acts { (h : List PassEntry) → NoPairBanned (actions_of h) →
        Agrees board.old (actions_of h) → KeepingAgrees board.old.keeping (looks_of h) →
        FitAfter (looks_of h) input.entry.now.seen →
        (out.new ≡ pass_by policy (setting config.now h input.entry.now))
        × IsStateAfter board.new (h ++ record { input = input.entry.now; actions = out.new } ∷ [])
        × KeepsBefore board.new.keeping (looks_of h) }
    ensures ready { IsReady config.now board.new }
{
    config.limits();
    let terms = Terms::of(config, input).by(policy);
    let pass = Pass {
        config,
        terms: &terms,
    };
    board.begin_fit(input.seen.as_slice());
    pass.make_by(board, out);
}

/// The same, where the looks came in one by one, one of each thread, and only those that are news
/// were noted.
#[inline(always)]
pub fn decide_noted(
    config: &Config,
    policy: Policy,
    now: u64,
    bandwidth: u64,
    looks: &OpenPass,
    board: &mut Board,
    out: &mut Actions,
)
    requires ready { IsReady config.now board.old }
    requires all { looks.now.count ≡ threads_of_table config.now }
    requires empty { out.old ≡ [] }
    ensures acts { (h : List PassEntry) (found : List FoundLook) → NoPairBanned (actions_of h) →
        Agrees board.old (actions_of h) → KeepingAgrees board.old.keeping (looks_of h) →
        IsOpenAt config.now h found looks.entry.now →
        (out.new
        ≡ pass_by policy (setting config.now h (judged_input config.now h now bandwidth found)))
        × IsStateAfter board.new (h ++ record {
          input = judged_input config.now h now bandwidth found;
          actions = out.new;
        } ∷ []) × KeepsBefore board.new.keeping (looks_of h) }
    ensures ready { IsReady config.now board.new }
{
    config.limits();
    let terms = Terms::of_noted(config, now, bandwidth, looks).by(policy);
    let pass = Pass {
        config,
        terms: &terms,
    };
    board.begin_noted(looks);
    pass.make_by(board, out);
}
