//! Inside a pass: what is wrong with the next action, and the state after it.

ghost use Rattle.std.specs.Prelude.{◌≡◌, ℕ, ◌+◌, ◌<◌, ◌≤◌, ◌++◌, ◌∷◌, [], ◌↔◌, List, Option};
ghost use Rattle.std.specs.Prelude.{length, None, IsOk, IfNone, IfErr};
ghost use Rattle.std.specs.Option.{IfSome};
ghost use Rattle.cal_machine.specs.Table.{Table, IsTable};
ghost use Rattle.cal_machine.specs.declared.machine.TheConstants.{MOST_CORES};
ghost use Rattle.cal_machine.specs.declared.numbering.TheConstants.{MOST_THREADS};
ghost use Rattle.cal_policy.specs.declared.history.action.Action.{Action};
ghost use Rattle.cal_policy.specs.declared.history.entry.PassEntry.{PassEntry};
ghost use Rattle.cal_policy.specs.declared.history.input.Input.{Input};
ghost use Rattle.cal_machine.specs.TableTasks.{threads_of_table};
ghost use Rattle.cal_policy.specs.Pass.Choice.{lowest_below};
ghost use Rattle.cal_policy.specs.History.{looks_of, holder_of};
ghost use Rattle.cal_policy.specs.Setting.{Setting, Begun, setting, setting_at, so_far};
ghost use Rattle.cal_policy.specs.Board.{KeepsBefore, HasGranted};
ghost use Rattle.cal_policy.specs.State.{IsReady, IsStateAfter, Stands, Agrees, KeepingAgrees};
ghost use Rattle.cal_policy.specs.Board.KeepingSets.{KeepsSets};
ghost use Rattle.cal_policy.specs.declared.history.look.Seen.{Seen};
ghost use Rattle.cal_policy.specs.Board.{NamesCores, NamesTable};
ghost use Rattle.cal_guard.specs.Permitted.{IsPermitted, IsPermittedHistory, core_revoked};
ghost use Rattle.cal_guard.specs.Refusals as refusals;
ghost use Rattle.cal_guard.specs.Refusals.{MayEndWith, IsFirstWrong};
ghost use Rattle.cal_guard.specs.Passing.{IsSetOfSent, IsAfter, IsInside, MayFollow};
ghost use Rattle.cal_guard.specs.Passing.{AreFew, AreLooks, AreShown, InsideOn, next_setting};

use crate::pass_looks::PassLooks;
use crate::refusal::{Refused, Why};
use cal_machine::{Config, ThreadSet};
use cal_policy::state::{
    Board, Holder, Terms, cap_of, command_for, core_changed_by, held_by, holds_for, is_banned,
    is_fit, is_held, is_left, is_over, next_core, survey_of,
};
use cal_policy::{Action, MOST_ACTIONS};

/// The state inside a pass.
#[derive(Drop)]
pub struct Passing {
    /// The state after all actions and looks so far.
    pub board: Board,
    /// The threads that were sent a command in this pass.
    pub sent: ThreadSet,
    /// How many actions the pass has.
    pub made: usize,
}

/// This is wrong, unless the condition holds.
fn unless(holds: bool, why: Why) -> Option<Why>
    ensures { result ≡ refusals.unless holds why }
{
    if holds { None } else { Some(why) }
}

/// What is wrong with sending the thread a command.
fn wrong_to_send(terms: &Terms, sent: &ThreadSet, thread: u8) -> Option<Why>
    requires { thread < MOST_THREADS }
    ensures { (table : Table) (h : Begun) (acts : List Action) →
        thread < threads_of_table table → let s = setting_at table terms.entry.now h in
        IsSetOfSent sent.now s acts → result ≡ refusals.wrong_to_send s acts thread }
{
    let unsent = unless(!sent.has(thread as usize), Why::SecondCommand);
    unless(!terms.full.has(thread as usize), Why::NoRoom).or(unsent)
}

/// What is wrong with one more core for the task.
fn wrong_to_book(config: &Config, board: &Board, task: usize) -> Option<Why>
    requires table { IsTable config.now }
    requires ready { IsReady config.now board.now }
    requires task { task < length config.now.tasks }
    ensures { (x : List Action) → Agrees board.now x →
        result ≡ refusals.wrong_to_book config.now x task }
{
    config.limits();
    let booked = survey_of(config, board).booked[task];
    let below_cap = config.is_latency_critical(task) || booked < cap_of(config, board, task);
    unless(booked < config.task(task).limit, Why::AtLimit).or(unless(below_cap, Why::AtCap))
}

/// The core that an action revokes.
fn core_revoked_by(action: Action) -> Option<u8>
    ensures revoked { result ≡ core_revoked action }
    ensures below { (cores threads : ℕ) → NamesCores cores threads action →
        IfSome result (λ core. core < cores) }
{
    match action {
        Action::Revoke { core, .. } => Some(core),
        Action::Free { .. } => None,
        Action::Unban { .. } => None,
        Action::Ban { .. } => None,
        Action::Cap { .. } => None,
        Action::Grant { .. } => None,
    }
}

/// Whether a core is revoked, and it is this one.
fn is_core(revoked: Option<u8>, core: u8) -> bool
    ensures { result ≡ refusals.is_core core revoked }
{
    match revoked {
        None => false,
        Some(other) => other == core,
    }
}

/// Whether the core is banned and held, and is not the one that is revoked.
fn is_left_held(board: &Board, revoked: Option<u8>, core: u8) -> bool
    requires { core < MOST_CORES }
    ensures { (x : List Action) → Agrees board.now x →
        result ≡ refusals.is_left_held x revoked core }
{
    is_banned(board, core) && is_held(board, core) && !is_core(revoked, core)
}

/// The lowest core that is banned and held, and is not the one that is revoked. Only those that are
/// banned are gone over.
fn lowest_left_held(config: &Config, board: &Board, revoked: Option<u8>) -> Option<u8>
    ensures { (x : List Action) → Agrees board.now x →
        result ≡ lowest_below (refusals.is_left_held x revoked) config.now.cores }
{
    config.limits();
    let mut first = 0;
    while let Some(core) = next_core(config, &board.sets.banned, first) {
        if is_left_held(board, revoked, core) {
            return Some(core);
        }
        first = core + 1;
    }
    None
}

/// Whether a core is revoked, and a thread of the task holds it.
fn is_from(config: &Config, board: &Board, task: usize, revoked: Option<u8>) -> bool
    requires table { IsTable config.now }
    requires ready { IsReady config.now board.now }
    requires core { IfSome revoked (λ core. core < MOST_CORES) }
    ensures { (x : List Action) → Agrees board.now x →
        result ≡ refusals.is_from config.now x task revoked }
{
    match revoked {
        None => false,
        Some(core) => holds_for(config, task, board.holding.holders[core as usize]),
    }
}

/// Whether the best-effort task holds more than its cap, and does not lose a core.
fn is_left_over(config: &Config, board: &Board, task: usize, revoked: Option<u8>) -> bool
    requires table { IsTable config.now }
    requires ready { IsReady config.now board.now }
    requires core { IfSome revoked (λ core. core < MOST_CORES) }
    requires task { task < length config.now.tasks }
    ensures { (x : List Action) → Agrees board.now x →
        result ≡ refusals.is_left_over config.now x revoked task }
{
    !config.is_latency_critical(task)
        && cap_of(config, board, task) < held_by(config, board, task)
        && !is_from(config, board, task, revoked)
}

/// The first best-effort task that holds more than its cap, and does not lose a core.
fn lowest_left_over(config: &Config, board: &Board, revoked: Option<u8>) -> Option<usize>
    requires table { IsTable config.now }
    requires ready { IsReady config.now board.now }
    requires core { IfSome revoked (λ core. core < MOST_CORES) }
    ensures lowest { (x : List Action) → Agrees board.now x →
        result ≡ lowest_below (refusals.is_left_over config.now x revoked)
        (length config.now.tasks) }
    ensures own { IfSome result (λ task. task < length config.now.tasks) }
{
    for task in 0..config.tasks() {
        if is_left_over(config, board, task, revoked) {
            return Some(task);
        }
    }
    None
}

/// What a ban or a cap left undone, and is not done where this core is revoked.
fn left_undone(config: &Config, board: &Board, revoked: Option<u8>) -> Option<Why>
    requires table { IsTable config.now }
    requires ready { IsReady config.now board.now }
    requires core { IfSome revoked (λ core. core < MOST_CORES) }
    ensures { (x : List Action) → Agrees board.now x →
        result ≡ refusals.left_undone config.now x revoked }
{
    config.limits();
    if let Some(core) = lowest_left_held(config, board, revoked) {
        return Some(Why::BannedHeld { core });
    }
    let task = lowest_left_over(config, board, revoked)?;
    Some(Why::OverCap { task: task as u8 })
}

/// Notes the thread to which an action sends a command.
fn note_sent(config: &Config, board: &Board, sent: &mut ThreadSet, action: Action)
    requires table { IsTable config.now }
    requires ready { IsReady config.now board.now }
    requires names { NamesTable config.now action }
    ensures { (s : Setting) (acts : List Action) → Agrees board.now (so_far s acts) →
        IsSetOfSent sent.old s acts → IsSetOfSent sent.new s (acts ++ action ∷ []) }
{
    let _ = config;
    let core = core_changed_by(action);
    if let Some((thread, _)) = command_for(action, board.holding.thread_granted(core)) {
        sent.insert(thread as usize);
    }
}

/// Begins a pass on these looks in the state.
fn begin_board(board: &mut Board, looks: PassLooks)
    requires few { AreFew looks }
    requires sets { KeepsSets board.old.keeping }
    ensures agrees { (x : List Action) → Agrees board.old x → Agrees board.new x }
    ensures fresh { HasGranted board.new.fresh [] }
    ensures ready { (table : Table) → IsReady table board.old → IsReady table board.new }
    ensures keeping { (table : Table) (h : List PassEntry) (seen : List Seen) →
        AreLooks looks.entry table h seen → KeepingAgrees board.old.keeping (looks_of h) →
        KeepingAgrees board.new.keeping (looks_of h ++ seen ∷ []) }
    ensures shown { (past : List (List Seen)) (seen : List Seen) → AreShown looks.entry seen →
        KeepingAgrees board.old.keeping past → KeepingAgrees board.new.keeping (past ++ seen ∷ []) }
    ensures before { (past : List (List Seen)) → KeepingAgrees board.old.keeping past →
        KeepsBefore board.new.keeping past }
{
    match looks {
        PassLooks::Listed(listed) => board.begin(listed),
        PassLooks::Noted(pass) => board.begin_noted(pass),
    }
}

impl Passing {
    /// The state before any pass.
    pub fn new() -> Passing
        ensures agrees { Agrees result.board [] }
        ensures keeping { KeepingAgrees result.board.keeping [] }
        ensures after { (table : Table) (input : Input) → input.seen ≡ [] →
            IsAfter result (setting table [] input) [] }
        ensures made { result.made ≡ 0 }
        ensures ready { (table : Table) → IsReady table result.board }
    {
        Passing {
            board: Board::new(),
            sent: ThreadSet::empty(),
            made: 0,
        }
    }

    /// A state like this one, to go back to.
    pub fn duplicate(&self) -> Passing
        ensures { result ≡ self.now }
    {
        Passing {
            board: self.board.duplicate(),
            sent: self.sent,
            made: self.made,
        }
    }

    /// Begins the pass on these looks.
    pub fn begin(&mut self, looks: PassLooks)
        requires few { AreFew looks }
        requires sets { KeepsSets self.old.board.keeping }
        ensures inside { (table : Table) (h : List PassEntry) (input : Input) →
            AreLooks looks.entry table h input.seen → IsPermittedHistory table h →
            IsStateAfter self.old.board h → IsInside self.new (setting table h input) [] }
        ensures after { (s : Setting) (acts : List Action) (input : Input) →
            AreShown looks.entry input.seen → IsAfter self.old s acts →
            IsAfter self.new (next_setting s acts input) [] }
        ensures made { self.new.made ≡ 0 }
        ensures ready { (table : Table) → IsReady table self.old.board →
            IsReady table self.new.board }
    {
        begin_board(&mut self.board, looks);
        self.sent = ThreadSet::empty();
        self.made = 0;
    }

    /// What is wrong with revoking the core.
    fn wrong_to_revoke(&self, config: &Config, terms: &Terms, core: u8) -> Option<Why>
        requires table { IsTable config.now }
        requires ready { IsReady config.now self.now.board }
        requires core { core < config.now.cores }
        ensures { (h : Begun) (acts : List Action) →
            let s = setting_at config.now terms.entry.now h in
            Agrees self.now.board (so_far s acts) → IsSetOfSent self.now.sent s acts →
            result ≡ refusals.wrong_to_revoke s acts (holder_of (so_far s acts) core) }
    {
        match self.board.holding.holders[core as usize] {
            Holder::Held(placement) => {
                let task = config.task_of(placement.thread as usize);
                unless(is_over(config, &self.board, task), Why::AtGuarantee).or(wrong_to_send(
                    terms,
                    &self.sent,
                    placement.thread,
                ))
            }
            Holder::Free | Holder::Leaving(..) => Some(Why::DoesNotFit),
        }
    }

    /// What is wrong with granting the core to the thread.
    fn wrong_to_grant(&self, config: &Config, terms: &Terms, core: u8, thread: u8) -> Option<Why>
        requires table { IsTable config.now }
        requires ready { IsReady config.now self.now.board }
        requires core { core < config.now.cores }
        requires thread { thread < threads_of_table config.now }
        ensures { (h : Begun) (acts : List Action) →
            let s = setting_at config.now terms.entry.now h in
            Agrees self.now.board (so_far s acts) → IsSetOfSent self.now.sent s acts →
            result ≡ refusals.wrong_to_grant s acts core thread }
    {
        let task = config.task_of(thread as usize);
        let books = wrong_to_book(config, &self.board, task).or(wrong_to_send(
            terms, &self.sent, thread,
        ));
        unless(!is_banned(&self.board, core), Why::Banned).or(books)
    }

    /// What is wrong with an action that fits the state, by its kind.
    fn wrong_to_make(&self, config: &Config, terms: &Terms, action: Action) -> Option<Why>
        requires table { IsTable config.now }
        requires ready { IsReady config.now self.now.board }
        requires names { NamesTable config.now action }
        ensures { (h : Begun) (acts : List Action) →
            let s = setting_at config.now terms.entry.now h in
            Stands self.now.board s acts → IsSetOfSent self.now.sent s acts →
            result ≡ refusals.wrong_to_make s acts action }
    {
        match action {
            Action::Free { core } => unless(is_left(&self.board, core), Why::NotLeft),
            Action::Revoke { core, .. } => self.wrong_to_revoke(config, terms, core),
            Action::Grant { core, thread, .. } => self.wrong_to_grant(config, terms, core, thread),
            Action::Unban { .. } | Action::Ban { .. } | Action::Cap { .. } => None,
        }
    }

    /// What is wrong with the next action.
    fn wrong_with(&self, config: &Config, terms: &Terms, action: Action) -> Option<Why>
        requires table { IsTable config.now }
        requires ready { IsReady config.now self.now.board }
        ensures names { IfNone result (NamesTable config.now action) }
        ensures few { IfNone result (self.now.made < MOST_ACTIONS) }
        ensures wrong { InsideOn config.now terms.entry.now self.now (λ s acts.
            result ≡ refusals.wrong_with s acts action) }
    {
        if self.made >= MOST_ACTIONS {
            return Some(Why::TooMany);
        }
        if !is_fit(config, &self.board, action) {
            return Some(Why::DoesNotFit);
        }
        let revoked = core_revoked_by(action);
        let made = self.wrong_to_make(config, terms, action);
        made.or(left_undone(config, &self.board, revoked))
    }

    /// Takes a permitted action.
    fn take(&mut self, config: &Config, action: Action)
        requires table { IsTable config.now }
        requires ready { IsReady config.now self.old.board }
        requires names { NamesTable config.now action }
        requires few { self.old.made < MOST_ACTIONS }
        ensures inside { (s : Setting) (acts : List Action) → IsInside self.old s acts →
            IsPermitted s acts action → IsInside self.new s (acts ++ action ∷ []) }
        ensures after { (s : Setting) (acts : List Action) → IsAfter self.old s acts →
            IsAfter self.new s (acts ++ action ∷ []) }
        ensures made { self.new.made ≡ self.old.made + 1 }
        ensures ready { IsReady config.now self.new.board }
    {
        note_sent(config, &self.board, &mut self.sent, action);
        self.board.apply(config, action);
        self.made += 1;
    }

    /// Takes these actions, each at its place, where each is permitted and the pass may end after
    /// them; else names the first that is not.
    pub fn take_each(
        &mut self,
        config: &Config,
        terms: &Terms,
        actions: &[Action],
    ) -> Result<(), Refused>
        requires table { IsTable config.now }
        requires ready { IsReady config.now self.old.board }
        ensures exact { InsideOn config.now terms.entry.now self.old (λ s acts.
            IsOk result ↔ MayEndWith s acts actions.now) }
        ensures inside { IsOk result → InsideOn config.now terms.entry.now self.old (λ s acts.
            IsInside self.new s (acts ++ actions.now)) }
        ensures after { IsOk result → (s : Setting) (acts : List Action) →
            IsAfter self.old s acts → IsAfter self.new s (acts ++ actions.now) }
        ensures follow { IsOk result → MayFollow config.now self.old.made actions.now }
        ensures made { IsOk result → self.new.made ≡ self.old.made + length actions.now }
        ensures first { IfErr result (λ refused. InsideOn config.now terms.entry.now self.old
            (λ s acts. IsFirstWrong s acts actions.now refused)) }
        ensures ready { IsReady config.now self.new.board }
    {
        for (place, action) in actions.iter().enumerate() {
            if let Some(why) = self.wrong_with(config, terms, *action) {
                return Err(Refused { place, why });
            }
            self.take(config, *action);
        }
        if let Some(why) = left_undone(config, &self.board, None) {
            let place = actions.len();
            return Err(Refused { place, why });
        }
        Ok(())
    }

    /// Takes these actions, which were permitted where another state like this one was tried.
    pub fn follow(&mut self, config: &Config, actions: &[Action])
        requires table { IsTable config.now }
        requires ready { IsReady config.now self.old.board }
        requires follow { MayFollow config.now self.old.made actions.now }
        ensures after { (s : Setting) (acts : List Action) → IsAfter self.old s acts →
            IsAfter self.new s (acts ++ actions.now) }
        ensures made { self.new.made ≡ self.old.made + length actions.now }
        ensures ready { IsReady config.now self.new.board }
    {
        for permitted in actions {
            self.take(config, *permitted);
        }
    }
}
