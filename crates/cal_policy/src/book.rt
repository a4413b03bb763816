//! A pass without looking back: a Book keeps the state after the history so far.

ghost use Rattle.std.specs.Prelude.{◌≡◌, ℕ, ◌<◌, ◌++◌, ◌∷◌, ◌↔◌, [], List, Some};
ghost use Rattle.std.specs.Prelude.{length, take, slice_get, IfOk, IsTrue};
ghost use Rattle.cal_machine.specs.Table.{Table, IsTable};
ghost use Rattle.cal_machine.specs.TableTasks.{threads_of_table};
ghost use Rattle.cal_policy.specs.declared.history.entry.PassEntry.{PassEntry};
ghost use Rattle.cal_policy.specs.History.{actions_of, looks_of};
ghost use Rattle.cal_policy.specs.Judgement.OpenInput.{judged_input};
ghost use Rattle.cal_policy.specs.Judgement.Judging.{judged, IsInput};
ghost use Rattle.cal_policy.specs.Setting.{setting};
ghost use Rattle.cal_policy.specs.Pass.{pass_of};
ghost use Rattle.cal_policy.specs.Policies.{AfterOwnOn, AfterOwnOpen, IsLegalBy, IsNextBy};
ghost use Rattle.cal_policy.specs.declared.policy.Policy.{Policy as PolicyOf};
ghost use Rattle.cal_policy.specs.declared.policy.Policy.TheVariants.{Caladan};
ghost use Rattle.cal_policy.specs.Board.{HasSizes, KeepsBefore};
ghost use Rattle.cal_policy.specs.State.{IsReady, IsStateAfter};
ghost use Rattle.cal_policy.specs.Book.{board_in, AfterLegalOn, AfterLegalOpen, IsSentBy};

use crate::board::Board;
use crate::board::holders::core_changed_by;
use crate::history::action::Action;
use crate::history::action_list::Actions;
use crate::history::input::Input;
use crate::history::look::Seen;
use crate::history::sending::command_for;
use crate::judgement::open_input::FoundLook;
use crate::judgement::open_pass::OpenPass;
use crate::pass::deciding::{decide, decide_noted};
use crate::policy::Policy;
use cal_machine::{Command, Config};
use cal_signal::Look;
use std::alloc::{AllocError, Global};

/// The state after the history so far: who has each core and since which command, whom it was
/// granted to last, bans, caps, and of each thread the commands sent to it and the records it
/// showed. It decides each pass from that alone, so a pass costs the work of that pass however long
/// the history is. Only opening a book takes memory, and `input`, which lists what is handed to it.
///
/// Every call is to be given the table that the book was opened for. What a book says holds of
/// every legal history with which it agrees.
#[derive(Drop)]
pub struct Book {
    policy: Policy,
    board: Box<Board>,
}

impl Book {
    /// The book of the empty history, of `Policy::Caladan`. Fails only when out of memory.
    pub fn open(alloc: Global, config: &Config) -> Result<Book, AllocError>
        ensures agrees { IfOk result (λ book. IsStateAfter (board_in book) []) }
        ensures of { IfOk result (λ book. IsReady config.now (board_in book)) }
        ensures policy { IfOk result (λ book. book.policy ≡ Caladan) }
    {
        Book::open_by(alloc, config, Policy::Caladan)
    }

    /// The book of the empty history, of this policy. Fails only when out of memory.
    pub fn open_by(alloc: Global, config: &Config, policy: Policy) -> Result<Book, AllocError>
        ensures agrees { IfOk result (λ book. IsStateAfter (board_in book) []) }
        ensures of { IfOk result (λ book. IsReady config.now (board_in book)) }
        ensures policy { IfOk result (λ book. book.policy ≡ policy) }
    {
        config.limits();
        let board = Box::new(alloc, Board::new())?;
        Ok(Book { policy, board })
    }

    /// The policy that decides its passes.
    pub fn policy(&self) -> Policy
        ensures { result ≡ self.now.policy }
    {
        self.policy
    }

    /// The judgement of a look at thread `k` after the history.
    pub fn judge(&self, config: &Config, k: usize, look: Look) -> Seen
        requires { k < threads_of_table config.now }
        ensures { (h : List PassEntry) → IsStateAfter (board_in self.now) h →
            result ≡ judged config.now.cores (actions_of h) k look }
    {
        self.board.judge(config, k, look)
    }

    /// The input of the next pass at this clock and bandwidth figure, from what was found of each
    /// thread, thread 0 first. Fails only when out of memory.
    pub fn input(
        &self,
        alloc: Global,
        config: &Config,
        now: u64,
        bandwidth: u64,
        found: &[FoundLook],
    ) -> Result<Input, AllocError>
        requires { length found.now ≡ threads_of_table config.now }
        ensures judged { IfOk result (λ input. (h : List PassEntry) →
            IsStateAfter (board_in self.now) h →
            input ≡ judged_input config.now h now bandwidth found.now) }
        ensures sizes { IfOk result (HasSizes config.now) }
    {
        self.board.input(alloc, config, now, bandwidth, found)
    }

    /// Whether the next pass may be given this input.
    pub fn fits(&self, config: &Config, input: &Input) -> bool
        ensures fits { (h : List PassEntry) → IsStateAfter (board_in self.now) h → IsTrue result ↔
            IsInput config.now h input.entry.now }
        ensures sizes { IsTrue result → HasSizes config.now input.entry.now }
    {
        self.board.fits(config, input)
    }

    /// The state that the history leaves.
    pub fn board(&self) -> &Board
        ensures agrees { (h : List PassEntry) → IsStateAfter (board_in self.now) h →
            IsStateAfter result.now h }
        ensures ready { (table : Table) → IsReady table (board_in self.now) →
            IsReady table result.now }
    {
        &self.board
    }

    /// What an action of the last pass sends, and to which thread: a grant sends Run, and a
    /// revocation sends Park to the thread of the core's last grant, in this pass or before. The
    /// other actions send nothing.
    ///
    /// The book is the one after the pass: what a pass revokes it grants to nobody any more.
    pub fn command_of(&self, action: Action) -> Option<(u8, Command)>
        ensures { (policy : PolicyOf) (table : Table) (h : List PassEntry) (entry : PassEntry) →
            IsTable table → IsLegalBy policy table (h ++ entry ∷ []) →
            IsStateAfter (board_in self.now) (h ++ entry ∷ []) →
            (i : ℕ) → slice_get entry.actions i ≡ Some action →
            IsSentBy table (actions_of h ++ take i entry.actions) action result }
    {
        let core = core_changed_by(action);
        command_for(action, self.board.holding.thread_granted(core))
    }

    /// Appends the actions of the next pass, on an input that fits, to an empty list, and takes the
    /// pass into the book.
    pub fn step(&mut self, config: &Config, input: &Input, out: &mut Actions)
        requires of { IsReady config.now (board_in self.old) }
        requires sizes { HasSizes config.now input.now }
        requires empty { out.old ≡ [] }
        ensures acts { self.old.policy ≡ Caladan →
            AfterLegalOn config.now self.old input.entry.now (λ h.
            out.new ≡ pass_of (setting config.now h input.entry.now)) }
        ensures agrees { AfterLegalOn config.now self.old input.entry.now (λ h.
            IsStateAfter (board_in self.new) (h ++ record {
              input = input.entry.now;
              actions = out.new;
            } ∷ [])) }
        // The same by the book's own policy.
        ensures own { AfterOwnOn config.now self.old input.entry.now (λ h.
            IsNextBy config.now self.old self.new h input.entry.now out.new) }
        // The misses of the records kept before this pass's looks are kept too.
        ensures before { AfterOwnOn config.now self.old input.entry.now (λ h.
            KeepsBefore self.new.board.value.keeping (looks_of h)) }
        ensures policy { self.new.policy ≡ self.old.policy }
        ensures of { IsReady config.now (board_in self.new) }
    {
        config.limits();
        let policy = self.policy;
        decide(config, policy, input, &mut self.board, out);
    }

    /// Appends the actions of the next pass, at this clock and bandwidth figure and on the looks
    /// that came in, one of each thread, to an empty list, and takes the pass into the book. It is
    /// `step` on the input that is made of these looks, with no list of looks made.
    #[inline(always)]
    pub fn pass(
        &mut self,
        config: &Config,
        now: u64,
        bandwidth: u64,
        looks: &OpenPass,
        out: &mut Actions,
    )
        requires of { IsReady config.now (board_in self.old) }
        requires all { looks.now.count ≡ threads_of_table config.now }
        requires empty { out.old ≡ [] }
        ensures acts { self.old.policy ≡ Caladan →
            AfterLegalOpen config.now self.old now bandwidth looks.entry.now (λ h input.
            out.new ≡ pass_of (setting config.now h input)) }
        ensures agrees { AfterLegalOpen config.now self.old now bandwidth looks.entry.now
            (λ h input. IsStateAfter (board_in self.new) (h ++ record {
              input = input;
              actions = out.new;
            } ∷ [])) }
        // The same by the book's own policy.
        ensures own { AfterOwnOpen config.now self.old now bandwidth looks.entry.now (λ h input.
            IsNextBy config.now self.old self.new h input out.new) }
        // The misses of the records kept before this pass's looks are kept too.
        ensures before { AfterOwnOpen config.now self.old now bandwidth looks.entry.now (λ h input.
            KeepsBefore self.new.board.value.keeping (looks_of h)) }
        ensures policy { self.new.policy ≡ self.old.policy }
        ensures of { IsReady config.now (board_in self.new) }
    {
        config.limits();
        let policy = self.policy;
        decide_noted(config, policy, now, bandwidth, looks, &mut self.board, out);
    }
}
